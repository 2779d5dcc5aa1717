//! The lines of a background collection, a full one whose marking is spread over lines: its first pause, steps of the
//! marker, and its last pause.
ghost use Rattle.std.specs.Prelude.{◌≡◌, ◌≤◌, OnErr, OnOk, length, None, Some, false, true};
ghost use Rattle.clr_model.specs.Background.{IsBegun, ScansUpTo};
ghost use Rattle.clr_model.specs.Collection.{EndsBackground};
ghost use Rattle.clr_model.specs.Lookups.{lowest_in_step};
ghost use Rattle.clr_model.specs.Machine.{Machine, Marking};
ghost use Rattle.clr_model.specs.Picture.{picture};
ghost use Rattle.clr_runtime.specs.RuntimeView.{IsRuntime, seen};

use crate::NoMemory;
use crate::parts::Parts;
use crate::runtime::Runtime;
use clr_bgmark::Progress;
use clr_collect::end_background;
use clr_model::{Collected, Refusal};

impl Runtime {
    ghost use Rattle.clr_model.specs.Instructions.{begin_background, end_background, step_background};
    ghost use Rattle.clr_model.specs.Run.{Follows};
    ghost use Rattle.clr_runtime.specs.Outcomes.{collected_outcome, done_outcome, scanned_outcome};

    /// The first pause of a background collection: takes all objects of generation 2. Those that locals, strong and
    /// pinned handles or the f-reachable queue name are gray, and the others white. Nothing else changes.
    ///
    /// It is refused for an unknown thread, with `Blocked` where another thread holds all others and this one isn't in
    /// mid-step, with `MidStep` where the thread is in mid-step itself, with `BackgroundRunning` where one runs, with
    /// `Wait` for the lowest other thread in mid-step, and with `NoMemory` where there is no memory for its bits, in
    /// this order. No other line of a background collection takes memory.
    pub fn begin_background(&mut self, t: u64) -> Result<(), Refusal>
        ensures follows { Follows self.old.machine (begin_background t) (done_outcome result) self.new.machine }
        ensures others { self.new ≡ record self.old { machine = self.new.machine } }
    {
        if let Some(refusal) = self.refused_thread(t) {
            return Err(refusal);
        }
        if self.parts.background.running() {
            return Err(Refusal::BackgroundRunning);
        }
        if let Err(k) = self.parts.safe.all_safe() {
            return Err(Refusal::Wait(k as u32));
        }
        let Ok(()) = begin_marking(&mut self.parts) else {
            return Err(Refusal::NoMemory);
        };
        Ok(())
    }

    /// Scans gray objects, `n` at most, one after another, and all of them unless so many were: the one with the lowest
    /// address then becomes black, and each white object that its slots name becomes gray. Gives how many were scanned,
    /// and how many are gray then. No thread is asked, and none waited for.
    ///
    /// It is refused with `NoBackground` where no background collection runs.
    pub fn step_background(&mut self, n: u64) -> Result<Progress, Refusal>
        ensures follows { Follows self.old.machine (step_background n) (scanned_outcome result) self.new.machine }
        ensures others { self.new ≡ record self.old { machine = self.new.machine } }
    {
        if !self.parts.background.running() {
            return Err(Refusal::NoBackground);
        }
        Ok(scan_gray(&mut self.parts, n))
    }

    /// The last pause: a sweep of all generations that keeps what a `collect` would keep, and besides what gray and
    /// black objects reach. None runs afterwards. Gives what `collect` gives.
    ///
    /// It is refused for an unknown thread, with `Blocked` where another thread holds all others and this one isn't in
    /// mid-step, with `MidStep` where the thread is in mid-step itself, with `NoBackground` where none runs, and with
    /// `Wait` for the lowest other thread in mid-step, in this order. It takes no memory, and whether the next full
    /// collection slides the large heap stays as it is.
    pub fn end_background(&mut self, t: u64) -> Result<Collected, Refusal>
        ensures follows { Follows self.old.machine (end_background t) (collected_outcome result) self.new.machine }
        ensures others { self.new ≡ record self.old { machine = self.new.machine } }
    {
        if let Some(refusal) = self.refused_thread(t) {
            return Err(refusal);
        }
        if !self.parts.background.running() {
            return Err(Refusal::NoBackground);
        }
        if let Err(k) = self.parts.safe.all_safe() {
            return Err(Refusal::Wait(k as u32));
        }
        Ok(end_marking(&mut self.parts))
    }
}

// The first pause, where none runs and no thread is in mid-step. Nothing that is seen changes where there is no memory
// for it.
fn begin_marking(parts: &mut Parts) -> Result<(), NoMemory>
    requires runtime { IsRuntime parts.old }
    requires none { (seen parts.old).background ≡ None }
    ensures begun { OnOk result ((marking : Marking) × IsBegun (seen parts.old) marking
        × (seen parts.new ≡ record (seen parts.old) { background = Some marking })) }
    ensures err { OnErr result (seen parts.new ≡ seen parts.old) }
    ensures runtime { IsRuntime parts.new }
    ensures collector { parts.new.collector ≡ parts.old.collector }
{
    parts.background.begin(
        &parts.space.heap,
        &parts.types,
        &parts.roots.handles,
        &parts.roots.locals,
        parts.roots.finals.ready(),
    )
}

// Scans so many gray objects at most, where a background collection runs.
fn scan_gray(parts: &mut Parts, n: u64) -> Progress
    requires runtime { IsRuntime parts.old }
    requires running { parts.old.background.running ≡ true }
    ensures scans { (old new : Marking) × ((seen parts.old).background ≡ Some old)
        × ScansUpTo (seen parts.old) n old result.scanned new × (result.gray ≡ length new.gray)
        × (seen parts.new ≡ record (seen parts.old) { background = Some new }) }
    ensures runtime { IsRuntime parts.new }
    ensures collector { parts.new.collector ≡ parts.old.collector }
{
    parts.background.step(&parts.space.heap, &parts.types, n)
}

// The last pause, where a background collection runs and no thread is in mid-step.
fn end_marking(parts: &mut Parts) -> Collected
    requires runtime { IsRuntime parts.old }
    requires idle { lowest_in_step (seen parts.old) ≡ None }
    requires running { parts.old.background.running ≡ true }
    ensures ended { (marking : Marking) × ((seen parts.old).background ≡ Some marking)
        × (after : Machine) × EndsBackground (seen parts.old) marking result after × (seen parts.new ≡ picture after) }
    ensures runtime { IsRuntime parts.new }
    ensures slides { parts.new.collector.slides ≡ parts.old.collector.slides }
    ensures stack { parts.new.collector.marker.capacity ≡ parts.old.collector.marker.capacity }
{
    let collected = end_background(
        &parts.types,
        &mut parts.space,
        &mut parts.roots,
        &mut parts.collector,
        &mut parts.background,
    );
    parts.sums = parts
        .sums
        .collected(2, collected.promoted1, collected.promoted2);
    parts.large.lose();
    parts.pinned.lose();
    collected
}
