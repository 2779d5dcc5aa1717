//! The line that collects, and the collections that it and allocations make.
ghost use Rattle.std.specs.Prelude.{◌≡◌, ◌+◌, ◌≤◌, ◌==◌, IfErr, IfOk, if◌then◌else◌, length, MatchBool};
ghost use Rattle.std.specs.Prelude.{None, Some, [], false};
ghost use Rattle.clr_heap.specs.View.{no_rests};
ghost use Rattle.clr_model.specs.Collection.{Collects};
ghost use Rattle.clr_model.specs.Laws.{IsUsual};
ghost use Rattle.clr_model.specs.Lookups.{lowest_in_step};
ghost use Rattle.clr_model.specs.Machine.{Machine};
ghost use Rattle.clr_model.specs.Picture.{picture};
ghost use Rattle.clr_runtime.specs.RuntimeView.{IsRuntime, seen};
ghost use Rattle.clr_runtime.specs.Shown.{none_running};
ghost use Rattle.clr_runtime.specs.Slides.{CountsCollection, CountsMoves};

use crate::parts::Parts;
use crate::runtime::Runtime;
use clr_bgmark::Background;
use clr_collect::collect;
use clr_compact::Slides;
use clr_model::{Collected, How, Refusal};

impl Runtime {
    ghost use Rattle.clr_model.specs.Instructions.{collect_heap};
    ghost use Rattle.clr_model.specs.Run.{Follows};
    ghost use Rattle.clr_runtime.specs.Outcomes.{collected_outcome};

    /// Collects generation `g`, 0 to 2, and all younger ones, as `how` says: by a sweep, by a compaction, by what the
    /// option `compact` decides, or by a fit, which is for generation 1 alone. Gives how many of these objects were
    /// kept and how many freed, and the bytes that went to generations 1 and 2.
    ///
    /// The contexts of all threads are given up. Exactly the objects stay that older objects, locals, strong and
    /// pinned handles, the f-reachable queue and woken entries reach, by slots and by dependent handles. A sweep
    /// leaves them where they are, and each is one generation older, up to 2; a compaction takes those of the small
    /// heap down to where they fit, but for what pinned handles name. `How::Fit` first puts those of generation 1 that
    /// touch, together, to the front of the lowest free item of generation 2 of the small heap in which they then fit,
    /// where there is one, and compacts the others. Entries of objects that only finalisation would reach are woken,
    /// or dropped where the finaliser is suppressed, and weak and dependent handles lose what goes.
    ///
    /// It is refused for an unknown thread, with `Blocked` where another thread holds all others and this one isn't in
    /// mid-step, with `MidStep` where the thread is in mid-step itself, and with `Wait` for the lowest other thread in
    /// mid-step, in this order; nothing has changed then. It takes no memory. `slides` counts a compaction, also that
    /// behind a fit, and each byte that it moves, and no sweep.
    pub fn collect(&mut self, t: u64, g: u8, how: How) -> Result<Collected, Refusal>
        requires generation { g ≤ 2 }
        requires usual { IsUsual g how }
        ensures follows { Follows self.old.machine (collect_heap t g how) (collected_outcome result) self.new.machine }
        ensures counted { IfOk result (λ c. CountsCollection c.compacted self.old.slides self.new.slides) }
        ensures moved { IfOk result (λ c. CountsMoves self.old.machine g how c self.new.machine
            self.old.slides self.new.slides) }
        ensures refused { IfErr result (λ _. self.new ≡ self.old) }
        ensures stack { self.new.stack ≡ self.old.stack }
    {
        if let Some(refusal) = self.refused_thread(t) {
            return Err(refusal);
        }
        if let Err(k) = self.parts.safe.all_safe() {
            return Err(Refusal::Wait(k as u32));
        }
        Ok(collect_parts(&mut self.parts, g, how))
    }

    /// The count of compactions and of the bytes that they moved, together. Only a compaction in the heap's own gaps
    /// raises it, so a collection that answers that it compacted did so by one.
    pub fn slides(&self) -> &Slides
        ensures { result.now ≡ self.now.slides }
    {
        &self.parts.collector.slides
    }
}

// Collects generation `g` and all younger ones, as `how` says. No thread is in mid-step, and none has a context
// afterwards. The finalisation queue still has room for as many entries. It takes no memory: no queue has room for
// more than it had room for, nor has the marker's stack. One of all generations ends a background collection that
// runs. The indexes of free items of large and of pinned segments are dropped, and after a compaction that of young
// ones; each is made anew where room is next wanted there.
pub(crate) fn collect_parts(parts: &mut Parts, g: u8, how: How) -> Collected
    requires generation { g ≤ 2 }
    requires usual { IsUsual g how }
    requires runtime { IsRuntime parts.old }
    requires idle { lowest_in_step (seen parts.old) ≡ None }
    ensures collected { (after : Machine) × Collects (seen parts.old) g how result after
        × (seen parts.new ≡ picture after) }
    ensures no_contexts { parts.new.space.heap.rests ≡ no_rests }
    ensures runtime { IsRuntime parts.new }
    ensures slides { CountsCollection result.compacted parts.old.collector.slides parts.new.collector.slides }
    ensures moved { CountsMoves (seen parts.old) g how result (seen parts.new) parts.old.collector.slides
        parts.new.collector.slides }
    ensures spare { parts.old.roots.finals.spare ≤ parts.new.roots.finals.spare }
    ensures options { parts.new.options ≡ parts.old.options }
    ensures none_added { parts.new.roots.finals.spare + length parts.new.roots.finals.entries
        ≤ parts.old.roots.finals.spare + length parts.old.roots.finals.entries }
    ensures pins_room { parts.new.collector.pins.spare ≡ parts.old.collector.pins.spare }
    ensures stack { parts.new.collector.marker.capacity ≡ parts.old.collector.marker.capacity }
    ensures index_after { MatchBool result.compacted (parts.new.collector.young ≡ None)
        (parts.new.collector.young ≡ Some []) }
    ensures large_index { parts.new.large ≡ None }
    ensures pinned_index { parts.new.pinned ≡ None }
    ensures types { parts.new.types ≡ parts.old.types }
    ensures safe { parts.new.safe ≡ parts.old.safe }
{
    let collected = collect(
        &parts.types,
        &mut parts.space,
        &mut parts.roots,
        &mut parts.collector,
        parts.options.compact,
        g,
        how,
    );
    stop_after(&mut parts.background, g);
    parts.sums = parts
        .sums
        .collected(g, collected.promoted1, collected.promoted2);
    parts.large.lose();
    parts.pinned.lose();
    collected
}

// A collection of all generations ends a background collection that runs.
fn stop_after(background: &mut Background, g: u8)
    ensures { background.new ≡ (if g == 2 then none_running else background.old) }
{
    if g == 2 {
        background.stop();
    }
}
