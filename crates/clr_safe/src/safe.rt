//! What all threads have begun, and who holds them.
ghost use Rattle.std.specs.Prelude.{◌≡◌, ◌<◌, ◌≤◌, ◌-◌, ◌↔◌, ℕ, Err, IfErr, IsTrue, None, Ok, OnOk, Some, set, true};
ghost use Rattle.clr_model.specs.Lookups.{is_step, is_thread, lowest_step_from};
ghost use Rattle.clr_safe.specs.Threads.{are_idle, are_quiet, begun_by, births_owed, no_threads, step_by, steps_of};

use crate::begun::Begun;
use std::marker::Model;

/// What each of 16 threads, numbered from 1, has begun and not finished, and the thread that holds all others
/// suspended, if one does.
#[derive(Drop)]
pub struct Safe {
    begun: [Begun; 16],
    holder: Option<u64>,
    // Whether nothing is begun, and no thread holds the others.
    quiet: bool,
}

impl Model for Safe {
    ghost use Rattle.clr_safe.specs.Threads.{IsSafe, Threads};

    ghost Value = { Threads };

    ghost view = { λ s. record { begun = s.begun; holder = s.holder } };

    ghost invariant = { λ s. IsSafe s.begun s.holder s.quiet };
}

impl Safe {
    /// No thread has begun anything, and none holds the others.
    pub fn new() -> Safe
        ensures { result ≡ no_threads }
    {
        Safe {
            begun: [Begun::Nothing; 16],
            holder: None,
            quiet: true,
        }
    }

    /// Whether no thread has begun anything, and none holds the others.
    #[inline]
    pub fn is_quiet(&self) -> bool
        ensures { IsTrue result ↔ (self.now ≡ no_threads) }
    {
        self.quiet
    }

    /// What a thread has begun.
    #[inline]
    pub fn begun(&self, t: u64) -> Begun
        requires { is_thread t ≡ true }
        ensures { result ≡ begun_by self.now t }
    {
        self.begun[(t - 1) as usize]
    }

    /// Whether a thread has begun something.
    #[inline]
    pub fn in_step(&self, t: u64) -> bool
        requires { is_thread t ≡ true }
        ensures { result ≡ is_step (step_by (begun_by self.now t)) }
    {
        self.begun[(t - 1) as usize].is_step()
    }

    /// A thread begins something, in the place of what it had begun before.
    pub fn begin(&mut self, t: u64, what: Begun)
        requires { is_thread t ≡ true }
        ensures { self.new ≡ record self.old { begun = set self.old.begun (t - 1) what } }
    {
        self.begun[(t - 1) as usize] = what;
        self.quiet = !what.is_step() && are_quiet(&self.begun, self.holder);
    }

    /// A thread has finished what it had begun.
    pub fn end(&mut self, t: u64)
        requires { is_thread t ≡ true }
        ensures { self.new ≡ record self.old { begun = set self.old.begun (t - 1) Begun.Nothing } }
    {
        self.begun[(t - 1) as usize] = Begun::Nothing;
        self.quiet = are_quiet(&self.begun, self.holder);
    }

    /// The thread that holds all others, if one does.
    #[inline]
    pub fn holder(&self) -> Option<u64>
        ensures { result ≡ self.now.holder }
    {
        self.holder
    }

    /// A thread holds all others from now on.
    pub fn suspend(&mut self, t: u64)
        ensures { self.new ≡ record self.old { holder = Some t } }
    {
        self.holder = Some(t);
        self.quiet = false;
    }

    /// No thread holds the others any more.
    pub fn resume(&mut self)
        ensures { self.new ≡ record self.old { holder = None } }
    {
        self.holder = None;
        self.quiet = are_quiet(&self.begun, self.holder);
    }

    /// Ok exactly where no thread has begun anything, and else the lowest thread that has.
    pub fn all_safe(&self) -> Result<(), u64>
        ensures safe { OnOk result (lowest_step_from 1 (steps_of self.now) ≡ None) }
        ensures busy { IfErr result (λ t. lowest_step_from 1 (steps_of self.now) ≡ Some t) }
        ensures thread { IfErr result (λ t. is_thread t ≡ true) }
    {
        for (i, what) in self.begun.iter().enumerate() {
            if what.is_step() {
                return Err(i as u64 + 1);
            }
        }
        Ok(())
    }

    /// How many of the objects that threads have begun are to have a finalisation entry.
    #[inline]
    pub fn births_owed(&self) -> usize
        ensures count { result ≡ births_owed self.now }
        ensures few { result ≤ 16 }
    {
        if self.quiet {
            return 0;
        }
        self.count_owed()
    }

    // How many of the objects that threads have begun are to have a finalisation entry, by a look at each thread.
    #[inline(never)]
    fn count_owed(&self) -> usize
        ensures count { result ≡ births_owed self.now }
        ensures few { result ≤ 16 }
    {
        let mut owed = 0;
        for what in &self.begun {
            if let Begun::Birth {
                finalizer: true,
                ..
            } = what
            {
                owed += 1;
            }
        }
        owed
    }
}

// Whether nothing is begun, and no thread holds the others.
fn are_quiet(begun: &[Begun; 16], holder: Option<u64>) -> bool
    ensures { result ≡ are_quiet begun.now holder }
{
    holder.is_none() && are_idle(begun)
}

// Whether no thread has begun anything.
fn are_idle(begun: &[Begun]) -> bool
    ensures { result ≡ are_idle begun.now }
{
    begun.iter().all(|what| !what.is_step())
}
