//! The checks that lines share, in their order.
ghost use Rattle.std.specs.Prelude.{◌≡◌, ◌<◌, ◌∷◌, [], None, true};
ghost use Rattle.clr_model.specs.Lookups.{is_thread, local_index};

use crate::runtime::{LOCALS_OF_A_THREAD, Runtime};
use clr_model::Refusal;

/// There are so many threads, numbered from 1.
const THREADS: u64 = 16;

impl Runtime {
    ghost use Rattle.clr_runtime.specs.Checks.{names_refusal, thread_refusal};

    // Why a line of a thread that finishes no step is refused before it looks at anything. A thread in mid-step may
    // only finish that, whoever holds the others.
    #[inline(always)]
    pub(crate) fn refused_thread(&self, t: u64) -> Option<Refusal>
        ensures value { result ≡ thread_refusal self.now.machine t }
        ensures known { result ≡ None → is_thread t ≡ true }
    {
        if !is_known(t) {
            return Some(Refusal::UnknownThread);
        }
        if self.parts.safe.is_quiet() {
            return None;
        }
        self.refused_beside(t)
    }

    // Why a line of a thread that there is, and that finishes no step, is refused before it looks at anything, where a
    // thread has begun something or holds the others.
    #[inline(never)]
    fn refused_beside(&self, t: u64) -> Option<Refusal>
        requires { is_thread t ≡ true }
        ensures { result ≡ thread_refusal self.now.machine t }
    {
        if self.parts.safe.in_step(t) {
            return Some(Refusal::MidStep);
        }
        match self.parts.safe.holder() {
            Some(h) if h != t => Some(Refusal::Blocked(h as u32)),
            _ => None,
        }
    }

    // Why a line of a thread that names these two locals is refused before it looks at any object.
    #[inline(always)]
    pub(crate) fn refused_names(&self, t: u64, first: u64, second: u64) -> Option<Refusal>
        ensures value { result ≡ names_refusal self.now.machine t (first ∷ second ∷ []) }
        ensures known { result ≡ None → is_thread t ≡ true }
        ensures locals { result ≡ None → (first < 64) × (second < 64) }
    {
        let refusal = self.refused_thread(t);
        if refusal.is_some() {
            return refusal;
        }
        if first >= LOCALS_OF_A_THREAD || second >= LOCALS_OF_A_THREAD {
            return Some(Refusal::NoSlot);
        }
        None
    }
}

// Whether there is a thread of this number.
#[inline]
pub(crate) fn is_known(t: u64) -> bool
    ensures { result ≡ is_thread t }
{
    1 <= t && t <= THREADS
}

/// Where local `k` of a thread stands among all locals.
#[inline]
pub fn index_of(t: u64, k: u64) -> usize
    requires thread { is_thread t ≡ true }
    requires local { k < 64 }
    ensures index { result ≡ local_index t k }
    ensures within { result < 1024 }
{
    ((t - 1) * LOCALS_OF_A_THREAD + k) as usize
}
