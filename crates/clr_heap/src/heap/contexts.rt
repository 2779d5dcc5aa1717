// The rests of the threads' contexts.
ghost use Rattle.std.specs.Prelude.{◌≡◌, ℕ, ◌+◌, ◌-◌, ◌<◌, ◌≤◌, ◌^◌, length, set, IsSome, None, option_map, slice_get};
ghost use Rattle.clr_types.specs.Segments.{flat_option, rest_of};
ghost use Rattle.clr_heap.specs.View.{rest_bounds};
ghost use Rattle.clr_heap.specs.Parts.{hole_from};

use super::Heap;
use super::rest::{hole_end_in, next_hole_in};
use clr_types::{SegKind, Span};

impl Heap {
    ghost use Rattle.clr_heap.specs.View.{frame, holes_of, rest_between};

    /// What is left of the context of a thread, 1 to 16, from its first address to one past its last: `None` where the
    /// thread has no context or nothing is left.
    pub fn hole(&self, thread: usize) -> Option<(u64, u64)>
        requires positive { 0 < thread }
        requires few { thread ≤ 16 }
        ensures { result ≡ option_map rest_bounds (rest_of (frame self.now) thread) }
    {
        hole_at(&self.rests, thread - 1)
    }

    /// Makes `[lo, hi)` what is left of the context of a thread, 1 to 16: nothing where the two are equal.
    /// The other threads' stay.
    pub fn set_hole(&mut self, thread: usize, lo: u64, hi: u64)
        requires positive { 0 < thread }
        requires few { thread ≤ 16 }
        requires order { lo ≤ hi }
        ensures { self.new ≡ record self.old { rests = set self.old.rests (thread - 1) (rest_between lo hi) } }
    {
        self.rests[thread - 1] = if lo == hi {
            None
        } else {
            Some(Span::between(lo, hi))
        };
    }

    /// The end of the hole of segment `k` that starts at `p`: `None` where none does.
    pub fn hole_end(&self, k: usize, p: u64) -> Option<u64>
        requires { k < length self.now.segments }
        ensures { result ≡ hole_from (holes_of self.now k) p }
    {
        if self.segments[k].kind == SegKind::Ephemeral {
            hole_end_in(&self.rests, p)
        } else {
            None
        }
    }

    /// Where the next hole of segment `k` that starts above `p` starts: `u64::MAX` where none does.
    pub fn next_hole(&self, k: usize, p: u64) -> u64
        requires { k < length self.now.segments }
        ensures none_before { (q : ℕ) → p < q → q < result → hole_from (holes_of self.now k) q ≡ None }
        ensures ahead { p < 2 ^ 64 - 1 → p < result }
        ensures starts { result < 2 ^ 64 - 1 → IsSome (hole_from (holes_of self.now k) result) }
    {
        if self.segments[k].kind == SegKind::Ephemeral {
            next_hole_in(&self.rests, p)
        } else {
            u64::MAX
        }
    }

    /// The end of the hole of segment `k` that starts at `place`: `None` where none does. A walk keeps `next_hole`, up
    /// to which none starts from its place on, so that none is looked for there.
    #[inline(always)]
    pub fn hole_here(&self, k: usize, place: u64, next_hole: &mut u64) -> Option<u64>
        requires in_range { k < length self.now.segments }
        requires clear { (q : ℕ) → place ≤ q → q < next_hole.old → hole_from (holes_of self.now k) q ≡ None }
        ensures hole { result ≡ hole_from (holes_of self.now k) place }
        ensures clear { (q : ℕ) → place ≤ q → q < next_hole.new → hole_from (holes_of self.now k) q ≡ None }
    {
        if place < *next_hole {
            return None;
        }
        let found = self.hole_end(k, place);
        if found.is_none() {
            *next_hole = self.next_hole(k, place);
        }
        found
    }
}

fn hole_at(rests: &Vec<Option<Span>>, i: usize) -> Option<(u64, u64)>
    requires { i < length rests.now.items }
    ensures { result ≡ option_map rest_bounds (flat_option (slice_get rests.now.items i)) }
{
    let rest = rests[i]?;
    Some((rest.place(), rest.end()))
}
