// A list of what dependent handles tie, by their primaries.
ghost use Rattle.std.specs.Prelude.{◌≡◌, ℕ, ◌<◌, ◌≤◌, true, get_or, length};
ghost use Rattle.std.specs.List.Sorted.{IsNonDecreasingBy};
ghost use Rattle.clr_heap.specs.Memories.{HasWord};
ghost use Rattle.clr_heap.specs.View.{IsHeap};
ghost use Rattle.clr_view.specs.View.{IsHeld};
ghost use Rattle.clr_view.specs.World.{HandlesStand};
ghost use Rattle.clr_mark.specs.TieLists.{ListsOpen, with_open};
ghost use Rattle.clr_mark.specs.TieLists as lists;
ghost use Rattle.clr_mark.specs.declared.marker.listed.Tie.{Tie as Row};

use super::Marker;
use super::ahead::Ahead;
use crate::NoMemory;
use clr_handles::{Handles, MOST_HANDLES};
use clr_heap::Heap;
use clr_types::{Handle, Types};

// What a dependent handle ties: the place of its second object to that of its primary.
#[derive(Clone, Copy)]
pub(crate) struct Tie {
    pub(crate) primary: u64,
    pub(crate) second: u64,
}

impl Marker {
    /// Takes memory, so that what `n` dependent handles tie can be listed in a marking. Where there is none, all is as
    /// it was: a marking finds the same objects then, and may look at each handle many times.
    pub fn reserve_ties(&mut self, n: usize) -> Result<(), NoMemory>
        ensures { self.new ≡ self.old }
    {
        if let Some(ties) = self.ties.as_mut() {
            if ties.capacity() < n {
                let twice = ties.capacity().saturating_mul(2).min(MOST_HANDLES);
                ties.clear();
                ties.reserve(n.max(twice))?;
            }
        }
        Ok(())
    }

    // Lists what dependent handles tie and isn't marked yet, by rising places of the primaries. It answers whether
    // there was room for it.
    pub(super) fn list_ties(
        &self,
        heap: &Heap,
        types: &Types,
        handles: &Handles,
        ties: &mut Vec<Tie>,
    ) -> bool
        requires heap { IsHeap heap.now }
        requires held { IsHeld types.now heap.now }
        requires handles { HandlesStand types.now heap.now handles.now }
        ensures listed { result ≡ true → ListsOpen heap.now handles.now self.now.oldest ties.new.items }
        ensures rise { result ≡ true → IsNonDecreasingBy (λ (t : Row). t.primary) ties.new.items }
    {
        if !self.list_open(heap, types, handles, ties) {
            return false;
        }
        ties.sort_unstable_by_key(|tie| tie.primary);
        true
    }

    // Lists what dependent handles tie and isn't marked yet, by the numbers of the handles. It answers whether there was
    // room for it.
    fn list_open(&self, heap: &Heap, types: &Types, handles: &Handles, ties: &mut Vec<Tie>) -> bool
        requires heap { IsHeap heap.now }
        requires held { IsHeld types.now heap.now }
        requires handles { HandlesStand types.now heap.now handles.now }
        ensures { result ≡ true → ListsOpen heap.now handles.now self.now.oldest ties.new.items }
    {
        let _ = types;
        ties.clear();
        let low = self.lowest_condemned(heap);
        let mut ahead = Ahead::From(0);
        while let Some(handle) = ahead.next(handles, low) {
            if !self.list_tie(heap, &handle, ties) {
                return false;
            }
        }
        true
    }

    // Lists what a handle ties, where it is dependent and that isn't marked yet. It answers whether there was room.
    fn list_tie(&self, heap: &Heap, handle: &Handle, ties: &mut Vec<Tie>) -> bool
        requires { 0 < handle.now.second → HasWord heap.now.memories handle.now.second }
        ensures { result ≡ true → ties.new.items ≡ with_open heap.now self.now.oldest ties.old.items handle.now }
    {
        if !self.is_open(heap, handle) {
            return true;
        }
        if ties.len() >= ties.capacity() {
            return false;
        }
        ties.push_reserved(Tie {
            primary: handle.target,
            second: handle.second,
        });
        true
    }

    // Whether a handle is dependent, and a mark on its second object would be new.
    fn is_open(&self, heap: &Heap, handle: &Handle) -> bool
        requires { 0 < handle.now.second → HasWord heap.now.memories handle.now.second }
        ensures { result ≡ lists.is_open heap.now self.now.oldest handle.now }
    {
        handle.kind.is_dependent() && handle.second != 0 && self.is_new(heap, handle.second)
    }
}

// The index of the first tie to `primary` or to a higher place.
pub(super) fn first_tie(ties: &[Tie], primary: u64) -> usize
    requires { IsNonDecreasingBy (λ (t : Row). t.primary) ties.now }
    ensures within { result ≤ length ties.now }
    ensures below { (i : ℕ) (d : Row) → i < result → (get_or ties.now i d).primary < primary }
    ensures above { (i : ℕ) (d : Row) → result ≤ i → i < length ties.now → primary ≤ (get_or ties.now i d).primary }
{
    ties.partition_point(|tie| tie.primary < primary)
}
