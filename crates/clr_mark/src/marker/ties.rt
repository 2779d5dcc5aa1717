// Dependent handles: the second object of each stays where its primary does.
ghost use Rattle.std.specs.Prelude.{◌≡◌, ℕ, ◌<◌, ◌≤◌, ◌↔◌, ◌⊎◌, true, false, [], None};
ghost use Rattle.clr_heap.specs.Memories.{HasWord};
ghost use Rattle.clr_model.specs.Reach.{Reach};
ghost use Rattle.clr_view.specs.Marks.{Marked};
ghost use Rattle.clr_view.specs.World.{HandlesStand, HandleStands};
ghost use Rattle.clr_mark.specs.HandlePasses.{NoneIsBehind};
ghost use Rattle.clr_mark.specs.Marks.{is_condemned_place, IsRemarked, LeadsTo};
ghost use Rattle.clr_mark.specs.Markings.{HasReached, unmarked_count};
ghost use Rattle.clr_mark.specs.Ties.{AreTiesFollowed, Draws, IsTiedToOld};
ghost use Rattle.clr_mark.specs.Ties as ties;
ghost use Rattle.clr_mark.specs.Waiting.{IsGray, IsIdle};

use super::Marker;
use super::ahead::Ahead;
use clr_handles::{Handles, MOST_HANDLES};
use clr_heap::Heap;
use clr_types::{Handle, Kind, Types};

impl Marker {
    /// Marks all that the marked objects reach over condemned ones, by slots and by dependent handles: the second of
    /// such a handle is reached where its primary is, and a primary that isn't condemned stays in any case. Nothing
    /// waits then.
    ///
    /// All else stays.
    pub fn drain(&mut self, heap: &mut Heap, types: &Types, handles: &Handles)
        requires gray { IsGray types.now heap.old self.old }
        requires handles { HandlesStand types.now heap.old handles.now }
        ensures marker { self.new ≡ record self.old { stack = []; ranges = [] } }
        ensures gray { IsGray types.now heap.new self.new }
        ensures words { IsRemarked types.now heap.old heap.new }
        ensures marked { (x : ℕ) → Marked types.now heap.new x
            ↔ Reach (Draws types.now heap.old handles.now self.old.oldest)
            (λ y. Marked types.now heap.old y ⊎ IsTiedToOld types.now heap.old handles.now self.old.oldest y) x }
    {
        self.drain_slots(heap, types);
        // Passes in both directions by turns: a chain whose numbers rise or fall takes two or three. What is open after
        // two that marked something is listed. Passes go on only where there is no room for the list.
        while self.follow_ties(heap, types, handles, Ahead::From(0))
            && self.follow_ties(heap, types, handles, Ahead::Below(MOST_HANDLES as u64))
        {
            if self.drain_listed(heap, types, handles) {
                return;
            }
        }
    }

    // Follows each of the handles ahead once, and answers whether that marked anything. Then what is marked now may be
    // a primary whose handle was passed already.
    fn follow_ties(
        &mut self,
        heap: &mut Heap,
        types: &Types,
        handles: &Handles,
        mut ahead: Ahead,
    ) -> bool
        requires gray { IsGray types.now heap.old self.old }
        requires idle { IsIdle self.old }
        requires handles { HandlesStand types.now heap.old handles.now }
        requires all { NoneIsBehind ahead }
        ensures marker { self.new ≡ self.old }
        ensures gray { IsGray types.now heap.new self.new }
        ensures reached { HasReached types.now (Draws types.now heap.old handles.now self.old.oldest)
            (λ y. Marked types.now heap.old y ⊎ IsTiedToOld types.now heap.old handles.now self.old.oldest y)
            heap.old heap.new }
        ensures fewer { result ≡ true → unmarked_count types.now heap.new < unmarked_count types.now heap.old }
        ensures followed { result ≡ false → AreTiesFollowed types.now heap.new handles.now self.old.oldest }
    {
        if !handles.has_kind(Kind::Dependent) {
            return false;
        }
        let low = self.lowest_condemned(heap);
        let mut marked = false;
        while let Some(handle) = ahead.next(handles, low) {
            if self.follow_tie(heap, types, &handle) {
                marked = true;
            }
        }
        marked
    }

    // Marks the second of a handle where that is due, and what it reaches by slots. It answers whether it was.
    fn follow_tie(&mut self, heap: &mut Heap, types: &Types, handle: &Handle) -> bool
        requires gray { IsGray types.now heap.old self.old }
        requires idle { IsIdle self.old }
        requires handle { HandleStands types.now heap.old handle.now }
        ensures due { result ≡ ties.is_tie_due heap.old self.old.oldest handle.now }
        ensures marker { self.new ≡ self.old }
        ensures gray { IsGray types.now heap.new self.new }
        ensures words { IsRemarked types.now heap.old heap.new }
        ensures same { result ≡ false → heap.new ≡ heap.old }
        ensures marked { result ≡ true → (x : ℕ) → Marked types.now heap.new x
            ↔ Reach (LeadsTo types.now heap.old self.old.oldest)
            (λ y. Marked types.now heap.old y ⊎ (y ≡ handle.now.second)) x }
    {
        if !self.is_tie_due(heap, handle) {
            return false;
        }
        self.root(heap, types, handle.second);
        self.drain_slots(heap, types);
        true
    }

    // Whether the second of a handle is still to be marked: it is condemned, and the primary stays.
    fn is_tie_due(&self, heap: &Heap, handle: &Handle) -> bool
        requires { 0 < handle.now.second → HasWord heap.now.memories handle.now.target
            × HasWord heap.now.memories handle.now.second }
        ensures { result ≡ ties.is_tie_due heap.now self.now.oldest handle.now }
    {
        handle.kind.is_dependent()
            && handle.second != 0
            && self.is_new(heap, handle.second)
            && !self.is_new(heap, handle.target)
    }
}
