// Marking by slots and by a list of ties: what a tie names is one thing more to which its primary leads.
ghost use Rattle.std.specs.Prelude.{◌≡◌, ℕ, ◌↔◌, ◌⊎◌, true, false, [], None};
ghost use Rattle.clr_types.specs.Rising.{IsIn};
ghost use Rattle.clr_model.specs.Reach.{Reach};
ghost use Rattle.clr_view.specs.Marks.{Marked};
ghost use Rattle.clr_view.specs.World.{HandlesStand};
ghost use Rattle.clr_mark.specs.Marks.{is_condemned_place, IsClosed, IsRemarked};
ghost use Rattle.clr_mark.specs.Markings.{HasGrayedBy, HasReached};
ghost use Rattle.clr_mark.specs.TieLists.{AreTies, IsTied, IsTiedToOldBy, LeadsBy};
ghost use Rattle.clr_mark.specs.Ties.{AreTiesFollowed, Draws, IsTiedToOld};
ghost use Rattle.clr_mark.specs.Waiting.{IsGray, IsGrayBy, IsIdle};

use super::Marker;
use super::listed::{Tie, first_tie};
use clr_handles::Handles;
use clr_heap::Heap;
use clr_types::Types;

impl Marker {
    // Marks all that is reached by slots and by dependent handles, where there is room for a list of what these tie. It
    // answers whether there was; nothing is marked where there wasn't.
    pub(super) fn drain_listed(&mut self, heap: &mut Heap, types: &Types, handles: &Handles) -> bool
        requires gray { IsGray types.now heap.old self.old }
        requires idle { IsIdle self.old }
        requires handles { HandlesStand types.now heap.old handles.now }
        ensures marker { self.new ≡ self.old }
        ensures gray { IsGray types.now heap.new self.new }
        ensures reached { HasReached types.now (Draws types.now heap.old handles.now self.old.oldest)
            (λ y. Marked types.now heap.old y ⊎ IsTiedToOld types.now heap.old handles.now self.old.oldest y)
            heap.old heap.new }
        ensures followed { result ≡ true → AreTiesFollowed types.now heap.new handles.now self.old.oldest }
    {
        let Some(mut ties) = self.ties.take() else {
            return false;
        };
        let listed = self.drain_with(heap, types, handles, &mut ties);
        self.ties = Some(ties);
        listed
    }

    // Marks all that is reached by slots and by dependent handles, where this list has room for what these tie. It
    // answers whether it had.
    fn drain_with(
        &mut self,
        heap: &mut Heap,
        types: &Types,
        handles: &Handles,
        ties: &mut Vec<Tie>,
    ) -> bool
        requires gray { IsGray types.now heap.old self.old }
        requires idle { IsIdle self.old }
        requires handles { HandlesStand types.now heap.old handles.now }
        ensures marker { self.new ≡ self.old }
        ensures gray { IsGray types.now heap.new self.new }
        ensures reached { HasReached types.now (Draws types.now heap.old handles.now self.old.oldest)
            (λ y. Marked types.now heap.old y ⊎ IsTiedToOld types.now heap.old handles.now self.old.oldest y)
            heap.old heap.new }
        ensures followed { result ≡ true → AreTiesFollowed types.now heap.new handles.now self.old.oldest }
    {
        if !self.list_ties(heap, types, handles, ties) {
            return false;
        }
        self.drain_tied(heap, types, ties.as_slice());
        true
    }

    // Marks what the marked objects reach by slots and by ties, and what ties to objects that aren't condemned name.
    // Nothing waits before and then.
    fn drain_tied(&mut self, heap: &mut Heap, types: &Types, ties: &[Tie])
        requires gray { IsGray types.now heap.old self.old }
        requires idle { IsIdle self.old }
        requires ties { AreTies types.now heap.old ties.now }
        ensures marker { self.new ≡ self.old }
        ensures gray { IsGrayBy types.now (LeadsBy types.now ties.now) heap.new self.new }
        ensures reached { HasReached types.now (LeadsBy types.now ties.now heap.old self.old.oldest)
            (λ y. Marked types.now heap.old y ⊎ IsTiedToOldBy heap.old ties.now self.old.oldest y) heap.old heap.new }
        ensures old { (y : ℕ) → IsTiedToOldBy heap.old ties.now self.old.oldest y → Marked types.now heap.new y }
    {
        self.root_tied(heap, types, ties);
        self.drain_over(heap, types, ties);
    }

    // Marks what ties to objects that stay name: to marked ones, and to those that aren't condemned. It waits then.
    fn root_tied(&mut self, heap: &mut Heap, types: &Types, ties: &[Tie])
        requires gray { IsGray types.now heap.old self.old }
        requires ties { AreTies types.now heap.old ties.now }
        ensures gray { IsGrayBy types.now (LeadsBy types.now ties.now) heap.new self.new }
        ensures reached { HasReached types.now (LeadsBy types.now ties.now heap.old self.old.oldest)
            (λ y. Marked types.now heap.old y ⊎ IsTiedToOldBy heap.old ties.now self.old.oldest y) heap.old heap.new }
        ensures old { (y : ℕ) → IsTiedToOldBy heap.old ties.now self.old.oldest y → Marked types.now heap.new y }
        ensures capacity { self.new.capacity ≡ self.old.capacity }
        ensures oldest { self.new.oldest ≡ self.old.oldest }
    {
        for i in 0..ties.len() {
            let tie = ties[i];
            if self.is_new(heap, tie.primary) {
                continue;
            }
            self.root(heap, types, tie.second);
        }
    }

    // Marks what the marked objects reach by slots and by ties. Nothing waits then.
    pub(super) fn drain_over(&mut self, heap: &mut Heap, types: &Types, ties: &[Tie])
        requires gray { IsGrayBy types.now (LeadsBy types.now ties.now) heap.old self.old }
        requires ties { AreTies types.now heap.old ties.now }
        ensures marker { self.new ≡ record self.old { stack = []; ranges = [] } }
        ensures gray { IsGrayBy types.now (LeadsBy types.now ties.now) heap.new self.new }
        ensures words { IsRemarked types.now heap.old heap.new }
        ensures marked { (x : ℕ) → Marked types.now heap.new x
            ↔ Reach (LeadsBy types.now ties.now heap.old self.old.oldest) (Marked types.now heap.old) x }
    {
        self.empty_over(heap, types, ties);
        while let Some((low, high)) = self.take_range() {
            self.rescan(heap, types, ties, low, high);
        }
    }

    // Follows what is on the stack by slots and by ties, until nothing is.
    pub(super) fn empty_over(&mut self, heap: &mut Heap, types: &Types, ties: &[Tie])
        requires closed { IsClosed types.now heap.old }
        requires stacked { (x : ℕ) → IsIn x self.old.stack → Marked types.now heap.old x }
        requires ties { AreTies types.now heap.old ties.now }
        ensures grayed { HasGrayedBy types.now (LeadsBy types.now ties.now) heap.old heap.new self.old self.new }
        ensures empty { self.new.stack ≡ [] }
    {
        if ties.is_empty() {
            self.empty_stack(heap, types);
        } else {
            self.empty_tied(heap, types, ties);
        }
    }

    // Follows what is on the stack by slots and by ties, of which there are some, until nothing is.
    fn empty_tied(&mut self, heap: &mut Heap, types: &Types, ties: &[Tie])
        requires closed { IsClosed types.now heap.old }
        requires stacked { (x : ℕ) → IsIn x self.old.stack → Marked types.now heap.old x }
        requires ties { AreTies types.now heap.old ties.now }
        ensures grayed { HasGrayedBy types.now (LeadsBy types.now ties.now) heap.old heap.new self.old self.new }
        ensures empty { self.new.stack ≡ [] }
    {
        while let Some(obj) = self.stack.pop() {
            self.follow_tied(heap, types, ties, obj);
        }
    }

    // Marks what the slots of the object at `obj` and ties to it name.
    pub(super) fn follow_object(&mut self, heap: &mut Heap, types: &Types, ties: &[Tie], obj: u64)
        requires closed { IsClosed types.now heap.old }
        requires marked { Marked types.now heap.old obj }
        requires stacked { (x : ℕ) → IsIn x self.old.stack → Marked types.now heap.old x }
        requires ties { AreTies types.now heap.old ties.now }
        ensures grayed { HasGrayedBy types.now (LeadsBy types.now ties.now) heap.old heap.new self.old self.new }
        ensures followed { (y : ℕ) → LeadsBy types.now ties.now heap.old self.old.oldest obj y
            → Marked types.now heap.new y }
    {
        if ties.is_empty() {
            self.scan_object(heap, types, obj);
        } else {
            self.follow_tied(heap, types, ties, obj);
        }
    }

    // Marks what the slots of the object at `obj` and ties to it name, where there are ties. Whatever is newly marked
    // waits, as it may be a primary: so the slots are followed without a stop, however many they are.
    fn follow_tied(&mut self, heap: &mut Heap, types: &Types, ties: &[Tie], obj: u64)
        requires closed { IsClosed types.now heap.old }
        requires marked { Marked types.now heap.old obj }
        requires ties { AreTies types.now heap.old ties.now }
        ensures grayed { HasGrayedBy types.now (LeadsBy types.now ties.now) heap.old heap.new self.old self.new }
        ensures followed { (y : ℕ) → LeadsBy types.now ties.now heap.old self.old.oldest obj y
            → Marked types.now heap.new y }
    {
        self.mark_tied(heap, types, ties, obj);
        self.scan_whole(heap, types, obj);
    }

    // Marks what ties to the object at `obj` name.
    fn mark_tied(&mut self, heap: &mut Heap, types: &Types, ties: &[Tie], obj: u64)
        requires closed { IsClosed types.now heap.old }
        requires marked { Marked types.now heap.old obj }
        requires ties { AreTies types.now heap.old ties.now }
        ensures grayed { HasGrayedBy types.now (LeadsBy types.now ties.now) heap.old heap.new self.old self.new }
        ensures followed { (y : ℕ) → IsTied ties.now obj y → is_condemned_place heap.old self.old.oldest y ≡ true
            → Marked types.now heap.new y }
    {
        let _ = types;
        let start = first_tie(ties, obj);
        for i in start..ties.len() {
            let tie = ties[i];
            if tie.primary != obj {
                return;
            }
            self.mark_condemned(heap, tie.second);
        }
    }
}
