// Marking from roots: lists of places, and the targets of handles.
ghost use Rattle.std.specs.Prelude.{◌≡◌, ℕ, ◌/◌, ◌≤◌, ◌↔◌, ◌⊎◌, [], None, length, false};
ghost use Rattle.clr_handles.specs.Tops.{HasNone};
ghost use Rattle.clr_model.specs.Reach.{Reach};
ghost use Rattle.clr_view.specs.Marks.{Marked};
ghost use Rattle.clr_view.specs.World.{HandlesStand};
ghost use Rattle.clr_mark.specs.Marks.{IsClosed, IsRemarked, LeadsTo};
ghost use Rattle.clr_mark.specs.Markings.{HasMarked};
ghost use Rattle.clr_mark.specs.Roots.{AreObjects, IsCondemnedRoot, IsRoot};
ghost use Rattle.clr_mark.specs.Ties.{Draws, IsCondemnedStart, IsCondemnedTarget, IsStart, IsTiedToOld, Joins};
ghost use Rattle.clr_mark.specs.Ties as ties;
ghost use Rattle.clr_mark.specs.Waiting.{IsGray};

use crate::Marker;
use crate::marker::{Ahead, RunKind};
use clr_handles::Handles;
use clr_heap::Heap;
use clr_types::{Handle, Kind, Types};

impl Marker {
    /// Marks condemned roots, and what they and the marked objects reach over condemned ones by slots. A root is 0 or
    /// the place of an object. Nothing waits then.
    ///
    /// All else stays.
    pub fn roots(&mut self, heap: &mut Heap, types: &Types, roots: &[u64])
        requires gray { IsGray types.now heap.old self.old }
        requires objects { AreObjects types.now heap.old roots.now }
        ensures marker { self.new ≡ record self.old { stack = []; ranges = [] } }
        ensures gray { IsGray types.now heap.new self.new }
        ensures words { IsRemarked types.now heap.old heap.new }
        ensures marked { (x : ℕ) → Marked types.now heap.new x
            ↔ Reach (LeadsTo types.now heap.old self.old.oldest)
            (λ y. Marked types.now heap.old y ⊎ IsCondemnedRoot roots.now heap.old self.old.oldest y) x }
    {
        let mut known = RunKind::none();
        for &root in roots {
            if root != 0 {
                known = self.follow_root(heap, types, root, known);
                self.drain_if_full(heap, types);
            }
        }
        self.drain_slots(heap, types);
    }

    /// Marks the condemned targets of strong and pinned handles, and what they and the marked objects reach over
    /// condemned ones by slots. Nothing waits then.
    ///
    /// All else stays.
    pub fn handle_roots(&mut self, heap: &mut Heap, types: &Types, handles: &Handles)
        requires gray { IsGray types.now heap.old self.old }
        requires handles { HandlesStand types.now heap.old handles.now }
        ensures marker { self.new ≡ record self.old { stack = []; ranges = [] } }
        ensures gray { IsGray types.now heap.new self.new }
        ensures words { IsRemarked types.now heap.old heap.new }
        ensures marked { (x : ℕ) → Marked types.now heap.new x
            ↔ Reach (LeadsTo types.now heap.old self.old.oldest)
            (λ y. Marked types.now heap.old y ⊎ IsCondemnedTarget handles.now heap.old self.old.oldest y) x }
    {
        if !are_any_held(handles) {
            self.drain_slots(heap, types);
            return;
        }
        let low = self.lowest_condemned(heap);
        let mut ahead = Ahead::From(0);
        let mut known = RunKind::none();
        while let Some(handle) = ahead.next(handles, low) {
            if is_root_handle(&handle) {
                known = self.follow_root(heap, types, handle.target, known);
                self.drain_if_full(heap, types);
            }
        }
        self.drain_slots(heap, types);
    }

    /// Goes on with a marking: marks condemned roots, and all that they and the marked objects reach over condemned
    /// ones, by slots and by dependent handles, as `drain` does. A root is 0 or the place of an object. Nothing waits
    /// then.
    ///
    /// All else stays.
    pub fn mark_more(&mut self, heap: &mut Heap, types: &Types, handles: &Handles, roots: &[u64])
        requires gray { IsGray types.now heap.old self.old }
        requires handles { HandlesStand types.now heap.old handles.now }
        requires objects { AreObjects types.now heap.old roots.now }
        ensures marker { self.new ≡ record self.old { stack = []; ranges = [] } }
        ensures gray { IsGray types.now heap.new self.new }
        ensures words { IsRemarked types.now heap.old heap.new }
        ensures marked { (x : ℕ) → Marked types.now heap.new x
            ↔ Reach (Draws types.now heap.old handles.now self.old.oldest)
            (λ y. Marked types.now heap.old y
            ⊎ (IsCondemnedRoot roots.now heap.old self.old.oldest y
            ⊎ IsTiedToOld types.now heap.old handles.now self.old.oldest y)) x }
        // In a collection of all generations every object is condemned.
        ensures all { self.old.oldest ≡ 2 → (x : ℕ) → Marked types.now heap.new x
            ↔ Reach (Joins types.now heap.old handles.now)
            (λ y. Marked types.now heap.old y ⊎ IsRoot roots.now y) x }
    {
        self.roots(heap, types, roots);
        self.drain(heap, types, handles);
    }

    /// Follows slots where at least half of the stack is in use. A caller with many roots, as of cards, calls it after
    /// each `root`, so that they don't fill the stack. At most half of it is in use then.
    ///
    /// All else stays.
    pub fn drain_if_full(&mut self, heap: &mut Heap, types: &Types)
        requires { IsGray types.now heap.old self.old }
        ensures capacity { self.new.capacity ≡ self.old.capacity }
        ensures oldest { self.new.oldest ≡ self.old.oldest }
        ensures gray { IsGray types.now heap.new self.new }
        ensures marked { HasMarked types.now self.old.oldest heap.old heap.new }
        ensures room { length self.new.stack ≤ self.new.capacity / 2 }
    {
        if self.is_half_full() {
            self.drain_slots(heap, types);
        }
    }
}

// Whether there is any strong or pinned handle.
fn are_any_held(handles: &Handles) -> bool
    ensures strong { result ≡ false → HasNone Kind.Strong handles.now }
    ensures pinned { result ≡ false → HasNone Kind.Pinned handles.now }
{
    handles.has_kind(Kind::Strong) || handles.has_kind(Kind::Pinned)
}

// Whether the target of a handle is a root.
fn is_root_handle(handle: &Handle) -> bool
    ensures { result ≡ ties.is_root_handle handle.now }
{
    handle.kind.is_root() && handle.target != 0
}
