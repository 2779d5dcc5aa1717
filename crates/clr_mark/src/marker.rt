// The marker: a stack of objects to follow, and the ranges of those that had no room on it.
ghost use Rattle.std.specs.Prelude.{◌≡◌, ◌≢◌, ℕ, ◌+◌, ◌/◌, ◌%◌, ◌<◌, ◌≤◌, ◌^◌, ◌↔◌, ◌⊎◌, Bool, true, false, [], ◌∷◌};
ghost use Rattle.std.specs.Prelude.{◌++◌, length, nat_le, IfOk, IfNone, IfSome};
ghost use Rattle.clr_types.specs.Rising.{IsIn};
ghost use Rattle.clr_heap.specs.Memories.{HasWord, memory_index};
ghost use Rattle.clr_heap.specs.View.{word_of};
ghost use Rattle.clr_model.specs.Reach.{Reach};
ghost use Rattle.clr_view.specs.Marks.{has_mark, Marked};
ghost use Rattle.clr_view.specs.Memory.{is_left_name};
ghost use Rattle.clr_view.specs.SlotValues.{StandsAt};
ghost use Rattle.clr_view.specs.View.{IsHeld};
ghost use Rattle.clr_mark.specs.Marks.{is_condemned_place, is_new, IsClosed, IsRemarked, LeadsTo, with_mark};
ghost use Rattle.clr_mark.specs.Kinds.{IsRunKind};
ghost use Rattle.clr_mark.specs.Markings.{HasGrayed, HasRooted};
ghost use Rattle.clr_mark.specs.Overflow.{widened};
ghost use Rattle.clr_mark.specs.Waiting.{IsGray, with_next, with_waiting};

use crate::NoMemory;
use clr_heap::Heap;
use clr_types::{Types, mark};
use std::alloc::Global;
use std::marker::Model;

mod ahead;
mod batch;
mod chain;
mod gather;
mod kind;
mod listed;
mod overflow;
mod rescan;
mod scan;
mod targets;
mod tied;
mod ties;
mod unmark;
mod wide;

pub(crate) use ahead::Ahead;
pub use batch::are_marked;
pub use kind::RunKind;
use listed::Tie;
use overflow::OverflowRanges;
pub use targets::Targets;

/// What marking needs: the objects whose slots are still to be followed, on a stack, and the lowest and the highest
/// address of those that had no room on it, for each window of addresses.
///
/// The mark is the low bit of an object's method table word. Marking takes no memory.
#[derive(Drop)]
pub struct Marker {
    stack: Vec<u64>,
    ranges: OverflowRanges,
    oldest: u8,
    // Room for a list of what dependent handles tie. It is `None` only while the list is in use.
    ties: Option<Vec<Tie>>,
}

impl Model for Marker {
    ghost use Rattle.std.specs.Prelude.{vec_capacity};
    ghost use Rattle.clr_mark.specs.Waiting.{MarkerView};

    ghost Value = { MarkerView };

    ghost view = { λ m. record {
      stack = m.stack.items;
      capacity = vec_capacity m.stack;
      ranges = m.ranges;
      oldest = m.oldest;
    } };
}

impl Marker {
    /// A marker with room for `capacity` objects on its stack, for collections of all generations. `NoMemory` where
    /// there is none for the stack. Beside this call only `reserve_ties` takes memory.
    pub fn new(alloc: Global, capacity: usize) -> Result<Marker, NoMemory>
        requires { 1 ≤ capacity }
        ensures { IfOk result (λ m. m ≡ record { stack = []; capacity = capacity; ranges = []; oldest = 2 }) }
    {
        let stack = Vec::with_capacity(alloc, capacity)?;
        let ranges = OverflowRanges::new(alloc)?;
        Ok(Marker {
            stack,
            ranges,
            oldest: 2,
            ties: Some(Vec::new(alloc)),
        })
    }

    /// Begins a marking for a collection of the generations up to `g`, whose objects are condemned. Nothing waits.
    pub fn begin(&mut self, g: u8)
        requires { g ≤ 2 }
        ensures { self.new ≡ record self.old { stack = []; ranges = []; oldest = g } }
    {
        self.forget();
        self.oldest = g;
    }

    /// The objects that wait on the stack.
    pub fn stack(&self) -> &[u64]
        ensures { result.now ≡ self.now.stack }
    {
        &self.stack
    }

    /// The oldest condemned generation.
    pub fn oldest(&self) -> u8
        ensures { result ≡ self.now.oldest }
    {
        self.oldest
    }

    /// Whether the object at `obj` is marked.
    pub fn is_marked(&self, heap: &Heap, obj: u64) -> bool
        requires { HasWord heap.now.memories obj }
        ensures { result ≡ has_mark (word_of heap.now obj) }
    {
        mark::is_marked(heap.word(obj))
    }

    /// Whether a collection leaves the object at `obj`: it isn't condemned, or is marked.
    #[inline]
    pub fn is_left(&self, heap: &Heap, types: &Types, obj: u64) -> bool
        requires held { IsHeld types.now heap.now }
        requires stands { StandsAt types.now heap.now obj }
        ensures { result ≡ is_left_name types.now heap.now self.now.oldest obj }
    {
        let _ = types;
        !self.is_new(heap, obj)
    }

    /// Marks the object at `obj`, where it is condemned. It waits then, where it wasn't marked before.
    ///
    /// All else stays.
    #[inline(always)]
    pub fn root(&mut self, heap: &mut Heap, types: &Types, obj: u64)
        requires gray { IsGray types.now heap.old self.old }
        requires object { StandsAt types.now heap.old obj }
        ensures heap { heap.new ≡ with_mark heap.old self.old.oldest obj }
        ensures marker { self.new ≡ with_waiting heap.old self.old obj }
        ensures gray { IsGray types.now heap.new self.new }
        ensures words { IsRemarked types.now heap.old heap.new }
        ensures marked { (x : ℕ) → Marked types.now heap.new x
            ↔ (((x ≡ obj) × (is_condemned_place heap.old self.old.oldest obj ≡ true)) ⊎ Marked types.now heap.old x) }
    {
        let _ = types;
        self.mark_condemned(heap, obj);
    }

    // Marks the object at `obj`, where it is condemned, and lets it wait where it wasn't marked. Only where it is
    // condemned its segment is looked for.
    #[inline(always)]
    pub(super) fn mark_condemned(&mut self, heap: &mut Heap, obj: u64)
        requires { HasWord heap.old.memories obj }
        ensures heap { heap.new ≡ with_mark heap.old self.old.oldest obj }
        ensures marker { self.new ≡ with_waiting heap.old self.old obj }
    {
        if self.is_condemned(heap, obj) {
            let k = heap.segment_of(obj);
            self.mark_chosen(heap, k, obj);
        }
    }

    // Marks the object at `obj`, where it is condemned, and where it wasn't marked, what its slots name: that waits
    // then, and not the object. `known` is what is known of objects before it. It answers what is known then.
    #[inline(always)]
    pub(crate) fn follow_root(
        &mut self,
        heap: &mut Heap,
        types: &Types,
        obj: u64,
        known: RunKind,
    ) -> RunKind
        requires gray { IsGray types.now heap.old self.old }
        requires object { StandsAt types.now heap.old obj }
        requires known { IsRunKind types.now known }
        ensures gray { IsGray types.now heap.new self.new }
        ensures rooted { HasRooted types.now self.old.oldest heap.old heap.new obj }
        ensures capacity { self.new.capacity ≡ self.old.capacity }
        ensures oldest { self.new.oldest ≡ self.old.oldest }
        ensures known { IsRunKind types.now result }
    {
        if !self.is_condemned(heap, obj) {
            return known;
        }
        let k = heap.segment_of(obj);
        let word = heap.word_at(k, obj);
        if mark::is_marked(word) {
            return known;
        }
        heap.set_word_at(k, obj, word + 1);
        self.follow(heap, types, k, obj, mark::unmarked(word), known)
    }

    /// Marks what the marked objects reach over condemned ones by slots. Nothing waits then.
    ///
    /// All else stays.
    pub fn drain_slots(&mut self, heap: &mut Heap, types: &Types)
        requires { IsGray types.now heap.old self.old }
        ensures marker { self.new ≡ record self.old { stack = []; ranges = [] } }
        ensures gray { IsGray types.now heap.new self.new }
        ensures words { IsRemarked types.now heap.old heap.new }
        ensures marked { (x : ℕ) → Marked types.now heap.new x
            ↔ Reach (LeadsTo types.now heap.old self.old.oldest) (Marked types.now heap.old) x }
    {
        self.drain_over(heap, types, &[]);
    }

    // Follows what is on the stack, until nothing is.
    pub(super) fn empty_stack(&mut self, heap: &mut Heap, types: &Types)
        requires closed { IsClosed types.now heap.old }
        requires stacked { (x : ℕ) → IsIn x self.old.stack → Marked types.now heap.old x }
        ensures grayed { HasGrayed types.now heap.old heap.new self.old self.new }
        ensures empty { self.new.stack ≡ [] }
    {
        let mut known = RunKind::none();
        while let Some(obj) = self.stack.pop() {
            known = self.follow_on(heap, types, obj, known);
        }
    }

    // Marks the object at `obj`, in segment `k`, where it is condemned, and lets it wait where it wasn't marked.
    #[inline(always)]
    fn mark(&mut self, heap: &mut Heap, k: usize, obj: u64)
        requires word { HasWord heap.old.memories obj }
        requires segment { k ≡ memory_index heap.old.memories obj }
        ensures heap { heap.new ≡ with_mark heap.old self.old.oldest obj }
        ensures marker { self.new ≡ with_waiting heap.old self.old obj }
    {
        if self.is_condemned(heap, obj) {
            self.mark_chosen(heap, k, obj);
        }
    }

    // Marks the condemned object at `obj`, in segment `k`, and lets it wait where it wasn't marked.
    #[inline(always)]
    fn mark_chosen(&mut self, heap: &mut Heap, k: usize, obj: u64)
        requires word { HasWord heap.old.memories obj }
        requires segment { k ≡ memory_index heap.old.memories obj }
        requires condemned { is_condemned_place heap.old self.old.oldest obj ≡ true }
        ensures heap { heap.new ≡ with_mark heap.old self.old.oldest obj }
        ensures marker { self.new ≡ with_waiting heap.old self.old obj }
    {
        if self.stack.len() < self.stack.capacity() {
            self.mark_with_room(heap, k, obj);
        } else {
            self.mark_without_room(heap, k, obj);
        }
    }

    // Marks a condemned object, and lets it wait on the stack, which has room, where it wasn't marked. It decides
    // nothing: often whether an object is marked already can't be foreseen.
    #[inline(always)]
    fn mark_with_room(&mut self, heap: &mut Heap, k: usize, obj: u64)
        requires word { HasWord heap.old.memories obj }
        requires segment { k ≡ memory_index heap.old.memories obj }
        requires condemned { is_condemned_place heap.old self.old.oldest obj ≡ true }
        requires room { length self.old.stack < self.old.capacity }
        ensures heap { heap.new ≡ with_mark heap.old self.old.oldest obj }
        ensures marker { self.new ≡ with_waiting heap.old self.old obj }
    {
        let word = heap.word_at(k, obj);
        let new = 1 - mark::mark_of(word);
        heap.set_word_at(k, obj, word + new);
        let height = self.stack.len() + new as usize;
        self.stack.push_reserved(obj);
        self.stack.truncate(height);
    }

    // Marks a condemned object, and lets it wait in a range where it wasn't marked, since the stack is full.
    #[inline(never)]
    fn mark_without_room(&mut self, heap: &mut Heap, k: usize, obj: u64)
        requires word { HasWord heap.old.memories obj }
        requires segment { k ≡ memory_index heap.old.memories obj }
        requires condemned { is_condemned_place heap.old self.old.oldest obj ≡ true }
        requires full { self.old.capacity ≤ length self.old.stack }
        ensures heap { heap.new ≡ with_mark heap.old self.old.oldest obj }
        ensures marker { self.new ≡ with_waiting heap.old self.old obj }
    {
        let word = heap.word_at(k, obj);
        if !mark::is_marked(word) {
            heap.set_word_at(k, obj, word + 1);
            self.widen(obj);
        }
    }

    // Whether the object at `obj` is condemned.
    #[inline(always)]
    fn is_condemned(&self, heap: &Heap, obj: u64) -> bool
        ensures { result ≡ is_condemned_place heap.now self.now.oldest obj }
    {
        self.oldest >= 2 || heap.gen_of(obj) <= self.oldest
    }

    // Whether a mark on the object at `obj` would be new: it is condemned, and not marked.
    #[inline]
    fn is_new(&self, heap: &Heap, obj: u64) -> bool
        requires { HasWord heap.now.memories obj }
        ensures { result ≡ is_new heap.now self.now.oldest obj }
    {
        self.is_condemned(heap, obj) && !self.is_marked(heap, obj)
    }

    /// Where the condemned objects begin: nothing below is condemned. So a collection of young objects needn't look at
    /// what names lower ones.
    pub fn lowest_condemned(&self, heap: &Heap) -> u64
        ensures youngest { self.now.oldest ≡ 0 → result ≡ heap.now.start0 }
        ensures young { self.now.oldest ≡ 1 → result ≡ heap.now.start1 }
        ensures below { (x : ℕ) → is_condemned_place heap.now self.now.oldest x ≡ true → result ≤ x }
    {
        let (start1, start0) = heap.boundaries();
        match self.oldest {
            0 => start0,
            1 => start1,
            _ => 0,
        }
    }

    // Puts `obj` on the stack, or into the range of its window where the stack is full.
    fn push(&mut self, obj: u64)
        ensures { self.new ≡ with_next self.old obj }
    {
        if self.stack.len() < self.stack.capacity() {
            self.stack.push_reserved(obj);
        } else {
            self.widen(obj);
        }
    }

    // Widens the range of the window of `obj` to it.
    fn widen(&mut self, obj: u64)
        ensures { self.new ≡ record self.old { ranges = widened self.old.ranges obj } }
    {
        self.ranges.widen(obj);
    }

    // Takes the last range away.
    pub(super) fn take_range(&mut self) -> Option<(u64, u64)>
        ensures some { IfSome result (λ r. self.old ≡ record self.new { ranges = self.new.ranges ++ r ∷ [] }) }
        ensures none { IfNone result (self.new ≡ self.old) }
        ensures last { IfNone result (self.old.ranges ≡ []) }
    {
        self.ranges.take()
    }

    // Whether half of the stack or more is in use.
    pub(crate) fn is_half_full(&self) -> bool
        ensures { result ≡ nat_le (self.now.capacity / 2) (length self.now.stack) }
    {
        self.stack.len() >= self.stack.capacity() / 2
    }

    // Forgets what waits.
    fn forget(&mut self)
        ensures { self.new ≡ record self.old { stack = []; ranges = [] } }
    {
        self.stack.clear();
        self.ranges.clear();
    }
}
