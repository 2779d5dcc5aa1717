// The contexts of the threads, and where new ones come from.
ghost use Rattle.std.specs.Prelude.{◌≡◌, ℕ, ◌+◌, ◌-◌, ◌%◌, ◌<◌, ◌≤◌, ◌^◌, [], false, IfSome, length, None, Some, true};
ghost use Rattle.clr_types.specs.Rising.{IsIn};
ghost use Rattle.clr_types.specs.Ranges.{fits};
ghost use Rattle.clr_types.specs.Segments.{ephemeral, fits_in_tail, rest_of};
ghost use Rattle.clr_heap.specs.View.{frame, IsHeap, no_rests, segment_at};
ghost use Rattle.clr_model.specs.Allocation.{from_item, from_tail, has_room, own_fits};
ghost use Rattle.clr_model.specs.Lawful.{IsLaid};
ghost use Rattle.clr_model.specs.Machine.{Machine};
ghost use Rattle.clr_model.specs.Updates.{given_up};
ghost use Rattle.clr_view.specs.Memory.{IsMemoryOf};
ghost use Rattle.clr_view.specs.View.{HasGivenUp, HasRefilled, IsHeld, layout_in};
ghost use Rattle.clr_ctx.specs.Contexts.{first_fit, IsIndex, IsRelaid, refilled, share, tail_share, young_items};

use crate::ranges::{close, open_behind, open_in_item};
use crate::rooms::{first_walked, fits_behind, share_of, tail_share_of};
use clr_heap::Heap;
use clr_items::{FreeItems, first_in, fits_in, insert_item, list_free, take_front};
use clr_types::{Span, Types};
use std::alloc::Global;
use std::marker::Model;

/// What makes contexts fast to refill: an index of the free items of generation 0, by rising place.
///
/// Where there is no memory for it, it is dropped, and searches walk the segment. Clauses see it as the list, where it
/// is kept.
#[derive(Drop)]
pub struct YoungItems {
    items: FreeItems,
    complete: bool,
}

impl Model for YoungItems {
    ghost use Rattle.std.specs.Prelude.{List, Option, None, Some, if◌then◌else◌};
    ghost use Rattle.clr_types.specs.Ranges.{Piece};

    ghost Value = { Option (List Piece) };

    ghost view = { λ c. if c.complete then Some c.items.items else None };
}

impl YoungItems {
    /// The index of a heap without free items of generation 0. Takes no memory.
    pub fn new(alloc: Global) -> YoungItems
        ensures { result ≡ Some [] }
    {
        YoungItems {
            items: FreeItems::new(alloc),
            complete: true,
        }
    }

    /// Makes it the index of a heap without free items of generation 0.
    pub fn forget(&mut self)
        ensures { self.new ≡ Some [] }
    {
        self.items.clear();
        self.complete = true;
    }

    /// Drops the index: until it is made anew, searches walk the segment.
    pub fn lose(&mut self)
        ensures { self.new ≡ None }
    {
        self.items.clear();
        self.complete = false;
    }

    /// Makes it the index of the free items of generation 0, by one walk over that generation. Where there is no memory
    /// for all of them, it is dropped: until it is made anew, searches walk the segment.
    ///
    /// The heap is that of a lawful machine whose contexts are given up.
    pub fn renew(&mut self, heap: &Heap, types: &Types)
        requires held { IsHeld types.now heap.now }
        requires no_contexts { heap.now.rests ≡ no_rests }
        requires laid { (m : Machine) × IsMemoryOf types.now heap.now m × IsLaid m }
        ensures index { IsIndex types.now heap.now self.new }
    {
        let k = heap.ephemeral();
        self.renew_in(heap, types, k);
    }

    // Makes it the index of the free items of generation 0, where the ephemeral segment is number `k`.
    fn renew_in(&mut self, heap: &Heap, types: &Types, k: usize)
        requires heap { IsHeap heap.now }
        requires held { IsHeld types.now heap.now }
        requires no_contexts { heap.now.rests ≡ no_rests }
        requires laid { (m : Machine) × IsMemoryOf types.now heap.now m × IsLaid m }
        requires in_range { k < length heap.now.segments }
        requires segment { segment_at heap.now k ≡ ephemeral (frame heap.now) }
        ensures index { IsIndex types.now heap.now self.new }
    {
        let (_, start0) = heap.boundaries();
        self.items.clear();
        self.complete = list_free(heap, types, k, start0, &mut self.items);
    }

    /// Makes it the index of the free items of generation 0, as `renew` does, where it was dropped and no thread has a
    /// context. Else it stays as it is.
    ///
    /// The heap is that of a lawful machine.
    pub fn renew_lost(&mut self, heap: &Heap, types: &Types)
        requires held { IsHeld types.now heap.now }
        requires laid { (m : Machine) × IsMemoryOf types.now heap.now m × IsLaid m }
        requires index { IsIndex types.now heap.now self.old }
        ensures index { IsIndex types.now heap.now self.new }
        ensures kept { IfSome self.old (λ _. self.new ≡ self.old) }
    {
        if self.complete {
            return;
        }
        let k = heap.ephemeral();
        if has_no_contexts(heap) {
            self.renew_in(heap, types, k);
        }
    }

    /// Whether an object of this size fits at the front of a thread's context.
    #[inline(always)]
    pub fn fits(&self, heap: &Heap, t: usize, size: u64) -> bool
        requires positive { 0 < t }
        requires few { t ≤ 16 }
        requires small { size < 2 ^ 62 }
        ensures { result ≡ own_fits (frame heap.now) t size }
    {
        match heap.hole(t) {
            Some((low, high)) => fits_in(size, high - low),
            None => false,
        }
    }

    // The first free item of generation 0 in which a size fits.
    fn first_fit(&self, heap: &Heap, types: &Types, size: u64) -> Option<Span>
        requires held { IsHeld types.now heap.now }
        requires index { IsIndex types.now heap.now self.now }
        requires small { size < 2 ^ 62 }
        ensures { result ≡ first_fit (layout_in types.now heap.now) size }
    {
        if self.complete {
            first_in(&self.items, size)
        } else {
            first_walked(heap, types, size)
        }
    }

    /// Whether a size fits in a free item of generation 0 or behind the end of the ephemeral segment.
    pub fn room(&self, heap: &Heap, types: &Types, size: u64) -> bool
        requires held { IsHeld types.now heap.now }
        requires index { IsIndex types.now heap.now self.now }
        requires small { size < 2 ^ 62 }
        ensures { result ≡ has_room (layout_in types.now heap.now) size }
    {
        self.first_fit(heap, types, size).is_some() || fits_behind(heap, size)
    }

    /// Gives up a thread's context, and gives it a new one in which an object of this size fits: from the first free
    /// item of generation 0 in which the size fits, and from the tail of the ephemeral segment where there is none.
    ///
    /// What is left of the old context is a free item with a new head, and so is what is left of an item. No mark comes
    /// into a free item's head, and headers and padding of objects stay clean. `None`, and nothing changes, exactly
    /// where there is no room.
    pub fn refill(&mut self, heap: &mut Heap, types: &Types, t: usize, size: u64) -> Option<()>
        requires held { IsHeld types.now heap.old }
        requires index { IsIndex types.now heap.old self.old }
        requires positive { 0 < t }
        requires few { t ≤ 16 }
        requires least { 24 ≤ size }
        requires aligned { size % 8 ≡ 0 }
        requires small { size < 2 ^ 61 }
        ensures none { result ≡ None → (has_room (layout_in types.now heap.old) size ≡ false)
            × (heap.new ≡ heap.old) × (self.new ≡ self.old) }
        ensures some { IfSome result (λ _. has_room (layout_in types.now heap.old) size ≡ true) }
        ensures refilled { IfSome result (λ _. HasRefilled types.now heap.old heap.new t size) }
        ensures first { IfSome result (λ _. layout_in types.now heap.new
            ≡ refilled (layout_in types.now heap.old) t size) }
        ensures index { IsIndex types.now heap.new self.new }
    {
        let found = self.first_fit(heap, types, size);
        if found.is_none() && !fits_behind(heap, size) {
            return None;
        }
        self.give_up(heap, types, t);
        match found {
            Some(item) => self.open_in(heap, types, t, item, size),
            None => self.open_at_end(heap, types, t, size),
        }
        Some(())
    }

    /// Gives up the contexts of all threads. What is left of each is a free item with a new head, and headers and
    /// padding of objects stay clean.
    pub fn give_up_all(&mut self, heap: &mut Heap, types: &Types)
        requires held { IsHeld types.now heap.old }
        requires index { IsIndex types.now heap.old self.old }
        ensures given { HasGivenUp types.now heap.old heap.new }
        ensures index { IsIndex types.now heap.new self.new }
    {
        for t in 1..17 {
            self.give_up(heap, types, t);
        }
    }

    // Gives up a thread's context.
    fn give_up(&mut self, heap: &mut Heap, types: &Types, t: usize)
        requires held { IsHeld types.now heap.old }
        requires index { IsIndex types.now heap.old self.old }
        requires positive { 0 < t }
        requires few { t ≤ 16 }
        ensures relaid { IsRelaid types.now heap.old heap.new (given_up (layout_in types.now heap.old) t) }
        ensures index { IsIndex types.now heap.new self.new }
    {
        heap.lawful();
        let Some(item) = close(heap, types, t) else {
            return;
        };
        if self.complete {
            self.complete = insert_item(&mut self.items, item);
        }
    }

    // Opens a context in a free item.
    fn open_in(&mut self, heap: &mut Heap, types: &Types, t: usize, item: Span, size: u64)
        requires heap { IsHeap heap.old }
        requires held { IsHeld types.now heap.old }
        requires index { IsIndex types.now heap.old self.old }
        requires positive { 0 < t }
        requires few { t ≤ 16 }
        requires none { rest_of (frame heap.old) t ≡ None }
        requires listed { IsIn item (young_items (layout_in types.now heap.old)) }
        requires within { fits size item.size ≡ true }
        requires least { 24 ≤ size }
        requires aligned { size % 8 ≡ 0 }
        requires small { size < 2 ^ 61 }
        ensures relaid { IsRelaid types.now heap.old heap.new
            (from_item (layout_in types.now heap.old) t item (share size item.size)) }
        ensures index { IsIndex types.now heap.new self.new }
    {
        let taken = share_of(size, item.size());
        open_in_item(heap, types, t, item, taken);
        if self.complete {
            take_front(&mut self.items, item, taken);
        }
    }

    // Opens a context behind the end of the ephemeral segment.
    fn open_at_end(&mut self, heap: &mut Heap, types: &Types, t: usize, size: u64)
        requires held { IsHeld types.now heap.old }
        requires index { IsIndex types.now heap.old self.old }
        requires positive { 0 < t }
        requires few { t ≤ 16 }
        requires none { rest_of (frame heap.old) t ≡ None }
        requires within { fits_in_tail (ephemeral (frame heap.old)) size ≡ true }
        requires least { 24 ≤ size }
        requires aligned { size % 8 ≡ 0 }
        requires small { size < 2 ^ 61 }
        ensures relaid { IsRelaid types.now heap.old heap.new
            (from_tail (layout_in types.now heap.old) t (tail_share (layout_in types.now heap.old) size)) }
        ensures index { IsIndex types.now heap.new self.new }
    {
        let taken = tail_share_of(heap, size);
        open_behind(heap, types, t, taken);
    }
}

// Whether nothing is left of the context of any thread.
fn has_no_contexts(heap: &Heap) -> bool
    requires { IsHeap heap.now }
    ensures { result ≡ true → heap.now.rests ≡ no_rests }
{
    for thread in 1..17 {
        if heap.hole(thread).is_some() {
            return false;
        }
    }
    true
}
