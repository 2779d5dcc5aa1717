// The index of the free items of segments of a kind, the lowest place by it, and births there.
ghost use Rattle.std.specs.Prelude.{◌≡◌, ◌<◌, ◌^◌, ℕ, [], Bool, false, IfSome, None, Some, true};
ghost use Rattle.clr_types.specs.Rising.{IsRisingBy};
ghost use Rattle.clr_types.specs.Types.{form_at, size_of};
ghost use Rattle.clr_bricks.specs.Bricks.{entry_at};
ghost use Rattle.clr_heap.specs.Parts.{IsMakeable};
ghost use Rattle.clr_heap.specs.View.{frame, heap_items, IsHeap, word_of};
ghost use Rattle.clr_model.specs.Allocation.{has_room_in};
ghost use Rattle.clr_view.specs.Among.{AreClosedAmong};
ghost use Rattle.clr_view.specs.View.{IsHeld, layout_in, objects_in};
ghost use Rattle.clr_generations.specs.Laws.{BrickLaw, NamesNoMore};
ghost use Rattle.clr_generations.specs.Tables.{AreBricksOf};
ghost use Rattle.clr_large.specs.Births.{HasNewbornIn};
ghost use Rattle.clr_large.specs.Places.{address_of, IsKindIndex, IsListed, IsLowest, IsOldKind, IsPlace, items_left};
ghost use Rattle.clr_large.specs.Searches.{first_of_kind};

use crate::births::allocate_at;
use crate::listing::list_of_kind;
use crate::places::{Birthplace, first_tail, first_walked, lower};
use clr_bricks::Bricks;
use clr_generations::enter_old_newborn;
use clr_heap::{Heap, SegKind};
use clr_items::{FreeItems, first_in, take_front};
use clr_types::{Span, TypeId, Types};
use std::alloc::Global;
use std::marker::Model;

/// What makes places in the segments of a kind fast to find: an index of their free items, by rising place. The kind is
/// large or pinned, and each call is told it.
///
/// Where there is no memory for it, it is dropped, and searches walk the segments. Clauses see it as the list, where it
/// is kept.
#[derive(Drop)]
pub struct KindItems {
    items: FreeItems,
    complete: bool,
}

impl Model for KindItems {
    ghost use Rattle.std.specs.Prelude.{List, Option, None, Some, if◌then◌else◌};
    ghost use Rattle.clr_types.specs.Ranges.{Piece};

    ghost Value = { Option (List Piece) };

    ghost view = { λ c. if c.complete then Some c.items.items else None };
}

impl KindItems {
    /// The index of a heap without free items in such segments. Takes no memory.
    pub fn new(alloc: Global) -> KindItems
        ensures { result ≡ Some [] }
    {
        KindItems {
            items: FreeItems::new(alloc),
            complete: true,
        }
    }

    /// Makes it the index of the free items of segments of the kind, by one walk over these segments. Where there is
    /// no memory for all of them, it is dropped: until it is made anew, searches walk the segments.
    pub fn renew(&mut self, heap: &Heap, types: &Types, kind: SegKind)
        requires old { IsOldKind kind }
        requires held { IsHeld types.now heap.now }
        ensures index { IsKindIndex kind types.now heap.now self.new }
    {
        self.items.clear();
        self.complete = list_of_kind(heap, types, kind, &mut self.items);
    }

    /// Drops the index: until it is made anew, searches walk the segments.
    pub fn lose(&mut self)
        ensures { self.new ≡ None }
    {
        self.items.clear();
        self.complete = false;
    }

    /// Whether a size fits in a free item of a segment of the kind or behind the end of one. Where the index was
    /// dropped, it is made anew first, if there is memory for it.
    pub fn room(&mut self, heap: &Heap, types: &Types, kind: SegKind, size: u64) -> bool
        requires old { IsOldKind kind }
        requires held { IsHeld types.now heap.now }
        requires index { IsKindIndex kind types.now heap.now self.old }
        requires small { size < 2 ^ 62 }
        ensures room { result ≡ has_room_in kind (layout_in types.now heap.now) size }
        ensures index { IsKindIndex kind types.now heap.now self.new }
    {
        if !self.complete {
            self.renew(heap, types, kind);
        }
        self.lowest_place(heap, types, kind, size).is_some()
    }

    /// Makes an object of type `t`, with `len` elements where it is an array, in a segment of the kind, and answers its
    /// place: the lowest at which it fits, a free item or the bytes behind a segment's end. Its brick names it, where
    /// that names no object below, and each brick above that it reaches into leads back to its own, where no object
    /// starts.
    ///
    /// Its references are null and its numbers 0. What is left of a free item stays free. All other objects, the other
    /// free items and the rest of the layout stay. It marks nothing, and leaves heads of free items, headers and
    /// padding clean. Cards need no change: where all that is named is an object, none names the new one.
    ///
    /// `None`, and nothing changes, exactly where it fits in no free item of such a segment and behind the end of none.
    #[inline(never)]
    pub fn allocate(
        &mut self,
        heap: &mut Heap,
        types: &Types,
        bricks: &mut Bricks,
        kind: SegKind,
        t: TypeId,
        len: u64,
    ) -> Option<u64>
        requires old { IsOldKind kind }
        requires held { IsHeld types.now heap.old }
        requires index { IsKindIndex kind types.now heap.old self.old }
        requires item { IsMakeable types.now t.0 len }
        requires object { 0 < t.0 }
        requires bricks { AreBricksOf (frame heap.old) bricks.old }
        ensures none { result ≡ None
            → (has_room_in kind (layout_in types.now heap.old) (size_of (form_at types.now t.0) len) ≡ false)
            × (heap.new ≡ heap.old) × (bricks.new ≡ bricks.old) × (self.new ≡ self.old) }
        ensures some { IfSome result (λ _.
            has_room_in kind (layout_in types.now heap.old) (size_of (form_at types.now t.0) len) ≡ true) }
        ensures born { IfSome result (λ place. HasNewbornIn kind types.now heap.old heap.new place t.0 len) }
        ensures lowest { IfSome result (λ place.
            IsLowest kind (layout_in types.now heap.old) (size_of (form_at types.now t.0) len) place) }
        ensures index { IsKindIndex kind types.now heap.new self.new }
        ensures own_bricks { AreBricksOf (frame heap.new) bricks.new }
        ensures bricks { BrickLaw types.now (frame heap.old) (objects_in types.now heap.old) (entry_at bricks.old)
            → BrickLaw types.now (frame heap.new) (objects_in types.now heap.new) (entry_at bricks.new) }
        ensures cards { AreClosedAmong types.now (word_of heap.old) (heap_items types.now heap.old)
            → NamesNoMore types.now (frame heap.old) (objects_in types.now heap.old) (frame heap.new)
            (objects_in types.now heap.new) }
    {
        let size = types.item_size(t, len);
        let found = self.lowest_place(heap, types, kind, size)?;
        let place = self.allocate_placed(heap, types, kind, found, t, len);
        enter_old_newborn(bricks, place, size);
        Some(place)
    }

    // The lowest place in the segments of the kind at which a size fits: first fit. `None` where it fits in no free
    // item of one and behind the end of none.
    fn lowest_place(
        &self,
        heap: &Heap,
        types: &Types,
        kind: SegKind,
        size: u64,
    ) -> Option<Birthplace>
        requires held { IsHeld types.now heap.now }
        requires index { IsKindIndex kind types.now heap.now self.now }
        requires small { size < 2 ^ 62 }
        ensures some { IfSome result (λ p. IsPlace kind types.now heap.now size p
            × IsLowest kind (layout_in types.now heap.now) size (address_of heap.now p)) }
        ensures none { result ≡ None → has_room_in kind (layout_in types.now heap.now) size ≡ false }
        ensures heap { IsHeap heap.now }
    {
        let item = self.first_fit(heap, types, kind, size);
        let tail = first_tail(heap, kind, size);
        match (item, tail) {
            (Some(item), Some(k)) => Some(lower(heap, item, k)),
            (Some(item), None) => Some(Birthplace::Item(item)),
            (None, Some(k)) => Some(Birthplace::Tail(k)),
            (None, None) => None,
        }
    }

    // The first free item of a segment of the kind in which a size fits.
    fn first_fit(&self, heap: &Heap, types: &Types, kind: SegKind, size: u64) -> Option<Span>
        requires held { IsHeld types.now heap.now }
        requires index { IsKindIndex kind types.now heap.now self.now }
        requires small { size < 2 ^ 62 }
        ensures { result ≡ first_of_kind kind (layout_in types.now heap.now) size }
    {
        if self.complete {
            first_in(&self.items, size)
        } else {
            first_walked(heap, types, kind, size)
        }
    }

    // Makes the object at a place in which it fits, and takes that place from the index.
    fn allocate_placed(
        &mut self,
        heap: &mut Heap,
        types: &Types,
        kind: SegKind,
        place: Birthplace,
        t: TypeId,
        len: u64,
    ) -> u64
        requires old { IsOldKind kind }
        requires heap { IsHeap heap.old }
        requires held { IsHeld types.now heap.old }
        requires index { IsKindIndex kind types.now heap.old self.old }
        requires item { IsMakeable types.now t.0 len }
        requires object { 0 < t.0 }
        requires place { IsPlace kind types.now heap.old (size_of (form_at types.now t.0) len) place }
        ensures place { result ≡ address_of heap.old place }
        ensures born { HasNewbornIn kind types.now heap.old heap.new result t.0 len }
        ensures index { IsKindIndex kind types.now heap.new self.new }
    {
        let size = types.item_size(t, len);
        if self.complete {
            take_place(&mut self.items, &place, size);
        }
        allocate_at(heap, types, kind, place, t, len)
    }
}

// Takes so many bytes from the front of an item, where the place is one.
fn take_place(items: &mut FreeItems, place: &Birthplace, taken: u64)
    requires rising { IsRisingBy (λ p. p.place) items.old.items }
    requires listed { IsListed taken place.now items.old.items }
    ensures { items.new.items ≡ items_left taken place.now items.old.items }
{
    if let Birthplace::Item(item) = place {
        take_front(items, *item, taken);
    }
}
