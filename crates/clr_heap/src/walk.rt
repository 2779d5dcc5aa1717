// Walks over the items of a segment.
ghost use Rattle.std.specs.Prelude.{◌≡◌, ℕ, ◌+◌, ◌<◌, ◌≤◌, ◌^◌, length, None};
ghost use Rattle.clr_heap.specs.ObjectKinds.{IsObjectKind};
ghost use Rattle.clr_heap.specs.Parts.{hole_from, item_at};
ghost use Rattle.clr_heap.specs.View.{AfterItem, AreWalkable, CanWalk, first_of, heap_items, holes_of};
ghost use Rattle.clr_heap.specs.View.{IsHeap, item_with_place, items_between, IsWalkable, last_of, listing};
ghost use Rattle.clr_heap.specs.View.{only_object, sight, word_of};

use crate::heap::Heap;
use crate::{Item, ObjectKind, SegKind};
use clr_types::Types;
use std::marker::Model;

// Where a walk over segment `k` stands, where it ends, a place up to which no hole starts, and the kind of the last
// object.
#[derive(Clone, Copy)]
struct Cursor<'a> {
    heap: &'a Heap,
    types: &'a Types,
    k: usize,
    place: u64,
    end: u64,
    next_hole: u64,
    known: ObjectKind,
}

/// The items of a segment that are left of a walk, by rising address. Holes are passed over. Clauses see it as their
/// list.
#[derive(Drop)]
pub struct Walk<'a> {
    cursor: Cursor<'a>,
}

impl<'a> Model for Walk<'a> {
    ghost use Rattle.std.specs.Prelude.{List};
    ghost use Rattle.clr_types.specs.declared.item.Item.{Item};

    ghost Value = { List Item };

    ghost use Rattle.clr_heap.specs.Walk.{IsCursor, items_left};

    ghost view = { λ walk. items_left walk.cursor };

    ghost invariant = { λ walk. IsCursor walk.cursor };
}

// Where a walk stands, and a place up to which no hole starts.
#[derive(Clone, Copy)]
struct Spot {
    place: u64,
    next_hole: u64,
}

impl<'a> Iterator for Walk<'a> {
    ghost use Rattle.std.specs.Iterator.{item_count, YieldsFirst};

    type Item = Item;

    ghost next_gives = { YieldsFirst (λ items. items) };

    ghost remaining = { item_count (λ items. items) };

    #[inline(always)]
    fn next(&mut self) -> Option<Item> {
        let now = self.cursor;
        let spot = Spot {
            place: now.place,
            next_hole: now.next_hole,
        };
        let spot = past_holes(now.heap, now.types, now.k, spot, now.end);
        self.cursor.next_hole = spot.next_hole;
        if spot.place >= now.end {
            self.cursor.place = spot.place;
            return None;
        }
        let mut known = now.known;
        let found = item_on(now.heap, now.types, now.k, spot.place, now.end, &mut known);
        self.cursor.known = known;
        self.cursor.place = spot.place + found.size;
        Some(found)
    }
}

impl Heap {
    /// The items of segment `k`, objects and free items, by rising address.
    pub fn walk<'a>(&'a self, types: &'a Types, k: usize) -> Walk<'a>
        requires in_range { k < length self.now.segments }
        requires walkable { IsWalkable types.now self.now k }
        ensures items { result ≡ listing types.now self.now k }
        ensures few { length result < 2 ^ 64 }
        ensures heap { IsHeap self.now }
    {
        let segment = self.info(k);
        let place = segment.first_place();
        let next_hole = if segment.kind == SegKind::Ephemeral {
            place
        } else {
            u64::MAX
        };
        Walk {
            cursor: Cursor {
                heap: self,
                types,
                k,
                place,
                end: segment.end,
                next_hole,
                known: ObjectKind::none(),
            },
        }
    }

    /// The item of segment `k` with the place `a`: `None` where no item has it.
    pub fn item_in(&self, types: &Types, k: usize, a: u64) -> Option<Item>
        requires in_range { k < length self.now.segments }
        requires walkable { IsWalkable types.now self.now k }
        ensures { result ≡ item_with_place (listing types.now self.now k) a }
    {
        let segment = self.info(k);
        if a < segment.base || a >= segment.end {
            return None;
        }
        for found in self.walk(types, k) {
            if found.place == a {
                return Some(found);
            }
        }
        None
    }

    /// The object with the place `a`: `None` where no object has it, also where a free item has.
    pub fn object_at(&self, types: &Types, a: u64) -> Option<Item>
        requires { AreWalkable types.now self.now }
        ensures { result ≡ only_object (item_with_place (heap_items types.now self.now) a) }
    {
        let found = self.item_anywhere(types, a)?;
        if found.type_id.0 == 0 {
            None
        } else {
            Some(found)
        }
    }

    // The item with the place `a`, free or not.
    fn item_anywhere(&self, types: &Types, a: u64) -> Option<Item>
        requires { AreWalkable types.now self.now }
        ensures { result ≡ item_with_place (heap_items types.now self.now) a }
    {
        for k in 0..self.segments() {
            if let Some(found) = self.item_in(types, k, a) {
                return Some(found);
            }
        }
        None
    }
}

// The first spot from this one on where no hole starts.
#[inline(always)]
fn past_holes(heap: &Heap, types: &Types, k: usize, spot: Spot, end: u64) -> Spot
    requires in_range { k < length heap.now.segments }
    requires walk { CanWalk (sight types.now heap.now k) heap.now.memories spot.place end }
    requires clear { (q : ℕ) → spot.place ≤ q → q < spot.next_hole → q < end
        → hole_from (holes_of heap.now k) q ≡ None }
    ensures walk { CanWalk (sight types.now heap.now k) heap.now.memories result.place end }
    ensures same { items_between (sight types.now heap.now k) result.place end
        ≡ items_between (sight types.now heap.now k) spot.place end }
    ensures stops { result.place < end → hole_from (holes_of heap.now k) result.place ≡ None }
    ensures clear { (q : ℕ) → result.place ≤ q → q < result.next_hole → q < end
        → hole_from (holes_of heap.now k) q ≡ None }
    ensures up { spot.place ≤ result.place }
{
    if spot.place < spot.next_hole {
        return spot;
    }
    let place = skip_holes(heap, types, k, spot.place, end);
    Spot {
        place,
        next_hole: heap.next_hole(k, place),
    }
}

// The first place from `from` on where no hole starts.
fn skip_holes(heap: &Heap, types: &Types, k: usize, from: u64, end: u64) -> u64
    requires in_range { k < length heap.now.segments }
    requires walk { CanWalk (sight types.now heap.now k) heap.now.memories from end }
    ensures walk { CanWalk (sight types.now heap.now k) heap.now.memories result end }
    ensures same { items_between (sight types.now heap.now k) result end
        ≡ items_between (sight types.now heap.now k) from end }
    ensures stops { result < end → hole_from (holes_of heap.now k) result ≡ None }
    ensures up { from ≤ result }
{
    let mut place = from;
    while place < end {
        match heap.hole_end(k, place) {
            Some(high) => place = high,
            None => break,
        }
    }
    place
}

// The item at `place` of segment `k`, on a walk to `end`, and the kind that is known behind it.
#[inline(always)]
fn item_on(
    heap: &Heap,
    types: &Types,
    k: usize,
    place: u64,
    end: u64,
    known: &mut ObjectKind,
) -> Item
    requires walk { CanWalk (sight types.now heap.now k) heap.now.memories place end }
    requires below { place < end }
    requires free { hole_from (holes_of heap.now k) place ≡ None }
    requires known { IsObjectKind types.now known.old }
    requires heap { IsHeap heap.now }
    requires in_range { k < length heap.now.segments }
    requires low { first_of heap.now k ≤ place }
    requires last { end ≤ last_of heap.now k }
    ensures after { AfterItem (sight types.now heap.now k) heap.now.memories place end }
    ensures item { result ≡ item_at types.now (word_of heap.now) place }
    ensures size { place + result.size ≤ end }
    ensures known { IsObjectKind types.now known.new }
{
    heap.item_like_in(types, k, place, known)
}
