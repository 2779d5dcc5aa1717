// A walk over the whole heap.
ghost use Rattle.std.specs.Prelude.{◌≡◌};
ghost use Rattle.clr_heap.specs.View.{AreWalkable, heap_items, IsHeap};

use clr_heap::{Heap, Walk};
use clr_types::{Item, Types};
use std::marker::Model;

/// The items of all segments that are left of a walk over a heap, by rising place. Clauses see it as their list.
#[derive(Drop)]
pub struct HeapItems<'a> {
    heap: &'a Heap,
    types: &'a Types,
    walk: Walk<'a>,
    next: usize,
    count: usize,
}

impl<'a> Model for HeapItems<'a> {
    ghost use Rattle.std.specs.Prelude.{List};
    ghost use Rattle.clr_types.specs.declared.item.Item.{Item};

    ghost Value = { List Item };

    ghost use Rattle.clr_sos.specs.Walks.{ahead, AreAhead};

    ghost view = { λ items. ahead items.walk items.types.now items.heap.now items.next items.count };

    ghost invariant = { λ items. AreAhead items.types.now items.heap.now items.next items.count };
}

impl<'a> Iterator for HeapItems<'a> {
    ghost use Rattle.std.specs.Iterator.{item_count, YieldsFirst};

    type Item = Item;

    ghost next_gives = { YieldsFirst (λ items. items) };

    ghost remaining = { item_count (λ items. items) };

    // The walk goes on at one place alone: an item that a call gave would be written to memory and read again.
    #[inline(always)]
    fn next(&mut self) -> Option<Item> {
        loop {
            let found = self.walk.next();
            if found.is_some() || self.next >= self.count {
                return found;
            }
            self.walk = self.heap.walk(self.types, self.next);
            self.next += 1;
        }
    }
}

/// The items of a heap.
pub fn items_of<'a>(types: &'a Types, heap: &'a Heap) -> HeapItems<'a>
    requires { AreWalkable types.now heap.now }
    ensures items { result ≡ heap_items types.now heap.now }
    ensures heap { IsHeap heap.now }
{
    let count = heap.segments();
    HeapItems {
        heap,
        types,
        walk: heap.walk(types, 0),
        next: 1,
        count,
    }
}
