//! `listnearobj`: what stands at an address, and next to it.
ghost use Rattle.std.specs.Prelude.{◌≡◌, ◌+◌, ◌-◌, ◌<◌, ◌≤◌, ◌^◌, ◌++◌, IfOk, OnOk, Some, length};
ghost use Rattle.clr_types.specs.declared.item.Item.{Item};
ghost use Rattle.clr_heap.specs.View.{CanWalk, first_of, items_between, last_of, listing, sight};
ghost use Rattle.clr_model.specs.Looks.{listnearobj_text, near_items, near_line};
ghost use Rattle.clr_model.specs.Machine.{Machine};
ghost use Rattle.clr_sos.specs.Views.{IsLawfulView, IsViewOf};
ghost use Rattle.clr_shows.specs.Near.{AreKnown, last_begun, near_in, near_text, with_item};

use clr_generations::{segment_with, walk_start};
use clr_heap::{Heap, Item, ObjectKind};
use clr_mem::NoMemory;
use clr_sos::{View, put_item, put_words};
use clr_types::Types;
use std::alloc::{AllocError, Global};

// The item over an address, and the ones next to it.
#[derive(Clone, Copy)]
struct Near {
    before: Option<Item>,
    at: Option<Item>,
    after: Option<Item>,
}

// No item.
const NONE: Near = Near {
    before: None,
    at: None,
    after: None,
};

/// What stands at the address `a`, and next to it in the same segment, objects and free items: the last item that ends
/// at or below the address, or where an item is over the address, at or below that one; the item over the address; and
/// the first item above.
///
/// ```text
/// before 0000000010001000 00007ff000000040 56 A
/// at 0000000010001038 00007ff000000000 32 Free
/// after 0000000010001058 00007ff000000040 32 A
/// ```
///
/// Each line comes only where there is such an item, and the one line `none` where there is none of the three. The
/// unused part of an allocation context is no item. `NoMemory` comes only where there is no memory for the text. The
/// walk begins where bricks say: it passes over the items of a brick or two.
pub fn listnearobj(alloc: Global, view: &View<'_>, a: u64) -> Result<Vec<u8>, NoMemory>
    requires lawful { IsLawfulView view.now }
    ensures { IfOk result (λ text. (m : Machine) → IsViewOf view.now m → text.items ≡ listnearobj_text m a) }
{
    let near = near_to(view, a);
    let text = text_of(alloc, view.types, near)?;
    Ok(text)
}

// The lines of the items near an address.
fn text_of(alloc: Global, types: &Types, near: Near) -> Result<Vec<u8>, AllocError>
    requires { AreKnown types.now near }
    ensures { IfOk result (λ text. text.items ≡ near_text types.now near) }
{
    let mut text = Vec::new(alloc);
    put_near(&mut text, types, b"before", near.before)?;
    put_near(&mut text, types, b"at", near.at)?;
    put_near(&mut text, types, b"after", near.after)?;
    if text.is_empty() {
        text.extend_from_slice(b"none\n")?;
    }
    Ok(text)
}

// Puts the line of an item at the end behind a word, where there is one.
fn put_near(
    text: &mut Vec<u8>,
    types: &Types,
    word: &[u8],
    item: Option<Item>,
) -> Result<(), AllocError>
    requires { (i : Item) → item ≡ Some i → i.type_id.0 ≤ length types.now }
    ensures { OnOk result (text.new.items ≡ text.old.items ++ near_line word.now types.now item) }
{
    let Some(item) = item else {
        return Ok(());
    };
    put_words(text, word, b" ")?;
    put_item(text, types, &item)?;
    Ok(())
}

// The items at and next to an address.
fn near_to(view: &View<'_>, a: u64) -> Near
    requires lawful { IsLawfulView view.now }
    ensures near { (m : Machine) → IsViewOf view.now m → result ≡ near_in (near_items m a) a }
    ensures known { AreKnown view.now.types.now result }
{
    let Some(k) = segment_with(view.heap, a) else {
        return NONE;
    };
    near_within(view, k, a)
}

// The items of segment `k` at and next to an address of it.
fn near_within(view: &View<'_>, k: usize, a: u64) -> Near
    requires lawful { IsLawfulView view.now }
    requires in_range { k < length view.now.heap.now.segments }
    requires low { first_of view.now.heap.now k ≤ a }
    requires high { a < last_of view.now.heap.now k }
    ensures { result ≡ near_in (listing view.now.types.now view.now.heap.now k) a }
{
    let start = walk_start(view.heap, view.types, view.bricks, k, a);
    let near = near_from(view.heap, view.types, k, start, a);
    if near.before.is_some() {
        return near;
    }
    if start == view.heap.info(k).first_place() {
        return near;
    }
    Near {
        before: last_at(view, k, start - 1),
        at: near.at,
        after: near.after,
    }
}

// The last item of segment `k` that begins at or below an address of it.
fn last_at(view: &View<'_>, k: usize, a: u64) -> Option<Item>
    requires lawful { IsLawfulView view.now }
    requires in_range { k < length view.now.heap.now.segments }
    requires low { first_of view.now.heap.now k ≤ a }
    requires high { a < last_of view.now.heap.now k }
    ensures { result ≡ last_begun a (listing view.now.types.now view.now.heap.now k) }
{
    let start = walk_start(view.heap, view.types, view.bricks, k, a);
    let near = near_from(view.heap, view.types, k, start, a);
    near.at.or(near.before)
}

// The items at and next to an address of segment `k`, on a walk that begins at or below the address.
fn near_from(heap: &Heap, types: &Types, k: usize, start: u64, a: u64) -> Near
    requires in_range { k < length heap.now.segments }
    requires walk { CanWalk (sight types.now heap.now k) heap.now.memories start (last_of heap.now k) }
    requires low { first_of heap.now k ≤ start }
    ensures { result ≡ near_in (items_between (sight types.now heap.now k) start (last_of heap.now k)) a }
{
    let end = heap.info(k).end;
    let mut near = NONE;
    let mut place = start;
    let mut next_hole = start;
    let mut known = ObjectKind::none();
    while place < end {
        match heap.hole_here(k, place, &mut next_hole) {
            Some(high) => place = high,
            None => {
                let found = heap.item_like_in(types, k, place, &mut known);
                if place > a {
                    near.after = Some(found);
                    return near;
                }
                near = with_item(near, found, a);
                place += found.size;
            }
        }
    }
    near
}

// What is known with one more item, which begins at or below the address: it is over that, or ends at or below it.
fn with_item(near: Near, found: Item, a: u64) -> Near
    requires { found.place + found.size < 2 ^ 64 }
    ensures { result ≡ with_item near found a }
{
    if a < found.place + found.size {
        Near {
            before: near.before,
            at: Some(found),
            after: near.after,
        }
    } else {
        Near {
            before: Some(found),
            at: near.at,
            after: near.after,
        }
    }
}
