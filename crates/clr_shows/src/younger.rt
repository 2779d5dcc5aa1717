//! `ephrefs`: the slots that refer to objects of lower generations.
ghost use Rattle.std.specs.Prelude.{◌≡◌, ◌++◌, ◌∷◌, ◌<◌, ◌≤◌, [], length, IfNone, IfOk, IfSome, OnOk, true};
ghost use Rattle.std.specs.List.{flat_map};
ghost use Rattle.clr_types.specs.Rising.{IsIn};
ghost use Rattle.clr_types.specs.Segments.{generation as generation_of};
ghost use Rattle.clr_types.specs.Types.{form_at, slot_kinds};
ghost use Rattle.clr_heap.specs.View.{frame, heap_items};
ghost use Rattle.clr_model.specs.Looks.{ephrefs_text, younger_line, younger_slots};
ghost use Rattle.clr_model.specs.Machine.{Machine, ref};
ghost use Rattle.clr_view.specs.View.{is_object};
ghost use Rattle.clr_sos.specs.Reaching.{IsObjectOf};
ghost use Rattle.clr_sos.specs.Views.{IsLawfulView, IsShownView, IsViewOf};
ghost use Rattle.clr_shows.specs.Younger.{object_of, objects_of, younger_at, younger_lines};

use clr_heap::Item;
use clr_mem::NoMemory;
use clr_sos::{View, items_of, put_address, put_place_line, put_word_number, put_words};
use clr_view::slot_value;
use std::alloc::{AllocError, Global};

/// The slots that refer to an object of a lower generation than their own object has, by rising address and slot, a
/// line for each, and how many these are.
///
/// ```text
/// 0000000010001000 A slot 2 ref 0000000010001078 A
/// refs 1
/// ```
///
/// `NoMemory` comes only where there is no memory for the text. It is one walk over the heap, and reads no slot of
/// generation 0, nor of an object that has no references.
pub fn ephrefs(alloc: Global, view: &View<'_>) -> Result<Vec<u8>, NoMemory>
    requires lawful { IsLawfulView view.now }
    ensures { IfOk result (λ text. (m : Machine) → IsViewOf view.now m → text.items ≡ ephrefs_text m) }
{
    let mut text = Vec::new(alloc);
    let mut count = 0;
    for item in items_of(view.types, view.heap) {
        count += put_younger(&mut text, view, &item)?;
    }
    put_word_number(&mut text, b"refs ", count)?;
    text.extend_from_slice(b"\n")?;
    Ok(text)
}

// Puts a line for each slot of an item that refers to an object of a lower generation at the end, and answers how many
// these are.
fn put_younger(text: &mut Vec<u8>, view: &View<'_>, item: &Item) -> Result<u64, AllocError>
    requires shown { IsShownView view.now }
    requires listed { IsIn item.now (heap_items view.now.types.now view.now.heap.now) }
    ensures text { OnOk result ((m : Machine) → IsViewOf view.now m
        → text.new.items ≡ text.old.items ++ younger_lines m (objects_of view.now (item.now ∷ []))) }
    ensures count { IfOk result (λ count. (m : Machine) → IsViewOf view.now m
        → count ≡ length (flat_map (younger_slots m) (objects_of view.now (item.now ∷ [])))) }
    ensures few { IfOk result (λ count. count ≤ item.now.size) }
{
    let generation = view.heap.gen_of(item.place);
    if generation == 0 {
        return Ok(0);
    }
    if view.types.series(item.type_id).is_empty() {
        return Ok(0);
    }
    let count = put_slots(text, view, item, generation)?;
    Ok(count)
}

// Puts a line for each slot of an object that refers to one below its generation at the end, and answers how many these
// are.
fn put_slots(
    text: &mut Vec<u8>,
    view: &View<'_>,
    item: &Item,
    generation: u8,
) -> Result<u64, AllocError>
    requires shown { IsShownView view.now }
    requires listed { IsIn item.now (heap_items view.now.types.now view.now.heap.now) }
    requires object { is_object item.now ≡ true }
    requires generation { generation ≡ generation_of (frame view.now.heap.now) item.now.place }
    ensures text { OnOk result ((m : Machine) → IsViewOf view.now m → text.new.items ≡ text.old.items
        ++ flat_map (younger_line m (object_of view.now item.now)) (younger_slots m (object_of view.now item.now))) }
    ensures count { IfOk result (λ count. (m : Machine) → IsViewOf view.now m
        → count ≡ length (younger_slots m (object_of view.now item.now))) }
    ensures few { IfOk result (λ count. count ≤ item.now.size) }
{
    let mut count = 0;
    for i in 0..view.types.slot_count(item.type_id, item.len) {
        count += put_slot(text, view, item, generation, i)?;
    }
    Ok(count)
}

// Puts the line of slot `i` of an object at the end where it refers to one below its generation, and answers how many
// lines that makes.
#[inline(always)]
fn put_slot(
    text: &mut Vec<u8>,
    view: &View<'_>,
    item: &Item,
    generation: u8,
    i: u64,
) -> Result<u64, AllocError>
    requires shown { IsShownView view.now }
    requires listed { IsIn item.now (heap_items view.now.types.now view.now.heap.now) }
    requires object { is_object item.now ≡ true }
    requires generation { generation ≡ generation_of (frame view.now.heap.now) item.now.place }
    requires below { i < length (slot_kinds (form_at view.now.types.now item.now.type_id.0) item.now.len) }
    ensures text { OnOk result ((m : Machine) → IsViewOf view.now m → text.new.items ≡ text.old.items
        ++ flat_map (younger_line m (object_of view.now item.now)) (younger_at m (object_of view.now item.now) i)) }
    ensures count { IfOk result (λ count. (m : Machine) → IsViewOf view.now m
        → count ≡ length (younger_at m (object_of view.now item.now) i)) }
    ensures few { IfOk result (λ count. count ≤ 1) }
{
    let Some(target) = younger_target(view, item, generation, i) else {
        return Ok(0);
    };
    put_reference(text, view, item, i, target)?;
    Ok(1)
}

// The address that slot `i` of an object refers to, where an object below its generation stands there.
#[inline(always)]
fn younger_target(view: &View<'_>, item: &Item, generation: u8, i: u64) -> Option<u64>
    requires shown { IsShownView view.now }
    requires listed { IsIn item.now (heap_items view.now.types.now view.now.heap.now) }
    requires object { is_object item.now ≡ true }
    requires generation { generation ≡ generation_of (frame view.now.heap.now) item.now.place }
    requires below { i < length (slot_kinds (form_at view.now.types.now item.now.type_id.0) item.now.len) }
    ensures none { IfNone result ((m : Machine) → IsViewOf view.now m
        → younger_at m (object_of view.now item.now) i ≡ []) }
    ensures some { IfSome result (λ target. (m : Machine) → IsViewOf view.now m
        → younger_at m (object_of view.now item.now) i ≡ (i, ref target) ∷ []) }
    ensures stands { IfSome result (IsObjectOf view.now) }
{
    let slot = view.types.slot(item.type_id, item.len, i);
    if !slot.reference {
        return None;
    }
    let target = slot_value(view.heap, view.types, item, slot);
    if target == 0 {
        return None;
    }
    if view.heap.gen_of(target) >= generation {
        return None;
    }
    Some(target)
}

// Puts the line of slot `i` of an item, which refers to an object, at the end.
fn put_reference(
    text: &mut Vec<u8>,
    view: &View<'_>,
    item: &Item,
    i: u64,
    target: u64,
) -> Result<(), AllocError>
    requires shown { IsShownView view.now }
    requires listed { IsIn item.now (heap_items view.now.types.now view.now.heap.now) }
    requires stands { IsObjectOf view.now target }
    ensures { OnOk result ((m : Machine) → IsViewOf view.now m
        → text.new.items ≡ text.old.items ++ younger_line m (object_of view.now item.now) (i, ref target)) }
{
    put_address(text, item.place)?;
    put_words(text, b" ", view.types.name(item.type_id))?;
    put_word_number(text, b" slot ", i)?;
    text.extend_from_slice(b" ref ")?;
    put_place_line(text, view, target)?;
    Ok(())
}
