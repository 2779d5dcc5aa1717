//! `dumpobj`: one object with its slots.
ghost use Rattle.std.specs.Prelude.{◌≡◌, ◌≢◌, ◌≤◌, ◌↔◌, ◌∷◌, ◌++◌, ◌-◌, length, IfOk, OnOk, None, decimal};
ghost use Rattle.clr_types.specs.Rising.{IsIn};
ghost use Rattle.clr_types.specs.Types.{form_at, slot_kinds};
ghost use Rattle.clr_bricks.specs.Bricks.{entry_at};
ghost use Rattle.clr_heap.specs.View.{frame, heap_items, IsHeap};
ghost use Rattle.clr_model.specs.Lookups.{object_at as object_of};
ghost use Rattle.clr_model.specs.Machine.{Machine};
ghost use Rattle.clr_model.specs.Looks.{dumparray_text, rest_line};
ghost use Rattle.clr_model.specs.Sos.{dumpobj_text, length_words, line, slot_words};
ghost use Rattle.clr_view.specs.View.{IsHeld, objects_in, word_value};
ghost use Rattle.clr_generations.specs.Laws.{BrickLaw};
ghost use Rattle.clr_generations.specs.Tables.{AreBricksOf};
ghost use Rattle.clr_sos.specs.ObjectTexts.{array_item_text, head_line, item_text, slot_lines, slots_in};
ghost use Rattle.clr_sos.specs.Views.{IsViewOf};

use crate::text::{put_number, put_place, put_word_address, put_word_number, put_words};
use crate::{SosFault, View};
use clr_generations::object_at;
use clr_heap::{Heap, Item};
use clr_types::Types;
use clr_view::slot_value;
use std::alloc::{AllocError, Global};

/// How many slots of an object are shown.
const SHOWN_SLOTS: u64 = 16;

/// Room for the text of an object whose type has no long name, in bytes.
const ROOM: usize = 768;

/// What `dumpobj` shows of the object with the place `a`:
///
/// ```text
/// object 0000000010001008 Node size 168 gen 1
/// slot 0 ref 00000000100010b0
/// slot 1 ref null
/// slot 2 num 7
/// ..
/// more 2
/// ```
///
/// The first line has its place, the name of its type, its size in bytes and its generation, and of an array ` length`
/// and the number of its elements at the end. A line for each slot follows, by rising number, 16 of them at most: the
/// place that a reference leads to, or `null`, or a number, in an array of bytes a byte. The last line tells how many
/// slots aren't shown, and comes only where there are any. Places are 16 hexadecimal digits, all else is decimal.
///
/// `NoObject` comes exactly where no object has the place, and `NoMemory` only where there is no memory for the text.
/// The object is found by bricks, without a walk of its segment.
pub fn dumpobj(alloc: Global, view: &View<'_>, a: u64) -> Result<Vec<u8>, SosFault>
    requires held { IsHeld view.now.types.now view.now.heap.now }
    requires bricks { AreBricksOf (frame view.now.heap.now) view.now.bricks.now }
    requires law { BrickLaw view.now.types.now (frame view.now.heap.now)
        (objects_in view.now.types.now view.now.heap.now) (entry_at view.now.bricks.now) }
    ensures text { IfOk result (λ text. (m : Machine) → IsViewOf view.now m → text.items ≡ dumpobj_text m a) }
    ensures no_object { (m : Machine) → IsViewOf view.now m
        → ((result ≡ Err SosFault.NoObject) ↔ (object_of m.objects a ≡ None)) }
    ensures no_type { result ≢ Err SosFault.UnknownType }
{
    view.heap.lawful();
    let Some(item) = object_at(view.heap, view.types, view.bricks, a) else {
        return Err(SosFault::NoObject);
    };
    let text = text_of(alloc, view.types, view.heap, &item)?;
    Ok(text)
}

/// What `dumparray` shows of the object at the address `a`, whatever its type: the first line as `dumpobj` has it, and
/// a line for each slot from number `start` on, at most `length` of them, as that has them. Where nothing is said, these
/// are 0 and all. The last line tells how many slots come behind those, and comes only where there are any.
///
/// `NoObject` comes exactly where no object stands there, and `NoMemory` only where there is no memory for the text.
/// Slots before and behind those that are shown aren't read.
pub fn dumparray(
    alloc: Global,
    view: &View<'_>,
    start: Option<u64>,
    length: Option<u64>,
    a: u64,
) -> Result<Vec<u8>, SosFault>
    requires held { IsHeld view.now.types.now view.now.heap.now }
    requires bricks { AreBricksOf (frame view.now.heap.now) view.now.bricks.now }
    requires law { BrickLaw view.now.types.now (frame view.now.heap.now)
        (objects_in view.now.types.now view.now.heap.now) (entry_at view.now.bricks.now) }
    ensures text { IfOk result (λ text. (m : Machine) → IsViewOf view.now m
        → text.items ≡ dumparray_text m start length (object_of m.objects a)) }
    ensures no_object { (m : Machine) → IsViewOf view.now m
        → ((result ≡ Err SosFault.NoObject) ↔ (object_of m.objects a ≡ None)) }
    ensures no_type { result ≢ Err SosFault.UnknownType }
{
    view.heap.lawful();
    let Some(item) = object_at(view.heap, view.types, view.bricks, a) else {
        return Err(SosFault::NoObject);
    };
    let text = array_text(alloc, view.types, view.heap, &item, start, length)?;
    Ok(text)
}

// The text of the slots of an object.
fn array_text(
    alloc: Global,
    types: &Types,
    heap: &Heap,
    item: &Item,
    start: Option<u64>,
    length: Option<u64>,
) -> Result<Vec<u8>, AllocError>
    requires heap { IsHeap heap.now }
    requires held { IsHeld types.now heap.now }
    requires listed { IsIn item.now (heap_items types.now heap.now) }
    ensures { IfOk result (λ text. text.items ≡ array_item_text types.now heap.now start length item.now) }
{
    let mut text = Vec::with_capacity(alloc, ROOM)?;
    put_head(&mut text, types, item, heap.gen_of(item.place))?;
    let count = types.slot_count(item.type_id, item.len);
    let first = start.unwrap_or(0).min(count);
    let shown = length.unwrap_or(count).min(count - first);
    put_slots(&mut text, types, heap, item, first, first + shown)?;
    put_more(&mut text, count - first - shown)?;
    Ok(text)
}

// The text of an object.
fn text_of(alloc: Global, types: &Types, heap: &Heap, item: &Item) -> Result<Vec<u8>, AllocError>
    requires heap { IsHeap heap.now }
    requires held { IsHeld types.now heap.now }
    requires listed { IsIn item.now (heap_items types.now heap.now) }
    ensures { IfOk result (λ text. text.items ≡ item_text types.now heap.now item.now) }
{
    let mut text = Vec::with_capacity(alloc, ROOM)?;
    put_head(&mut text, types, item, heap.gen_of(item.place))?;
    let count = types.slot_count(item.type_id, item.len);
    let shown = count.min(SHOWN_SLOTS);
    put_slots(&mut text, types, heap, item, 0, shown)?;
    put_more(&mut text, count - shown)?;
    Ok(text)
}

// Puts the line of an object itself at the end.
fn put_head(
    text: &mut Vec<u8>,
    types: &Types,
    item: &Item,
    generation: u8,
) -> Result<(), AllocError>
    requires { item.now.type_id.0 ≤ length types.now }
    ensures { OnOk result (text.new.items ≡ text.old.items ++ head_line types.now generation item.now) }
{
    put_word_address(text, b"object ", item.place)?;
    put_words(text, b" ", types.name(item.type_id))?;
    put_word_number(text, b" size ", item.size)?;
    text.extend_from_slice(b" gen ")?;
    put_line_end(
        text,
        u64::from(generation),
        types.has_length(item.type_id),
        item.len,
    )
}

// Puts a number at the end, behind it the length of an array, and a line feed.
fn put_line_end(
    text: &mut Vec<u8>,
    number: u64,
    has_length: bool,
    len: u64,
) -> Result<(), AllocError>
    ensures { OnOk result (text.new.items ≡ text.old.items ++ line (decimal number ∷ length_words has_length len)) }
{
    put_number(text, number)?;
    if has_length {
        put_word_number(text, b" length ", len)?;
    }
    text.extend_from_slice(b"\n")?;
    Ok(())
}

// Puts the lines of the slots of an object from `from` on and below `to` at the end.
fn put_slots(
    text: &mut Vec<u8>,
    types: &Types,
    heap: &Heap,
    item: &Item,
    from: u64,
    to: u64,
) -> Result<(), AllocError>
    requires heap { IsHeap heap.now }
    requires held { IsHeld types.now heap.now }
    requires listed { IsIn item.now (heap_items types.now heap.now) }
    requires order { from ≤ to }
    requires below { to ≤ length (slot_kinds (form_at types.now item.now.type_id.0) item.now.len) }
    ensures { OnOk result (text.new.items
        ≡ text.old.items ++ slot_lines from (to - from) (slots_in types.now heap.now item.now)) }
{
    for i in from..to {
        let slot = types.slot(item.type_id, item.len, i);
        let value = slot_value(heap, types, item, slot);
        put_slot(text, i, slot.reference, value)?;
    }
    Ok(())
}

// Puts the line of slot `i` at the end.
fn put_slot(text: &mut Vec<u8>, i: u64, reference: bool, value: u64) -> Result<(), AllocError>
    ensures { OnOk result (text.new.items ≡ text.old.items ++ line (slot_words (i, word_value reference value))) }
{
    put_word_number(text, b"slot ", i)?;
    if reference {
        text.extend_from_slice(b" ref ")?;
        put_place(text, value)?;
    } else {
        put_word_number(text, b" num ", value)?;
    }
    text.extend_from_slice(b"\n")?;
    Ok(())
}

// Puts the line that tells how many slots come behind those that are shown at the end, where there are any.
fn put_more(text: &mut Vec<u8>, count: u64) -> Result<(), AllocError>
    ensures { OnOk result (text.new.items ≡ text.old.items ++ rest_line count) }
{
    if count == 0 {
        return Ok(());
    }
    put_word_number(text, b"more ", count)?;
    text.extend_from_slice(b"\n")?;
    Ok(())
}
