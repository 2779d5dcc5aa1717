// The finalisation queue, as text.
ghost use Rattle.std.specs.Prelude.{◌≡◌, ◌++◌, ◌∷◌, [], codes, decimal, IfOk, OnOk};
ghost use Rattle.std.specs.List.{flat_map};
ghost use Rattle.clr_model.specs.Machine.{Machine};
ghost use Rattle.clr_model.specs.Sos.{finalizequeue_text, line};
ghost use Rattle.clr_view.specs.SlotValues.{StandsAt};
ghost use Rattle.clr_view.specs.View.{IsHeld, objects_in};
ghost use Rattle.clr_sos.specs.TextPieces.{queued_line};
ghost use Rattle.clr_sos.specs.Views.{AllStand, IsViewOf};

use crate::View;
use crate::text::{put_address, put_word_number, put_words};
use clr_heap::Heap;
use clr_mem::NoMemory;
use clr_types::Types;
use clr_view::object_item;
use std::alloc::{AllocError, Global};

/// The finalisation queue: the objects that are to be finalised once they die, and those that wait for their finaliser.
///
/// A line for each entry, in the order of registration: `entry PLACE TYPE`, with the name of the object's type. Then a
/// line for each f-reachable object, the next one to be finalised first: `ready PLACE TYPE`. The last line counts both:
/// `entries COUNT ready COUNT`. An object that is registered twice has two lines.
///
/// A place has 16 hexadecimal digits, and counts are decimal. `NoMemory` comes only where there was no memory for the
/// text. The heap has to hold the objects of its words, and an object has to stand at each place of both lists.
pub fn finalizequeue(alloc: Global, view: &View<'_>) -> Result<Vec<u8>, NoMemory>
    requires held { IsHeld view.now.types.now view.now.heap.now }
    requires entries { AllStand view.now.types.now view.now.heap.now view.now.finals.now.entries }
    requires ready { AllStand view.now.types.now view.now.heap.now view.now.finals.now.ready }
    ensures text { IfOk result (λ text. (m : Machine) → IsViewOf view.now m → text.items ≡ finalizequeue_text m) }
{
    let entries = view.finals.entries();
    let ready = view.finals.ready();
    let mut text = Vec::new(alloc);
    put_queue(&mut text, view.types, view.heap, b"entry", entries)?;
    put_queue(&mut text, view.types, view.heap, b"ready", ready)?;
    put_counts(&mut text, entries.len() as u64, ready.len() as u64)?;
    Ok(text)
}

// Puts a line for each place at the end, which begins with a word.
fn put_queue(
    text: &mut Vec<u8>,
    types: &Types,
    heap: &Heap,
    word: &[u8],
    places: &[u64],
) -> Result<(), AllocError>
    requires held { IsHeld types.now heap.now }
    requires stand { AllStand types.now heap.now places.now }
    ensures { OnOk result (text.new.items ≡ text.old.items
        ++ flat_map (queued_line types.now (objects_in types.now heap.now) word.now) places.now) }
{
    for place in places {
        put_queued(text, types, heap, word, *place)?;
    }
    Ok(())
}

// Puts the line of a place at the end, which begins with a word.
fn put_queued(
    text: &mut Vec<u8>,
    types: &Types,
    heap: &Heap,
    word: &[u8],
    place: u64,
) -> Result<(), AllocError>
    requires held { IsHeld types.now heap.now }
    requires stands { StandsAt types.now heap.now place }
    ensures { OnOk result (text.new.items ≡ text.old.items
        ++ queued_line types.now (objects_in types.now heap.now) word.now place) }
{
    let item = object_item(heap, types, place);
    put_words(text, word, b" ")?;
    put_address(text, place)?;
    put_words(text, b" ", types.name(item.type_id))?;
    text.extend_from_slice(b"\n")?;
    Ok(())
}

// Puts the line of how many stand in both lists at the end.
fn put_counts(text: &mut Vec<u8>, entries: u64, ready: u64) -> Result<(), AllocError>
    ensures { OnOk result (text.new.items ≡ text.old.items
        ++ line (codes "entries" ∷ decimal entries ∷ codes "ready" ∷ decimal ready ∷ [])) }
{
    put_word_number(text, b"entries ", entries)?;
    put_word_number(text, b" ready ", ready)?;
    text.extend_from_slice(b"\n")?;
    Ok(())
}
