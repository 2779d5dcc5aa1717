//! The finalisation queue, written through a buffer.
ghost use Rattle.std.specs.Prelude.{◌≡◌, ◌≤◌, ◌++◌, length, OnErr, OnOk};
ghost use Rattle.std.specs.List.{flat_map};
ghost use Rattle.clr_types.specs.Types.{name_of};
ghost use Rattle.clr_view.specs.SlotValues.{StandsAt};
ghost use Rattle.clr_view.specs.View.{IsHeld, objects_in};
ghost use Rattle.clr_model.specs.Lookups.{object_at};
ghost use Rattle.clr_model.specs.Sos.{type_of_place};
ghost use Rattle.clr_sos.specs.Buffered.{counts_line, IsCut, IsPut, queue_text};
ghost use Rattle.clr_sos.specs.TextPieces.{queued_line};
ghost use Rattle.clr_sos.specs.Views.{AllStand};

use crate::View;
use crate::buffered::lines::{write_counts, write_queued};
use crate::buffered::listing::write_named;
use crate::buffered::write_buffered;
use clr_heap::Heap;
use clr_streams::{Failed, Sink};
use clr_types::Types;
use clr_view::object_item;

/// Writes the reply to `finalizequeue`, as `finalizequeue` has it, through a buffer. No memory is taken. The heap has
/// to hold the objects of its words, and an object has to stand at each place of both lists.
pub fn write_finalizequeue<K: Sink>(
    sink: &mut K,
    buffer: &mut Vec<u8>,
    view: &View<'_>,
) -> Result<(), Failed>
    requires held { IsHeld view.now.types.now view.now.heap.now }
    requires entries { AllStand view.now.types.now view.now.heap.now view.now.finals.now.entries }
    requires ready { AllStand view.now.types.now view.now.heap.now view.now.finals.now.ready }
    ensures put { OnOk result (IsPut (K.written sink.old) (K.written sink.new)
        (K.faults sink.old) (K.faults sink.new) (buffer.old.items
        ++ queue_text view.now.types.now (objects_in view.now.types.now view.now.heap.now)
        view.now.finals.now.entries view.now.finals.now.ready) buffer.new.items) }
    ensures cut { OnErr result (IsCut (K.written sink.old) (K.written sink.new)
        (K.faults sink.old) (K.faults sink.new) (buffer.old.items
        ++ queue_text view.now.types.now (objects_in view.now.types.now view.now.heap.now)
        view.now.finals.now.entries view.now.finals.now.ready)) }
{
    let entries = view.finals.entries();
    let ready = view.finals.ready();
    write_queue(sink, buffer, view.types, view.heap, b"entry", entries)?;
    write_queue(sink, buffer, view.types, view.heap, b"ready", ready)?;
    put_counts(sink, buffer, entries.len() as u64, ready.len() as u64)?;
    Ok(())
}

// Writes a line for each place, which begins with a word.
fn write_queue<K: Sink>(
    sink: &mut K,
    buffer: &mut Vec<u8>,
    types: &Types,
    heap: &Heap,
    word: &[u8],
    places: &[u64],
) -> Result<(), Failed>
    requires held { IsHeld types.now heap.now }
    requires stand { AllStand types.now heap.now places.now }
    requires short { length word.now ≤ 5 }
    ensures put { OnOk result (IsPut (K.written sink.old) (K.written sink.new)
        (K.faults sink.old) (K.faults sink.new) (buffer.old.items
        ++ flat_map (queued_line types.now (objects_in types.now heap.now) word.now) places.now) buffer.new.items) }
    ensures cut { OnErr result (IsCut (K.written sink.old) (K.written sink.new)
        (K.faults sink.old) (K.faults sink.new) (buffer.old.items
        ++ flat_map (queued_line types.now (objects_in types.now heap.now) word.now) places.now)) }
{
    for place in places {
        write_place(sink, buffer, types, heap, word, *place)?;
    }
    Ok(())
}

// Writes the line of a place, which begins with a word.
#[inline(always)]
fn write_place<K: Sink>(
    sink: &mut K,
    buffer: &mut Vec<u8>,
    types: &Types,
    heap: &Heap,
    word: &[u8],
    place: u64,
) -> Result<(), Failed>
    requires held { IsHeld types.now heap.now }
    requires stands { StandsAt types.now heap.now place }
    requires short { length word.now ≤ 5 }
    ensures put { OnOk result (IsPut (K.written sink.old) (K.written sink.new)
        (K.faults sink.old) (K.faults sink.new) (buffer.old.items
        ++ queued_line types.now (objects_in types.now heap.now) word.now place) buffer.new.items) }
    ensures cut { OnErr result (IsCut (K.written sink.old) (K.written sink.new)
        (K.faults sink.old) (K.faults sink.new) (buffer.old.items
        ++ queued_line types.now (objects_in types.now heap.now) word.now place)) }
{
    let mut head = [0; 24];
    let end = write_queued(&mut head, word, place);
    write_named(sink, buffer, &head[..end], name_at(types, heap, place))
}

// The name of the type of the object at a place.
#[inline(always)]
fn name_at<'a>(types: &'a Types, heap: &Heap, place: u64) -> &'a [u8]
    requires held { IsHeld types.now heap.now }
    requires stands { StandsAt types.now heap.now place }
    ensures { result.now ≡ name_of types.now (type_of_place (object_at (objects_in types.now heap.now) place)) }
{
    let item = object_item(heap, types, place);
    types.name(item.type_id)
}

// Writes the line of how many stand in both lists.
fn put_counts<K: Sink>(
    sink: &mut K,
    buffer: &mut Vec<u8>,
    entries: u64,
    ready: u64,
) -> Result<(), Failed>
    ensures put { OnOk result (IsPut (K.written sink.old) (K.written sink.new)
        (K.faults sink.old) (K.faults sink.new) (buffer.old.items ++ counts_line entries ready) buffer.new.items) }
    ensures cut { OnErr result (IsCut (K.written sink.old) (K.written sink.new)
        (K.faults sink.old) (K.faults sink.new) (buffer.old.items ++ counts_line entries ready)) }
{
    let mut line = [0; 56];
    let end = write_counts(&mut line, entries, ready);
    write_buffered(sink, buffer, &line[..end])
}
