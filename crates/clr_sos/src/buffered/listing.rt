//! The listing of the heap, written through a buffer.
ghost use Rattle.std.specs.Prelude.{◌≡◌, ◌≤◌, ◌++◌, ◌∷◌, [], length, OnErr, OnOk};
ghost use Rattle.clr_heap.specs.View.{heap_items, IsHeap};
ghost use Rattle.clr_view.specs.View.{IsHeld};
ghost use Rattle.clr_model.specs.declared.Mode.TheVariants.{Full};
ghost use Rattle.clr_model.specs.Sos.{dump_by_mode, item_line};
ghost use Rattle.clr_sos.specs.Buffered.{IsCut, IsPut};
ghost use Rattle.clr_sos.specs.Dumping.{AreListed, totals_line};

use crate::View;
use crate::buffered::lines::write_totals;
use crate::buffered::write_buffered;
use crate::heap_items::{HeapItems, items_of};
use crate::listing_lines::Totals;
use crate::text::write_head;
use clr_streams::{Failed, Sink};
use clr_types::{Item, Types};

/// Writes the reply to a `dumpheap` with no option, as `dumpheap` has it, through a buffer. No memory is taken. The
/// heap has to hold the objects of its words.
pub fn write_dumpheap<K: Sink>(
    sink: &mut K,
    buffer: &mut Vec<u8>,
    view: &View<'_>,
) -> Result<(), Failed>
    requires { IsHeld view.now.types.now view.now.heap.now }
    ensures put { OnOk result (IsPut (K.written sink.old) (K.written sink.new)
        (K.faults sink.old) (K.faults sink.new) (buffer.old.items
        ++ dump_by_mode Full view.now.types.now (heap_items view.now.types.now view.now.heap.now)) buffer.new.items) }
    ensures cut { OnErr result (IsCut (K.written sink.old) (K.written sink.new)
        (K.faults sink.old) (K.faults sink.new) (buffer.old.items
        ++ dump_by_mode Full view.now.types.now (heap_items view.now.types.now view.now.heap.now))) }
    ensures heap { IsHeap view.now.heap.now }
{
    let items = items_of(view.types, view.heap);
    write_items(sink, buffer, view.types, items)
}

// Writes a line for each item, and the line of the totals.
fn write_items<K: Sink>(
    sink: &mut K,
    buffer: &mut Vec<u8>,
    types: &Types,
    items: HeapItems<'_>,
) -> Result<(), Failed>
    requires { AreListed types.now items }
    ensures put { OnOk result (IsPut (K.written sink.old) (K.written sink.new)
        (K.faults sink.old) (K.faults sink.new) (buffer.old.items ++ dump_by_mode Full types.now items.entry)
        buffer.new.items) }
    ensures cut { OnErr result (IsCut (K.written sink.old) (K.written sink.new)
        (K.faults sink.old) (K.faults sink.new) (buffer.old.items ++ dump_by_mode Full types.now items.entry)) }
{
    let mut totals = Totals {
        objects: 0,
        bytes: 0,
        free: 0,
    };
    for item in items {
        write_item(sink, buffer, types, &item)?;
        totals.count(&item);
    }
    put_totals(sink, buffer, totals)?;
    Ok(())
}

// Writes the line of an item.
#[inline(always)]
fn write_item<K: Sink>(
    sink: &mut K,
    buffer: &mut Vec<u8>,
    types: &Types,
    item: &Item,
) -> Result<(), Failed>
    requires { item.now.type_id.0 ≤ length types.now }
    ensures put { OnOk result (IsPut (K.written sink.old) (K.written sink.new)
        (K.faults sink.old) (K.faults sink.new) (buffer.old.items ++ item_line types.now item.now) buffer.new.items) }
    ensures cut { OnErr result (IsCut (K.written sink.old) (K.written sink.new)
        (K.faults sink.old) (K.faults sink.new) (buffer.old.items ++ item_line types.now item.now)) }
{
    let mut head = [0; 56];
    let end = write_head(&mut head, item.place, types.mt(item.type_id), item.size);
    write_named(sink, buffer, &head[..end], types.name(item.type_id))
}

/// Writes a line that ends in a name.
#[inline(always)]
pub(crate) fn write_named<K: Sink>(
    sink: &mut K,
    buffer: &mut Vec<u8>,
    head: &[u8],
    name: &[u8],
) -> Result<(), Failed>
    ensures put { OnOk result (IsPut (K.written sink.old) (K.written sink.new) (K.faults sink.old) (K.faults sink.new)
        (buffer.old.items ++ ((head.now ++ name.now) ++ (10 ∷ []))) buffer.new.items) }
    ensures cut { OnErr result (IsCut (K.written sink.old) (K.written sink.new) (K.faults sink.old) (K.faults sink.new)
        (buffer.old.items ++ ((head.now ++ name.now) ++ (10 ∷ [])))) }
{
    write_buffered(sink, buffer, head)?;
    write_buffered(sink, buffer, name)?;
    write_buffered(sink, buffer, b"\n")?;
    Ok(())
}

// Writes the line of the totals.
fn put_totals<K: Sink>(sink: &mut K, buffer: &mut Vec<u8>, totals: Totals) -> Result<(), Failed>
    ensures put { OnOk result (IsPut (K.written sink.old) (K.written sink.new)
        (K.faults sink.old) (K.faults sink.new) (buffer.old.items ++ totals_line totals) buffer.new.items) }
    ensures cut { OnErr result (IsCut (K.written sink.old) (K.written sink.new)
        (K.faults sink.old) (K.faults sink.new) (buffer.old.items ++ totals_line totals)) }
{
    let mut line = [0; 80];
    let end = write_totals(&mut line, totals);
    write_buffered(sink, buffer, &line[..end])
}
