//! What the commands show of the heap in an image.
ghost use Rattle.std.specs.Prelude.{◌≡◌, ◌++◌, [], IfOk, OnErr, OnOk};
ghost use Rattle.clr_format.specs.Images.{is_first};
ghost use Rattle.clr_load.specs.Loading.{IsLoaded};
ghost use Rattle.clr_load.specs.Sound.{IsSound};
ghost use Rattle.clr_image.specs.Texts.{handles_text, IfUnwritten, Inspected, shown_text, tables_text};
ghost use Rattle.clr_image.specs.Texts.{Tells, Writes};
ghost use Rattle.clr_model.specs.Machine.{Machine};
ghost use Rattle.clr_model.specs.Sos.{eeheap_text};
ghost use Rattle.clr_view.specs.View.{IsHeld};
ghost use Rattle.clr_sos.specs.Buffered.{IsCut, IsPut};
ghost use Rattle.clr_sos.specs.Views.{AllStand, IsViewOf};

use crate::grown::Grown;
use clr_bricks::Bricks;
use clr_fields::LoadFault;
use clr_load::{Image, load};
use clr_mem::NoMemory;
use clr_sos::{
    View, eeheap, flush, gchandles, write_buffered, write_dumpheap, write_finalizequeue,
};
use clr_streams::{Failed, Sink};
use std::alloc::Global;

/// So many bytes of the text wait at most to be written.
const BUFFER: usize = 65_536;

/// What became of the text of an image.
#[derive(Clone, Copy, Debug, PartialEq, Eq)]
pub enum Written {
    /// It was written to its end.
    Whole,
    /// A write failed, and a part of its front was written.
    Cut,
    /// The bytes are no image, and their first fault is at this offset. Nothing was written.
    BadImage(u64),
    /// There was no memory for the heap or for the text. Nothing was written.
    Refused,
}

/// What the commands show of the heap in an image, as one text: what `inspect_to` writes.
///
/// Bytes that are no image have the fault of `load`. `NoMemory` comes only where there was no memory for the heap or
/// for the text.
pub fn inspect(alloc: Global, bytes: Vec<u8>) -> Result<Vec<u8>, LoadFault>
    ensures { Tells Inspected bytes.items result }
{
    let mut text = Grown::new(alloc);
    match inspect_to(alloc, bytes, &mut text) {
        Written::Whole => Ok(text.into_bytes()),
        Written::BadImage(offset) => Err(LoadFault::At(offset)),
        Written::Cut | Written::Refused => Err(LoadFault::NoMemory),
    }
}

/// Writes what the commands show of the heap in an image: the replies to `eeheap` and `dumpheap`, of the second version
/// those to `gchandles` and `finalizequeue`, and that to `verifyheap`, which of an image is always `clean`.
///
/// Memory is taken for the heap, for the replies to `eeheap` and `gchandles`, and for a buffer of 64 KiB, all before
/// the first byte is written. The bytes are given back once they were read.
pub fn inspect_to<K: Sink>(alloc: Global, bytes: Vec<u8>, sink: &mut K) -> Written
    ensures written { Writes Inspected bytes.items (K.written sink.old) (K.written sink.new)
        (K.faults sink.old) (K.faults sink.new) result }
    ensures unwritten { IfUnwritten result (sink.new ≡ sink.old) }
{
    let image = match read(alloc, bytes) {
        Ok(image) => image,
        Err(LoadFault::At(offset)) => return Written::BadImage(offset),
        Err(LoadFault::NoMemory) => return Written::Refused,
    };
    let bricks = Bricks::new(alloc);
    let view = view_of(&image, &bricks);
    let Ok(prepared) = prepare(alloc, &view, image.first) else {
        return Written::Refused;
    };
    match show(sink, prepared, &view, image.first) {
        Ok(()) => Written::Whole,
        Err(_) => Written::Cut,
    }
}

// What is loaded of bytes that go then.
fn read(alloc: Global, bytes: Vec<u8>) -> Result<Image, LoadFault>
    ensures loaded { IsLoaded bytes.items result }
    ensures sound { IfOk result IsSound }
    ensures version { IfOk result (λ image. image.first ≡ is_first bytes.items) }
{
    load(alloc, &bytes)
}

// What the commands look at. They ask nothing of the bricks, which an image doesn't have.
fn view_of<'a>(image: &'a Image, bricks: &'a Bricks) -> View<'a>
    ensures types { result.types.now ≡ image.now.types }
    ensures heap { result.heap.now ≡ image.now.heap }
    ensures handles { result.handles.now ≡ image.now.handles }
    ensures finals { result.finals.now ≡ image.now.finals }
    ensures locals { result.locals.now ≡ image.now.locals.items }
    ensures limit { result.limit ≡ image.now.limit }
{
    View {
        types: &image.types,
        heap: &image.heap,
        bricks,
        handles: &image.handles,
        finals: &image.finals,
        locals: &image.locals,
        limit: image.limit,
        large: image.large,
    }
}

// What is there before the first byte is written: the replies that have a bound of their own, and a buffer for the
// others.
#[derive(Drop)]
struct Prepared {
    heap: Vec<u8>,
    handles: Vec<u8>,
    buffer: Vec<u8>,
}

// Takes all memory that the text needs.
fn prepare(alloc: Global, view: &View<'_>, first: bool) -> Result<Prepared, NoMemory>
    ensures heap { IfOk result (λ made. (m : Machine) → IsViewOf view.now m → made.heap.items ≡ eeheap_text m) }
    ensures handles { IfOk result (λ made. (m : Machine) → IsViewOf view.now m
        → made.handles.items ≡ handles_text first m) }
    ensures buffer { IfOk result (λ made. made.buffer.items ≡ []) }
{
    let heap = eeheap(alloc, view)?;
    let handles = handles_of(alloc, view, first)?;
    let buffer = Vec::with_capacity(alloc, BUFFER)?;
    Ok(Prepared {
        heap,
        handles,
        buffer,
    })
}

// The reply to `gchandles`, for an image of the second version.
fn handles_of(alloc: Global, view: &View<'_>, first: bool) -> Result<Vec<u8>, NoMemory>
    ensures { IfOk result (λ text. (m : Machine) → IsViewOf view.now m → text.items ≡ handles_text first m) }
{
    if !first {
        return gchandles(alloc, view);
    }
    Ok(Vec::new(alloc))
}

// Writes the replies of all commands, one behind the other.
fn show<K: Sink>(
    sink: &mut K,
    prepared: Prepared,
    view: &View<'_>,
    first: bool,
) -> Result<(), Failed>
    requires held { IsHeld view.now.types.now view.now.heap.now }
    requires entries { AllStand view.now.types.now view.now.heap.now view.now.finals.now.entries }
    requires ready { AllStand view.now.types.now view.now.heap.now view.now.finals.now.ready }
    requires heap { (m : Machine) → IsViewOf view.now m → prepared.heap.items ≡ eeheap_text m }
    requires handles { (m : Machine) → IsViewOf view.now m → prepared.handles.items ≡ handles_text first m }
    requires buffer { prepared.buffer.items ≡ [] }
    ensures whole { OnOk result ((m : Machine) → IsViewOf view.now m → IsPut (K.written sink.old) (K.written sink.new)
        (K.faults sink.old) (K.faults sink.new) (shown_text first m) []) }
    ensures cut { OnErr result ((m : Machine) → IsViewOf view.now m → IsCut (K.written sink.old) (K.written sink.new)
        (K.faults sink.old) (K.faults sink.new) (shown_text first m)) }
{
    let mut buffer = prepared.buffer;
    write_replies(
        sink,
        &mut buffer,
        &prepared.heap,
        &prepared.handles,
        view,
        first,
    )?;
    flush(sink, &mut buffer)?;
    Ok(())
}

// Writes the replies of all commands, one behind the other, of which two were made.
fn write_replies<K: Sink>(
    sink: &mut K,
    buffer: &mut Vec<u8>,
    heap: &[u8],
    handles: &[u8],
    view: &View<'_>,
    first: bool,
) -> Result<(), Failed>
    requires held { IsHeld view.now.types.now view.now.heap.now }
    requires entries { AllStand view.now.types.now view.now.heap.now view.now.finals.now.entries }
    requires ready { AllStand view.now.types.now view.now.heap.now view.now.finals.now.ready }
    requires heap { (m : Machine) → IsViewOf view.now m → heap.now ≡ eeheap_text m }
    requires handles { (m : Machine) → IsViewOf view.now m → handles.now ≡ handles_text first m }
    ensures put { OnOk result ((m : Machine) → IsViewOf view.now m → IsPut (K.written sink.old) (K.written sink.new)
        (K.faults sink.old) (K.faults sink.new) (buffer.old.items ++ shown_text first m) buffer.new.items) }
    ensures cut { OnErr result ((m : Machine) → IsViewOf view.now m → IsCut (K.written sink.old) (K.written sink.new)
        (K.faults sink.old) (K.faults sink.new) (buffer.old.items ++ shown_text first m)) }
{
    write_buffered(sink, buffer, heap)?;
    write_dumpheap(sink, buffer, view)?;
    write_tables(sink, buffer, handles, view, first)?;
    write_buffered(sink, buffer, b"clean\n")?;
    Ok(())
}

// Writes the replies to `gchandles` and `finalizequeue`, for an image of the second version.
fn write_tables<K: Sink>(
    sink: &mut K,
    buffer: &mut Vec<u8>,
    handles: &[u8],
    view: &View<'_>,
    first: bool,
) -> Result<(), Failed>
    requires held { IsHeld view.now.types.now view.now.heap.now }
    requires entries { AllStand view.now.types.now view.now.heap.now view.now.finals.now.entries }
    requires ready { AllStand view.now.types.now view.now.heap.now view.now.finals.now.ready }
    requires handles { (m : Machine) → IsViewOf view.now m → handles.now ≡ handles_text first m }
    ensures put { OnOk result ((m : Machine) → IsViewOf view.now m → IsPut (K.written sink.old) (K.written sink.new)
        (K.faults sink.old) (K.faults sink.new) (buffer.old.items ++ tables_text first m) buffer.new.items) }
    ensures cut { OnErr result ((m : Machine) → IsViewOf view.now m → IsCut (K.written sink.old) (K.written sink.new)
        (K.faults sink.old) (K.faults sink.new) (buffer.old.items ++ tables_text first m)) }
{
    if first {
        return Ok(());
    }
    write_buffered(sink, buffer, handles)?;
    write_finalizequeue(sink, buffer, view)?;
    Ok(())
}
