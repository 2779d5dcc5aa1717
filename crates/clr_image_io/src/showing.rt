//! Commands that look at an image: its text, or the offset of the first fault.
ghost use Rattle.std.specs.Prelude.{◌≡◌, ◌≢◌, ◌⊎◌, IfOk, List, ℕ, take};
ghost use Rattle.clr_format.specs.Images.{HasFault, IsImage, Parts};
ghost use Rattle.clr_image.specs.Texts.{Inspected, Migrated};
ghost use Rattle.clr_streams.specs.Faults.{Appended, Rose};
ghost use Rattle.clr_image_io.specs.Images.{bad_image_text, IsAnswerOf, IsFaultAt, IsMade, IsTextOf, ShowsImage};
ghost use Rattle.clr_image_io.specs.Images.{unfit_image_text};

use crate::reading::{IMAGE_LIMIT, read_image};
use clr_image::{LoadFault, Written, inspect_to, migrate};
use clr_streams::{Sink, Source, Status, write_all};
use std::alloc::{AllocError, Global};

/// Reads an image of either version from the source, and writes what the commands show of its heap. Bytes that are no
/// image have one line with the offset of their first fault written.
///
/// All is read before anything is written, and all memory for the text is there before its first byte is written: it is
/// written through a buffer, and not made as a whole.
pub fn inspect_source<S: Source, K: Sink>(alloc: Global, source: &mut S, sink: &mut K) -> Status
    ensures shows { ShowsImage Inspected IMAGE_LIMIT
        (S.held source.old) (S.held source.new) (K.written sink.old) (K.written sink.new) result }
    ensures read_fault { result ≡ Status.ReadFault → Rose (S.faults source.old) (S.faults source.new) }
    ensures source_counted { result ≢ Status.ReadFault → S.faults source.new ≡ S.faults source.old }
    ensures write_fault { result ≡ Status.WriteFault → Rose (K.faults sink.old) (K.faults sink.new) }
    ensures sink_counted { result ≢ Status.WriteFault → K.faults sink.new ≡ K.faults sink.old }
    ensures unwritten { (result ≡ Status.ReadFault) ⊎ ((result ≡ Status.TooMuch) ⊎ (result ≡ Status.Memory))
        → sink.new ≡ sink.old }
    ensures usage { result ≢ Status.Usage }
{
    let bytes = match read_image(alloc, source) {
        Ok(bytes) => bytes,
        Err(fault) => return fault,
    };
    show_image(alloc, bytes, sink)
}

/// Reads an image of either version from the source, and writes it in the second version. Bytes that are no image have
/// one line with the offset of their first fault written.
///
/// All is read before anything is written, and there is memory for the whole image before its first byte is written.
pub fn migrate_source<S: Source, K: Sink>(alloc: Global, source: &mut S, sink: &mut K) -> Status
    ensures shows { ShowsImage Migrated IMAGE_LIMIT
        (S.held source.old) (S.held source.new) (K.written sink.old) (K.written sink.new) result }
    ensures read_fault { result ≡ Status.ReadFault → Rose (S.faults source.old) (S.faults source.new) }
    ensures source_counted { result ≢ Status.ReadFault → S.faults source.new ≡ S.faults source.old }
    ensures write_fault { result ≡ Status.WriteFault → Rose (K.faults sink.old) (K.faults sink.new) }
    ensures sink_counted { result ≢ Status.WriteFault → K.faults sink.new ≡ K.faults sink.old }
    ensures unwritten { (result ≡ Status.ReadFault) ⊎ ((result ≡ Status.TooMuch) ⊎ (result ≡ Status.Memory))
        → sink.new ≡ sink.old }
    ensures usage { result ≢ Status.Usage }
{
    let bytes = match read_image(alloc, source) {
        Ok(bytes) => bytes,
        Err(fault) => return fault,
    };
    let made = migrate(alloc, &bytes);
    write_answer(alloc, made, sink)
}

// Writes what the commands show of the heap in an image, or the line for bytes that are none.
fn show_image<K: Sink>(alloc: Global, bytes: Vec<u8>, sink: &mut K) -> Status
    ensures done { result ≡ Status.Done → (parts : Parts) × IsImage bytes.items parts × (text : List ℕ)
        × Inspected bytes.items parts text × Appended (K.written sink.old) (K.written sink.new) text }
    ensures bad_image { result ≡ Status.BadImage → (offset : ℕ) × HasFault bytes.items offset
        × Appended (K.written sink.old) (K.written sink.new) (bad_image_text offset) }
    ensures part { result ≡ Status.WriteFault → (text : List ℕ) × IsTextOf Inspected bytes.items text × (count : ℕ)
        × Appended (K.written sink.old) (K.written sink.new) (take count text) }
    ensures write_fault { result ≡ Status.WriteFault → Rose (K.faults sink.old) (K.faults sink.new) }
    ensures sink_counted { result ≢ Status.WriteFault → K.faults sink.new ≡ K.faults sink.old }
    ensures memory { result ≡ Status.Memory → sink.new ≡ sink.old }
    ensures usage { result ≢ Status.Usage }
    ensures read_fault { result ≢ Status.ReadFault }
    ensures too_much { result ≢ Status.TooMuch }
{
    match inspect_to(alloc, bytes, sink) {
        Written::Whole => Status::Done,
        Written::Cut => Status::WriteFault,
        Written::BadImage(offset) => write_fault(alloc, offset, sink),
        Written::Refused => Status::Memory,
    }
}

// Writes what was made of the bytes of an image, or the line for bytes that are none.
fn write_answer<K: Sink>(alloc: Global, made: Result<Vec<u8>, LoadFault>, sink: &mut K) -> Status
    ensures done { result ≡ Status.Done → (text : List ℕ) × IsMade made text
        × Appended (K.written sink.old) (K.written sink.new) text }
    ensures bad_image { result ≡ Status.BadImage → (offset : ℕ) × IsFaultAt made offset
        × Appended (K.written sink.old) (K.written sink.new) (bad_image_text offset) }
    ensures part { result ≡ Status.WriteFault → (text : List ℕ) × IsAnswerOf made text × (count : ℕ)
        × Appended (K.written sink.old) (K.written sink.new) (take count text) }
    ensures write_fault { result ≡ Status.WriteFault → Rose (K.faults sink.old) (K.faults sink.new) }
    ensures sink_counted { result ≢ Status.WriteFault → K.faults sink.new ≡ K.faults sink.old }
    ensures memory { result ≡ Status.Memory → sink.new ≡ sink.old }
    ensures usage { result ≢ Status.Usage }
    ensures read_fault { result ≢ Status.ReadFault }
    ensures too_much { result ≢ Status.TooMuch }
{
    match made {
        Ok(text) => match write_all(sink, &text) {
            Ok(()) => Status::Done,
            Err(_) => Status::WriteFault,
        },
        Err(LoadFault::NoMemory) => Status::Memory,
        Err(LoadFault::At(offset)) => write_fault(alloc, offset, sink),
    }
}

/// Writes the line for bytes that are no image, by the offset of their first fault: `bad image at OFFSET`.
///
/// `BadImage` comes where it was written, `WriteFault` where a write failed and a part from its front was written, and
/// `Memory` where there was none for the line.
pub fn write_fault<K: Sink>(alloc: Global, offset: u64, sink: &mut K) -> Status
    ensures written { result ≡ Status.BadImage → Appended
        (K.written sink.old) (K.written sink.new) (bad_image_text offset) }
    ensures part { result ≡ Status.WriteFault → (count : ℕ) × Appended
        (K.written sink.old) (K.written sink.new) (take count (bad_image_text offset)) }
    ensures write_fault { result ≡ Status.WriteFault → Rose (K.faults sink.old) (K.faults sink.new) }
    ensures sink_counted { result ≢ Status.WriteFault → K.faults sink.new ≡ K.faults sink.old }
    ensures memory { result ≡ Status.Memory → sink.new ≡ sink.old }
    ensures complete { (result ≡ Status.BadImage) ⊎ ((result ≡ Status.WriteFault) ⊎ (result ≡ Status.Memory)) }
{
    let Ok(text) = fault_text(alloc, offset) else {
        return Status::Memory;
    };
    write_refusal(&text, sink)
}

/// Writes the line for an image from which no run goes on, by the offset of the first field that no run has: `unfit
/// image at OFFSET`. It answers as `write_fault`.
pub fn write_unfit<K: Sink>(alloc: Global, offset: u64, sink: &mut K) -> Status
    ensures written { result ≡ Status.BadImage → Appended
        (K.written sink.old) (K.written sink.new) (unfit_image_text offset) }
    ensures part { result ≡ Status.WriteFault → (count : ℕ) × Appended
        (K.written sink.old) (K.written sink.new) (take count (unfit_image_text offset)) }
    ensures write_fault { result ≡ Status.WriteFault → Rose (K.faults sink.old) (K.faults sink.new) }
    ensures sink_counted { result ≢ Status.WriteFault → K.faults sink.new ≡ K.faults sink.old }
    ensures memory { result ≡ Status.Memory → sink.new ≡ sink.old }
    ensures complete { (result ≡ Status.BadImage) ⊎ ((result ≡ Status.WriteFault) ⊎ (result ≡ Status.Memory)) }
{
    let Ok(text) = unfit_text(alloc, offset) else {
        return Status::Memory;
    };
    write_refusal(&text, sink)
}

// Writes the one line that is written in the place of an answer.
fn write_refusal<K: Sink>(text: &[u8], sink: &mut K) -> Status
    ensures written { result ≡ Status.BadImage → Appended (K.written sink.old) (K.written sink.new) text.now }
    ensures part { result ≡ Status.WriteFault → (count : ℕ) × Appended
        (K.written sink.old) (K.written sink.new) (take count text.now) }
    ensures write_fault { result ≡ Status.WriteFault → Rose (K.faults sink.old) (K.faults sink.new) }
    ensures sink_counted { result ≢ Status.WriteFault → K.faults sink.new ≡ K.faults sink.old }
    ensures complete { (result ≡ Status.BadImage) ⊎ (result ≡ Status.WriteFault) }
{
    match write_all(sink, text) {
        Ok(()) => Status::BadImage,
        Err(_) => Status::WriteFault,
    }
}

// The line for bytes that are no image.
fn fault_text(alloc: Global, offset: u64) -> Result<Vec<u8>, AllocError>
    ensures { IfOk result (λ text. text.items ≡ bad_image_text offset) }
{
    Ok(format!(in alloc; "bad image at {offset}\n")?.into_bytes())
}

// The line for an image from which no run goes on.
fn unfit_text(alloc: Global, offset: u64) -> Result<Vec<u8>, AllocError>
    ensures { IfOk result (λ text. text.items ≡ unfit_image_text offset) }
{
    Ok(format!(in alloc; "unfit image at {offset}\n")?.into_bytes())
}
