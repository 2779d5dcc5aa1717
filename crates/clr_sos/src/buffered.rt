//! Texts that are written through a buffer, so that no memory is taken for them.
ghost use Rattle.std.specs.Prelude.{◌≡◌, ◌++◌, [], OnErr, OnOk};
ghost use Rattle.clr_sos.specs.Buffered.{IsCut, IsPut};

use clr_streams::{Failed, Sink, push_all, write_all};

mod lines;
mod listing;
mod queue;

pub use crate::buffered::listing::write_dumpheap;
pub use crate::buffered::queue::write_finalizequeue;

/// Writes what a buffer holds, and empties it. After `Failed` a part of its front was written.
pub fn flush<K: Sink>(sink: &mut K, buffer: &mut Vec<u8>) -> Result<(), Failed>
    ensures put { OnOk result (IsPut (K.written sink.old) (K.written sink.new)
        (K.faults sink.old) (K.faults sink.new) buffer.old.items buffer.new.items) }
    ensures emptied { OnOk result (buffer.new.items ≡ []) }
    ensures cut { OnErr result (IsCut (K.written sink.old) (K.written sink.new)
        (K.faults sink.old) (K.faults sink.new) buffer.old.items) }
{
    write_all(sink, buffer.as_slice())?;
    buffer.clear();
    Ok(())
}

/// Puts a text behind what a buffer holds, which is written first where there is no room for both. A text that is
/// longer than the buffer goes to the sink at once. No memory is taken.
#[inline(always)]
pub fn write_buffered<K: Sink>(
    sink: &mut K,
    buffer: &mut Vec<u8>,
    text: &[u8],
) -> Result<(), Failed>
    ensures put { OnOk result (IsPut (K.written sink.old) (K.written sink.new)
        (K.faults sink.old) (K.faults sink.new) (buffer.old.items ++ text.now) buffer.new.items) }
    ensures cut { OnErr result (IsCut (K.written sink.old) (K.written sink.new)
        (K.faults sink.old) (K.faults sink.new) (buffer.old.items ++ text.now)) }
{
    if text.len() > buffer.capacity() - buffer.len() {
        write_over(sink, buffer, text)?;
        return Ok(());
    }
    push_all(buffer, text);
    Ok(())
}

// Writes what a buffer holds, and then a text for which there was no room behind it.
#[inline(never)]
fn write_over<K: Sink>(sink: &mut K, buffer: &mut Vec<u8>, text: &[u8]) -> Result<(), Failed>
    ensures put { OnOk result (IsPut (K.written sink.old) (K.written sink.new)
        (K.faults sink.old) (K.faults sink.new) (buffer.old.items ++ text.now) buffer.new.items) }
    ensures cut { OnErr result (IsCut (K.written sink.old) (K.written sink.new)
        (K.faults sink.old) (K.faults sink.new) (buffer.old.items ++ text.now)) }
{
    flush(sink, buffer)?;
    if text.len() > buffer.capacity() {
        write_all(sink, text)?;
        return Ok(());
    }
    push_all(buffer, text);
    Ok(())
}
