// The segments and the contexts, as text.
ghost use Rattle.std.specs.Prelude.{◌≡◌, ◌<◌, ◌≤◌, ◌++◌, ◌∷◌, [], codes, decimal, IfOk, OnOk};
ghost use Rattle.std.specs.List.{enumerate_from, flat_map};
ghost use Rattle.clr_types.specs.Segments.{reserved_sum, rest_of};
ghost use Rattle.clr_heap.specs.View.{frame, IsHeap};
ghost use Rattle.clr_model.specs.Machine.{Machine};
ghost use Rattle.clr_model.specs.ReplyText.{segment_word};
ghost use Rattle.clr_model.specs.Sos.{boundary_words, context_line, eeheap_text, kind_number, line, segment_line};
ghost use Rattle.clr_sos.specs.TextPieces.{each_spaced};
ghost use Rattle.clr_sos.specs.Views.{IsViewOf};

use crate::View;
use crate::text::{put_word_address, put_word_number, put_words};
use clr_heap::Heap;
use clr_mem::NoMemory;
use clr_types::{SegInfo, SegKind};
use std::alloc::{AllocError, Global};

/// How many threads there are.
const THREADS: usize = 16;

/// The segments of the heap, the contexts of the threads, and how much is reserved.
///
/// First a line for each segment, by rising base: `segment BASE KIND end END reserved BYTES`. `KIND` is `small`,
/// `ephemeral`, `large` or `pinned`, and `END` is the place up to which the segment is in use. The line of the
/// ephemeral one goes on with `gen1 START gen0 START`: where generations 1 and 0 begin in it.
///
/// Then a line for each thread of whose context something is left, by thread, from 1 to 16:
/// `context tTHREAD START END`, where `END` is one past its last address.
///
/// The last line tells how many bytes all segments reserve together, and how many they may:
/// `reserved BYTES limit BYTES`.
///
/// Addresses have 16 hexadecimal digits, and counts of bytes are decimal. `NoMemory` comes only where there was no
/// memory for the text.
pub fn eeheap(alloc: Global, view: &View<'_>) -> Result<Vec<u8>, NoMemory>
    ensures text { IfOk result (λ text. (m : Machine) → IsViewOf view.now m → text.items ≡ eeheap_text m) }
{
    let mut text = Vec::new(alloc);
    let reserved = put_segments(&mut text, view.heap)?;
    put_contexts(&mut text, view.heap)?;
    put_reserved(&mut text, reserved, view.limit)?;
    Ok(text)
}

// Puts a line for each segment at the end, and answers how many bytes they reserve together.
fn put_segments(text: &mut Vec<u8>, heap: &Heap) -> Result<u64, AllocError>
    ensures text { OnOk result
        (text.new.items ≡ text.old.items ++ flat_map (segment_line (frame heap.now)) heap.now.segments) }
    ensures reserved { IfOk result (λ bytes. bytes ≡ reserved_sum (frame heap.now)) }
    ensures heap { IsHeap heap.now }
{
    let mut reserved = 0;
    for k in 0..heap.segments() {
        let segment = heap.info(k);
        put_segment(text, heap, &segment)?;
        reserved += segment.reserved;
    }
    Ok(reserved)
}

// Puts the line of a segment at the end.
fn put_segment(text: &mut Vec<u8>, heap: &Heap, segment: &SegInfo) -> Result<(), AllocError>
    ensures { OnOk result (text.new.items ≡ text.old.items ++ segment_line (frame heap.now) segment.now) }
{
    put_word_address(text, b"segment ", segment.base)?;
    put_words(text, b" ", kind_text(segment.kind))?;
    put_word_address(text, b" end ", segment.end)?;
    put_word_number(text, b" reserved ", segment.reserved)?;
    put_boundaries(text, heap, segment.kind)?;
    text.extend_from_slice(b"\n")?;
    Ok(())
}

// The word of a kind of segments.
fn kind_text(kind: SegKind) -> &'static [u8]
    ensures { result.now ≡ segment_word (kind_number kind) }
{
    match kind {
        SegKind::Small => b"small",
        SegKind::Ephemeral => b"ephemeral",
        SegKind::Large => b"large",
        SegKind::Pinned => b"pinned",
    }
}

// Puts the boundaries of the generations at the end, for the ephemeral segment.
fn put_boundaries(text: &mut Vec<u8>, heap: &Heap, kind: SegKind) -> Result<(), AllocError>
    ensures { OnOk result (text.new.items ≡ text.old.items ++ each_spaced (boundary_words (frame heap.now) kind)) }
{
    match kind {
        SegKind::Ephemeral => {
            let (start1, start0) = heap.boundaries();
            put_word_address(text, b" gen1 ", start1)?;
            put_word_address(text, b" gen0 ", start0)
        }
        SegKind::Small | SegKind::Large | SegKind::Pinned => Ok(()),
    }
}

// Puts a line for each thread of whose context something is left at the end.
fn put_contexts(text: &mut Vec<u8>, heap: &Heap) -> Result<(), AllocError>
    requires { IsHeap heap.now }
    ensures { OnOk result
        (text.new.items ≡ text.old.items ++ flat_map context_line (enumerate_from 1 heap.now.rests)) }
{
    for k in 0..THREADS {
        put_context(text, heap, k + 1)?;
    }
    Ok(())
}

// Puts the line of a thread's context at the end, where something is left of it.
fn put_context(text: &mut Vec<u8>, heap: &Heap, thread: usize) -> Result<(), AllocError>
    requires positive { 0 < thread }
    requires few { thread ≤ 16 }
    ensures { OnOk result
        (text.new.items ≡ text.old.items ++ context_line (thread, rest_of (frame heap.now) thread)) }
{
    let Some((low, high)) = heap.hole(thread) else {
        return Ok(());
    };
    put_word_number(text, b"context t", thread as u64)?;
    put_word_address(text, b" ", low)?;
    put_word_address(text, b" ", high)?;
    text.extend_from_slice(b"\n")?;
    Ok(())
}

// Puts the line of what is reserved at the end.
fn put_reserved(text: &mut Vec<u8>, reserved: u64, limit: u64) -> Result<(), AllocError>
    ensures { OnOk result (text.new.items ≡ text.old.items
        ++ line (codes "reserved" ∷ decimal reserved ∷ codes "limit" ∷ decimal limit ∷ [])) }
{
    put_word_number(text, b"reserved ", reserved)?;
    put_word_number(text, b" limit ", limit)?;
    text.extend_from_slice(b"\n")?;
    Ok(())
}
