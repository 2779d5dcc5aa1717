//! The words of a segment, from the bytes in which they are kept.
ghost use Rattle.std.specs.Prelude.{◌≡◌, ◌+◌, ◌*◌, ◌-◌, ◌/◌, ◌%◌, ◌<◌, ◌≤◌, ◌^◌, IfOk, length, drop};
ghost use Rattle.clr_mem.specs.Words.{end_of, spelled, zeroed};
ghost use Rattle.clr_types.specs.Segments.{first_place, reserved_end};
ghost use Rattle.clr_heap.specs.Filled.{filled, IsFillable, memory_from};
ghost use Rattle.clr_heap.specs.Memories.{shape_of};

use byteorder::{ByteOrder, LittleEndian};
use clr_mem::{Mem, NoMemory};
use clr_types::{SegInfo, SegKind};
use std::alloc::Global;

/// Zero words for a segment of a kind. What lies in a large or pinned segment may be long, and little of it written, so
/// memory is taken for the pages that are; the small heap's is written from its front on.
pub fn memory_of(alloc: Global, kind: SegKind, base: u64, size: u64) -> Result<Mem, NoMemory>
    requires base_aligned { base % 8 ≡ 0 }
    requires len_aligned { size % 4096 ≡ 0 }
    requires fits { base + size < 2 ^ 64 }
    ensures value { IfOk result (λ m. m ≡ zeroed base size) }
    ensures end { IfOk result (λ m. end_of m ≡ base + size) }
{
    match kind {
        SegKind::Ephemeral | SegKind::Small => Mem::new(alloc, base, size),
        SegKind::Large | SegKind::Pinned => Mem::sparse(alloc, base, size),
    }
}

// The word whose eight bytes begin at an offset.
#[inline]
#[tactic(auto, unfolding(clr_mem::specs::Words::spelled))]
fn word_of_bytes(bytes: &[u8], o: usize) -> u64
    requires { o + 8 ≤ length bytes.now }
    ensures { result ≡ spelled (drop o bytes.now) }
{
    LittleEndian::read_u64(&bytes[o..o + 8])
}

/// The words of a segment whose memory, of `end` less the first place bytes, stands in `bytes` from the offset `at` on,
/// each word lowest byte first. The first of them is the header of the item at the first place. Before and behind them
/// are zeros, up to the segment's reservation.
///
/// `NoMemory` comes where there is no memory for the words that are filled.
pub fn load_memory(alloc: Global, info: &SegInfo, bytes: &[u8], at: usize) -> Result<Mem, NoMemory>
    requires segment { IsFillable info.now }
    requires there { at + (info.now.end - first_place info.now) ≤ length bytes.now }
    ensures words { IfOk result (λ m. m ≡ memory_from bytes.now info.now at) }
    ensures shape { IfOk result (λ m. shape_of m ≡ (info.now.base, info.now.reserved)) }
{
    let mut memory = memory_of(alloc, info.kind, info.base, info.reserved)?;
    fill(&mut memory, info, bytes, at);
    Ok(memory)
}

// Writes the words of a segment's memory.
fn fill(memory: &mut Mem, info: &SegInfo, bytes: &[u8], at: usize)
    requires segment { IsFillable info.now }
    requires there { at + (info.now.end - first_place info.now) ≤ length bytes.now }
    requires zero { memory.old ≡ zeroed info.now.base info.now.reserved }
    ensures words { memory.new ≡ memory_from bytes.now info.now at }
    ensures shape { shape_of memory.new ≡ (info.now.base, info.now.reserved) }
{
    let count = (info.end - info.first_place()) / 8;
    let front = info.base + 4088;
    for i in 0..count {
        memory.set_word(front + 8 * i, word_of_bytes(bytes, at + 8 * i as usize));
    }
}
