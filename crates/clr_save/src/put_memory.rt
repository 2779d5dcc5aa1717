//! The memory of a segment, at the end of other bytes.
ghost use Rattle.std.specs.Prelude.{◌≡◌, ℕ, ◌+◌, ◌-◌, ◌/◌, ◌%◌, ◌<◌, ◌≤◌, ◌^◌, ◌++◌, length, None, OnOk};
ghost use Rattle.clr_heap.specs.Memories.{HasWord, memory_index};
ghost use Rattle.clr_heap.specs.Parts.{hole_from};
ghost use Rattle.clr_heap.specs.View.{CanWalk, holes_of, IsWalkable, last_of, sight, word_of};
ghost use Rattle.clr_format.specs.Saved.{words_bytes};
ghost use Rattle.clr_save.specs.SavedWords.{free_words, IsNext, memory_words, words_at};

use crate::put::{put_word, put_zeros};
use clr_heap::Heap;
use clr_types::{FREE_MT, Types};
use std::alloc::AllocError;

// A part of a segment: how many bytes it has, and whether no object stands there.
#[derive(Clone, Copy)]
struct Part {
    size: u64,
    vacant: bool,
}

// The part that begins at a place of segment `k`.
fn part_at(heap: &Heap, types: &Types, k: usize, place: u64, end: u64) -> Part
    requires in_range { k < length heap.now.segments }
    requires walk { CanWalk (sight types.now heap.now k) heap.now.memories place end }
    requires below { place < end }
    ensures { IsNext (sight types.now heap.now k) heap.now.memories place end result.size result.vacant }
{
    if let Some(high) = heap.hole_end(k, place) {
        return Part {
            size: high - place,
            vacant: true,
        };
    }
    let item = heap.item(types, place);
    Part {
        size: item.size,
        vacant: item.type_id.0 == 0,
    }
}

// Puts the words of a free item at the end.
#[tactic(auto, unfolding(crate::specs::SavedWords::free_words))]
fn put_free(out: &mut Vec<u8>, size: u64) -> Result<(), AllocError>
    requires { 24 ≤ size }
    ensures { OnOk result (out.new.items ≡ out.old.items ++ words_bytes (free_words size)) }
{
    put_word(out, 0)?;
    put_word(out, FREE_MT)?;
    put_word(out, size - 24)?;
    put_zeros(out, (size - 24) / 8)
}

// Puts the words of the cells from one place of segment `k` to another at the end.
fn put_cells(
    out: &mut Vec<u8>,
    heap: &Heap,
    k: usize,
    low: u64,
    high: u64,
) -> Result<(), AllocError>
    requires order { low ≤ high }
    requires above { 8 ≤ low }
    requires words { (a : ℕ) → a % 8 ≡ 0 → low ≤ a + 8 → a + 8 < high → HasWord heap.now.memories a }
    requires segment { (a : ℕ) → a % 8 ≡ 0 → low ≤ a + 8 → a + 8 < high → k ≡ memory_index heap.now.memories a }
    requires start { low % 8 ≡ 0 }
    ensures { OnOk result
        (out.new.items ≡ out.old.items ++ words_bytes (words_at (word_of heap.now) (low - 8) ((high - low) / 8))) }
{
    for i in 0..(high - low) / 8 {
        put_word(out, heap.word_at(k, low - 8 + 8 * i))?;
    }
    Ok(())
}

/// Puts the memory of segment `k` at the end: objects as they are, and clear free items in the place of free items and
/// of what is left of contexts.
pub fn put_memory(out: &mut Vec<u8>, heap: &Heap, types: &Types, k: usize) -> Result<(), AllocError>
    requires in_range { k < length heap.now.segments }
    requires walkable { IsWalkable types.now heap.now k }
    ensures { OnOk result (out.new.items ≡ out.old.items ++ words_bytes (memory_words types.now heap.now k)) }
{
    let segment = heap.info(k);
    let end = segment.end;
    let mut place = segment.first_place();
    let mut run = place;
    while place < end {
        let part = part_at(heap, types, k, place, end);
        if part.vacant {
            put_cells(out, heap, k, run, place)?;
            put_free(out, part.size)?;
            run = place + part.size;
        }
        place += part.size;
    }
    put_cells(out, heap, k, run, place)
}
