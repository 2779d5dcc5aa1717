// Where objects start: a bit for each word of a window.
ghost use Rattle.std.specs.Prelude.{◌≡◌, ℕ, ◌+◌, ◌*◌, ◌/◌, ◌%◌, ◌<◌, ◌≤◌, ◌||◌, ◌==◌, ◌&&◌, length, nat_eq, true};
ghost use Rattle.std.specs.Prelude.{false, ◌⊎◌};
ghost use Rattle.clr_heap.specs.View.{AreWalkable, listing, heap_items};
ghost use Rattle.clr_sos.specs.Faults.{stands};
ghost use Rattle.clr_sos.specs.Windows.{bit_of, is_bit, IsMarked, marked_at};

use crate::verify::windows::Window;
use clr_heap::{Heap, Item, SegInfo};
use clr_types::Types;

// Sets exactly the bits of the words of the window that are the places of objects.
#[inline(always)]
pub fn mark_starts(heap: &Heap, types: &Types, window: Window, bits: &mut [u64])
    requires walkable { AreWalkable types.now heap.now }
    requires aligned { window.start % 8 ≡ 0 }
    ensures { IsMarked (heap_items types.now heap.now) window bits.new }
{
    clear(bits);
    for k in 0..heap.segments() {
        mark_segment(heap, types, k, window, bits);
    }
}

// Clears all bits.
fn clear(bits: &mut [u64])
    ensures { (j : ℕ) → bit_of bits.new j ≡ false }
{
    for word in bits.iter_mut() {
        *word = 0;
    }
}

// Sets the bits of the objects of a segment.
#[inline(always)]
fn mark_segment(heap: &Heap, types: &Types, k: usize, window: Window, bits: &mut [u64])
    requires in_range { k < length heap.now.segments }
    requires walkable { AreWalkable types.now heap.now }
    requires aligned { window.start % 8 ≡ 0 }
    ensures { (j : ℕ) → j < 64 * length bits.old → bit_of bits.new j
        ≡ (bit_of bits.old j || stands (listing types.now heap.now k) (window.start + 8 * j)) }
{
    if is_apart(heap.info(k), window, bits.len()) {
        return;
    }
    for item in heap.walk(types, k) {
        mark_item(window, bits, item);
    }
}

// Whether a segment lies wholly below the window or above it.
fn is_apart(segment: SegInfo, window: Window, count: usize) -> bool
    ensures { result ≡ true → (segment.end ≤ window.start) ⊎ (window.start + 512 * count ≤ segment.base) }
{
    segment.end <= window.start
        || (window.start < segment.base && (segment.base - window.start) / 512 >= count as u64)
}

// Sets the bit of an object.
#[inline]
fn mark_item(window: Window, bits: &mut [u64], item: Item)
    requires place { item.place % 8 ≡ 0 }
    requires aligned { window.start % 8 ≡ 0 }
    ensures { (j : ℕ) → j < 64 * length bits.old → bit_of bits.new j ≡ (bit_of bits.old j || is_bit window item j) }
{
    if item.type_id.0 == 0 || item.place < window.start {
        return;
    }
    let i = (item.place - window.start) / 8;
    if i / 64 < bits.len() as u64 {
        set_bit(bits, i);
    }
}

// Sets bit `i`.
#[inline]
fn set_bit(bits: &mut [u64], i: u64)
    requires { i / 64 < length bits.old }
    ensures { (j : ℕ) → bit_of bits.new j ≡ (bit_of bits.old j || nat_eq i j) }
{
    bits[(i / 64) as usize] |= 1 << (i % 64);
}

// Whether a place of the window has its bit.
#[inline]
pub fn is_marked(window: Window, bits: &[u64], place: u64) -> bool
    ensures { result ≡ marked_at window bits.now place }
{
    if place < window.start || (place - window.start) % 8 != 0 {
        return false;
    }
    let i = (place - window.start) / 8;
    i / 64 < bits.len() as u64 && has_bit(bits, i)
}

// Whether bit `i` is set.
#[inline]
fn has_bit(bits: &[u64], i: u64) -> bool
    requires { i / 64 < length bits.now }
    ensures { result ≡ bit_of bits.now i }
{
    bits[(i / 64) as usize] >> (i % 64) & 1 == 1
}
