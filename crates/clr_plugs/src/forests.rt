// The trees of bricks side by side, read level by level.
ghost use Rattle.std.specs.Prelude.{◌≡◌, ℕ, ◌+◌, ◌-◌, ◌*◌, ◌<◌, ◌≤◌, ◌++◌, false, List, length, replicate, take};
ghost use Rattle.clr_heap.specs.View.{HeapView, word_of};
ghost use Rattle.clr_plugs.specs.Builders.{places_from};
ghost use Rattle.clr_plugs.specs.Cursors.{AreLeft, starts_between};
ghost use Rattle.clr_plugs.specs.Forests.{AreWaiting, CanReadAll, HaveFound, told_offsets};
ghost use Rattle.clr_plugs.specs.Offsets.{has_unit};
ghost use Rattle.clr_plugs.specs.Plans.{plug_starts};

use crate::offsets::{UNIT_WORDS, add_unit, list_offsets};
use crate::search::{BRICK, lead};
use crate::words::{CHILDREN, children_of};
use clr_bricks::Bricks;
use clr_heap::Heap;

/// How many bricks are read together. What misses the caches is waited for side by side.
pub(crate) const TOGETHER: u64 = 4;

/// How many offsets there is room for: those of the plugs of so many bricks, and one more.
pub(crate) const MOST_OFFSETS: usize = 685;

// Puts the offsets of the roots of the bricks from `first` up to `past` into a list, from the first byte of `first` on,
// and answers how many there are.
pub(crate) fn put_roots(
    bricks: &Bricks,
    near: usize,
    first: u64,
    past: u64,
    into: &mut [u16],
) -> usize
    requires left { (h : HeapView) × AreLeft h bricks.now first past }
    requires order { first ≤ past }
    requires few { past ≤ first + 4 }
    requires room { length into.old ≡ 685 }
    ensures waiting { (h : HeapView) (bits : List ℕ) → ((n : ℕ) → has_unit bits n ≡ false)
        → (left : AreLeft h bricks.now first past)
        → AreWaiting (word_of h) (starts_between first past (plug_starts left.part.plugs)) (first * 4096) 0
        (take result into.new) bits }
{
    let mut count = 0;
    for brick in first..past {
        let (root, _) = lead(bricks, near, brick);
        count = put_plug(into, count, (brick - first) * BRICK, root);
    }
    count
}

/// The offsets in a list are smaller.
const MOST_TOLD: u64 = 65536;

// Puts the offset of a plug behind the first `count` ones, where there is a plug, and answers their new number. It is
// told by one more than its offset in a brick that begins at the offset `low`. There is no jump: it would wait for the
// word that tells the plug, and later loads with it.
#[inline(always)]
fn put_plug(into: &mut [u16], count: usize, low: u64, told: u64) -> usize
    requires room { length into.old ≡ 685 }
    requires count { count ≤ 684 }
    requires fits { low + told ≤ 65536 }
    ensures offsets { take result into.new ≡ take count into.old ++ told_offsets low told }
    ensures count { result ≡ count + length (told_offsets low told) }
{
    into[count] = ((low + told).wrapping_sub(1) % MOST_TOLD) as u16;
    count + told.min(1) as usize
}

// Lists the offsets of all plugs of the trees whose roots are the first `roots` offsets of the list, from `base` on, by
// rising place, and answers how many there are.
pub(crate) fn list_plugs(
    heap: &Heap,
    near: usize,
    base: u64,
    roots: usize,
    into: &mut [u16],
) -> usize
    requires can { (starts : List ℕ) × (segment : ℕ) × CanReadAll heap.now base segment starts
        × AreWaiting (word_of heap.now) starts base 0 (take roots into.old) (replicate 32 0) }
    requires room { length into.old ≡ 685 }
    ensures listed { (starts : List ℕ) (segment : ℕ) → CanReadAll heap.now base segment starts
        → AreWaiting (word_of heap.now) starts base 0 (take roots into.old) (replicate 32 0)
        → places_from base (take result into.new) ≡ starts }
    ensures most { result ≤ 683 }
{
    if roots == 0 {
        return 0;
    }
    let mut units = [0; UNIT_WORDS];
    gather(heap, near, base, roots, into, &mut units);
    list_offsets(&units, into)
}

// Puts the offsets of all plugs of these trees into the words. What stands in the list then means nothing.
fn gather(heap: &Heap, near: usize, base: u64, roots: usize, into: &mut [u16], words: &mut [u64])
    requires some { 0 < roots }
    requires can { (starts : List ℕ) × (segment : ℕ) × CanReadAll heap.now base segment starts
        × AreWaiting (word_of heap.now) starts base 0 (take roots into.old) words.old }
    requires room { length into.old ≡ 685 }
    requires length { length words.old ≡ 32 }
    ensures { (starts : List ℕ) (segment : ℕ) → CanReadAll heap.now base segment starts
        → AreWaiting (word_of heap.now) starts base 0 (take roots into.old) words.old
        → HaveFound starts base words.new }
{
    let k = heap.segment_near(near, base + u64::from(into[0]) - CHILDREN);
    gather_in(heap, k, base, roots, into, words);
}

// Puts the offsets of all plugs of these trees into the words, where the plugs' own words lie in segment `k`.
fn gather_in(heap: &Heap, k: usize, base: u64, roots: usize, into: &mut [u16], words: &mut [u64])
    requires can { (starts : List ℕ) × CanReadAll heap.now base k starts
        × AreWaiting (word_of heap.now) starts base 0 (take roots into.old) words.old }
    requires room { length into.old ≡ 685 }
    requires length { length words.old ≡ 32 }
    ensures { (starts : List ℕ) → CanReadAll heap.now base k starts
        → AreWaiting (word_of heap.now) starts base 0 (take roots into.old) words.old
        → HaveFound starts base words.new }
{
    let mut met = roots;
    let mut at = 0;
    while at < met {
        let offset = u64::from(into[at]);
        at += 1;
        add_unit(words, offset / 8);
        let (left, right) = children_of(heap, k, base + offset);
        let low = offset / BRICK * BRICK;
        met = put_plug(into, met, low, left);
        met = put_plug(into, met, low, right);
    }
}
