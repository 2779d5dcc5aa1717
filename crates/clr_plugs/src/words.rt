// The information before a plug, in words of the heap.
ghost use Rattle.std.specs.Prelude.{◌≡◌, ℕ, ◌+◌, ◌-◌, ◌*◌, ◌/◌, ◌%◌, ◌<◌, ◌≤◌, ◌^◌, ◌⊎◌, length};
ghost use Rattle.clr_heap.specs.Memories.{HasWord, InOne, memory_index};
ghost use Rattle.clr_heap.specs.View.{SameShape, word_of};
ghost use Rattle.clr_plugs.specs.Info.{children_word, HasInfo, info_at, IsInfoWord, left_of, right_of};

use clr_heap::Heap;

/// How far the word of the unused bytes stands below a plug's place.
const GAP: u64 = 32;

/// How far the word of the distance stands below a plug's place.
pub(crate) const DISTANCE: u64 = 24;

/// How far the word of the children stands below a plug's place.
pub(crate) const CHILDREN: u64 = 16;

/// The right child is counted in units of this number, above the left one.
const RIGHT_UNIT: u64 = 0x1_0000_0000;

/// What the 24 bytes that end 8 bytes before a plug tell of it.
#[derive(Clone, Copy)]
pub struct PlugInfo {
    /// The unused bytes before the plug.
    pub gap: u64,
    /// How many bytes the plug goes up; negative where it goes down.
    pub distance: i64,
    /// The left child in the tree of the brick, by one more than its offset in the brick in bytes, and 0 for none.
    pub left: u32,
    /// The right child, in the same way.
    pub right: u32,
}

/// Writes the information of the plug that starts at the place `plug` into the 24 bytes that end 8 bytes before it. All
/// other words of the heap stay. `near` guesses their segment.
#[inline(always)]
pub fn put_info(heap: &mut Heap, near: usize, plug: u64, info: PlugInfo)
    requires { HasInfo heap.old plug }
    ensures told { info_at (word_of heap.new) plug ≡ info }
    ensures words { (b : ℕ) → b % 8 ≡ 0 → (b + 32 < plug) ⊎ (plug ≤ b + 8) → word_of heap.new b ≡ word_of heap.old b }
    ensures shape { SameShape heap.old heap.new }
{
    heap.lawful();
    let k = heap.segment_near(near, plug - GAP);
    heap.set_word_at(k, plug - GAP, info.gap);
    heap.set_word_at(k, plug - DISTANCE, info.distance.cast_unsigned());
    heap.set_word_at(k, plug - CHILDREN, both_children(info.left, info.right));
}

/// The information of the plug that starts at the place `plug`. `near` guesses its segment.
#[inline(always)]
pub fn info(heap: &Heap, near: usize, plug: u64) -> PlugInfo
    requires { HasInfo heap.now plug }
    ensures { result ≡ info_at (word_of heap.now) plug }
{
    heap.lawful();
    let k = heap.segment_near(near, plug - GAP);
    let children = heap.word_at(k, plug - CHILDREN);
    PlugInfo {
        gap: heap.word_at(k, plug - GAP),
        distance: heap.word_at(k, plug - DISTANCE).cast_signed(),
        left: (children % RIGHT_UNIT) as u32,
        right: (children / RIGHT_UNIT) as u32,
    }
}

// The word of two children.
#[inline]
pub(crate) fn both_children(left: u32, right: u32) -> u64
    ensures { result ≡ children_word left right }
{
    u64::from(left) + u64::from(right) * RIGHT_UNIT
}

// The left and the right child of the plug at `plug`, whose words lie in segment `k`.
#[inline]
pub(crate) fn children_of(heap: &Heap, k: usize, plug: u64) -> (u64, u64)
    requires above { 16 ≤ plug }
    requires word { HasWord heap.now.memories (plug - 16) }
    requires segment { k ≡ memory_index heap.now.memories (plug - 16) }
    ensures { result ≡ (left_of (word_of heap.now) plug, right_of (word_of heap.now) plug) }
{
    let children = heap.word_at(k, plug - CHILDREN);
    (children % RIGHT_UNIT, children / RIGHT_UNIT)
}
