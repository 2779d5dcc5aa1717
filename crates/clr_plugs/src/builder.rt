// How the tree of a brick is built.
ghost use Rattle.std.specs.Prelude.{◌≡◌, ℕ, ◌+◌, ◌-◌, ◌*◌, ◌/◌, ◌%◌, ◌<◌, ◌≤◌, ◌^◌, [], ◌∷◌, ◌++◌, pos, length};
ghost use Rattle.std.specs.List.{AllByRecursion};
ghost use Rattle.clr_types.specs.Rising.{IsIn};
ghost use Rattle.clr_heap.specs.View.{SameShape, word_of};
ghost use Rattle.clr_plugs.specs.BrickEntries.{IsCovered};
ghost use Rattle.clr_bricks.specs.Bricks.{entry_at};
ghost use Rattle.clr_covers.specs.Covers.{with_value};
ghost use Rattle.clr_plugs.specs.Builders.{AreOffsets, HaveChildren, is_empty_list, IsNoChildren, places_from};
ghost use Rattle.clr_plugs.specs.Info.{HasInfo};
ghost use Rattle.clr_plugs.specs.Trees.{HasEntryTree, IsBrickTree};

use crate::search::BRICK;
use crate::words::{CHILDREN, both_children};
use clr_bricks::Bricks;
use clr_heap::Heap;
use std::marker::Model;

/// The most plugs that start in one brick, each at least 24 bytes above the one before it.
pub(crate) const MOST_PLUGS: usize = 171;

/// The plugs of one brick, by rising place, from which its tree is built. Each starts at least 24 bytes above the one
/// before it.
#[derive(Drop)]
pub struct TreeBuilder {
    brick: u64,
    offsets: [u16; MOST_PLUGS],
    count: usize,
}

impl Model for TreeBuilder {
    ghost use Rattle.std.specs.Prelude.{◌*◌, take};
    ghost use Rattle.clr_plugs.specs.Builders.{BuilderView, IsBuilder, places_from};

    ghost Value = { BuilderView };

    ghost view = { λ b. record { brick = b.brick; plugs = places_from (b.brick * 4096) (take b.count b.offsets) } };

    ghost invariant = { λ b. IsBuilder b.brick b.offsets b.count };
}

impl TreeBuilder {
    /// No plug yet, of the brick with this number: that of its 4,096 bytes.
    pub fn new(brick: u64) -> TreeBuilder
        requires { brick * 4096 + 4096 < 2 ^ 64 }
        ensures { result ≡ record { brick = brick; plugs = [] } }
    {
        TreeBuilder {
            brick,
            offsets: [0; MOST_PLUGS],
            count: 0,
        }
    }

    /// Begins anew, without a plug, with the brick of this number. Faster than a new one, since nothing is cleared.
    #[inline]
    pub fn restart(&mut self, brick: u64)
        requires { brick * 4096 + 4096 < 2 ^ 64 }
        ensures { self.new ≡ record { brick = brick; plugs = [] } }
    {
        self.brick = brick;
        self.count = 0;
    }

    /// The number of the brick.
    pub fn brick(&self) -> u64
        ensures value { result ≡ self.now.brick }
        ensures fits { result * 4096 + 4096 < 2 ^ 64 }
    {
        self.brick
    }

    /// Whether no plug was added.
    pub fn is_empty(&self) -> bool
        ensures { result ≡ is_empty_list self.now.plugs }
    {
        self.count == 0
    }

    /// Adds the plug that starts at the place `plug` of the brick, at least 24 bytes above the plugs so far.
    pub fn add(&mut self, plug: u64)
        requires brick { plug / 4096 ≡ self.old.brick }
        requires above { AllByRecursion (λ p. p + 24 ≤ plug) self.old.plugs }
        ensures { self.new ≡ record self.old { plugs = self.old.plugs ++ plug ∷ [] } }
    {
        self.offsets[self.count] = (plug % BRICK) as u16;
        self.count += 1;
    }

    /// Makes a balanced tree of the plugs that were added, whose information stands in the heap, and lets the brick's
    /// entry name its root. A brick without plugs gets no entry. Only the words of the plugs' children are written, and
    /// all other entries stay.
    pub fn finish(&self, heap: &mut Heap, bricks: &mut Bricks)
        requires covered { IsCovered bricks.old self.now.brick }
        requires info { (plug : ℕ) → IsIn plug self.now.plugs → HasInfo heap.old plug }
        ensures tree { HasEntryTree (word_of heap.new) self.now.brick (entry_at bricks.new self.now.brick)
            self.now.plugs }
        ensures entries { bricks.new ≡ with_value bricks.old self.now.brick (entry_at bricks.new self.now.brick) }
        ensures words { (b : ℕ) → b % 8 ≡ 0 → IsNoChildren self.now.plugs b → word_of heap.new b ≡ word_of heap.old b }
        ensures shape { SameShape heap.old heap.new }
    {
        let root = build(heap, 0, self.brick, &self.offsets[..self.count]);
        if root == 0 {
            bricks.set_none(self.brick);
        } else {
            bricks.set_root(self.brick, (root - 1) as u16);
        }
    }
}

// Makes a balanced tree of the plugs at these offsets of the brick, and answers its root, by one more than the offset.
fn build(heap: &mut Heap, near: usize, brick: u64, offsets: &[u16]) -> u32
    requires offsets { AreOffsets offsets.now }
    requires words { HaveChildren heap.old (places_from (brick * 4096) offsets.now) }
    requires fits { brick * 4096 + 4096 < 2 ^ 64 }
    ensures tree { IsBrickTree (word_of heap.new) brick result (places_from (brick * 4096) offsets.now) }
    ensures words { (b : ℕ) → b % 8 ≡ 0 → IsNoChildren (places_from (brick * 4096) offsets.now) b
        → word_of heap.new b ≡ word_of heap.old b }
    ensures shape { SameShape heap.old heap.new }
    ensures small { result ≤ 4096 }
{
    if offsets.is_empty() {
        return 0;
    }
    let middle = offsets.len() / 2;
    let offset = offsets[middle];
    let children = brick * BRICK + u64::from(offset) - CHILDREN;
    let k = heap.segment_near(near, children);
    let left = build(heap, k, brick, &offsets[..middle]);
    let right = build(heap, k, brick, &offsets[middle + 1..]);
    heap.set_word_at(k, children, both_children(left, right));
    u32::from(offset) + 1
}
