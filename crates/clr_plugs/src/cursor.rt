// Going over the plugs of a part, by rising start.
ghost use Rattle.std.specs.Prelude.{◌≡◌, ℕ, ◌+◌, ◌/◌, ◌<◌, ◌≤◌, ◌^◌, [], ◌∷◌};
ghost use Rattle.std.specs.Prelude.{MatchOption};
ghost use Rattle.clr_heap.specs.View.{word_of};
ghost use Rattle.clr_plugs.specs.Cursors.{ahead, AreLeft, TellLeft};
ghost use Rattle.clr_bricks.specs.Bricks.{entry_at};
ghost use Rattle.clr_plugs.specs.BrickEntries.{IsCovered};
ghost use Rattle.clr_plugs.specs.Plans.{IsPart, PlannedPart, plug_starts, root_number};

use crate::forests::{MOST_OFFSETS, TOGETHER, list_plugs, put_roots};
use crate::search::BRICK;
use clr_bricks::Bricks;
use clr_heap::Heap;
use std::marker::Model;

/// A place between the plugs of a part, which are gone over by rising start.
///
/// The plugs of a few bricks side by side are read together, when the first of them is asked for. So the words before
/// a plug of those bricks may be written over once it is read, as compaction does.
#[derive(Drop)]
pub struct PlugCursor {
    offsets: [u16; MOST_OFFSETS],
    count: usize,
    at: usize,
    base: u64,
    brick: u64,
    past: u64,
}

impl Model for PlugCursor {
    ghost use Rattle.std.specs.Prelude.{drop, take};
    ghost use Rattle.clr_plugs.specs.Builders.{places_from};
    ghost use Rattle.clr_plugs.specs.Cursors.{CursorView, IsCursor};

    ghost Value = { CursorView };

    ghost view = { λ c.
        record { at_hand = places_from c.base (drop c.at (take c.count c.offsets)); brick = c.brick; past = c.past } };

    ghost invariant = { λ c. IsCursor c.offsets c.count c.at c.base };
}

impl PlugCursor {
    /// Before the first plug that starts at a place from `low` up to `high`.
    pub fn new(low: u64, high: u64) -> PlugCursor
        requires { high + 4095 < 2 ^ 64 }
        ensures { result ≡ record { at_hand = []; brick = low / 4096; past = (high + 4095) / 4096 } }
    {
        PlugCursor {
            offsets: [0; MOST_OFFSETS],
            count: 0,
            at: 0,
            base: 0,
            brick: low / BRICK,
            past: (high + (BRICK - 1)) / BRICK,
        }
    }

    /// Begins anew, before the first plug that starts at a place from `low` up to `high`. Faster than a new one, since
    /// nothing is cleared.
    pub fn restart(&mut self, low: u64, high: u64)
        requires { high + 4095 < 2 ^ 64 }
        ensures { self.new ≡ record { at_hand = []; brick = low / 4096; past = (high + 4095) / 4096 } }
    {
        self.count = 0;
        self.at = 0;
        self.base = 0;
        self.brick = low / BRICK;
        self.past = (high + (BRICK - 1)) / BRICK;
    }

    /// The place at which the next plug starts, and `None` exactly where none is left. Only the trees of the bricks
    /// that weren't read yet are read. `near` guesses the segment of the part.
    #[inline(always)]
    pub fn next(&mut self, heap: &Heap, near: usize, bricks: &Bricks) -> Option<u64>
        requires { AreLeft heap.now bricks.now self.old.brick self.old.past }
        ensures next { (part : PlannedPart) → IsPart heap.now part
            → TellLeft (word_of heap.now) bricks.now part self.old.brick self.old.past
            → MatchOption result (ahead self.old (plug_starts part.plugs) ≡ [])
            (λ start. ahead self.old (plug_starts part.plugs) ≡ start ∷ ahead self.new (plug_starts part.plugs)) }
        ensures brick { self.old.brick ≤ self.new.brick }
        ensures past { self.new.past ≡ self.old.past }
    {
        while self.at == self.count {
            if self.past <= self.brick {
                return None;
            }
            self.load(heap, near, bricks);
        }
        let offset = self.offsets[self.at];
        self.at += 1;
        Some(self.base + u64::from(offset))
    }

    // Reads the plugs of the next bricks. `near` guesses their segment.
    #[inline(never)]
    fn load(&mut self, heap: &Heap, near: usize, bricks: &Bricks)
        requires left { AreLeft heap.now bricks.now self.old.brick self.old.past }
        requires some { self.old.brick < self.old.past }
        requires none { self.old.at_hand ≡ [] }
        ensures ahead { (part : PlannedPart) → IsPart heap.now part
            → TellLeft (word_of heap.now) bricks.now part self.old.brick self.old.past
            → ahead self.new (plug_starts part.plugs) ≡ ahead self.old (plug_starts part.plugs) }
        ensures brick { self.old.brick < self.new.brick }
        ensures past { self.new.past ≡ self.old.past }
    {
        heap.lawful();
        let first = first_root(bricks, near, self.brick, self.past);
        let past = self.past.min(first + TOGETHER);
        let base = first * BRICK;
        let roots = put_roots(bricks, near, first, past, &mut self.offsets);
        self.count = list_plugs(heap, near, base, roots, &mut self.offsets);
        self.at = 0;
        self.base = base;
        self.brick = past;
    }
}

// The first brick from `from` on below `past` whose entry names a root, and `past` for none. It stands apart from what
// reads trees, so that the cover stays in registers.
fn first_root(bricks: &Bricks, near: usize, from: u64, past: u64) -> u64
    requires order { from ≤ past }
    requires covered { (i : ℕ) → from ≤ i → i < past → IsCovered bricks.now i }
    ensures above { from ≤ result }
    ensures within { result ≤ past }
    ensures none { (i : ℕ) → from ≤ i → i < result → root_number (entry_at bricks.now i) ≡ 0 }
{
    let mut brick = from;
    while brick < past && bricks.entry_near(near, brick) <= 0 {
        brick += 1;
    }
    brick
}
