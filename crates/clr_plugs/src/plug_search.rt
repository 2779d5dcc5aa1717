// A search for a plug that goes on step by step, so that several of them wait for the heap side by side.
ghost use Rattle.std.specs.Prelude.{◌≡◌, ◌<◌, ◌≤◌, MatchOption};
ghost use Rattle.clr_plugs.specs.BrickEntries.{BricksView};
ghost use Rattle.clr_plugs.specs.Plans.{IsPlanned, PlannedPart};
ghost use Rattle.clr_plugs.specs.Searches.{IsInPlan, IsNearestPlug};
ghost use Rattle.clr_plugs.specs.SideBySide.{HasBegun, IsSearching};

use crate::search::{BRICK, NearestPlug, lead};
use crate::words::{DISTANCE, children_of};
use clr_bricks::Bricks;
use clr_heap::Heap;

/// A search for the plug at a place, on its way down the tree of the place's brick.
#[derive(Clone, Copy)]
pub struct PlugSearch {
    /// The place.
    pub place: u64,
    /// The number of its segment.
    pub segment: usize,
    /// The plug to be looked at, by one more than its offset in the brick, and 0 for none.
    pub node: u64,
    /// The last plug that was met and starts at the place or below it, and 0 for none.
    pub found: u64,
    /// No plug that is still to be looked at starts here or above.
    pub above: u64,
}

impl PlugSearch {
    /// A search that finds nothing.
    pub const NONE: PlugSearch = PlugSearch {
        place: 0,
        segment: 0,
        node: 0,
        found: 0,
        above: 0,
    };

    /// A search for the plug at a place of segment `k`. Where the place's brick has no tree, it finds nothing.
    #[inline]
    pub fn begin(heap: &Heap, bricks: &Bricks, k: usize, place: u64) -> PlugSearch
        requires { (i : IsInPlan heap.now bricks.now place) × (k ≡ i.part.segment) }
        ensures searching { IsSearching heap.now bricks.now result }
        ensures place { result.place ≡ place }
        ensures segment { result.segment ≡ k }
    {
        heap.lawful();
        let brick = place / BRICK;
        let (root, _) = lead(bricks, k, brick);
        PlugSearch {
            place,
            segment: k,
            node: root,
            found: 0,
            above: brick * BRICK + BRICK,
        }
    }

    /// The search one level further down, or as it is where it is at its end.
    #[inline]
    pub fn advanced(self, heap: &Heap) -> PlugSearch
        requires { (bricks : BricksView) × IsSearching heap.now bricks self }
        ensures searching { (bricks : BricksView) → IsSearching heap.now bricks self
            → IsSearching heap.now bricks result }
        ensures place { result.place ≡ self.place }
        ensures segment { result.segment ≡ self.segment }
        ensures begun { HasBegun result → HasBegun self }
    {
        if self.node == 0 {
            return self;
        }
        let plug = self.place / BRICK * BRICK + (self.node - 1);
        let (left, right) = children_of(heap, self.segment, plug);
        if plug <= self.place {
            PlugSearch {
                place: self.place,
                segment: self.segment,
                node: right,
                found: plug,
                above: self.above,
            }
        } else {
            PlugSearch {
                place: self.place,
                segment: self.segment,
                node: left,
                found: self.found,
                above: plug,
            }
        }
    }

    /// What the search has found at its end: the plug with the greatest start at its place or below it. Nothing where
    /// it isn't at its end.
    #[inline]
    pub fn plug(self, heap: &Heap) -> Option<NearestPlug>
        requires { (bricks : BricksView) × IsSearching heap.now bricks self }
        ensures found { (bricks : BricksView) (part : PlannedPart) → IsSearching heap.now bricks self
            → IsPlanned heap.now bricks part → part.low ≤ self.place → self.place < part.high
            → MatchOption result (Unit {0}) (IsNearestPlug part.plugs self.place) }
        ensures begun { MatchOption result (Unit {0}) (λ plug. HasBegun self) }
    {
        if self.node != 0 {
            return None;
        }
        if self.found == 0 {
            return None;
        }
        heap.lawful();
        Some(NearestPlug {
            start: self.found,
            distance: heap
                .word_at(self.segment, self.found - DISTANCE)
                .cast_signed(),
            stop: self.above,
        })
    }
}
