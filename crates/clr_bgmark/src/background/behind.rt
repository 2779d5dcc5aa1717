// What the last pause passes over, where all was found by bits alone.

ghost use Rattle.std.specs.Prelude.{◌≡◌, ◌↔◌, true, length};
ghost use Rattle.clr_heap.specs.View.{HeapView, IsHeap, no_rests};
ghost use Rattle.clr_model.specs.Lawful.{IsLaid};
ghost use Rattle.clr_model.specs.Machine.{Machine};
ghost use Rattle.clr_view.specs.Marks.{IsUnmarked};
ghost use Rattle.clr_view.specs.Memory.{IsMemoryOf};
ghost use Rattle.clr_view.specs.View.{AreFreeHeads, IsHeld};
ghost use Rattle.clr_mark.specs.Marks.{IsRemarked};
ghost use Rattle.clr_sweep.specs.Fronts.{HasFronts};
ghost use Rattle.clr_bgmark.specs.Scanning.{AreObjects};
ghost use Rattle.clr_bgmark.specs.Settling.{AreFurthest};
ghost use Rattle.clr_bgmark.specs.Tiles.{AreFronts, AreParts, HasFoundMarks, HaveEdges, HaveSameBases};

use super::Background;
use crate::front::{have_same_bases, put_fronts};
use crate::last_pause::mark_behind;
use clr_heap::Heap;
use clr_sweep::Front;
use clr_types::Types;

impl Background {
    /// Whether the segments are those that were there at the first pause.
    pub fn has_same_segments(&self, heap: &Heap) -> bool
        requires { IsHeap heap.now }
        ensures { result ≡ true ↔ HaveSameBases heap.now self.now.shades }
    {
        have_same_bases(&self.shades, heap)
    }

    /// Looks for the front of each segment: the items of its old part up to the last object before the first 512 bytes
    /// where an object wasn't found, or a gap isn't one free item before an object any more. Only `fronts` changes.
    pub fn settle(&mut self, heap: &Heap, types: &Types)
        requires heap { IsHeap heap.now }
        requires held { IsHeld types.now heap.now }
        requires no_contexts { heap.now.rests ≡ no_rests }
        requires laid { (m : Machine) × IsMemoryOf types.now heap.now m × IsLaid m }
        requires unmarked { IsUnmarked types.now heap.now }
        requires free_heads { AreFreeHeads types.now heap.now }
        requires objects { AreObjects types.now heap.now self.old.shades }
        requires parts { AreParts self.old.shades self.old.parts }
        requires edges { HaveEdges types.now heap.now self.old.shades self.old.parts }
        requires room { length self.old.fronts ≡ length self.old.shades }
        requires bases { HaveSameBases heap.now self.old.shades }
        ensures others { self.new ≡ record self.old { fronts = self.new.fronts } }
        ensures fronts { AreFronts types.now heap.now self.new.shades self.new.fronts }
        ensures furthest { AreFurthest types.now heap.now self.new.shades self.new.parts self.new.fronts
            (length self.new.shades) }
    {
        put_fronts(&self.shades, &self.parts, &mut self.fronts, heap, types);
    }

    /// Marks in the heap what is found behind the fronts.
    pub fn mark_behind(&self, heap: &mut Heap, types: &Types)
        requires heap { IsHeap heap.old }
        requires held { IsHeld types.now heap.old }
        requires unmarked { IsUnmarked types.now heap.old }
        requires objects { AreObjects types.now heap.old self.now.shades }
        requires parts { AreParts self.now.shades self.now.parts }
        requires bases { HaveSameBases heap.old self.now.shades }
        requires fronts { AreFronts types.now heap.old self.now.shades self.now.fronts }
        ensures words { IsRemarked types.now heap.old heap.new }
        ensures fronts { (v : HeapView) → HasFoundMarks types.now heap.old v self.now.shades
            → HasFronts types.now heap.new v self.now.fronts }
    {
        mark_behind(&self.shades, &self.fronts, heap, types);
    }

    /// The fronts.
    pub fn fronts(&self) -> &[Front]
        ensures { result.now ≡ self.now.fronts }
    {
        &self.fronts
    }
}
