// A fit as a whole: survivors of generation 1 go into older free items, and all that names them names them there.
ghost use Rattle.std.specs.Prelude.{◌≡◌, ℕ, Bool, map, true, ℤ};
ghost use Rattle.clr_types.specs.Rising.{IsIn};
ghost use Rattle.clr_bricks.specs.Bricks.{entry_at};
ghost use Rattle.clr_cards.specs.Cards.{is_card_set};
ghost use Rattle.clr_covers.specs.Covers.{spans};
ghost use Rattle.clr_heap.specs.View.{frame, heap_items, IsHeap, no_rests, SameShape};
ghost use Rattle.clr_model.specs.Lawful.{IsLaid};
ghost use Rattle.clr_model.specs.Machine.{Machine, Object};
ghost use Rattle.clr_model.specs.Reach.{SlotNames};
ghost use Rattle.clr_view.specs.Clean.{AreClean};
ghost use Rattle.clr_view.specs.Memory.{is_marked, IsMemoryOf, TestsMarks};
ghost use Rattle.clr_view.specs.View.{AreFreeHeads, IsHeld, layout_in, objects_in};
ghost use Rattle.clr_generations.specs.Laws.{BrickLaw, CardLaw};
ghost use Rattle.clr_generations.specs.Tables.{AreBricksOf, AreCardsOf};
ghost use Rattle.clr_generations.specs.Tidy.{IsTidy};
ghost use Rattle.clr_survivors.specs.Moving.{IsMarkedFor, KeepsNumbers};
ghost use Rattle.clr_survivors.specs.Pins.{PinsStand};
ghost use Rattle.clr_survivors.specs.Survivors.{world_of};
ghost use Rattle.clr_evacuate.specs.Evacuated.{HasMadeFit, HaveFitted};
ghost use Rattle.clr_evacuate.specs.Forwarding.{CanForward, forwarded_object, HasOlderBorder, HaveFollowed};
ghost use Rattle.clr_evacuate.specs.Forwarding.{IsUnmovedOutside, LeadsBy, NamesCanForward};
ghost use Rattle.clr_evacuate.specs.Forwards.{HasForwards};

use crate::clearing::clear_forwards;
use crate::evacuating::carry_all;
use crate::roots::forward_roots;
use crate::slots::forward_slots;
use clr_bricks::Bricks;
use clr_generations::Space;
use clr_handles::Handles;
use clr_heap::Heap;
use clr_survivors::{Roots, set_pins};
use clr_types::Types;

// Puts what survives generation 1, plug by plug and low to high, to the front of the lowest free item of generation 2
// of the small heap in which the plug then fits, where there is one; what pinned handles name stays. Locals, handles,
// entries, the f-reachable queue and all references name the new places then. Answers how many bytes went.
//
// What went is of generation 2 and not marked any more, and where it stood is free. All else stays where it is, marked
// as it was. Cards and bricks obey their laws. Where nothing went it reads no reference, and no name from outside.
//
// The heap is that of a lawful machine whose contexts are given up, and what a collection of generation 1 leaves is
// all that locals, handles and queues name.
pub(crate) fn fit_survivors(types: &Types, space: &mut Space, roots: &mut Roots) -> u64
    requires tidy { IsTidy types.now space.old }
    requires marked { IsMarkedFor (world_of types.now space.old.heap roots.old) 1 }
    ensures fitted { (n : Machine) (kept : ℕ → Bool) → IsMemoryOf types.now space.old.heap n → IsLaid n
        → n.handles ≡ roots.old.handles → TestsMarks types.now space.old.heap 1 kept
        → HaveFitted (world_of types.now space.old.heap roots.old) (world_of types.now space.new.heap roots.new)
        n kept result }
    ensures tidy { IsTidy types.now space.new }
    ensures no_contexts { space.new.heap.rests ≡ no_rests }
    ensures limit { space.new.heap.limit ≡ space.old.heap.limit }
    ensures numbers { KeepsNumbers roots.old roots.new }
{
    let bytes = carry_unpinned(types, &mut space.heap, &mut space.bricks, &roots.handles);
    if bytes > 0 {
        forward_all(types, space, roots);
    }
    bytes
}

// Carries what may go into older free items; what pinned handles name stays. Where each object stood that went, a free
// item says where, and references and names still name its old place. Headers of objects are as they were.
fn carry_unpinned(types: &Types, heap: &mut Heap, bricks: &mut Bricks, handles: &Handles) -> u64
    requires heap { IsHeap heap.old }
    requires held { IsHeld types.now heap.old }
    requires no_contexts { heap.old.rests ≡ no_rests }
    requires laid { (n : Machine) × IsMemoryOf types.now heap.old n × IsLaid n }
    requires stand { PinsStand types.now heap.old handles.now }
    requires clean { AreClean types.now heap.old }
    requires free_heads { AreFreeHeads types.now heap.old }
    requires bricks { AreBricksOf (frame heap.old) bricks.old }
    ensures made { (n : Machine) (kept : ℕ → Bool) → IsMemoryOf types.now heap.old n → IsLaid n
        → n.handles ≡ handles.now → TestsMarks types.now heap.old 1 kept
        → HasMadeFit types.now heap.old heap.new n kept result }
    ensures clean { AreClean types.now heap.new }
    ensures brick_law { BrickLaw types.now (frame heap.old) (objects_in types.now heap.old) (entry_at bricks.old)
        → BrickLaw types.now (frame heap.new) (objects_in types.now heap.new) (entry_at bricks.new) }
    ensures spans { spans bricks.new ≡ spans bricks.old }
{
    set_pins(heap, types, handles, 1, true);
    let bytes = carry_all(heap, types, bricks);
    set_pins(heap, types, handles, 1, false);
    bytes
}

// Lets all references, and all names from outside of the heap, go where what they name went, and takes the forwards
// away.
fn forward_all(types: &Types, space: &mut Space, roots: &mut Roots)
    requires heap { IsHeap space.old.heap }
    requires held { IsHeld types.now space.old.heap }
    requires named { (x y : ℕ) → SlotNames (objects_in types.now space.old.heap) x y
        → CanForward types.now space.old.heap y }
    requires names { NamesCanForward types.now space.old.heap roots.old.locals.items roots.old.handles
        roots.old.finals }
    requires cards { AreCardsOf (frame space.old.heap) space.old.cards }
    requires no_contexts { space.old.heap.rests ≡ no_rests }
    requires border { HasOlderBorder (frame space.old.heap) (heap_items types.now space.old.heap) }
    ensures objects { (go : ℕ → ℕ) → LeadsBy types.now space.old.heap go
        → objects_in types.now space.new.heap ≡ map (forwarded_object go) (objects_in types.now space.old.heap) }
    ensures followed { (go : ℕ → ℕ) → LeadsBy types.now space.old.heap go
        → HaveFollowed go roots.old.locals.items roots.new.locals.items roots.old.handles roots.new.handles
        roots.old.finals roots.new.finals }
    ensures layout { layout_in types.now space.new.heap ≡ layout_in types.now space.old.heap }
    ensures marks { (o : Object) → IsIn o (objects_in types.now space.old.heap)
        → is_marked space.new.heap o ≡ is_marked space.old.heap o }
    ensures free_heads { (go : ℕ → ℕ) → HasForwards types.now space.old.heap go
        → IsUnmovedOutside go space.old.heap.start1 space.old.heap.start0 → AreFreeHeads types.now space.new.heap }
    ensures clean { AreClean types.now space.old.heap → AreClean types.now space.new.heap }
    ensures shape { SameShape space.old.heap space.new.heap }
    ensures held { IsHeld types.now space.new.heap }
    ensures cards { AreCardsOf (frame space.new.heap) space.new.cards }
    ensures card_law { CardLaw types.now (frame space.new.heap) (objects_in types.now space.new.heap)
        (is_card_set space.new.cards) }
    ensures brick_law { (entry : ℕ → ℤ)
        → BrickLaw types.now (frame space.old.heap) (objects_in types.now space.old.heap) entry
        → BrickLaw types.now (frame space.new.heap) (objects_in types.now space.new.heap) entry }
    ensures bricks { space.new.bricks ≡ space.old.bricks }
{
    forward_slots(&mut space.heap, types, &mut space.cards);
    forward_roots(&space.heap, types, roots);
    clear_forwards(&mut space.heap, types);
}
