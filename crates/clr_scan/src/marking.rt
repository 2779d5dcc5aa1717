// Marking for a collection of any generation.
ghost use Rattle.std.specs.Prelude.{◌≡◌, ℕ, ◌<◌, ◌≤◌, ◌↔◌, ◌⊎◌, true, [], length};
ghost use Rattle.clr_cards.specs.Cards.{is_card_set};
ghost use Rattle.clr_heap.specs.View.{first_of, no_rests};
ghost use Rattle.clr_model.specs.Reach.{Reach};
ghost use Rattle.clr_view.specs.Marks.{Marked};
ghost use Rattle.clr_view.specs.World.{HandlesStand};
ghost use Rattle.clr_mark.specs.Marks.{IsClosed, IsRemarked, LeadsTo};
ghost use Rattle.clr_mark.specs.Roots.{AreObjects};
ghost use Rattle.clr_mark.specs.Ties.{Draws, IsCondemnedStart};
ghost use Rattle.clr_mark.specs.Waiting.{IsGray, IsIdle};
ghost use Rattle.clr_generations.specs.Tables.{AreTablesOf};
ghost use Rattle.clr_scan.specs.OldParts.{HaveOldParts, old_end};
ghost use Rattle.clr_scan.specs.References.{IsNamedByOlder};
ghost use Rattle.clr_scan.specs.SetCards.{AreCleared};

use crate::cards::scan_cards;
use clr_bricks::Bricks;
use clr_cards::Cards;
use clr_generations::Space;
use clr_handles::Handles;
use clr_heap::Heap;
use clr_mark::Marker;
use clr_types::Types;

/// Marks what a collection of the generations up to `g` reaches over objects of these generations, where nothing is
/// marked before: from locals, from the f-reachable queue, from the targets of strong and pinned handles, from what
/// dependent handles tie to older objects, and from what slots of older objects name. A local or an entry of the queue
/// is 0 or the place of an object. Nothing waits then.
///
/// Of older objects it looks at those on set cards alone, and clears cards on which none names an object of a lower
/// generation, as `scan_cards` does. Cards and bricks still obey their laws. All else stays.
///
/// All contexts are given up, no item reaches over a boundary of generations, and cards and bricks obey their laws.
pub fn mark_from(
    marker: &mut Marker,
    space: &mut Space,
    types: &Types,
    g: u8,
    handles: &Handles,
    locals: &[u64],
    ready: &[u64],
)
    requires known { g ≤ 2 }
    requires closed { IsClosed types.now space.old.heap }
    requires clear { (x : ℕ) → Marked types.now space.old.heap x → ⊥ }
    requires handles { HandlesStand types.now space.old.heap handles.now }
    requires locals { AreObjects types.now space.old.heap locals.now }
    requires ready { AreObjects types.now space.old.heap ready.now }
    requires no_contexts { space.old.heap.rests ≡ no_rests }
    requires parts { g ≤ 1 → HaveOldParts types.now space.old.heap g }
    requires tables { AreTablesOf types.now space.old.heap space.old.cards space.old.bricks }
    ensures marker { marker.new ≡ record marker.old { stack = []; ranges = []; oldest = g } }
    ensures gray { IsGray types.now space.new.heap marker.new }
    ensures words { IsRemarked types.now space.old.heap space.new.heap }
    ensures marked { (x : ℕ) → Marked types.now space.new.heap x
        ↔ Reach (Draws types.now space.old.heap handles.now g)
        (λ y. IsCondemnedStart types.now space.old.heap handles.now g locals.now ready.now y
        ⊎ IsNamedByOlder types.now space.old.heap g y) x }
    ensures tables { AreTablesOf types.now space.new.heap space.new.cards space.new.bricks }
    ensures bricks { space.new.bricks ≡ space.old.bricks }
    ensures kept { (i : ℕ) → is_card_set space.new.cards i ≡ true → is_card_set space.old.cards i ≡ true }
    ensures cleared { g ≤ 1 → (k : ℕ) → k < length space.old.heap.segments → AreCleared types.now space.old.heap
        (is_card_set space.new.cards) k (first_of space.old.heap k) (old_end space.old.heap g k) }
{
    marker.begin(g);
    marker.roots(&mut space.heap, types, locals);
    marker.handle_roots(&mut space.heap, types, handles);
    mark_from_older(
        marker,
        &mut space.heap,
        types,
        &mut space.cards,
        &space.bricks,
    );
    marker.mark_more(&mut space.heap, types, handles, ready);
}

// Marks the condemned objects that slots of older ones name, and what they and the marked objects reach over condemned
// ones. In a collection of all generations no object is older.
fn mark_from_older(
    marker: &mut Marker,
    heap: &mut Heap,
    types: &Types,
    cards: &mut Cards,
    bricks: &Bricks,
)
    requires gray { IsGray types.now heap.old marker.old }
    requires idle { IsIdle marker.old }
    requires no_contexts { heap.old.rests ≡ no_rests }
    requires parts { marker.old.oldest ≤ 1 → HaveOldParts types.now heap.old marker.old.oldest }
    requires tables { AreTablesOf types.now heap.old cards.old bricks.now }
    ensures marker { marker.new ≡ marker.old }
    ensures gray { IsGray types.now heap.new marker.new }
    ensures words { IsRemarked types.now heap.old heap.new }
    ensures marked { (x : ℕ) → Marked types.now heap.new x
        ↔ Reach (LeadsTo types.now heap.old marker.old.oldest)
        (λ y. Marked types.now heap.old y ⊎ IsNamedByOlder types.now heap.old marker.old.oldest y) x }
    ensures tables { AreTablesOf types.now heap.new cards.new bricks.now }
    ensures kept { (i : ℕ) → is_card_set cards.new i ≡ true → is_card_set cards.old i ≡ true }
    ensures cleared { marker.old.oldest ≤ 1 → (k : ℕ) → k < length heap.old.segments → AreCleared types.now heap.old
        (is_card_set cards.new) k (first_of heap.old k) (old_end heap.old marker.old.oldest k) }
{
    let is_young = marker.oldest() < 2;
    if is_young {
        scan_cards(marker, heap, types, cards, bricks);
    }
}
