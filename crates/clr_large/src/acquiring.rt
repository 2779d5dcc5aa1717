// New segments beside the small heap.
ghost use Rattle.std.specs.Prelude.{◌≡◌, ◌↔◌, ℕ, ◌+◌, ◌%◌, ◌<◌, ◌≤◌, Err, OnErr, OnOk};
ghost use Rattle.clr_types.specs.Segments.{reserved_sum};
ghost use Rattle.clr_types.specs.declared.segment.SegKind.{SegKind};
ghost use Rattle.clr_bricks.specs.Bricks.{entry_at};
ghost use Rattle.clr_cards.specs.Cards.{is_card_set};
ghost use Rattle.clr_heap.specs.View.{acquired, frame, IsHeap};
ghost use Rattle.clr_model.specs.Allocation.{with_segment};
ghost use Rattle.clr_view.specs.Clean.{AreClean};
ghost use Rattle.clr_view.specs.Marks.{IsUnmarked};
ghost use Rattle.clr_view.specs.View.{AreFreeHeads, IsHeld, layout_in, objects_in};
ghost use Rattle.clr_generations.specs.Laws.{BrickLaw, NamesNoMore};
ghost use Rattle.clr_generations.specs.Tables.{AreBricksOf, AreCardsOf};
ghost use Rattle.clr_large.specs.Places.{IsOldKind, kind_items};

use clr_bricks::Bricks;
use clr_cards::Cards;
use clr_generations::acquire;
use clr_heap::{AcquireFault, Heap, SegKind};
use clr_types::Types;

/// Gives the heap a new empty segment of a kind, of `size` bytes, above all others, with its cards and bricks: all of
/// them, or nothing. Objects, free items and contexts stay as they are, and so do the cards and bricks of all other
/// segments. Threads may have begun stores whose cards aren't set yet: no reference to a younger object is new.
///
/// `OverLimit` comes exactly where all segments together would reserve more than the limit, and `NoMemory` where there
/// is none for the segment, its cards or its bricks. After both the heap is as it was, and cards and bricks still are
/// its own.
pub fn acquire_of_kind(
    heap: &mut Heap,
    types: &Types,
    cards: &mut Cards,
    bricks: &mut Bricks,
    kind: SegKind,
    size: u64,
) -> Result<(), AcquireFault>
    requires old { IsOldKind kind }
    requires held { IsHeld types.now heap.old }
    requires cards { AreCardsOf (frame heap.old) cards.old }
    requires bricks { AreBricksOf (frame heap.old) bricks.old }
    requires aligned { size % 4096 ≡ 0 }
    requires least { 262144 ≤ size }
    ensures acquired { OnOk result (heap.new ≡ acquired heap.old kind size) }
    ensures objects { objects_in types.now heap.new ≡ objects_in types.now heap.old }
    ensures layout { OnOk result
        (layout_in types.now heap.new ≡ with_segment (layout_in types.now heap.old) kind size) }
    ensures items { (other : SegKind)
        → kind_items other (layout_in types.now heap.new) ≡ kind_items other (layout_in types.now heap.old) }
    ensures lawful { IsHeap heap.new }
    ensures held { IsHeld types.now heap.new }
    ensures unmarked { IsUnmarked types.now heap.old → IsUnmarked types.now heap.new }
    ensures free_heads { AreFreeHeads types.now heap.old → AreFreeHeads types.now heap.new }
    ensures clean { AreClean types.now heap.old → AreClean types.now heap.new }
    ensures cards { AreCardsOf (frame heap.new) cards.new }
    ensures bricks { AreBricksOf (frame heap.new) bricks.new }
    ensures set { (i : ℕ) → is_card_set cards.new i ≡ is_card_set cards.old i }
    ensures names { NamesNoMore types.now (frame heap.old) (objects_in types.now heap.old) (frame heap.new)
        (objects_in types.now heap.new) }
    ensures brick_law { BrickLaw types.now (frame heap.old) (objects_in types.now heap.old) (entry_at bricks.old)
        → BrickLaw types.now (frame heap.new) (objects_in types.now heap.new) (entry_at bricks.new) }
    ensures over_limit { (result ≡ Err AcquireFault.OverLimit)
        ↔ (heap.old.limit < reserved_sum (frame heap.old) + size) }
    ensures err { OnErr result (heap.new ≡ heap.old) }
{
    heap.lawful();
    acquire(heap, cards, bricks, kind, size)?;
    Ok(())
}
