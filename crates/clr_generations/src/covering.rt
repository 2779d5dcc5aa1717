// The cards and the bricks of a heap at its start.
ghost use Rattle.std.specs.Prelude.{◌≡◌, ℕ, false, pos, [], OnOk};
ghost use Rattle.clr_bricks.specs.Bricks.{entry_at};
ghost use Rattle.clr_cards.specs.Cards.{is_card_set};
ghost use Rattle.clr_heap.specs.View.{frame};
ghost use Rattle.clr_generations.specs.Tables.{AreBricksOf, AreCardsOf};

use clr_bricks::{Bricks, NoMemory};
use clr_cards::Cards;
use clr_heap::Heap;

/// Gives each segment its cards and its bricks, of which there are none before. No card is set, and no brick has an
/// entry. `NoMemory` comes where there was no memory for them; some segments may have theirs then.
pub fn cover_segments(heap: &Heap, cards: &mut Cards, bricks: &mut Bricks) -> Result<(), NoMemory>
    requires no_cards { cards.old ≡ [] }
    requires no_bricks { bricks.old ≡ [] }
    ensures cards { OnOk result (AreCardsOf (frame heap.now) cards.new) }
    ensures bricks { OnOk result (AreBricksOf (frame heap.now) bricks.new) }
    ensures clear { (i : ℕ) → is_card_set cards.new i ≡ false }
    ensures unnamed { (i : ℕ) → entry_at bricks.new i ≡ pos 0 }
{
    for k in 0..heap.segments() {
        let segment = heap.info(k);
        cards.add(segment.base, segment.reserved)?;
        bricks.add(segment.base, segment.reserved)?;
    }
    Ok(())
}
