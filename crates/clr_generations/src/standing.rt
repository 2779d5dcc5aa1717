// The cards and the bricks of a heap in which objects stand.
ghost use Rattle.std.specs.Prelude.{◌≡◌, ℕ, ◌+◌, ◌*◌, ◌/◌, ◌<◌, ◌≤◌, ◌^◌, ◌∷◌, ◌++◌, [], false, length, List, OnOk, pos};
ghost use Rattle.std.specs.Prelude.{true};
ghost use Rattle.clr_types.specs.Types.{TypeRow};
ghost use Rattle.clr_types.specs.declared.item.Item.{Item as Found};
ghost use Rattle.clr_bricks.specs.Bricks.{entry_at};
ghost use Rattle.clr_cards.specs.Cards.{is_card_set};
ghost use Rattle.clr_covers.specs.Covers.{is_covered, spans};
ghost use Rattle.clr_heap.specs.View.{first_of, frame, heap_items, last_of, listings, word_of};
ghost use Rattle.clr_view.specs.View.{IsHeld, is_object, objects_among, objects_in};
ghost use Rattle.clr_generations.specs.Laws.{BrickLaw};
ghost use Rattle.clr_generations.specs.Tables.{AreBricksOf, AreCardsOf, AreTablesOf};

use crate::births::enter_newborn;
use crate::covering::cover_segments;
use crate::old_births::enter_old_newborn;
use clr_bricks::{Bricks, NoMemory};
use clr_cards::{CARD, Cards};
use clr_heap::{Heap, Item};
use clr_types::Types;

/// Gives each segment of a heap in which objects stand its cards and its bricks, of which there are none before. Each
/// card is set up to the end of its segment, and bricks tell of the objects. `NoMemory` comes where there was no memory
/// for them; some segments may have theirs then.
pub fn cover_standing(
    heap: &Heap,
    types: &Types,
    cards: &mut Cards,
    bricks: &mut Bricks,
) -> Result<(), NoMemory>
    requires held { IsHeld types.now heap.now }
    requires order { heap.now.start1 ≤ heap.now.start0 }
    requires no_cards { cards.old ≡ [] }
    requires no_bricks { bricks.old ≡ [] }
    ensures { OnOk result (AreTablesOf types.now heap.now cards.new bricks.new) }
{
    heap.lawful();
    cover_segments(heap, cards, bricks)?;
    set_cards(heap, cards);
    enter_objects(heap, types, bricks);
    Ok(())
}

// Sets the cards of all segments, up to the end of each.
fn set_cards(heap: &Heap, cards: &mut Cards)
    requires { AreCardsOf (frame heap.now) cards.old }
    ensures set { (k a : ℕ) → k < length heap.now.segments → first_of heap.now k ≤ a → a < last_of heap.now k
        → is_card_set cards.new (a / 2048) ≡ true }
    ensures spans { spans cards.new ≡ spans cards.old }
{
    for k in 0..heap.segments() {
        set_segment(heap, cards, k);
    }
}

// Sets the cards of segment `k`, up to its end.
fn set_segment(heap: &Heap, cards: &mut Cards, k: usize)
    requires in_range { k < length heap.now.segments }
    requires cards { AreCardsOf (frame heap.now) cards.old }
    ensures set { (a : ℕ) → first_of heap.now k ≤ a → a < last_of heap.now k
        → is_card_set cards.new (a / 2048) ≡ true }
    ensures kept { (i : ℕ) → is_card_set cards.old i ≡ true → is_card_set cards.new i ≡ true }
    ensures spans { spans cards.new ≡ spans cards.old }
{
    let segment = heap.info(k);
    set_between(
        cards,
        segment.base / CARD,
        (segment.end + (CARD - 1)) / CARD,
    );
}

// Sets the cards of [from, past).
fn set_between(cards: &mut Cards, from: u64, past: u64)
    requires covered { (i : ℕ) → from ≤ i → i < past → is_covered cards.old i ≡ true }
    requires small { past < 2 ^ 53 }
    ensures set { (i : ℕ) → from ≤ i → i < past → is_card_set cards.new i ≡ true }
    ensures kept { (i : ℕ) → is_card_set cards.old i ≡ true → is_card_set cards.new i ≡ true }
    ensures spans { spans cards.new ≡ spans cards.old }
{
    for card in from..past {
        cards.set(CARD * card);
    }
}

// Lets the bricks of all segments, which have no entries, tell of the objects.
fn enter_objects(heap: &Heap, types: &Types, bricks: &mut Bricks)
    requires held { IsHeld types.now heap.now }
    requires order { heap.now.start1 ≤ heap.now.start0 }
    requires bricks { AreBricksOf (frame heap.now) bricks.old }
    requires unnamed { (i : ℕ) → entry_at bricks.old i ≡ pos 0 }
    ensures law { BrickLaw types.now (frame heap.now) (objects_in types.now heap.now) (entry_at bricks.new) }
    ensures spans { spans bricks.new ≡ spans bricks.old }
{
    for k in 0..heap.segments() {
        enter_segment(heap, types, bricks, k);
    }
}

// Lets the bricks, which tell of the objects of the segments below `k`, tell of those of segment `k`, too.
fn enter_segment(heap: &Heap, types: &Types, bricks: &mut Bricks, k: usize)
    requires held { IsHeld types.now heap.now }
    requires order { heap.now.start1 ≤ heap.now.start0 }
    requires in_range { k < length heap.now.segments }
    requires bricks { AreBricksOf (frame heap.now) bricks.old }
    requires law { BrickLaw types.now (frame heap.now)
        (objects_among types.now (word_of heap.now) (listings types.now heap.now 0 k)) (entry_at bricks.old) }
    ensures law { BrickLaw types.now (frame heap.now)
        (objects_among types.now (word_of heap.now) (listings types.now heap.now 0 (k + 1))) (entry_at bricks.new) }
    ensures spans { spans bricks.new ≡ spans bricks.old }
{
    for item in heap.walk(types, k) {
        enter(heap, bricks, item);
    }
}

// Lets the bricks, which tell of the objects below it, tell of an item, too.
fn enter(heap: &Heap, bricks: &mut Bricks, item: Item)
    requires some { 0 < item.size }
    requires fits { item.place + item.size < 2 ^ 62 }
    requires order { heap.now.start1 ≤ heap.now.start0 }
    requires covered { (i : ℕ) → item.place / 4096 ≤ i → 4096 * i < item.place + item.size
        → is_covered bricks.old i ≡ true }
    ensures law { (rows : List TypeRow) (before after : List Found) → IsHeld rows heap.now
        → before ++ item ∷ after ≡ heap_items rows heap.now
        → BrickLaw rows (frame heap.now) (objects_among rows (word_of heap.now) before) (entry_at bricks.old)
        → BrickLaw rows (frame heap.now) (objects_among rows (word_of heap.now) (before ++ item ∷ []))
        (entry_at bricks.new) }
    ensures spans { spans bricks.new ≡ spans bricks.old }
{
    heap.lawful();
    if item.type_id.0 == 0 {
        return;
    }
    if heap.gen_of(item.place) > 0 {
        enter_old_newborn(bricks, item.place, item.size);
    } else {
        enter_newborn(heap, bricks, item.place);
    }
}
