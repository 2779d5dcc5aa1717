// Clearing the cards of all segments.
ghost use Rattle.std.specs.Prelude.{◌≡◌, ℕ, ◌<◌, ◌≤◌, ◌^◌, length};
ghost use Rattle.clr_covers.specs.Covers.{spans};
ghost use Rattle.clr_generations.specs.Tables.{AreCardsOf};
ghost use Rattle.clr_heap.specs.View.{frame, segment_at};
ghost use Rattle.clr_types.specs.Segments.{reserved_end};
ghost use Rattle.clr_reloc.specs.Clearing.{HaveCleared};
ghost use Rattle.clr_reloc.specs.Partial.{IsPartial};
ghost use Rattle.clr_reloc.specs.Scanning.{AreInRow};

use crate::cards::next_run;
use crate::relocation::is_partial;
use clr_cards::{CARD, Cards};
use clr_heap::Heap;
use clr_moves::Condemned;

// Clears all cards, but in a compaction of less than all generations none.
pub(crate) fn clear_unless_partial(heap: &Heap, cards: &mut Cards, g: Condemned)
    requires { AreCardsOf (frame heap.now) cards.old }
    ensures same { IsPartial g → cards.new ≡ cards.old }
    ensures cleared { (IsPartial g → ⊥) → (k : ℕ) → k < length heap.now.segments
        → HaveCleared cards.old cards.new (segment_at heap.now k).base (reserved_end (segment_at heap.now k)) }
    ensures spans { spans cards.new ≡ spans cards.old }
{
    if !is_partial(g) {
        clear_cards(heap, cards);
    }
}

// Clears all cards.
fn clear_cards(heap: &Heap, cards: &mut Cards)
    requires { AreCardsOf (frame heap.now) cards.old }
    ensures cleared { (k : ℕ) → k < length heap.now.segments
        → HaveCleared cards.old cards.new (segment_at heap.now k).base (reserved_end (segment_at heap.now k)) }
    ensures spans { spans cards.new ≡ spans cards.old }
{
    let count = heap.segments();
    for k in 0..count {
        let segment = heap.info(k);
        clear_between(cards, segment.base, segment.base + segment.reserved);
    }
}

// Clears the cards of the addresses from `lo` up to `hi`. It looks for set cards, since most are clear.
fn clear_between(cards: &mut Cards, lo: u64, hi: u64)
    requires small { hi ≤ 2 ^ 62 }
    requires row { AreInRow cards.old lo hi }
    ensures { HaveCleared cards.old cards.new lo hi }
{
    let mut cursor = lo;
    while let Some((start, end)) = next_run(cards, cursor, hi) {
        clear_run(cards, start, end);
        cursor = end;
    }
}

// Clears the cards of the addresses from `lo` up to `hi`, one by one.
fn clear_run(cards: &mut Cards, lo: u64, hi: u64)
    requires small { hi ≤ 2 ^ 62 }
    requires row { AreInRow cards.old lo hi }
    ensures { HaveCleared cards.old cards.new lo hi }
{
    let mut at = lo;
    while at < hi {
        cards.clear(at);
        at = (at / CARD + 1) * CARD;
    }
}
