// A new segment, with its cards and bricks.
ghost use Rattle.std.specs.Prelude.{◌≡◌, ◌≢◌, ◌↔◌, ℕ, ◌+◌, ◌/◌, ◌%◌, ◌<◌, ◌≤◌, ◌^◌, Err, OnErr, OnOk};
ghost use Rattle.clr_types.specs.Segments.{reserved_sum};
ghost use Rattle.clr_bricks.specs.Bricks.{entry_at, new_bricks};
ghost use Rattle.clr_cards.specs.Cards.{clear_cards, is_card_set};
ghost use Rattle.clr_covers.specs.Covers.{spans, with_cover};
ghost use Rattle.clr_heap.specs.View.{acquired, frame, IsHeap, no_rests};
ghost use Rattle.clr_generations.specs.Acquiring.{AreBelow};
ghost use Rattle.clr_generations.specs.Tables.{AreBricksOf, AreCardsOf};

use clr_bricks::{Bricks, NoMemory};
use clr_cards::Cards;
use clr_heap::{AcquireFault, Heap, SegKind};

/// Gives the heap a new empty segment of `size` bytes above all others, with clear cards and with bricks without
/// entries: all of them, or nothing. No other card or entry changes. An ephemeral one has 64 MiB at most. It seals the
/// old one, which becomes small, and no place of the new one is old. No thread may have a context then, since its rest
/// would stand in a small segment.
///
/// `OverLimit` comes exactly where all segments together would reserve more than the limit, and `NoMemory` where there
/// is no memory, or no address left, for the segment, its cards or its bricks. After both nothing has changed.
pub fn acquire(
    heap: &mut Heap,
    cards: &mut Cards,
    bricks: &mut Bricks,
    kind: SegKind,
    size: u64,
) -> Result<(), AcquireFault>
    requires kind { kind ≢ SegKind.Small }
    requires no_contexts { kind ≡ SegKind.Ephemeral → heap.old.rests ≡ no_rests }
    requires cards { AreCardsOf (frame heap.old) cards.old }
    requires bricks { AreBricksOf (frame heap.old) bricks.old }
    requires aligned { size % 4096 ≡ 0 }
    requires least { 262144 ≤ size }
    requires most { kind ≡ SegKind.Ephemeral → size ≤ 67108864 }
    ensures acquired { OnOk result (heap.new ≡ acquired heap.old kind size) }
    ensures cards { OnOk result (AreCardsOf (frame heap.new) cards.new) }
    ensures bricks { OnOk result (AreBricksOf (frame heap.new) bricks.new) }
    ensures set { (i : ℕ) → is_card_set cards.new i ≡ is_card_set cards.old i }
    ensures entries { (i : ℕ) → entry_at bricks.new i ≡ entry_at bricks.old i }
    ensures over_limit { (result ≡ Err AcquireFault.OverLimit)
        ↔ (heap.old.limit < reserved_sum (frame heap.old) + size) }
    ensures heap { OnErr result (heap.new ≡ heap.old) }
    ensures lawful { IsHeap heap.new }
    ensures same_cards { OnErr result (cards.new ≡ cards.old) }
    ensures same_bricks { OnErr result (bricks.new ≡ bricks.old) }
{
    heap.lawful();
    if !heap.allows(size) {
        return Err(AcquireFault::OverLimit);
    }
    let base = heap.top();
    cover(cards, bricks, base, size)?;
    match heap.acquire(kind, size) {
        Ok(_) => {
            heap.lawful();
            Ok(())
        }
        Err(fault) => {
            cards.remove(base);
            bricks.remove(base);
            Err(fault)
        }
    }
}

// Gives `size` bytes from `base` on, above all that is covered, clear cards and bricks without entries: both, or
// nothing.
fn cover(cards: &mut Cards, bricks: &mut Bricks, base: u64, size: u64) -> Result<(), NoMemory>
    requires base_aligned { base % 4096 ≡ 0 }
    requires aligned { size % 4096 ≡ 0 }
    requires some { 0 < size }
    requires fits { base + size < 2 ^ 64 }
    requires cards { AreBelow (base / 2048) (spans cards.old) }
    requires bricks { AreBelow (base / 4096) (spans bricks.old) }
    ensures cards { OnOk result (cards.new ≡ with_cover (clear_cards base size) cards.old) }
    ensures bricks { OnOk result (bricks.new ≡ with_cover (new_bricks base size) bricks.old) }
    ensures set { (i : ℕ) → is_card_set cards.new i ≡ is_card_set cards.old i }
    ensures entries { (i : ℕ) → entry_at bricks.new i ≡ entry_at bricks.old i }
    ensures same_cards { OnErr result (cards.new ≡ cards.old) }
    ensures same_bricks { OnErr result (bricks.new ≡ bricks.old) }
{
    cards.add(base, size)?;
    match bricks.add(base, size) {
        Ok(()) => Ok(()),
        Err(fault) => {
            cards.remove(base);
            Err(fault)
        }
    }
}
