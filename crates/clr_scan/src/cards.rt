// Marking what older objects name, by the cards on which they do.
ghost use Rattle.std.specs.Prelude.{◌≡◌, ℕ, ◌-◌, ◌/◌, ◌%◌, ◌<◌, ◌≤◌, ◌⊎◌, ◌↔◌, true, [], length, IfSome, IfNone};
ghost use Rattle.clr_bricks.specs.Bricks.{entry_at};
ghost use Rattle.clr_cards.specs.Cards.{is_card_set};
ghost use Rattle.clr_covers.specs.Covers.{is_covered, share_cover, spans};
ghost use Rattle.clr_heap.specs.View.{first_of, last_of, no_rests};
ghost use Rattle.clr_model.specs.Reach.{Reach};
ghost use Rattle.clr_view.specs.Marks.{Marked};
ghost use Rattle.clr_mark.specs.Marks.{IsRemarked, LeadsTo};
ghost use Rattle.clr_mark.specs.Waiting.{IsGray};
ghost use Rattle.clr_generations.specs.Tables.{AreTablesOf};
ghost use Rattle.clr_scan.specs.Entries.{EntriesStand, HaveBricks};
ghost use Rattle.clr_scan.specs.OldParts.{AreOlder, HasOldPart, HaveOldParts, old_end};
ghost use Rattle.clr_scan.specs.References.{IsNamedByOlder};
ghost use Rattle.clr_scan.specs.Scans.{AreTraced, HasScanned, IsCursor};
ghost use Rattle.clr_scan.specs.SetCards.{AreClear, AreCleared, AreSettled, CardsTell, HaveCards, IsCardSettled};

use crate::entries::nearest;
use crate::stretches::scan_stretch;
use clr_bricks::Bricks;
use clr_cards::{CARD, Cards};
use clr_heap::Heap;
use clr_mark::Marker;
use clr_nums::Grid;
use clr_types::{FIRST_OFFSET, SegKind, Types};

/// Marks the condemned objects that slots of older ones name, and what they and the marked objects reach over condemned
/// ones, in a collection of generation 0 or of 0 and 1. Nothing waits then.
///
/// It looks at the older objects on set cards alone, which are all that name an object of a lower generation. A card on
/// which none does is cleared where it lies whole in an older part, or is the last one of a segment that is old to its
/// end. Cards and bricks still obey their laws. All else stays.
///
/// All contexts are given up, no item reaches over a boundary of generations, and cards and bricks obey their laws.
pub fn scan_cards(
    marker: &mut Marker,
    heap: &mut Heap,
    types: &Types,
    cards: &mut Cards,
    bricks: &Bricks,
)
    requires gray { IsGray types.now heap.old marker.old }
    requires no_contexts { heap.old.rests ≡ no_rests }
    requires parts { HaveOldParts types.now heap.old marker.old.oldest }
    requires tables { AreTablesOf types.now heap.old cards.old bricks.now }
    ensures marker { marker.new ≡ record marker.old { stack = []; ranges = [] } }
    ensures gray { IsGray types.now heap.new marker.new }
    ensures words { IsRemarked types.now heap.old heap.new }
    ensures marked { (x : ℕ) → Marked types.now heap.new x
        ↔ Reach (LeadsTo types.now heap.old marker.old.oldest)
        (λ y. Marked types.now heap.old y ⊎ IsNamedByOlder types.now heap.old marker.old.oldest y) x }
    ensures tables { AreTablesOf types.now heap.new cards.new bricks.now }
    ensures kept { (i : ℕ) → is_card_set cards.new i ≡ true → is_card_set cards.old i ≡ true }
    ensures cleared { (k : ℕ) → k < length heap.old.segments → AreCleared types.now heap.old (is_card_set cards.new) k
        (first_of heap.old k) (old_end heap.old marker.old.oldest k) }
{
    let count = heap.segments();
    for k in 0..count {
        scan_segment(marker, heap, types, cards, bricks, k);
    }
    marker.drain_slots(heap, types);
}

// Marks what slots of the older objects of segment `k` name, without what is reached from there.
fn scan_segment(
    marker: &mut Marker,
    heap: &mut Heap,
    types: &Types,
    cards: &mut Cards,
    bricks: &Bricks,
    k: usize,
)
    requires gray { IsGray types.now heap.old marker.old }
    requires in_range { k < length heap.old.segments }
    requires no_contexts { heap.old.rests ≡ no_rests }
    requires part { HasOldPart types.now heap.old marker.old.oldest k }
    requires card_law { CardsTell types.now heap.old (is_card_set cards.old) }
    requires cards { HaveCards heap.old cards.old }
    requires entries { EntriesStand types.now heap.old (entry_at bricks.now) }
    requires bricks { HaveBricks heap.old bricks.now }
    ensures gray { IsGray types.now heap.new marker.new }
    ensures scanned { HasScanned types.now heap.old heap.new marker.old marker.new }
    ensures traced { AreTraced heap.old types.now heap.new marker.old.oldest k (first_of heap.old k)
        (old_end heap.old marker.old.oldest k) }
    ensures settled { AreSettled types.now heap.old cards.old cards.new }
    ensures cleared { AreCleared types.now heap.old (is_card_set cards.new) k (first_of heap.old k)
        (old_end heap.old marker.old.oldest k) }
{
    let first = heap.info(k).base + FIRST_OFFSET;
    let end = end_of_old(heap, k, marker.oldest());
    let mut at = first;
    let mut cursor = first;
    while let Some((lo, hi)) = next_run(cards, at, end) {
        let near = nearest(bricks, first, cursor, lo);
        cursor = scan_card_run(marker, heap, types, cards, k, near, lo, hi);
        at = hi;
    }
}

// Marks what the references on a run of set cards name. It walks from the cursor and answers the next one.
fn scan_card_run(
    marker: &mut Marker,
    heap: &mut Heap,
    types: &Types,
    cards: &mut Cards,
    k: usize,
    cursor: u64,
    lo: u64,
    hi: u64,
) -> u64
    requires gray { IsGray types.now heap.old marker.old }
    requires in_range { k < length heap.old.segments }
    requires no_contexts { heap.old.rests ≡ no_rests }
    requires from { first_of heap.old k ≤ lo }
    requires order { lo ≤ hi }
    requires inside { hi ≤ last_of heap.old k }
    requires older { AreOlder heap.old marker.old.oldest k hi }
    requires cursor { IsCursor types.now heap.old k cursor lo }
    requires card_law { CardsTell types.now heap.old (is_card_set cards.old) }
    requires cards { HaveCards heap.old cards.old }
    ensures gray { IsGray types.now heap.new marker.new }
    ensures scanned { HasScanned types.now heap.old heap.new marker.old marker.new }
    ensures traced { AreTraced heap.old types.now heap.new marker.old.oldest k lo hi }
    ensures cursor { IsCursor types.now heap.old k result hi }
    ensures settled { AreSettled types.now heap.old cards.old cards.new }
    ensures cleared { AreCleared types.now heap.old (is_card_set cards.new) k lo hi }
{
    let end = heap.info(k).end;
    let mut place = cursor;
    let mut at = lo;
    while at < hi {
        let next = hi.min(Grid::<CARD>::first(Grid::<CARD>::index(at) + 1));
        let (met, younger) = scan_stretch(marker, heap, types, k, place, at, next);
        settle(cards, at, next, end, younger);
        place = met;
        at = next;
    }
    place
}

// Where the older part of segment `k` ends in a collection of the generations up to `g`, which is 0 or 1.
fn end_of_old(heap: &Heap, k: usize, g: u8) -> u64
    requires { k < length heap.now.segments }
    ensures { result ≡ old_end heap.now g k }
{
    let segment = heap.info(k);
    match segment.kind {
        SegKind::Ephemeral => {
            let (start1, start0) = heap.boundaries();
            if g == 0 { start0 } else { start1 }
        }
        _ => segment.end,
    }
}

// The first stretch in `[lo, hi)` on which all cards are set.
fn next_run(cards: &Cards, lo: u64, hi: u64) -> Option<(u64, u64)>
    requires { lo < hi → share_cover cards.now (lo / 2048) ((hi - 1) / 2048) ≡ true }
    ensures none { IfNone result (AreClear (is_card_set cards.now) lo hi) }
    ensures some { IfSome result (λ run. (lo ≤ run.0) × (run.0 < run.1) × (run.1 ≤ hi)
        × AreClear (is_card_set cards.now) lo run.0 × ((run.1 ≡ hi) ⊎ (run.1 % 2048 ≡ 0))) }
{
    cards.runs(lo, hi).next()
}

// Clears the card of `[at, next)` where it is a whole one, or the last of a segment that ends at `end`, and nothing on
// it names an object of a lower generation.
fn settle(cards: &mut Cards, at: u64, next: u64, end: u64, younger: bool)
    requires { is_covered cards.old (at / 2048) ≡ true }
    ensures cards { IsCardSettled (is_card_set cards.old) (is_card_set cards.new) at next end younger }
    ensures spans { spans cards.new ≡ spans cards.old }
{
    if !younger && at % CARD == 0 && (next % CARD == 0 || next == end) {
        cards.clear(at);
    }
}
