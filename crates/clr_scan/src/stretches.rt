// Marking what the references name that stand on a stretch of a segment.
ghost use Rattle.std.specs.Prelude.{◌≡◌, ℕ, ◌<◌, ◌≤◌, false, length};
ghost use Rattle.clr_types.specs.Rising.{IsIn};
ghost use Rattle.clr_types.specs.Segments.{generation};
ghost use Rattle.clr_heap.specs.Parts.{item_at};
ghost use Rattle.clr_heap.specs.View.{frame, last_of, listing, no_rests, word_of};
ghost use Rattle.clr_mark.specs.Marks.{is_condemned_place};
ghost use Rattle.clr_mark.specs.Waiting.{IsGray};
ghost use Rattle.clr_scan.specs.OldParts.{AreOlder};
ghost use Rattle.clr_scan.specs.References.{AreQuiet, IsQuiet, IsReferenceOf};
ghost use Rattle.clr_scan.specs.Scans.{AreTraced, HasScanned, IsCursor, IsTraced};

use crate::slots::{Older, scan_slots};
use clr_heap::Heap;
use clr_mark::Marker;
use clr_types::Types;

// Marks what the references name that stand on `[lo, hi)` in segment `k`, where all is old. It walks from the cursor
// and answers the next one, and whether a reference names an object of a lower generation.
pub(crate) fn scan_stretch(
    marker: &mut Marker,
    heap: &mut Heap,
    types: &Types,
    k: usize,
    cursor: u64,
    lo: u64,
    hi: u64,
) -> (u64, bool)
    requires gray { IsGray types.now heap.old marker.old }
    requires in_range { k < length heap.old.segments }
    requires no_contexts { heap.old.rests ≡ no_rests }
    requires order { lo ≤ hi }
    requires inside { hi ≤ last_of heap.old k }
    requires older { AreOlder heap.old marker.old.oldest k hi }
    requires cursor { IsCursor types.now heap.old k cursor lo }
    ensures gray { IsGray types.now heap.new marker.new }
    ensures scanned { HasScanned types.now heap.old heap.new marker.old marker.new }
    ensures traced { AreTraced heap.old types.now heap.new marker.old.oldest k lo hi }
    ensures quiet { result.1 ≡ false → AreQuiet types.now heap.old k lo hi }
    ensures silent { AreQuiet types.now heap.old k lo hi → result.1 ≡ false }
    ensures cursor { IsCursor types.now heap.old k result.0 hi }
{
    let mut place = cursor;
    let mut younger = false;
    while place < hi {
        let (size, below) = scan_item(marker, heap, types, k, place, lo, hi);
        younger |= below;
        if size > hi - place {
            return (place, younger);
        }
        place += size;
    }
    (place, younger)
}

// Marks what the references of the item at `place` name that stand on `[lo, hi)`. It answers the item's size, and
// whether one names an object of a lower generation.
fn scan_item(
    marker: &mut Marker,
    heap: &mut Heap,
    types: &Types,
    k: usize,
    place: u64,
    lo: u64,
    hi: u64,
) -> (u64, bool)
    requires gray { IsGray types.now heap.old marker.old }
    requires in_range { k < length heap.old.segments }
    requires listed { IsIn (item_at types.now (word_of heap.old) place) (listing types.now heap.old k) }
    requires order { lo ≤ hi }
    requires inside { hi ≤ last_of heap.old k }
    requires older { is_condemned_place heap.old marker.old.oldest place ≡ false }
    ensures size { result.0 ≡ (item_at types.now (word_of heap.old) place).size }
    ensures gray { IsGray types.now heap.new marker.new }
    ensures scanned { HasScanned types.now heap.old heap.new marker.old marker.new }
    ensures traced { (a : ℕ) → IsReferenceOf types.now (item_at types.now (word_of heap.old) place) a → lo ≤ a
        → a < hi → IsTraced heap.old types.now heap.new marker.old.oldest a }
    ensures silent { ((a : ℕ) → IsReferenceOf types.now (item_at types.now (word_of heap.old) place) a → lo ≤ a
        → a < hi → IsQuiet heap.old (generation (frame heap.old) place) a) → result.1 ≡ false }
    ensures quiet { result.1 ≡ false → (a : ℕ)
        → IsReferenceOf types.now (item_at types.now (word_of heap.old) place) a → lo ≤ a → a < hi
        → IsQuiet heap.old (generation (frame heap.old) place) a }
{
    let mt = heap.word_at(k, place);
    let found = heap.item_of_word(types, k, place, mt);
    if found.type_id.0 == 0 || place + found.size <= lo {
        return (found.size, false);
    }
    let older = Older {
        item: found,
        segment: k,
        age: heap.gen_of(place),
    };
    let younger = scan_slots(marker, heap, types, older, lo, hi);
    (found.size, younger)
}
