//! The items in the memory of a segment, one behind the other.
ghost use Rattle.std.specs.Prelude.{◌≡◌, ℕ, ◌+◌, ◌-◌, ◌^◌, ◌<◌, ◌≤◌, IfSome, ◌||◌, ◌&&◌, ◌==◌, length, not, List, None};
ghost use Rattle.std.specs.Prelude.{Ok};
ghost use Rattle.clr_types.specs.Segments.{first_place};
ghost use Rattle.clr_types.specs.declared.item.Item.{Item as Found};
ghost use Rattle.clr_sos.specs.CheckedCells.{fault_of};
ghost use Rattle.clr_sos.specs.Faults.{stands};
ghost use Rattle.clr_load.specs.ItemScans.{IsRangeOf, items_of};
ghost use Rattle.clr_load.specs.Scans.{IsIn, IsScan};
ghost use Rattle.clr_load.specs.Starts.{has_place};

use crate::cells::{Scan, checked_item};
use crate::starts::Range;
use clr_types::TypeId;

// The first address in a segment that isn't lawful. Where there is none the places of its objects are marked.
pub fn items_fault(scan: &Scan<'_>, range: &mut Range) -> Option<u64>
    requires scan { IsScan scan.now }
    requires range { IsRangeOf scan.now range.old }
    ensures fault { result ≡ fault_of (items_of scan.now) }
    ensures marked { (items : List Found) → items_of scan.now ≡ Ok items → (x : ℕ)
        → has_place range.new x ≡ (has_place range.old x || stands items x) }
    ensures near { IfSome result (λ a. a < 2 ^ 62) }
    ensures range { IsRangeOf scan.now range.new }
    ensures there { result ≡ None → scan.now.at + (scan.now.info.end - first_place scan.now.info)
        ≤ length scan.now.bytes.now }
{
    let mut place = scan.info.first_place();
    while place < scan.info.end {
        match checked_item(scan, place) {
            Err(a) => return Some(a),
            Ok(item) => {
                mark_item(scan, range, place, item.type_id);
                place += item.size;
            }
        }
    }
    None
}

// Sets the bit of an item at a place, where it is an object.
#[inline]
fn mark_item(scan: &Scan<'_>, range: &mut Range, place: u64, type_id: TypeId)
    requires scan { IsScan scan.now }
    requires range { IsRangeOf scan.now range.old }
    requires place { IsIn scan.now place }
    requires there { scan.now.at + (place - first_place scan.now.info) < length scan.now.bytes.now }
    ensures range { IsRangeOf scan.now range.new }
    ensures marked { (x : ℕ) → has_place range.new x
        ≡ (has_place range.old x || ((place == x) && not (type_id.0 == 0))) }
{
    let _ = scan;
    if type_id.0 != 0 {
        range.mark(place);
    }
}
