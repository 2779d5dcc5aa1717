//! The second pass over the references of objects.
ghost use Rattle.std.specs.Prelude.{◌≡◌, ℕ, ◌<◌, ◌^◌, length, List, map};
ghost use Rattle.clr_types.specs.declared.item.Item.{Item as Found};
ghost use Rattle.clr_load.specs.Bodies.{IsBody};
ghost use Rattle.clr_format.specs.HeapFields as fields;
ghost use Rattle.clr_sos.specs.Faults.{item_addresses};
ghost use Rattle.clr_load.specs.FoundItems.{AreThere, IsThere};
ghost use Rattle.clr_format.specs.HeapFields.{references_in, word_named};
ghost use Rattle.clr_load.specs.KnownStarts.{AreStarts};
ghost use Rattle.clr_format.specs.NameTests.{first_failed, reference_test};
ghost use Rattle.clr_load.specs.Scans.{IsIn, IsScan};

use crate::body::Body;
use crate::cells::{Scan, item_there, offset_of, present};
use crate::names::is_name;
use crate::starts::Starts;
use clr_types::{Item, Types};

// The offset of the first reference of an item that is neither null nor the place of an object.
pub fn item_fault(scan: &Scan<'_>, starts: &Starts, item: Item) -> Option<u64>
    requires scan { IsScan scan.now }
    requires place { IsIn scan.now item.place }
    requires there { IsThere scan.now item.place item }
    ensures { (items : List Found) → AreStarts starts.now items
        → result ≡ first_failed (map (reference_test items)
        (map (word_named scan.now.bytes.now scan.now.info scan.now.at) (item_addresses scan.now.types.now item))) }
{
    for offset in scan.types.slots(item.type_id, item.len) {
        let a = item.place + offset;
        if !is_name(starts, present(scan, a)) {
            return Some(offset_of(scan, a));
        }
    }
    None
}

// The offset of the first reference in a segment that is neither null nor the place of an object.
pub fn segment_fault(scan: &Scan<'_>, starts: &Starts) -> Option<u64>
    requires scan { IsScan scan.now }
    requires read { (here : List Found) × AreThere scan.now here }
    ensures { (here : List Found) → AreThere scan.now here → (items : List Found) → AreStarts starts.now items
        → result ≡ first_failed (map (reference_test items)
        (references_in scan.now.bytes.now scan.now.types.now scan.now.info scan.now.at here)) }
{
    let mut place = scan.info.first_place();
    while place < scan.info.end {
        let item = item_there(scan, place);
        if let Some(o) = item_fault(scan, starts, item) {
            return Some(o);
        }
        place += item.size;
    }
    None
}

/// The offset of the first reference that is neither null nor the place of an object.
pub fn references_fault(bytes: &[u8], types: &Types, body: &Body) -> Option<u64>
    requires small { length bytes.now < 2 ^ 63 }
    requires kept { (b : fields.Body) × IsBody bytes.now types.now body.now b }
    ensures { (b : fields.Body) → IsBody bytes.now types.now body.now b
        → result ≡ first_failed (map (reference_test b.items) b.references) }
{
    for k in 0..body.offsets.len() {
        let scan = Scan {
            bytes,
            types,
            info: body.draft.info(k),
            start1: 0,
            start0: 0,
            large: 0,
            at: body.offsets[k],
        };
        if let Some(o) = segment_fault(&scan, &body.starts) {
            return Some(o);
        }
    }
    None
}
