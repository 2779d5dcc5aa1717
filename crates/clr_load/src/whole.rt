//! The second pass over an image whose fields are lawful.
ghost use Rattle.std.specs.Prelude.{◌≡◌, ℕ, ◌<◌, ◌^◌, length, List, Ok};
ghost use Rattle.std.specs.List.{AllByRecursion};
ghost use Rattle.clr_format.specs.Images as images;
ghost use Rattle.clr_format.specs.Images.{tests_in};
ghost use Rattle.clr_format.specs.NameTests.{first_failed};
ghost use Rattle.clr_fields.specs.Fields.{found};
ghost use Rattle.clr_load.specs.KeptParts.{IsParts};
ghost use Rattle.clr_load.specs.ReadTables.{rest_of};
ghost use Rattle.clr_load.specs.SeenItems.{IsSeen, items_seen};
ghost use Rattle.clr_load.specs.StepTests.{IsKnownStep};
ghost use Rattle.clr_load.specs.TableTests.{first_in_tables, HasOffsets};
ghost use Rattle.clr_load.specs.Wholes.{IsWhole, IsWholeOr};

use crate::body::Body;
use crate::finals::finals_fault;
use crate::names::{handles_fault, names_fault};
use crate::parts::Kept;
use crate::references::references_fault;
use crate::rest::Rest;
use crate::seen::Seen;
use crate::starts::Starts;
use crate::steps::steps_fault;
use clr_fields::LoadFault;
use clr_format::Head;
use clr_heap::Heap;
use clr_types::Types;

/// How many bytes the locals take, which stand in front of the tables.
const LOCALS: usize = 8192;

/// Where the handles stand in the tables, behind the holder, 16 steps of 40 bytes, and the count of handles.
const HANDLES_AT: usize = 656;

/// All parts of an image whose fields are lawful, with the heap that its segments make, in which each reference is null
/// or names an object. What else names objects isn't checked.
#[derive(Drop)]
pub struct Whole {
    pub head: Head,
    pub types: Types,
    pub heap: Heap,
    pub starts: Starts,
    pub rest: Rest,
}

/// Checks the references of an image whose fields are lawful, and makes its heap.
pub fn make_whole(bytes: &[u8], kept: Kept) -> Result<Whole, LoadFault>
    requires { (p : images.Parts) × (next : ℕ) × (images.fields_of bytes.now ≡ found p next)
        × IsParts bytes.now kept p }
    ensures { (p : images.Parts) → (next : ℕ) → images.fields_of bytes.now ≡ found p next
        → IsParts bytes.now kept p → IsWholeOr bytes.now p result }
{
    if let Some(o) = references_fault(bytes, &kept.types, &kept.body) {
        return Err(LoadFault::At(o));
    }
    let Kept {
        head,
        types,
        body,
        rest,
    } = kept;
    let Body { draft, starts, .. } = body;
    let heap = draft.finish();
    heap.lawful();
    Ok(Whole {
        head,
        types,
        heap,
        starts,
        rest,
    })
}

// The offset of the first word of locals and tables that names what it may not: a local, what a thread has begun, the
// target or the second of a handle, an entry or what waits, in this order.
fn tables_fault(seen: &Seen<'_>, rest: &Rest) -> Option<usize>
    requires seen { IsSeen seen.now }
    requires offsets { HasOffsets rest.now }
    requires known { AllByRecursion (IsKnownStep seen.now.types.now) rest.now.tables.steps.items }
    ensures { result ≡ first_in_tables (rest_of rest.now) seen.now.types.now seen.now.heap.now (items_seen seen.now) }
{
    let tables = &rest.tables;
    let at = rest.tables_at;
    let handles_at = at + HANDLES_AT;
    let entries_at = handles_at + 32 * tables.handles.len() + 8;
    let ready_at = entries_at + 8 * tables.entries.len() + 8;
    if let Some(o) = names_fault(seen.starts, &rest.locals, at - LOCALS) {
        return Some(o);
    }
    if let Some(o) = steps_fault(seen, &tables.steps, at + 8) {
        return Some(o);
    }
    if let Some(o) = handles_fault(seen.starts, &tables.handles, handles_at) {
        return Some(o);
    }
    if let Some(o) = finals_fault(seen, &tables.entries, entries_at) {
        return Some(o);
    }
    finals_fault(seen, &tables.ready, ready_at)
}

/// The offset of the first word that names what it may not.
pub fn whole_fault(whole: &Whole) -> Option<usize>
    requires { (bytes : List ℕ) × (p : images.Parts) × IsWhole bytes whole.now p }
    ensures { (bytes : List ℕ) → (p : images.Parts) → IsWhole bytes whole.now p → result ≡ first_failed (tests_in p) }
{
    let seen = Seen {
        types: &whole.types,
        heap: &whole.heap,
        starts: &whole.starts,
    };
    tables_fault(&seen, &whole.rest)
}
