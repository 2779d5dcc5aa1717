//! `objsize`: how many objects an object reaches by slots, and how many bytes these have.
ghost use Rattle.std.specs.Prelude.{◌≡◌, ◌≢◌, ◌↔◌, true, [], IfOk, Err, None};
ghost use Rattle.std.specs.FinMap as finmap;
ghost use Rattle.clr_types.specs.Descriptors.{offsets_from};
ghost use Rattle.clr_model.specs.Lookups.{object_at as object_of};
ghost use Rattle.clr_model.specs.Machine.{Machine};
ghost use Rattle.clr_view.specs.SlotValues.{IsObjectAt};
ghost use Rattle.clr_mark.specs.Markings.{item_references};
ghost use Rattle.clr_mark.specs.Roots.{IsRoot};
ghost use Rattle.clr_sos.specs.Reaching.{IsObjectOf, IsSound};
ghost use Rattle.clr_sos.specs.Views.{IsLawfulView, IsViewOf};
ghost use Rattle.clr_objsize.specs.Sizes.{HasTotal, IsSizeOf, NamesNone};

use clr_final::Finals;
use clr_generations::object_at;
use clr_handles::Handles;
use clr_heap::Item;
use clr_sos::{Reached, SosFault, View};
use clr_types::ReferenceRun;
use std::alloc::{AllocError, Global};

// So many references of an object are looked at before a search.
const FEW: u64 = 8;

/// How many objects there are, and how many bytes they have together.
#[derive(Clone, Copy, Debug, PartialEq, Eq)]
pub struct Total {
    pub objects: u64,
    pub bytes: u64,
}

/// What the object with the place `a` holds: the object itself, each object that a slot of it names, each that a slot
/// of these names, and so on. Each object counts once, whatever else names it. Dependent handles don't count.
///
/// `NoObject` comes exactly where no object has the place, and `NoMemory` only where there is no memory for the search.
/// An object whose type has no references, or few that are all null, is told at once. Else the search leaves the heap
/// as it is, and follows each slot of what is reached once. It reserves a bit for each word of the heap's used ranges,
/// and takes 24 bytes for each object that it finds. Where these ranges have more than 8 MiB, no more bits are cleared
/// than those of the pages in which it finds objects.
pub fn objsize(alloc: Global, view: &View<'_>, a: u64) -> Result<Total, SosFault>
    requires lawful { IsLawfulView view.now }
    ensures size { IfOk result (λ total. (m : Machine) → IsViewOf view.now m → IsSizeOf m a total) }
    ensures no_object { (m : Machine) → IsViewOf view.now m
        → ((result ≡ Err SosFault.NoObject) ↔ (object_of m.objects a ≡ None)) }
    ensures no_type { result ≢ Err SosFault.UnknownType }
{
    let Some(item) = object_at(view.heap, view.types, view.bricks, a) else {
        return Err(SosFault::NoObject);
    };
    let total = total_of(alloc, view, item)?;
    Ok(total)
}

// What an object holds. One that names none holds itself alone, and needs no search.
fn total_of(alloc: Global, view: &View<'_>, item: Item) -> Result<Total, AllocError>
    requires lawful { IsLawfulView view.now }
    requires object { IsObjectAt view.now.types.now view.now.heap.now item.place item }
    ensures { IfOk result (HasTotal view.now (λ y. y ≡ item.place)) }
{
    if names_none(view, item) {
        return Ok(Total {
            objects: 1,
            bytes: item.size,
        });
    }
    total_from(alloc, view, item.place)
}

// Whether no slot of an object names one, as a short look tells: where its type has no references, or where they are a
// run of few words, which are null. Of any other object it answers false, so that no long run is read twice.
fn names_none(view: &View<'_>, item: Item) -> bool
    requires sound { IsSound view.now }
    requires object { IsObjectAt view.now.types.now view.now.heap.now item.place item }
    ensures { result ≡ true → NamesNone view.now item.place }
{
    match view.types.reference_run(item.type_id, item.len) {
        Some(run) => run.count <= FEW && are_null(view, item, run),
        None => view.types.series(item.type_id).is_empty(),
    }
}

// Whether the references of an object are null, which are a run of words.
fn are_null(view: &View<'_>, item: Item, run: ReferenceRun) -> bool
    requires sound { IsSound view.now }
    requires object { IsObjectAt view.now.types.now view.now.heap.now item.place item }
    requires run { item_references view.now.types.now item ≡ offsets_from run.offset run.count }
    ensures { result ≡ true → NamesNone view.now item.place }
{
    let k = view.heap.segment_of(item.place);
    for j in 0..run.count {
        if view.heap.word_at(k, item.place + (run.offset + 8 * j)) != 0 {
            return false;
        }
    }
    true
}

// What the object at a place holds. That is what the locals of another view hold: of one that has the place as its only
// local, no handles and no f-reachable queue.
fn total_from(alloc: Global, view: &View<'_>, place: u64) -> Result<Total, AllocError>
    requires lawful { IsLawfulView view.now }
    requires stands { IsObjectOf view.now place }
    ensures { IfOk result (HasTotal view.now (λ y. y ≡ place)) }
{
    let locals = [place];
    let handles = Handles::new(alloc);
    let finals = Finals::new(alloc);
    let only = View {
        types: view.types,
        heap: view.heap,
        bricks: view.bricks,
        handles: &handles,
        finals: &finals,
        locals: &locals,
        limit: view.limit,
        large: view.large,
    };
    total_of_locals(alloc, &only)
}

// What the locals of a view hold that has no handles and no f-reachable queue. Each object is measured when its slots
// are followed.
fn total_of_locals(alloc: Global, view: &View<'_>) -> Result<Total, AllocError>
    requires sound { IsSound view.now }
    requires handles { view.now.handles.now ≡ finmap.empty }
    requires ready { view.now.finals.now.ready ≡ [] }
    ensures { IfOk result (HasTotal view.now (IsRoot view.now.locals.now)) }
{
    let mut reached = Reached::from_locals(alloc, view)?;
    let mut bytes = 0;
    let mut next = 0;
    while next < reached.entries.len() {
        let item = reached.follow_slots(view, next)?;
        bytes += item.size;
        next += 1;
    }
    Ok(Total {
        objects: next as u64,
        bytes,
    })
}
