//! What a runtime begins with.
ghost use Rattle.std.specs.Prelude.{◌≡◌, ◌≤◌, [], false, IfOk, List, replicate, Some};
ghost use Rattle.std.specs.FinMap as finmap;
ghost use Rattle.clr_types.specs.Types.{TypeRow};
ghost use Rattle.clr_heap.specs.View.{opening_heap};
ghost use Rattle.clr_model.specs.Lawful.{AreLawfulOptions};
ghost use Rattle.clr_generations.specs.Tables.{AreTablesOf};
ghost use Rattle.clr_options.specs.Options.{options_of};

use crate::NoMemory;
use clr_bricks::Bricks;
use clr_cards::Cards;
use clr_collect::CollectorState;
use clr_compact::Slides;
use clr_ctx::YoungItems;
use clr_final::Finals;
use clr_generations::{Space, cover_segments};
use clr_handles::Handles;
use clr_heap::Heap;
use clr_mark::Marker;
use clr_options::Options;
use clr_pinq::PinQueue;
use clr_survivors::Roots;
use std::alloc::{AllocError, Global};

/// So many entries of saved words a compaction may need beside one for each pinned handle: two at boundaries of
/// generations, one at the start of what it compacts, and one to spare.
pub(crate) const SPARE_SAVES: usize = 4;

// A heap without objects, with its cards and bricks.
pub(crate) fn first_space(alloc: Global, options: Options) -> Result<Space, NoMemory>
    requires { AreLawfulOptions (options_of options) }
    ensures heap { IfOk result (λ s. s.heap ≡ opening_heap options.segment options.limit) }
    ensures tables { IfOk result (λ s. (rows : List TypeRow) → AreTablesOf rows s.heap s.cards s.bricks) }
{
    let heap = Heap::new(alloc, options.segment, options.limit)?;
    let mut space = Space {
        heap,
        cards: Cards::new(alloc),
        bricks: Bricks::new(alloc),
    };
    let Ok(()) = cover_segments(&space.heap, &mut space.cards, &mut space.bricks) else {
        drop(space);
        return Err(NoMemory);
    };
    Ok(space)
}

// So many locals, each null, no handles, and nothing that is to be finalised.
pub(crate) fn first_roots(alloc: Global, count: usize) -> Result<Roots, NoMemory>
    ensures locals { IfOk result (λ r. r.locals.items ≡ replicate count 0) }
    ensures handles { IfOk result (λ r. r.handles ≡ finmap.empty) }
    ensures finals { IfOk result (λ r. r.finals ≡ record { entries = []; ready = []; spare = 0 }) }
{
    let locals = null_locals(alloc, count)?;
    Ok(Roots {
        locals,
        handles: Handles::new(alloc),
        finals: Finals::new(alloc),
    })
}

// So many locals, each null.
fn null_locals(alloc: Global, count: usize) -> Result<Vec<u64>, AllocError>
    ensures { IfOk result (λ locals. locals.items ≡ replicate count 0) }
{
    vec![in alloc; 0u64; count]
}

// What collections work with, where so many objects have room on the stack of a marking: nothing is listed, saved or
// counted, and the next full collection doesn't slide the large heap.
pub(crate) fn first_collector(alloc: Global, capacity: usize) -> Result<CollectorState, NoMemory>
    requires { 1 ≤ capacity }
    ensures young { IfOk result (λ w. w.young ≡ Some []) }
    ensures saved { IfOk result (λ w. w.pins.entries ≡ []) }
    ensures spare { IfOk result (λ w. 4 ≤ w.pins.spare) }
    ensures slides { IfOk result (λ w. w.slides ≡ 0) }
    ensures stack { IfOk result (λ w. w.marker.capacity ≡ capacity) }
    ensures compacts_large { IfOk result (λ w. w.compacts_large ≡ false) }
{
    let marker = Marker::new(alloc, capacity)?;
    let Ok(pins) = first_pins(alloc) else {
        drop(marker);
        return Err(NoMemory);
    };
    Ok(CollectorState {
        marker,
        young: YoungItems::new(alloc),
        pins,
        slides: Slides::new(),
        compacts_large: false,
    })
}

// A queue of plugs that has saved nothing, and has room for what a compaction needs without pinned handles.
fn first_pins(alloc: Global) -> Result<PinQueue, NoMemory>
    ensures saved { IfOk result (λ pins. pins.entries ≡ []) }
    ensures spare { IfOk result (λ pins. 4 ≤ pins.spare) }
{
    let mut pins = PinQueue::new(alloc)?;
    let Ok(()) = pins.reserve(SPARE_SAVES) else {
        drop(pins);
        return Err(NoMemory);
    };
    Ok(pins)
}
