//! A runtime over what stands already.
ghost use Rattle.std.specs.Prelude.{◌≡◌, ◌+◌, ◌≤◌, [], IfOk, None};
ghost use Rattle.clr_generations.specs.Tables.{AreTablesOf};
ghost use Rattle.clr_handles.specs.Tops.{pinned_in};
ghost use Rattle.clr_options.specs.Options.{options_of};
ghost use Rattle.clr_runtime.specs.Standings.{CanGoOn, standing_machine};
ghost use Rattle.clr_view.specs.View.{IsHeld};

use crate::NoMemory;
use crate::handles::reserve_ties;
use crate::opening::{SPARE_SAVES, first_collector};
use crate::parts::Parts;
use crate::runtime::{MARK_STACK, Runtime};
use crate::sums::Sums;
use clr_bgmark::Background;
use clr_bricks::Bricks;
use clr_cards::Cards;
use clr_collect::CollectorState;
use clr_final::Finals;
use clr_generations::{Space, cover_standing};
use clr_handles::{Handles, Kind, MOST_HANDLES};
use clr_heap::Heap;
use clr_large::KindItems;
use clr_mark::Marker;
use clr_options::Options;
use clr_safe::Safe;
use clr_survivors::Roots;
use clr_types::{TypeId, Types};
use std::alloc::Global;

/// What stands already: types, a heap, all that names its objects from outside, and what threads have begun.
#[derive(Drop)]
pub struct Standing {
    pub types: Types,
    pub heap: Heap,
    /// 64 for each of 16 threads, by thread.
    pub locals: Vec<u64>,
    pub handles: Handles,
    pub finals: Finals,
    pub safe: Safe,
    /// Whether the next full collection slides the large heap.
    pub compacts_large: bool,
}

impl Runtime {
    /// A runtime that goes on from what stands already. No sum counts anything, and no background collection runs.
    pub fn over(alloc: Global, standing: Standing, options: Options) -> Result<Runtime, NoMemory>
        requires { CanGoOn standing (options_of options) }
        ensures opens { IfOk result (λ runtime. runtime.machine ≡ standing_machine standing (options_of options)) }
        ensures stack { IfOk result (λ runtime. runtime.stack ≡ 1024) }
    {
        let Standing {
            types,
            heap,
            locals,
            handles,
            finals,
            safe,
            compacts_large,
        } = standing;
        let roots = Roots {
            locals,
            handles,
            finals,
        };
        let Ok(space) = space_of(alloc, heap, &types) else {
            drop(types);
            drop(roots);
            return Err(NoMemory);
        };
        let Ok(collector) = collector_of(alloc, &roots.handles, compacts_large) else {
            drop(types);
            drop(roots);
            drop(space);
            return Err(NoMemory);
        };
        let parts = Parts {
            types,
            space,
            large: lost_items(alloc),
            pinned: lost_items(alloc),
            roots,
            collector,
            safe,
            background: Background::new(alloc),
            sums: Sums::NONE,
            options,
        };
        Ok(Runtime {
            parts,
            recent: TypeId(0),
            earlier: TypeId(0),
        })
    }
}

// A heap with its cards and bricks.
fn space_of(alloc: Global, heap: Heap, types: &Types) -> Result<Space, NoMemory>
    requires held { IsHeld types.now heap }
    requires order { heap.start1 ≤ heap.start0 }
    ensures heap { IfOk result (λ s. s.heap ≡ heap) }
    ensures tables { IfOk result (λ s. AreTablesOf types.now s.heap s.cards s.bricks) }
{
    let mut space = Space {
        heap,
        cards: Cards::new(alloc),
        bricks: Bricks::new(alloc),
    };
    let Ok(()) = cover_standing(&space.heap, types, &mut space.cards, &mut space.bricks) else {
        drop(space);
        return Err(NoMemory);
    };
    Ok(space)
}

// What collections work with, where there are these handles. The index of young free items is dropped: it is made where
// room is first looked for.
fn collector_of(
    alloc: Global,
    handles: &Handles,
    compacts_large: bool,
) -> Result<CollectorState, NoMemory>
    ensures young { IfOk result (λ w. w.young ≡ None) }
    ensures saved { IfOk result (λ w. w.pins.entries ≡ []) }
    ensures spare { IfOk result (λ w. pinned_in handles.now + 4 ≤ w.pins.spare) }
    ensures slides { IfOk result (λ w. w.slides ≡ 0) }
    ensures stack { IfOk result (λ w. w.marker.capacity ≡ 1024) }
    ensures compacts_large { IfOk result (λ w. w.compacts_large ≡ compacts_large) }
{
    let mut collector = first_collector(alloc, MARK_STACK)?;
    collector.young.lose();
    collector.compacts_large = compacts_large;
    let Some(count) = handles.pinned_count().checked_add(SPARE_SAVES) else {
        drop(collector);
        return Err(NoMemory);
    };
    let Ok(()) = collector.pins.reserve(count) else {
        drop(collector);
        return Err(NoMemory);
    };
    list_dependent(&mut collector.marker, handles);
    Ok(collector)
}

// Takes memory, so that a marking can list what dependent handles tie, where there are any.
fn list_dependent(marker: &mut Marker, handles: &Handles)
    ensures { marker.new ≡ marker.old }
{
    if !handles.has_kind(Kind::Dependent) {
        return;
    }
    if let Some((last, _)) = handles.previous_below(MOST_HANDLES as u64, 0) {
        reserve_ties(marker, Kind::Dependent, last);
    }
}

// An index that is made where it is asked first.
fn lost_items(alloc: Global) -> KindItems
    ensures { result ≡ None }
{
    let mut items = KindItems::new(alloc);
    items.lose();
    items
}
