// The listing of the heap.
ghost use Rattle.std.specs.Prelude.{◌≡◌, ℕ, ◌++◌, Bool, filter, IfOk, OnOk};
ghost use Rattle.clr_heap.specs.View.{heap_items, IsHeap};
ghost use Rattle.clr_view.specs.View.{IsHeld};
ghost use Rattle.clr_model.specs.Sos.{dump_by_mode};
ghost use Rattle.clr_sos.specs.Dumping.{AreListed};
ghost use Rattle.clr_sos.specs.Wants.{AnswersFor, is_wanted, MayAskOf};

use crate::heap_items::{HeapItems, items_of};
use crate::listing_counts::put_counts;
use crate::listing_lines::{put_lines, put_places};
use crate::wanted::Wanted;
use clr_heap::Heap;
use clr_model::Mode;
use clr_types::Types;
use std::alloc::{AllocError, Global};

/// The listing of what is wanted of a heap's items, where `live` says which places hold objects that roots reach. It is
/// asked of the places of objects alone.
pub(crate) fn listing_where<F: Fn(u64) -> bool>(
    alloc: Global,
    types: &Types,
    heap: &Heap,
    mode: Mode,
    wanted: &Wanted,
    live: &F,
) -> Result<Vec<u8>, AllocError>
    requires held { IsHeld types.now heap.now }
    requires ask { MayAskOf (λ place. F.pre live.now place) (heap_items types.now heap.now) }
    ensures text { IfOk result (λ text. (test : ℕ → Bool)
        → AnswersFor (λ place answer. F.post live.now place answer) test (heap_items types.now heap.now)
        → text.items ≡ dump_by_mode mode types.now
        (filter (is_wanted wanted.now test) (heap_items types.now heap.now))) }
    ensures heap { IsHeap heap.now }
{
    let mut text = Vec::new(alloc);
    let items = items_of(types, heap);
    put_shown(&mut text, alloc, types, items, mode, wanted, live)?;
    Ok(text)
}

// Puts what is wanted of items at the end.
fn put_shown<F: Fn(u64) -> bool>(
    text: &mut Vec<u8>,
    alloc: Global,
    types: &Types,
    items: HeapItems<'_>,
    mode: Mode,
    wanted: &Wanted,
    live: &F,
) -> Result<(), AllocError>
    requires listed { AreListed types.now items }
    requires ask { MayAskOf (λ place. F.pre live.now place) items }
    ensures { OnOk result ((test : ℕ → Bool)
        → AnswersFor (λ place answer. F.post live.now place answer) test items.entry
        → text.new.items ≡ text.old.items
        ++ dump_by_mode mode types.now (filter (is_wanted wanted.now test) items.entry)) }
{
    match mode {
        Mode::Full => put_lines(text, types, items, wanted, live),
        Mode::Stat => put_counts(text, alloc, types, items, wanted, live),
        Mode::Short => put_places(text, items, wanted, live),
    }
}
