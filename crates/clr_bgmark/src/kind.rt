// The references of objects that are like one before: most objects that are scanned in a row are of few types.
ghost use Rattle.std.specs.Prelude.{◌≡◌};
ghost use Rattle.clr_heap.specs.Parts.{item_at};
ghost use Rattle.clr_heap.specs.View.{IsHeap, word_of};
ghost use Rattle.clr_view.specs.SlotValues.{StandsAt};
ghost use Rattle.clr_view.specs.View.{IsHeld};
ghost use Rattle.clr_mark.specs.Kinds.{IsRunKind};

use clr_heap::Heap;
use clr_mark::RunKind;
use clr_types::mark::unmarked;
use clr_types::{Item, Types};

// What is known behind an object: its kind, where it is of one, else what was known. `mt` is its method table word.
#[inline]
pub(crate) fn kind_behind(
    heap: &Heap,
    types: &Types,
    item: Item,
    mt: u64,
    known: RunKind,
) -> RunKind
    requires heap { IsHeap heap.now }
    requires held { IsHeld types.now heap.now }
    requires stands { StandsAt types.now heap.now item.place }
    requires item { item ≡ item_at types.now (word_of heap.now) item.place }
    requires word { mt ≡ word_of heap.now item.place }
    requires known { IsRunKind types.now known }
    ensures { IsRunKind types.now result }
{
    let _ = heap;
    if types.has_length(item.type_id) {
        return known;
    }
    match types.reference_run(item.type_id, 0) {
        Some(run) => RunKind {
            mt: unmarked(mt),
            run,
        },
        None => known,
    }
}
