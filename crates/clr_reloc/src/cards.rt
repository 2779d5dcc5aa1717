// Relocating the references of old objects, which set cards tell.
ghost use Rattle.std.specs.Prelude.{◌≡◌, ◌-◌, ◌/◌, ◌%◌, ◌<◌, ◌≤◌, ◌⊎◌, ◌^◌, true, List, IfSome, IfNone};
ghost use Rattle.clr_types.specs.declared.item.Item.{Item};
ghost use Rattle.clr_cards.specs.Cards.{is_card_set};
ghost use Rattle.clr_covers.specs.Covers.{share_cover};
ghost use Rattle.clr_heap.specs.View.{frame, HeapView};
ghost use Rattle.clr_model.specs.Compaction.{Move};
ghost use Rattle.clr_moves.specs.Moves.{age_of};
ghost use Rattle.clr_scan.specs.SetCards.{AreClear};
ghost use Rattle.clr_reloc.specs.RunKinds.{IsRunKind};
ghost use Rattle.clr_reloc.specs.Relocated.{rebounded};
ghost use Rattle.clr_reloc.specs.Relocations.{AreRelocated, IsRelocatingBy, KeepsBeside};
ghost use Rattle.clr_reloc.specs.Relocating.{GoesDown, HaveCardsDown, IsAhead, Tracks};
ghost use Rattle.clr_reloc.specs.Scanning.{AreEntriesSound, AreInRow, AreQuietWhereClear, entry_before, HaveEntries};

use crate::entries::nearest;
use crate::relocation::{Met, Relocation};
use crate::stretches::{ItemRange, relocate_items};
use clr_cards::Cards;
use clr_heap::Heap;
use clr_pinq::PinQueue;

// Relocates the references of what is left among the items from the place `first` up to `end`, where nothing goes and
// cards tell all references to what goes or is younger. A part begins in the brick `border`.
pub(crate) fn relocate_carded(
    heap: &mut Heap,
    work: &Relocation<'_>,
    cards: &mut Cards,
    pins: &mut PinQueue,
    met: &mut Met,
    border: u64,
    first: u64,
    end: u64,
)
    requires least { age_of work.now.g ≤ 2 }
    requires kind { IsRunKind work.now.types.now met.old.kind }
    requires small { end ≤ 2 ^ 62 }
    requires can { (view : HeapView) × (now : HeapView) × (vs : List Move) × (is : List Item)
        × IsRelocatingBy work.now view now heap.old pins.old.entries vs met.old.stretch
        × Tracks work.now.types.now view is first end × IsAhead view now work.now.g vs first end
        × GoesDown vs first end 0
        × AreEntriesSound work.now.types.now view (entry_before work.now.bricks.now work.now.planned.below
        work.now.planned.first border) first end
        × AreQuietWhereClear work.now.types.now view work.now.g vs (rebounded (frame view) work.now.planned)
        (is_card_set cards.old) first end }
    requires cards { HaveCardsDown cards.old first end 0 }
    requires row { AreInRow cards.old first end }
    requires entries { HaveEntries work.now.bricks.now first end }
    ensures gone { (view now : HeapView) (vs : List Move) (is : List Item)
        → IsRelocatingBy work.now view now heap.old pins.old.entries vs met.old.stretch
        → Tracks work.now.types.now view is first end → IsAhead view now work.now.g vs first end
        → GoesDown vs first end 0
        → AreEntriesSound work.now.types.now view (entry_before work.now.bricks.now work.now.planned.below
        work.now.planned.first border) first end
        → AreQuietWhereClear work.now.types.now view work.now.g vs (rebounded (frame view) work.now.planned)
        (is_card_set cards.old) first end
        → AreRelocated work.now view now vs heap.old heap.new pins.old pins.new cards.new met.new.stretch first end }
    ensures beside { KeepsBeside cards.old cards.new pins.old pins.new }
    ensures kind { IsRunKind work.now.types.now met.new.kind }
{
    let mut cursor = first;
    while let Some((lo, hi)) = next_run(cards, cursor, end) {
        let from = nearest(work.bricks, &work.planned, border, first, cursor, lo);
        let range = ItemRange {
            from,
            hi,
            down: 0,
            carded: true,
        };
        cursor = relocate_items(heap, work, cards, pins, met, range);
    }
}

// The first stretch in `[lo, hi)` on which all cards are set.
pub(crate) fn next_run(cards: &Cards, lo: u64, hi: u64) -> Option<(u64, u64)>
    requires { lo < hi → share_cover cards.now (lo / 2048) ((hi - 1) / 2048) ≡ true }
    ensures none { IfNone result (AreClear (is_card_set cards.now) lo hi) }
    ensures some { IfSome result (λ run. (lo ≤ run.0) × (run.0 < run.1) × (run.1 ≤ hi)
        × AreClear (is_card_set cards.now) lo run.0 × ((run.1 ≡ hi) ⊎ (run.1 % 2048 ≡ 0))) }
{
    cards.runs(lo, hi).next()
}
