// Relocating the references of what is left among items that stand end to end.
ghost use Rattle.std.specs.Prelude.{◌≡◌, ℕ, ◌+◌, ◌-◌, ◌<◌, ◌≤◌, true, not, ◌&&◌, ◌||◌, List, length};
ghost use Rattle.clr_view.specs.Marks.{has_mark};
ghost use Rattle.clr_types.specs.declared.item.Item.{Item};
ghost use Rattle.clr_types.specs.ReferenceRuns.{SpellsReferences};
ghost use Rattle.clr_types.specs.Types.{form_at};
ghost use Rattle.clr_heap.specs.Memories.{memory_index};
ghost use Rattle.clr_heap.specs.Parts.{item_at};
ghost use Rattle.clr_heap.specs.View.{HeapView, word_of};
ghost use Rattle.clr_model.specs.Compaction.{Move};
ghost use Rattle.clr_moves.specs.Moves.{age_of};
ghost use Rattle.clr_view.specs.View.{is_object};
ghost use Rattle.clr_pinq.specs.Queue.{logical};
ghost use Rattle.clr_reloc.specs.RunKinds.{IsRunKind};
ghost use Rattle.clr_reloc.specs.Relocations.{AreRelocated, CanSkip, IsRelocatingBy, KeepsBeside};
ghost use Rattle.clr_reloc.specs.Relocating.{GoesDown, HaveCardsDown, IsAhead, IsItemAhead};
ghost use Rattle.clr_reloc.specs.Relocating.{is_gone_over_in, Tracks};

use crate::ages::planned_gen;
use crate::items::logical_item;
use crate::kinds::kind_behind;
use crate::objects::{relocate_object, relocate_run};
use crate::relocation::{LeftObject, Met, Relocation};
use clr_cards::Cards;
use clr_heap::{Heap, Item};
use clr_moves::Condemned;
use clr_pinq::PinQueue;
use clr_types::{SegKind, mark};

// Items that a walk goes over: those from the address `from` on that begin below `hi`. They all move `down` bytes down.
// Where they are `carded`, cards tell which of their references are to be relocated.
#[derive(Clone, Copy)]
pub(crate) struct ItemRange {
    pub(crate) from: u64,
    pub(crate) hi: u64,
    pub(crate) down: u64,
    pub(crate) carded: bool,
}

// The item at an address and the address that it moves to. Where it is `carded`, cards tell which of its references are
// to be relocated.
#[derive(Clone, Copy)]
struct DueItem {
    place: u64,
    to: u64,
    carded: bool,
}

// Relocates the references of what is left among the items from the place `from` up to `end`, which all go `down` bytes
// down. The cards of the new addresses of those that name an object of a lower generation then are set.
pub(crate) fn relocate_stretch(
    heap: &mut Heap,
    work: &Relocation<'_>,
    cards: &mut Cards,
    pins: &mut PinQueue,
    met: &mut Met,
    from: u64,
    end: u64,
    down: u64,
)
    requires least { age_of work.now.g ≤ 2 }
    requires kind { IsRunKind work.now.types.now met.old.kind }
    requires can { (view : HeapView) × (now : HeapView) × (vs : List Move) × (is : List Item)
        × IsRelocatingBy work.now view now heap.old pins.old.entries vs met.old.stretch
        × Tracks work.now.types.now view is from end × IsAhead view now work.now.g vs from end
        × GoesDown vs from end down }
    requires cards { HaveCardsDown cards.old from end down }
    ensures gone { (view now : HeapView) (vs : List Move) (is : List Item)
        → IsRelocatingBy work.now view now heap.old pins.old.entries vs met.old.stretch
        → Tracks work.now.types.now view is from end → IsAhead view now work.now.g vs from end
        → GoesDown vs from end down
        → AreRelocated work.now view now vs heap.old heap.new pins.old pins.new cards.new met.new.stretch from end }
    ensures beside { KeepsBeside cards.old cards.new pins.old pins.new }
    ensures kind { IsRunKind work.now.types.now met.new.kind }
{
    let range = ItemRange {
        from,
        hi: end,
        down,
        carded: false,
    };
    relocate_items(heap, work, cards, pins, met, range);
}

// Relocates the references of what is left among the items of a range, and sets the cards of those that then refer to
// objects of a lower generation. It answers the address at which the last item ends: `hi`, or one above it.
pub(crate) fn relocate_items(
    heap: &mut Heap,
    work: &Relocation<'_>,
    cards: &mut Cards,
    pins: &mut PinQueue,
    met: &mut Met,
    range: ItemRange,
) -> u64
    requires least { age_of work.now.g ≤ 2 }
    requires kind { IsRunKind work.now.types.now met.old.kind }
    requires can { (view : HeapView) × (now : HeapView) × (vs : List Move) × (is : List Item) × (end : ℕ)
        × IsRelocatingBy work.now view now heap.old pins.old.entries vs met.old.stretch
        × Tracks work.now.types.now view is range.from end × IsAhead view now work.now.g vs range.from end
        × GoesDown vs range.from end range.down × HaveCardsDown cards.old range.from end range.down × (range.hi ≤ end)
        × (range.carded ≡ true → CanSkip work.now view vs cards.old range.from end) }
    ensures from { range.from ≤ result }
    ensures past { range.hi ≤ result }
    ensures gone { (view now : HeapView) (vs : List Move) (is : List Item) (end : ℕ)
        → IsRelocatingBy work.now view now heap.old pins.old.entries vs met.old.stretch
        → Tracks work.now.types.now view is range.from end → IsAhead view now work.now.g vs range.from end
        → GoesDown vs range.from end range.down → HaveCardsDown cards.old range.from end range.down → range.hi ≤ end
        → (range.carded ≡ true → CanSkip work.now view vs cards.old range.from end)
        → ((rest : List Item) × Tracks work.now.types.now view rest result end)
        × AreRelocated work.now view now vs heap.old heap.new pins.old pins.new cards.new met.new.stretch range.from
        result }
    ensures beside { KeepsBeside cards.old cards.new pins.old pins.new }
    ensures kind { IsRunKind work.now.types.now met.new.kind }
{
    let mut place = range.from;
    while place < range.hi {
        met.near = pins.near(met.near, place);
        met.segment = heap.segment_near(met.segment, place);
        let item = DueItem {
            place,
            to: place - range.down,
            carded: range.carded,
        };
        place += relocate_item(heap, work, cards, pins, met, item);
    }
    place
}

// Relocates the references of an item, if the collection leaves it. It stands in the segment that was met last. It
// answers the item's size.
fn relocate_item(
    heap: &mut Heap,
    work: &Relocation<'_>,
    cards: &mut Cards,
    pins: &mut PinQueue,
    met: &mut Met,
    item: DueItem,
) -> u64
    requires least { age_of work.now.g ≤ 2 }
    requires can { (view : HeapView) × (now : HeapView) × (vs : List Move) × (i : Item)
        × IsRelocatingBy work.now view now heap.old pins.old.entries vs met.old.stretch
        × IsItemAhead work.now.types.now view now work.now.g vs i item.place item.to cards.old
        × (item.carded ≡ true → CanSkip work.now view vs cards.old item.place (item.place + i.size)) }
    requires segment { met.old.segment ≡ memory_index heap.old.memories item.place }
    requires kind { IsRunKind work.now.types.now met.old.kind }
    ensures gone { (view now : HeapView) (vs : List Move) (i : Item)
        → IsRelocatingBy work.now view now heap.old pins.old.entries vs met.old.stretch
        → IsItemAhead work.now.types.now view now work.now.g vs i item.place item.to cards.old
        → (item.carded ≡ true → CanSkip work.now view vs cards.old item.place (item.place + i.size))
        → (result ≡ i.size)
        × AreRelocated work.now view now vs heap.old heap.new pins.old pins.new cards.new met.new.stretch item.place
        (item.place + i.size) }
    ensures beside { KeepsBeside cards.old cards.new pins.old pins.new }
    ensures kind { IsRunKind work.now.types.now met.new.kind }
{
    let mt = pins.logical_word_at(heap, met.segment, met.near, item.place);
    if let Some(size) = met.kind.object.size_with(mt) {
        let found = Item {
            place: item.place,
            size,
            type_id: work.types.of_mt(mark::unmarked(mt)),
            len: 0,
        };
        relocate_known(heap, work, cards, pins, met, found, item.to, mt);
        return size;
    }
    relocate_read(heap, work, cards, pins, met, item, mt)
}

// Relocates the references of an object of the kind that was met last, with the method table word `mt`, if the
// collection leaves it. The kind tells where they are, so no table is read.
#[inline(always)]
fn relocate_known(
    heap: &mut Heap,
    work: &Relocation<'_>,
    cards: &mut Cards,
    pins: &mut PinQueue,
    met: &mut Met,
    found: Item,
    to: u64,
    mt: u64,
)
    requires least { age_of work.now.g ≤ 2 }
    requires can { (view : HeapView) × (now : HeapView) × (vs : List Move) × (i : Item)
        × IsRelocatingBy work.now view now heap.old pins.old.entries vs met.old.stretch
        × IsItemAhead work.now.types.now view now work.now.g vs i found.place to cards.old }
    requires segment { met.old.segment ≡ memory_index heap.old.memories found.place }
    requires item { found ≡ item_at work.now.types.now (logical pins.old.entries (word_of heap.old)) found.place }
    requires word { mt ≡ logical pins.old.entries (word_of heap.old) found.place }
    requires object { is_object found ≡ true }
    requires run { SpellsReferences (form_at work.now.types.now found.type_id.0) found.len met.old.kind.run }
    ensures gone { (view now : HeapView) (vs : List Move) (i : Item)
        → IsRelocatingBy work.now view now heap.old pins.old.entries vs met.old.stretch
        → IsItemAhead work.now.types.now view now work.now.g vs i found.place to cards.old
        → AreRelocated work.now view now vs heap.old heap.new pins.old pins.new cards.new met.new.stretch found.place
        (found.place + i.size) }
    ensures beside { KeepsBeside cards.old cards.new pins.old pins.new }
    ensures kind { met.new.kind ≡ met.old.kind }
{
    let (segment, near) = (met.segment, met.near);
    if is_kept(heap, work.g, segment, found.place, mt) {
        let age = planned_gen(heap, &work.planned, to);
        let object = LeftObject {
            segment,
            near,
            found,
            to,
            age,
            carded: false,
        };
        let run = met.kind.run;
        relocate_run(heap, work, cards, pins, &mut met.stretch, &object, run);
    }
}

// Relocates the references of an item of any kind, with the method table word `mt`, if the collection leaves it, and
// answers its size. One of a type without references is passed over at once; another's kind is then the one met last.
#[inline(never)]
fn relocate_read(
    heap: &mut Heap,
    work: &Relocation<'_>,
    cards: &mut Cards,
    pins: &mut PinQueue,
    met: &mut Met,
    item: DueItem,
    mt: u64,
) -> u64
    requires least { age_of work.now.g ≤ 2 }
    requires can { (view : HeapView) × (now : HeapView) × (vs : List Move) × (i : Item)
        × IsRelocatingBy work.now view now heap.old pins.old.entries vs met.old.stretch
        × IsItemAhead work.now.types.now view now work.now.g vs i item.place item.to cards.old
        × (item.carded ≡ true → CanSkip work.now view vs cards.old item.place (item.place + i.size)) }
    requires segment { met.old.segment ≡ memory_index heap.old.memories item.place }
    requires word { mt ≡ logical pins.old.entries (word_of heap.old) item.place }
    requires kind { IsRunKind work.now.types.now met.old.kind }
    ensures gone { (view now : HeapView) (vs : List Move) (i : Item)
        → IsRelocatingBy work.now view now heap.old pins.old.entries vs met.old.stretch
        → IsItemAhead work.now.types.now view now work.now.g vs i item.place item.to cards.old
        → (item.carded ≡ true → CanSkip work.now view vs cards.old item.place (item.place + i.size))
        → (result ≡ i.size)
        × AreRelocated work.now view now vs heap.old heap.new pins.old pins.new cards.new met.new.stretch item.place
        (item.place + i.size) }
    ensures beside { KeepsBeside cards.old cards.new pins.old pins.new }
    ensures kind { IsRunKind work.now.types.now met.new.kind }
{
    let (segment, near) = (met.segment, met.near);
    let found = logical_item(heap, work.types, pins, segment, near, item.place, mt);
    if work.types.series(found.type_id).is_empty() {
        return found.size;
    }
    met.kind = kind_behind(work.types, found, mt, met.kind);
    if is_left(heap, work.g, segment, found, mt) {
        let age = planned_gen(heap, &work.planned, item.to);
        let object = LeftObject {
            segment,
            near,
            found,
            to: item.to,
            age,
            carded: item.carded,
        };
        relocate_object(heap, work, cards, pins, &mut met.stretch, &object);
        return found.size;
    }
    found.size
}

// Whether a collection leaves an item of segment `k` with this method table word: it is an object, and marked or not
// gone over.
#[inline]
fn is_left(heap: &Heap, g: Condemned, k: usize, found: Item, mt: u64) -> bool
    requires { k < length heap.now.segments }
    ensures { result ≡ (is_object found && (not (is_gone_over_in heap.now g k found.place) || has_mark mt)) }
{
    found.type_id.0 != 0 && is_kept(heap, g, k, found.place, mt)
}

// Whether a collection leaves an object at a place of segment `k` with this method table word: it is marked or not gone
// over.
#[inline]
fn is_kept(heap: &Heap, g: Condemned, k: usize, place: u64, mt: u64) -> bool
    requires { k < length heap.now.segments }
    ensures { result ≡ (not (is_gone_over_in heap.now g k place) || has_mark mt) }
{
    mark::is_marked(mt) || !is_gone_over(heap, g, k, place)
}

// Whether a collection goes over an object at a place of segment `k`: it is of its generations, or, before large
// segments are compacted, in one of them.
#[inline]
fn is_gone_over(heap: &Heap, g: Condemned, k: usize, place: u64) -> bool
    requires { k < length heap.now.segments }
    ensures { result ≡ is_gone_over_in heap.now g k place }
{
    match g {
        Condemned::Generations(oldest) => heap.gen_of(place) <= oldest,
        Condemned::LargeSegments => heap.info(k).kind == SegKind::Large,
    }
}
