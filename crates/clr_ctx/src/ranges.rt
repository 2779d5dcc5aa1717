// Ranges of the ephemeral segment that become a thread's context, or a free item again.
ghost use Rattle.std.specs.Prelude.{◌≡◌, ℕ, ◌+◌, ◌-◌, ◌%◌, ◌<◌, ◌≤◌, ◌^◌, IfNone, IfSome, None, true};
ghost use Rattle.clr_types.specs.Rising.{insert_by, IsIn};
ghost use Rattle.clr_types.specs.Ranges.{fits, Piece};
ghost use Rattle.clr_types.specs.Segments.{ephemeral, fits_in_tail, rest_of};
ghost use Rattle.clr_heap.specs.View.{frame, IsHeap};
ghost use Rattle.clr_model.specs.Allocation.{from_item, from_tail, taken_from};
ghost use Rattle.clr_model.specs.Updates.{given_up};
ghost use Rattle.clr_view.specs.View.{IsHeld, layout_in};
ghost use Rattle.clr_ctx.specs.Contexts.{IsRelaid, young_items};

use clr_heap::Heap;
use clr_types::{Span, Types};

/// Gives up a thread's context: what was left of it is a free item now, which is answered.
pub fn close(heap: &mut Heap, types: &Types, t: usize) -> Option<Span>
    requires heap { IsHeap heap.old }
    requires held { IsHeld types.now heap.old }
    requires positive { 0 < t }
    requires few { t ≤ 16 }
    ensures rest { result ≡ rest_of (frame heap.old) t }
    ensures relaid { IsRelaid types.now heap.old heap.new (given_up (layout_in types.now heap.old) t) }
    ensures none { IfNone result (young_items (layout_in types.now heap.new)
        ≡ young_items (layout_in types.now heap.old)) }
    ensures young { IfSome result (λ p.
        young_items (layout_in types.now heap.new)
        ≡ insert_by (λ q. q.place) p (young_items (layout_in types.now heap.old))) }
{
    let (low, high) = heap.hole(t)?;
    heap.make_free(low, high - low);
    heap.set_hole(t, low, low);
    Some(Span::between(low, high))
}

/// Makes the front of a free item the context of a thread that has none. Its words are clear, and what is left of the
/// item stays free.
pub fn open_in_item(heap: &mut Heap, types: &Types, t: usize, item: Span, taken: u64)
    requires heap { IsHeap heap.old }
    requires held { IsHeld types.now heap.old }
    requires positive { 0 < t }
    requires few { t ≤ 16 }
    requires none { rest_of (frame heap.old) t ≡ None }
    requires listed { IsIn item (young_items (layout_in types.now heap.old)) }
    requires least { 24 ≤ taken }
    requires aligned { taken % 8 ≡ 0 }
    requires within { fits taken item.size ≡ true }
    ensures relaid { IsRelaid types.now heap.old heap.new (from_item (layout_in types.now heap.old) t item taken) }
    ensures young { young_items (layout_in types.now heap.new)
        ≡ taken_from item.place taken (young_items (layout_in types.now heap.old)) }
{
    let low = item.place();
    let middle = low + taken;
    if taken < item.size() {
        heap.make_free(middle, item.size() - taken);
    }
    heap.clear_cells(low - 8, taken);
    heap.set_hole(t, low, middle);
}

/// Makes a free item of generation 0, all of it, the context of a thread that has none. Its words are clear then.
pub fn open_whole(heap: &mut Heap, types: &Types, t: usize, place: u64)
    requires held { IsHeld types.now heap.old }
    requires positive { 0 < t }
    requires few { t ≤ 16 }
    requires none { rest_of (frame heap.old) t ≡ None }
    requires listed { (item : Piece) × IsIn item (young_items (layout_in types.now heap.old))
        × (item.place ≡ place) }
    ensures relaid { (item : Piece) → IsIn item (young_items (layout_in types.now heap.old)) → item.place ≡ place
        → IsRelaid types.now heap.old heap.new (from_item (layout_in types.now heap.old) t item item.size) }
{
    heap.lawful();
    let size = heap.item(types, place).size;
    open_in_item(heap, types, t, Span::between(place, place + size), size);
}

/// Makes the bytes behind the end of the ephemeral segment, which then ends past them, the context of a thread that has
/// none. Its words are clear.
pub fn open_behind(heap: &mut Heap, types: &Types, t: usize, taken: u64)
    requires held { IsHeld types.now heap.old }
    requires positive { 0 < t }
    requires few { t ≤ 16 }
    requires none { rest_of (frame heap.old) t ≡ None }
    requires least { 24 ≤ taken }
    requires aligned { taken % 8 ≡ 0 }
    requires small { taken < 2 ^ 62 }
    requires within { fits_in_tail (ephemeral (frame heap.old)) taken ≡ true }
    ensures relaid { IsRelaid types.now heap.old heap.new (from_tail (layout_in types.now heap.old) t taken) }
    ensures young { young_items (layout_in types.now heap.new) ≡ young_items (layout_in types.now heap.old) }
{
    let k = heap.ephemeral();
    let low = heap.info(k).end;
    heap.clear_cells(low - 8, taken);
    heap.set_hole(t, low, low + taken);
    heap.set_end(k, low + taken);
}
