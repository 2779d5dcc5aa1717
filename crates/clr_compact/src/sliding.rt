// Slides one plug to where it goes.
ghost use Rattle.std.specs.Prelude.{◌≡◌, ◌+◌, ◌-◌, ◌<◌, ◌≤◌};
ghost use Rattle.clr_heap.specs.Memories.{InOne};
ghost use Rattle.clr_heap.specs.View.{HasHead, SameShape, word_of};
ghost use Rattle.clr_moves.specs.Moves.{IsGapped};
ghost use Rattle.clr_compact.specs.Slides.{CanLand, HasFilled, HasLanded, HasMoved};

use clr_heap::Heap;
use clr_moves::PlugMove;

// Moves one plug to where it goes, and makes a free item of what is left between `top` and that place.
#[inline]
pub(crate) fn slide_plug(heap: &mut Heap, top: u64, plug: PlugMove)
    requires { CanLand heap.old plug top }
    ensures shape { SameShape heap.old heap.new }
    ensures words { HasLanded plug top (word_of heap.old) (word_of heap.new) }
{
    fill(heap, top, plug.to());
    move_plug(heap, plug);
}

// Makes a free item from `top` to `to`, where there is room between them.
#[inline]
fn fill(heap: &mut Heap, top: u64, to: u64)
    requires gap { IsGapped top to }
    requires head { top < to → HasHead heap.old top }
    ensures shape { SameShape heap.old heap.new }
    ensures words { HasFilled top to (word_of heap.old) (word_of heap.new) }
{
    if top < to {
        heap.make_free(top, to - top);
    }
}

// Moves the cells of a plug down.
#[inline]
fn move_plug(heap: &mut Heap, plug: PlugMove)
    requires lower { plug.to ≤ plug.start }
    requires up { 8 ≤ plug.to }
    requires from { InOne heap.old.memories (plug.start - 8) plug.size }
    requires into { InOne heap.old.memories (plug.to - 8) plug.size }
    ensures shape { SameShape heap.old heap.new }
    ensures words { HasMoved plug (word_of heap.old) (word_of heap.new) }
{
    if plug.to() < plug.start() {
        heap.move_cells(plug.start() - 8, plug.to() - 8, plug.size());
    }
}
