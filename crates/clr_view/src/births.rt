// Objects that are born in the contexts of threads.
ghost use Rattle.std.specs.Prelude.{◌≡◌, ℕ, ◌+◌, ◌-◌, ◌<◌, ◌≤◌, ◌^◌, length, true};
ghost use Rattle.clr_types.specs.Types.{form_at, size_of};
ghost use Rattle.clr_heap.specs.Memories.{memory_index};
ghost use Rattle.clr_heap.specs.Parts.{IsMakeable};
ghost use Rattle.clr_heap.specs.View.{frame, HasHead, placed};
ghost use Rattle.clr_model.specs.Allocation.{context_front, own_fits};
ghost use Rattle.clr_view.specs.View.{AreFreeHeads, HasNewborn, IsHeld};
ghost use Rattle.clr_view.specs.Births.{with_newborn};
ghost use Rattle.clr_view.specs.Clean.{AreClean};
ghost use Rattle.clr_view.specs.Marks.{IsUnmarked};

use clr_heap::Heap;
use clr_types::{TypeId, Types};

/// Makes an object of type `t`, with `len` elements where it is an array, at the front of what is left of the context
/// of a thread, 1 to 16, and answers its place. `size` is how many bytes it takes, which whoever found room for it has.
///
/// Its references are null and its numbers 0. Of the context the bytes behind the object are left. All other objects,
/// the free items and the rest of the layout stay. It marks nothing, changes no head of a free item, and leaves headers
/// and padding clean.
#[inline(always)]
pub fn allocate(
    heap: &mut Heap,
    types: &Types,
    thread: usize,
    t: TypeId,
    len: u64,
    size: u64,
) -> u64
    requires held { IsHeld types.now heap.old }
    requires positive { 0 < thread }
    requires few { thread ≤ 16 }
    requires item { IsMakeable types.now t.0 len }
    requires object { 0 < t.0 }
    requires size { size ≡ size_of (form_at types.now t.0) len }
    requires room { own_fits (frame heap.old) thread (size_of (form_at types.now t.0) len) ≡ true }
    ensures place { result ≡ context_front (frame heap.old) thread }
    ensures born { HasNewborn types.now heap.old heap.new thread t.0 len }
    ensures words { heap.new ≡ with_newborn types.now heap.old thread t.0 len }
    ensures unmarked { IsUnmarked types.now heap.old → IsUnmarked types.now heap.new }
    ensures free_heads { AreFreeHeads types.now heap.old → AreFreeHeads types.now heap.new }
    ensures clean { AreClean types.now heap.old → AreClean types.now heap.new }
{
    heap.lawful();
    let Some((front, end)) = heap.hole(thread) else {
        unreachable!()
    };
    write_head(heap, types, front, t, len);
    heap.set_hole(thread, front + size, end);
    front
}

// Writes the head of an object at `a`, all of which is in one segment, as `Heap::make_object` does, and looks for the
// segment once.
#[inline(always)]
#[tactic(auto, using(crate::proofs::Rules::writes), unfolding(clr_heap::specs::View::placed))]
fn write_head(heap: &mut Heap, types: &Types, a: u64, t: TypeId, len: u64)
    requires known { t.0 ≤ length types.now }
    requires head { HasHead heap.old a }
    requires mt_in { memory_index heap.old.memories (a - 8) ≡ memory_index heap.old.memories a }
    requires len_in { memory_index heap.old.memories (a - 8) ≡ memory_index heap.old.memories (a + 8) }
    requires room { a + 8 < 2 ^ 64 }
    ensures { heap.new ≡ placed types.now heap.old a t.0 len }
{
    let k = heap.segment_of(a - 8);
    heap.set_word_at(k, a - 8, 0);
    heap.set_word_at(k, a, types.mt(t));
    if types.has_length(t) {
        heap.set_word_at(k, a + 8, len);
    }
}
