// Births that keep the law of bricks.
ghost use Rattle.std.specs.Prelude.{◌≡◌, ℕ, ◌/◌, ◌<◌, ◌≤◌, Bool, true};
ghost use Rattle.clr_types.specs.Types.{form_at, size_of};
ghost use Rattle.clr_bricks.specs.Bricks.{entry_at};
ghost use Rattle.clr_covers.specs.Covers.{is_covered, spans};
ghost use Rattle.clr_heap.specs.Parts.{IsMakeable};
ghost use Rattle.clr_heap.specs.View.{frame, heap_items, word_of};
ghost use Rattle.clr_model.specs.Allocation.{context_front, own_fits};
ghost use Rattle.clr_view.specs.Among.{AreClosedAmong};
ghost use Rattle.clr_view.specs.View.{AreFreeHeads, HasNewborn, IsHeld, objects_in};
ghost use Rattle.clr_view.specs.Births.{with_newborn};
ghost use Rattle.clr_view.specs.Clean.{AreClean};
ghost use Rattle.clr_view.specs.Marks.{IsUnmarked};
ghost use Rattle.clr_generations.specs.Born.{names_later, with_named, with_place};
ghost use Rattle.clr_generations.specs.Laws.{BrickLaw, NamesNoMore};
ghost use Rattle.clr_generations.specs.Tables.{AreBricksOf};

use clr_bricks::Bricks;
use clr_heap::Heap;
use clr_types::{TypeId, Types};

/// Makes an object of type `t`, with `len` elements where it is an array, at the front of what is left of the context
/// of a thread, 1 to 16, and answers its place. `size` is how many bytes it takes, which whoever found room for it has.
/// Its brick names it, where it may and names no object below.
///
/// Its references are null and its numbers 0. Of the context the bytes behind the object are left. All other objects,
/// the free items and the rest of the layout stay. It marks nothing, changes no head of a free item, and leaves headers
/// and padding clean. Cards need no change: where all that is named is an object, none names the new one.
#[inline(always)]
pub fn allocate(
    heap: &mut Heap,
    types: &Types,
    bricks: &mut Bricks,
    thread: usize,
    t: TypeId,
    len: u64,
    size: u64,
) -> u64
    requires held { IsHeld types.now heap.old }
    requires positive { 0 < thread }
    requires few { thread ≤ 16 }
    requires item { IsMakeable types.now t.0 len }
    requires object { 0 < t.0 }
    requires size { size ≡ size_of (form_at types.now t.0) len }
    requires room { own_fits (frame heap.old) thread (size_of (form_at types.now t.0) len) ≡ true }
    requires bricks { AreBricksOf (frame heap.old) bricks.old }
    ensures place { result ≡ context_front (frame heap.old) thread }
    ensures born { HasNewborn types.now heap.old heap.new thread t.0 len }
    ensures words { heap.new ≡ with_newborn types.now heap.old thread t.0 len }
    ensures unmarked { IsUnmarked types.now heap.old → IsUnmarked types.now heap.new }
    ensures free_heads { AreFreeHeads types.now heap.old → AreFreeHeads types.now heap.new }
    ensures clean { AreClean types.now heap.old → AreClean types.now heap.new }
    ensures entries { (i : ℕ) → entry_at bricks.new i
        ≡ with_place (frame heap.old) (entry_at bricks.old) result i }
    ensures spans { spans bricks.new ≡ spans bricks.old }
    ensures bricks { heap.old.start1 ≤ heap.old.start0
        → BrickLaw types.now (frame heap.old) (objects_in types.now heap.old) (entry_at bricks.old)
        → BrickLaw types.now (frame heap.new) (objects_in types.now heap.new) (entry_at bricks.new) }
    ensures cards { AreClosedAmong types.now (word_of heap.old) (heap_items types.now heap.old)
        → NamesNoMore types.now (frame heap.old) (objects_in types.now heap.old) (frame heap.new)
        (objects_in types.now heap.new) }
{
    let place = clr_view::allocate(heap, types, thread, t, len, size);
    enter_newborn(heap, bricks, place);
    place
}

// Lets the brick of a new object's place name it, where it may and names no place up to it.
#[inline(always)]
pub(crate) fn enter_newborn(heap: &Heap, bricks: &mut Bricks, place: u64)
    requires { is_covered bricks.old (place / 4096) ≡ true }
    ensures entries { (i : ℕ) → entry_at bricks.new i ≡ with_place (frame heap.now) (entry_at bricks.old) place i }
    ensures spans { spans bricks.new ≡ spans bricks.old }
{
    let (_, start0) = heap.boundaries();
    if start0 <= 4096 * (place / 4096) {
        name_newborn(bricks, place);
    }
}

// Lets the brick of a new object's place name it, where it names no place up to it.
#[inline(always)]
pub(crate) fn name_newborn(bricks: &mut Bricks, place: u64)
    requires { is_covered bricks.old (place / 4096) ≡ true }
    ensures entries { (i : ℕ) → entry_at bricks.new i ≡ with_named (entry_at bricks.old) place i }
    ensures spans { spans bricks.new ≡ spans bricks.old }
{
    let brick = place / 4096;
    let offset = (place % 4096) as u16;
    if is_later(bricks.entry(brick), offset) {
        bricks.set_root(brick, offset);
    }
}

// Whether an entry names no offset up to this one.
fn is_later(entry: i16, offset: u16) -> bool
    requires { offset < 4096 }
    ensures { result ≡ names_later offset entry }
{
    entry <= 0 || entry > offset as i16 + 1
}
