// Objects that are born in a context, and slots and flags that are written and read back.
ghost use Rattle.std.specs.Prelude.{◌≡◌, ◌%◌, ◌<◌, ◌≤◌, ◌^◌};
ghost use Rattle.clr_heap.specs.Parts.{IsMakeable};
ghost use Rattle.clr_heap.specs.View.{frame, opening_heap};
ghost use Rattle.clr_model.specs.Allocation.{own_fits};
ghost use Rattle.clr_view.specs.View.{IsHeld};
ghost use Rattle.clr_view.specs.SlotValues.{StandsAt};

use crate::heaps::{define, expect_items, size_to_make};
use clr_heap::Heap;
use clr_types::{Shape, TypeId, Types};
use clr_view::{
    allocate, is_final, is_suppressed, object_item, set_slot_value, set_suppressed, slot_value,
};
use std::alloc::Global;
use std::process::Abort;
use std::test::Fail;

// A class of a reference and a number, arrays of references, and arrays of bytes.
fn sample_types(rt: &impl Abort, alloc: Global) -> Result<Types, Fail> {
    let mut types = Types::new(alloc)?;
    define(rt, &mut types, b"Pair", Shape::Class(b"rn"), false);
    define(rt, &mut types, b"Refs", Shape::RefArray, false);
    define(rt, &mut types, b"Bytes", Shape::ByteArray, false);
    Ok(types)
}

// A class of a reference and a number, whose objects have a finaliser.
fn final_types(rt: &impl Abort, alloc: Global) -> Result<Types, Fail> {
    let mut types = Types::new(alloc)?;
    define(rt, &mut types, b"File", Shape::Class(b"rn"), true);
    Ok(types)
}

// Gives a thread a context of `size` bytes, the first of a new heap.
pub fn open_context(rt: &impl Abort, heap: &mut Heap, types: &Types, thread: usize, size: u64)
    requires opened { heap.old ≡ opening_heap 262144 1048576 }
    requires positive { 0 < thread }
    requires few { thread ≤ 16 }
    requires least { 24 ≤ size }
    requires whole { size % 8 ≡ 0 }
    requires small { size < 1000 }
    ensures { IsHeld types.now heap.new }
{
    let k = heap.ephemeral();
    let segment = heap.info(k);
    assert!(rt; segment.end + size <= segment.base + segment.reserved);
    heap.set_end(k, segment.end + size);
    heap.set_hole(thread, segment.end, segment.end + size);
}

// Whether a size fits at the front of a thread's context.
fn fits_front(heap: &Heap, thread: usize, size: u64) -> bool
    requires positive { 0 < thread }
    requires few { thread ≤ 16 }
    requires small { size < 2 ^ 32 }
    ensures { result ≡ own_fits (frame heap.now) thread size }
{
    match heap.hole(thread) {
        Some((low, high)) => low <= high && (size == high - low || size + 24 <= high - low),
        None => false,
    }
}

// Makes an object in a context that has room for it.
pub fn birth(
    rt: &impl Abort,
    heap: &mut Heap,
    types: &Types,
    thread: usize,
    t: TypeId,
    len: u64,
) -> u64
    requires held { IsHeld types.now heap.old }
    requires positive { 0 < thread }
    requires few { thread ≤ 16 }
    requires item { IsMakeable types.now t.0 len }
    requires object { 0 < t.0 }
    ensures held { IsHeld types.now heap.new }
    ensures stands { StandsAt types.now heap.new result }
{
    let size = types.item_size(t, len);
    assert!(rt; fits_front(heap, thread, size));
    allocate(heap, types, thread, t, len, size)
}

// Makes an object of a type and length of which one can be made.
fn born(rt: &impl Abort, heap: &mut Heap, types: &Types, thread: usize, t: TypeId, len: u64) -> u64
    requires held { IsHeld types.now heap.old }
    requires positive { 0 < thread }
    requires few { thread ≤ 16 }
    ensures held { IsHeld types.now heap.new }
    ensures stands { StandsAt types.now heap.new result }
{
    let _ = size_to_make(rt, types, t, len);
    assert!(rt; 0 < t.0);
    birth(rt, heap, types, thread, t, len)
}

// Writes a slot of the object at a place, and answers what is read back.
fn store(
    rt: &impl Abort,
    heap: &mut Heap,
    types: &Types,
    place: u64,
    i: u64,
    value: u64,
) -> (u64, u64)
    requires held { IsHeld types.now heap.old }
    requires stands { StandsAt types.now heap.old place }
    requires small { value < 256 }
    ensures held { IsHeld types.now heap.new }
    ensures stands { StandsAt types.now heap.new place }
{
    let item = object_item(heap, types, place);
    assert!(rt; i < types.slot_count(item.type_id, item.len));
    let slot = types.slot(item.type_id, item.len, i);
    let before = slot_value(heap, types, &item, slot);
    set_slot_value(heap, types, &item, slot, value);
    (before, slot_value(heap, types, &item, slot))
}

// Says whether the finaliser of the object at a place is suppressed, and answers whether it was before, and is now.
fn suppress(heap: &mut Heap, types: &Types, place: u64, flag: bool) -> (bool, bool)
    requires held { IsHeld types.now heap.old }
    requires stands { StandsAt types.now heap.old place }
    ensures held { IsHeld types.now heap.new }
    ensures stands { StandsAt types.now heap.new place }
{
    let before = is_suppressed(heap, types, place);
    set_suppressed(heap, types, place, flag);
    (before, is_suppressed(heap, types, place))
}

// Makes an object in the context of thread 3 and writes a slot of it, and answers its place, what stood in the slot and
// what stands there.
fn allocate_and_store(
    rt: &impl Abort,
    heap: &mut Heap,
    types: &Types,
    t: TypeId,
    len: u64,
    i: u64,
    value: u64,
) -> (u64, u64, u64)
    requires held { IsHeld types.now heap.old }
    requires small { value < 256 }
    ensures { IsHeld types.now heap.new }
{
    let place = born(rt, heap, types, 3, t, len);
    let (before, after) = store(rt, heap, types, place, i, value);
    (place, before, after)
}

// The items of the first segment are to be these.
fn expect_young(rt: &impl Abort, heap: &Heap, types: &Types, want: &[(u64, u64, u32, u64)])
    requires { IsHeld types.now heap.now }
{
    assert!(rt; heap.segments() > 0);
    expect_items(rt, heap, types, want);
}

#[test]
fn objects_are_born_in_a_context(rt: HostRuntime) -> Result<(), Fail> {
    let types = sample_types(&rt, rt.alloc())?;
    let mut heap = Heap::new(rt.alloc(), 262_144, 1_048_576)?;
    open_context(&rt, &mut heap, &types, 3, 96);
    let pair = allocate_and_store(&rt, &mut heap, &types, TypeId(1), 0, 1, 77);
    assert_eq!(rt; pair, (0x1000_1000, 0, 77));
    assert_eq!(rt; heap.hole(3), Some((0x1000_1020, 0x1000_1060)));
    let bytes = allocate_and_store(&rt, &mut heap, &types, TypeId(3), 5, 4, 200);
    assert_eq!(rt; bytes, (0x1000_1020, 0, 200));
    assert!(rt; !fits_front(&heap, 3, 24));
    let references = allocate_and_store(&rt, &mut heap, &types, TypeId(2), 1, 0, 0);
    assert_eq!(rt; references, (0x1000_1040, 0, 0));
    assert_eq!(rt; heap.hole(3), None);
    let want = [
        (0x1000_1000, 32, 1, 0),
        (0x1000_1020, 32, 3, 5),
        (0x1000_1040, 32, 2, 1),
    ];
    expect_young(&rt, &heap, &types, &want);
    Ok(())
}

#[test]
fn finalisers_are_suppressed_and_slots_stay(rt: HostRuntime) -> Result<(), Fail> {
    let types = final_types(&rt, rt.alloc())?;
    let mut heap = Heap::new(rt.alloc(), 262_144, 1_048_576)?;
    open_context(&rt, &mut heap, &types, 1, 32);
    let file = born(&rt, &mut heap, &types, 1, TypeId(1), 0);
    assert!(rt; is_final(&heap, &types, file));
    assert_eq!(rt; store(&rt, &mut heap, &types, file, 1, 77), (0, 77));
    assert_eq!(rt; suppress(&mut heap, &types, file, true), (false, true));
    assert_eq!(rt; suppress(&mut heap, &types, file, true), (true, true));
    assert_eq!(rt; suppress(&mut heap, &types, file, false), (true, false));
    assert_eq!(rt; store(&rt, &mut heap, &types, file, 1, 5), (77, 5));
    Ok(())
}
