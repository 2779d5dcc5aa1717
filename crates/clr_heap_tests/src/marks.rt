// Small heaps that are marked: chains, cycles, elements of arrays, and more objects than the stack has room for.
ghost use Rattle.std.specs.Prelude.{◌≢◌, ℕ, ◌+◌, ◌<◌, ◌≤◌, [], false, length, IfOk};
ghost use Rattle.clr_types.specs.Descriptors.{reference_offsets};
ghost use Rattle.clr_types.specs.Rising.{IsIn};
ghost use Rattle.clr_types.specs.Types.{form_at, size_of};
ghost use Rattle.clr_heap.specs.View.{heap_items, word_of};
ghost use Rattle.clr_view.specs.View.{IsHeld};
ghost use Rattle.clr_view.specs.SlotValues.{StandsAt};
ghost use Rattle.clr_view.specs.World.{HandlesStand, HandleStands, IsNullOrStands};
ghost use Rattle.clr_mark.specs.Marks.{IsClosed};
ghost use Rattle.clr_mark.specs.Roots.{AreObjects};

use crate::heaps::{define, size_to_make};
use crate::objects;
use crate::objects::open_context;
use clr_handles::Handles;
use clr_heap::{Heap, Item};
use clr_mark::Marker;
use clr_types::{Handle, Kind, Shape, TypeId, Types};
use clr_view::set_slot_value;
use std::alloc::Global;
use std::process::Abort;
use std::test::Fail;

const PAIR: TypeId = TypeId(1);

const REFERENCES: TypeId = TypeId(2);

const STRUCTS: TypeId = TypeId(3);

const SPLIT: TypeId = TypeId(4);

// A class of a reference and a number, arrays of references, arrays of a number and a reference, and a class with two
// runs of references.
fn sample_types(rt: &impl Abort, alloc: Global) -> Result<Types, Fail> {
    let mut types = Types::new(alloc)?;
    define(rt, &mut types, b"Pair", Shape::Class(b"rn"), false);
    define(rt, &mut types, b"Refs", Shape::RefArray, false);
    define(rt, &mut types, b"Structs", Shape::StructArray(b"nr"), false);
    define(rt, &mut types, b"Split", Shape::Class(b"rnr"), false);
    Ok(types)
}

// Makes an object in the context of thread 1, which has room for it.
fn birth(rt: &impl Abort, heap: &mut Heap, types: &Types, t: TypeId, len: u64) -> u64
    requires { IsHeld types.now heap.old }
    ensures { IsHeld types.now heap.new }
{
    let _ = size_to_make(rt, types, t, len);
    assert!(rt; 0 < t.0);
    objects::birth(rt, heap, types, 1, t, len)
}

// Makes an object of each of these types and lengths, at most five, and answers their places.
fn allocate_each(
    rt: &impl Abort,
    heap: &mut Heap,
    types: &Types,
    objects: &[(TypeId, u64)],
) -> [u64; 5]
    requires { IsHeld types.now heap.old }
    ensures { IsHeld types.now heap.new }
{
    let mut places = [0; 5];
    for i in 0..objects.len() {
        assert!(rt; i < 5);
        places[i] = birth(rt, heap, types, objects[i].0, objects[i].1);
    }
    places
}

// Lets slot `i` of the object at a place refer to another object.
fn refer(rt: &impl Abort, heap: &mut Heap, types: &Types, place: u64, i: u64, target: u64)
    requires { IsHeld types.now heap.old }
    ensures { IsHeld types.now heap.new }
{
    let item = object(rt, heap, types, place);
    assert!(rt; i < types.slot_count(item.type_id, item.len));
    let slot = types.slot(item.type_id, item.len, i);
    assert!(rt; slot.reference);
    set_slot_value(heap, types, &item, slot, target);
}

// Lets slots refer to objects: each row has the number of an object, that of its slot and that of what it refers to.
fn refer_each(
    rt: &impl Abort,
    heap: &mut Heap,
    types: &Types,
    places: [u64; 5],
    slots: &[(usize, u64, usize)],
)
    requires { IsHeld types.now heap.old }
    ensures { IsHeld types.now heap.new }
{
    for &(from, i, to) in slots {
        assert!(rt; from < 5 && to < 5);
        refer(rt, heap, types, places[from], i, places[to]);
    }
}

// The object at a place.
fn object(rt: &impl Abort, heap: &Heap, types: &Types, place: u64) -> Item
    requires held { IsHeld types.now heap.now }
    ensures listed { IsIn result (heap_items types.now heap.now) }
    ensures known { result.type_id.0 ≤ length types.now }
    ensures small { size_of (form_at types.now result.type_id.0) result.len ≤ 1073741824 }
    ensures stands { StandsAt types.now heap.now place }
{
    heap.lawful();
    heap.object_at(types, place).expect(rt, "an object")
}

// Whether the object at a place is marked.
fn is_marked(rt: &impl Abort, marker: &Marker, heap: &Heap, types: &Types, place: u64) -> bool
    requires { IsHeld types.now heap.now }
{
    heap.lawful();
    let _ = object(rt, heap, types, place);
    marker.is_marked(heap, place)
}

// Sees that the references of an item are null or objects.
fn assert_references(rt: &impl Abort, heap: &Heap, types: &Types, item: &Item)
    requires held { IsHeld types.now heap.now }
    requires listed { IsIn item.now (heap_items types.now heap.now) }
    ensures { (offset : ℕ) → IsIn offset (reference_offsets (form_at types.now item.now.type_id.0) item.now.len)
        → word_of heap.now (item.now.place + offset) ≢ 0
        → StandsAt types.now heap.now (word_of heap.now (item.now.place + offset)) }
{
    heap.lawful();
    for offset in types.slots(item.type_id, item.len) {
        let target = heap.word(item.place + offset);
        if target != 0 {
            let _ = object(rt, heap, types, target);
        }
    }
}

// Sees that the references of all items are null or objects.
fn assert_closed(rt: &impl Abort, heap: &Heap, types: &Types)
    requires { IsHeld types.now heap.now }
    ensures { IsClosed types.now heap.now }
{
    for k in 0..heap.segments() {
        for item in heap.walk(types, k) {
            assert_references(rt, heap, types, &item);
        }
    }
}

// Sees that roots are null or objects.
fn assert_roots(rt: &impl Abort, heap: &Heap, types: &Types, roots: &[u64])
    requires { IsHeld types.now heap.now }
    ensures { AreObjects types.now heap.now roots.now }
{
    for &root in roots {
        if root != 0 {
            let _ = object(rt, heap, types, root);
        }
    }
}

// Sees that a place is null or an object's.
fn assert_place(rt: &impl Abort, heap: &Heap, types: &Types, place: u64)
    requires { IsHeld types.now heap.now }
    ensures { IsNullOrStands types.now heap.now place }
{
    if place != 0 {
        let _ = object(rt, heap, types, place);
    }
}

// Sees that what a handle names is null or an object, and that only a dependent one with a primary has a second.
fn assert_handle(rt: &impl Abort, heap: &Heap, types: &Types, handle: &Handle)
    requires { IsHeld types.now heap.now }
    ensures { HandleStands types.now heap.now handle.now }
{
    assert_place(rt, heap, types, handle.target);
    assert_place(rt, heap, types, handle.second);
    if handle.second != 0 {
        assert!(rt; matches!(handle.kind, Kind::Dependent));
        assert!(rt; handle.target != 0);
    }
}

// Sees the same of all handles.
fn assert_handles(rt: &impl Abort, heap: &Heap, types: &Types, handles: &Handles)
    requires { IsHeld types.now heap.now }
    ensures { HandlesStand types.now heap.now handles.now }
{
    handles.lawful();
    for number in 0..65_536 {
        if let Some(handle) = handles.get(number) {
            assert_handle(rt, heap, types, &handle);
        }
    }
}

// Marks from roots and handles, with room for so many objects on the stack, after all marks are cleared.
fn mark_with(
    rt: &impl Abort,
    alloc: Global,
    heap: &mut Heap,
    types: &Types,
    capacity: usize,
    handles: &Handles,
    roots: &[u64],
) -> Result<Marker, Fail>
    requires held { IsHeld types.now heap.old }
    requires capacity { 1 ≤ capacity }
    ensures { IfOk result (λ marker. IsHeld types.now heap.new) }
{
    heap.lawful();
    let mut marker = Marker::new(alloc, capacity)?;
    marker.unmark(heap, types);
    assert_closed(rt, heap, types);
    assert_handles(rt, heap, types, handles);
    assert_roots(rt, heap, types, roots);
    marker.begin(2);
    marker.roots(heap, types, roots);
    marker.handle_roots(heap, types, handles);
    marker.mark_more(heap, types, handles, &[]);
    Ok(marker)
}

// Marks from roots, with room for so many objects on the stack, after all marks are cleared.
fn mark(
    rt: &impl Abort,
    alloc: Global,
    heap: &mut Heap,
    types: &Types,
    capacity: usize,
    roots: &[u64],
) -> Result<Marker, Fail>
    requires held { IsHeld types.now heap.old }
    requires capacity { 1 ≤ capacity }
    ensures { IfOk result (λ marker. IsHeld types.now heap.new) }
{
    let handles = Handles::new(alloc);
    mark_with(rt, alloc, heap, types, capacity, &handles, roots)
}

// Sees which of the objects are marked.
fn expect_marked(
    rt: &impl Abort,
    marker: &Marker,
    heap: &Heap,
    types: &Types,
    places: [u64; 5],
    wants: &[bool],
)
    requires { IsHeld types.now heap.now }
{
    for i in 0..wants.len() {
        assert!(rt; i < 5);
        let found = is_marked(rt, marker, heap, types, places[i]);
        assert_eq!(rt; found, wants[i], "of object {i}");
    }
}

// A heap whose first context has room for 984 bytes, with its types.
fn started(rt: &impl Abort, alloc: Global) -> Result<(Types, Heap), Fail>
    ensures { IfOk result (λ p. IsHeld p.0 p.1) }
{
    let types = sample_types(rt, alloc)?;
    let mut heap = Heap::new(alloc, 262_144, 1_048_576)?;
    open_context(rt, &mut heap, &types, 1, 984);
    Ok((types, heap))
}

// Makes objects, lets slots refer to them, marks from the first one, and sees which are marked.
fn mark_these(
    rt: &impl Abort,
    alloc: Global,
    capacity: usize,
    objects: &[(TypeId, u64)],
    slots: &[(usize, u64, usize)],
    wants: &[bool],
) -> Result<(), Fail>
    requires { 1 ≤ capacity }
{
    let (types, mut heap) = started(rt, alloc)?;
    let places = allocate_each(rt, &mut heap, &types, objects);
    refer_each(rt, &mut heap, &types, places, slots);
    let marker = mark(rt, alloc, &mut heap, &types, capacity, &[0, places[0]])?;
    expect_marked(rt, &marker, &heap, &types, places, wants);
    assert!(rt; marker.stack().is_empty());
    assert!(rt; marker.oldest() == 2);
    Ok(())
}

#[test]
fn chains_and_cycles_are_marked(rt: HostRuntime) -> Result<(), Fail> {
    let objects = [(PAIR, 0), (PAIR, 0), (PAIR, 0)];
    let slots = [(0, 0, 1), (1, 0, 0), (2, 0, 0)];
    mark_these(&rt, rt.alloc(), 8, &objects, &slots, &[true, true, false])
}

#[test]
fn elements_of_arrays_are_followed(rt: HostRuntime) -> Result<(), Fail> {
    let objects = [(STRUCTS, 2), (PAIR, 0), (PAIR, 0)];
    let slots = [(0, 3, 1)];
    mark_these(&rt, rt.alloc(), 8, &objects, &slots, &[true, true, false])
}

#[test]
fn wide_arrays_are_followed(rt: HostRuntime) -> Result<(), Fail> {
    let objects = [(REFERENCES, 70), (REFERENCES, 2), (PAIR, 0)];
    let slots = [(0, 69, 1), (1, 1, 2)];
    mark_these(&rt, rt.alloc(), 8, &objects, &slots, &[true, true, true])
}

#[test]
fn several_runs_are_followed(rt: HostRuntime) -> Result<(), Fail> {
    let objects = [(SPLIT, 0), (PAIR, 0), (PAIR, 0), (PAIR, 0)];
    let slots = [(0, 0, 1), (0, 2, 2)];
    let wants = [true, true, true, false];
    mark_these(&rt, rt.alloc(), 8, &objects, &slots, &wants)
}

// The stack has room for one object alone: the array's second element goes into the range.
#[test]
fn objects_without_room_are_followed(rt: HostRuntime) -> Result<(), Fail> {
    let objects = [(REFERENCES, 2), (PAIR, 0), (PAIR, 0), (PAIR, 0), (PAIR, 0)];
    let slots = [(0, 0, 1), (0, 1, 2), (2, 0, 3)];
    let wants = [true, true, true, true, false];
    mark_these(&rt, rt.alloc(), 1, &objects, &slots, &wants)
}

// A strong handle of an object, and dependent ones of pairs of objects, in this order.
fn handles_of(alloc: Global, strong: u64, pairs: &[(u64, u64)]) -> Result<Handles, Fail> {
    let mut handles = Handles::new(alloc);
    let _ = handles.create(Kind::Strong, strong, 0)?;
    for &(primary, second) in pairs {
        let _ = handles.create(Kind::Dependent, primary, second)?;
    }
    Ok(handles)
}

// Makes a chain of four objects, of which the first is reached, and an object that isn't, marks, and sees which are
// marked. The last link is made first, and the others in their order.
fn mark_chain(rt: &impl Abort, alloc: Global, heap: &mut Heap, types: &Types) -> Result<(), Fail>
    requires { IsHeld types.now heap.old }
{
    let objects = [(PAIR, 0), (PAIR, 0), (PAIR, 0), (PAIR, 0), (PAIR, 0)];
    let places = allocate_each(rt, heap, types, &objects);
    let [first, second, third, last, other] = places;
    let pairs = [
        (third, last),
        (first, second),
        (second, third),
        (other, first),
    ];
    let handles = handles_of(alloc, first, &pairs)?;
    let marker = mark_with(rt, alloc, heap, types, 1, &handles, &[])?;
    let wants = [true, true, true, true, false];
    expect_marked(rt, &marker, heap, types, places, &wants);
    Ok(())
}

#[test]
fn chains_of_dependent_handles_are_followed(rt: HostRuntime) -> Result<(), Fail> {
    let (types, mut heap) = started(&rt, rt.alloc())?;
    mark_chain(&rt, rt.alloc(), &mut heap, &types)
}
