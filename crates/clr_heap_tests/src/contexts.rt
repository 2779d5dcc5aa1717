// Contexts that are opened one after the other, filled and given up.
ghost use Rattle.std.specs.Prelude.{◌≡◌, ◌<◌, ◌^◌, [], IfOk};
ghost use Rattle.clr_types.specs.Rising.{IsRisingBy};
ghost use Rattle.clr_heap.specs.View.{opening_heap};
ghost use Rattle.clr_view.specs.View.{IsHeld};
ghost use Rattle.clr_ctx.specs.Contexts.{IsIndex};

use clr_ctx::YoungItems;
use clr_heap::Heap;
use clr_items::{FreeItems, first_in, insert_item, take_front};
use clr_types::{Span, Types};
use std::alloc::{AllocError, Global};
use std::process::Abort;
use std::test::Fail;

// A new heap, and what its contexts need.
fn started(alloc: Global) -> Result<(Types, Heap, YoungItems), Fail>
    ensures held { IfOk result (λ p. IsHeld p.0 p.1) }
    ensures index { IfOk result (λ p. IsIndex p.0 p.1 p.2) }
    ensures no_types { IfOk result (λ p. p.0 ≡ []) }
    ensures opening { IfOk result (λ p. p.1 ≡ opening_heap 262144 1048576) }
{
    let types = Types::new(alloc)?;
    let heap = Heap::new(alloc, 262_144, 1_048_576)?;
    let young = YoungItems::new(alloc);
    Ok((types, heap, young))
}

// A refill, and the context that the thread has then: `None` where there is no room.
fn refilled(
    rt: &impl Abort,
    young: &mut YoungItems,
    heap: &mut Heap,
    types: &Types,
    t: usize,
    size: u64,
) -> Option<(u64, u64)>
    requires held { IsHeld types.now heap.old }
    requires index { IsIndex types.now heap.old young.old }
    ensures held { IsHeld types.now heap.new }
    ensures index { IsIndex types.now heap.new young.new }
{
    assert!(rt; 0 < t && t <= 16);
    assert!(rt; 24 <= size && size % 8 == 0 && size <= 0x4000_0000);
    young.refill(heap, types, t, size)?;
    heap.hole(t)
}

// Refills, each of a thread for a size, that are to give these contexts.
fn refill_each(
    rt: &impl Abort,
    young: &mut YoungItems,
    heap: &mut Heap,
    types: &Types,
    cases: &[(usize, u64, Option<(u64, u64)>)],
)
    requires held { IsHeld types.now heap.old }
    requires index { IsIndex types.now heap.old young.old }
{
    for &(t, size, want) in cases {
        let context = refilled(rt, young, heap, types, t, size);
        assert_eq!(rt; context, want, "of thread {t}");
    }
}

// Gives two threads of a new heap contexts and gives them up, and makes the index anew, whatever it says.
fn renewed(young: &mut YoungItems, heap: &mut Heap, types: &Types)
    requires held { IsHeld types.now heap.old }
    requires index { IsIndex types.now heap.old young.old }
    requires no_types { types.now ≡ [] }
    requires opening { heap.old ≡ opening_heap 262144 1048576 }
    ensures held { IsHeld types.now heap.new }
    ensures index { IsIndex types.now heap.new young.new }
{
    let Some(()) = young.refill(heap, types, 1, 20_000) else {
        return;
    };
    let Some(()) = young.refill(heap, types, 2, 104) else {
        return;
    };
    young.give_up_all(heap, types);
    young.forget();
    young.renew(heap, types);
}

// Whether each size is to fit in the context of thread 1.
fn expect_fits(rt: &impl Abort, young: &YoungItems, heap: &Heap, cases: &[(u64, bool)]) {
    for &(size, want) in cases {
        assert!(rt; size < 0x1_0000);
        assert_eq!(rt; young.fits(heap, 1, size), want, "of {size}");
    }
}

#[test]
fn a_size_fits_in_a_context(rt: HostRuntime) -> Result<(), Fail> {
    let (types, mut heap, mut young) = started(rt.alloc())?;
    expect_fits(&rt, &young, &heap, &[(24, false)]);
    let context = refilled(&rt, &mut young, &mut heap, &types, 1, 24);
    assert_eq!(rt; context, Some((0x1000_1000, 0x1000_3000)));
    let cases = [
        (24, true),
        (8168, true),
        (8176, false),
        (8192, true),
        (8200, false),
    ];
    expect_fits(&rt, &young, &heap, &cases);
    Ok(())
}

#[test]
fn contexts_come_from_free_items(rt: HostRuntime) -> Result<(), Fail> {
    let (types, mut heap, mut young) = started(rt.alloc())?;
    let first = refilled(&rt, &mut young, &mut heap, &types, 1, 20_000);
    assert_eq!(rt; first, Some((0x1000_1000, 0x1000_5e20)));
    young.give_up_all(&mut heap, &types);
    assert_eq!(rt; heap.hole(1), None);
    let cases = [
        (2, 104, Some((0x1000_1000, 0x1000_3000))),
        (3, 12_000, Some((0x1000_5e20, 0x1000_8d00))),
        (4, 104, Some((0x1000_3000, 0x1000_5000))),
        (5, 104, Some((0x1000_5000, 0x1000_5e20))),
        (5, 104, Some((0x1000_8d00, 0x1000_ad00))),
        (6, 104, Some((0x1000_5000, 0x1000_5e20))),
        (7, 217_864, None),
        (7, 217_856, Some((0x1000_ad00, 0x1004_0000))),
    ];
    refill_each(&rt, &mut young, &mut heap, &types, &cases);
    Ok(())
}

#[test]
fn an_index_is_made_anew(rt: HostRuntime) -> Result<(), Fail> {
    let (types, mut heap, mut young) = started(rt.alloc())?;
    renewed(&mut young, &mut heap, &types);
    let cases = [
        (3, 12_000, Some((0x1000_1000, 0x1000_3ee0))),
        (4, 104, Some((0x1000_3ee0, 0x1000_5e20))),
        (5, 104, Some((0x1000_5e20, 0x1000_7e20))),
        (6, 104, Some((0x1000_7e20, 0x1000_9e20))),
    ];
    refill_each(&rt, &mut young, &mut heap, &types, &cases);
    Ok(())
}

#[test]
fn an_item_is_put_in(rt: HostRuntime) {
    let mut items = FreeItems::new(rt.alloc());
    assert!(rt; insert_item(&mut items, Span::between(0x1000, 0x1020)));
    let found = first_in(&items, 32);
    assert_eq!(rt; found.map(|item| item.place()), Some(0x1000));
    assert!(rt; first_in(&items, 24).is_none());
}

// 600 items, one each 64 bytes: 300 of 32 bytes, and behind them 300 of 64. Each was put in before all others.
fn filled(alloc: Global) -> Result<FreeItems, AllocError>
    ensures { IfOk result (λ items. IsRisingBy (λ p. p.place) items.items) }
{
    let mut items = FreeItems::new(alloc);
    let mut left = 600;
    while left > 0 {
        let place = 64 * left;
        let size = if left > 300 { 64 } else { 32 };
        if !insert_item(&mut items, Span::between(place, place + size)) {
            return Err(AllocError);
        }
        left -= 1;
    }
    Ok(items)
}

// Takes the first item in which a size fits, whole, and tells where it was.
fn taken_whole(items: &mut FreeItems, size: u64) -> Option<u64>
    requires small { size < 2 ^ 62 }
    requires rising { IsRisingBy (λ p. p.place) items.old.items }
{
    let item = first_in(items, size)?;
    take_front(items, item, item.size());
    Some(item.place())
}

#[test]
fn an_item_is_taken_whole_from_the_middle(rt: HostRuntime) -> Result<(), Fail> {
    let mut items = filled(rt.alloc())?;
    assert_eq!(rt; taken_whole(&mut items, 64), Some(64 * 301));
    let next = first_in(&items, 64);
    assert_eq!(rt; next.map(|item| item.place()), Some(64 * 302));
    let small = first_in(&items, 32);
    assert_eq!(rt; small.map(|item| item.place()), Some(64));
    assert!(rt; first_in(&items, 72).is_none());
    Ok(())
}
