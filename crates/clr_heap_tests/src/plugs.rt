// Plans of parts with plugs here and there, and what is found in them.
ghost use Rattle.std.specs.Prelude.{◌≡◌, ℕ, ◌+◌, ◌*◌, ◌/◌, ◌<◌, ◌≤◌, ◌^◌, length, IfOk};
ghost use Rattle.clr_covers.specs.Covers.{HasAll};
ghost use Rattle.clr_heap.specs.View.{first_of, HeapView, segment_at};
ghost use Rattle.clr_types.specs.Segments.{reserved_end};
ghost use Rattle.clr_heap_tests.specs.Laying.{IsLaid};

use clr_bricks::Bricks;
use clr_heap::Heap;
use clr_nums::Steps;
use clr_plugs::{NearestPlug, PlanWriter, PlugCursor, find_plug};
use std::alloc::Global;
use std::marker::Brand;
use std::process::Abort;
use std::sync::ledger::{Blank, Ledger};
use std::test::Fail;

// A heap whose first segment is [0x1000_0000, 0x1004_0000), and its bricks.
fn started(alloc: Global) -> Result<(Heap, Bricks), Fail>
    ensures bricks { IfOk result (λ p. HasAll p.1 65536 65600) }
{
    let heap = Heap::new(alloc, 262_144, 1_048_576)?;
    let mut bricks = Bricks::new(alloc);
    bricks.add(0x1000_0000, 0x4_0000)?;
    Ok((heap, bricks))
}

// Writes the plan of the part from `low` up to `high` of the first segment. Each plug is told by its start, the gap
// before it, and its distance.
fn lay(
    rt: &impl Abort,
    heap: &mut Heap,
    bricks: &mut Bricks,
    low: u64,
    high: u64,
    plugs: &[(u64, u64, i64)],
)
    requires { HasAll bricks.old 65536 65600 }
    ensures { IsLaid heap.new bricks.new low high }
{
    assert!(rt; heap.segments() > 0);
    let segment = heap.info(0);
    assert!(rt; 0x1000_1000 <= low);
    assert!(rt; low < high);
    assert!(rt; high <= 0x1004_0000);
    assert!(rt; segment.base + 0x1000 <= low);
    assert!(rt; high <= segment.base + segment.reserved);
    let mut writer = PlanWriter::new(bricks, low);
    let mut free = low;
    for &(start, gap, distance) in plugs {
        assert!(rt; free <= start);
        assert!(rt; start < high);
        assert!(rt; start % 8 == 0);
        writer.add(heap, bricks, 0, start, gap, distance);
        free = start + 24;
    }
    writer.finish(heap, bricks, high);
}

// The plug that is found for an address, with a count of its own.
fn found<L: Ledger>(heap: &Heap, bricks: &Bricks, a: u64, blank: Blank) -> Option<NearestPlug>
    requires laid { (low : ℕ) × (high : ℕ) × IsLaid heap.now bricks.now low high × (low ≤ a) × (a < high) }
    requires name { blank.name ≡ L.name }
    requires parts { blank.parts ≡ L.parts }
    requires some { 0 < blank.parts }
{
    let mut steps = Steps::<L>::new(blank);
    find_plug(heap, bricks, a, &mut steps)
}

// For each address the start and the distance of the plug that is to be found.
fn expect_found(
    rt: &impl Abort,
    heap: &Heap,
    bricks: &Bricks,
    low: u64,
    high: u64,
    cases: &[(u64, Option<(u64, i64)>)],
)
    requires { IsLaid heap.now bricks.now low high }
{
    for &(a, want) in cases {
        assert!(rt; low <= a && a < high);
        let plug = found::<Brand>(heap, bricks, a, Blank::new(1));
        assert_eq!(rt; plug.map(|p| (p.start, p.distance)), want, "at {a}");
    }
}

// The plugs that a cursor gives are these.
fn expect_walked(rt: &impl Abort, heap: &Heap, bricks: &Bricks, low: u64, high: u64, wants: &[u64])
    requires { IsLaid heap.now bricks.now low high }
{
    assert!(rt; high <= 0x1004_0000);
    let _ = heap.segments();
    let mut cursor = PlugCursor::new(low, high);
    for want in wants {
        assert_eq!(rt; cursor.next(heap, 0, bricks), Some(*want));
    }
    assert_eq!(rt; cursor.next(heap, 0, bricks), None);
}

#[test]
fn plugs_are_found(rt: HostRuntime) -> Result<(), Fail> {
    let (mut heap, mut bricks) = started(rt.alloc())?;
    let (low, high) = (0x1000_1100, 0x1000_9000);
    let plugs = [
        (0x1000_1200, 0x100, -0x100),
        (0x1000_1218, 0, 0),
        (0x1000_1fe8, 48, -148),
        (0x1000_2000, 0, -148),
        (0x1000_2800, 24, -24),
        (0x1000_6ff8, 8000, -9000),
    ];
    lay(&rt, &mut heap, &mut bricks, low, high, &plugs);
    let cases = [
        (0x1000_1100, None),
        (0x1000_11ff, None),
        (0x1000_1200, Some((0x1000_1200, -0x100))),
        (0x1000_1217, Some((0x1000_1200, -0x100))),
        (0x1000_1218, Some((0x1000_1218, 0))),
        (0x1000_1fe7, Some((0x1000_1218, 0))),
        (0x1000_1fff, Some((0x1000_1fe8, -148))),
        (0x1000_2000, Some((0x1000_2000, -148))),
        (0x1000_5000, Some((0x1000_2800, -24))),
        (0x1000_6ff7, Some((0x1000_2800, -24))),
        (0x1000_6ff8, Some((0x1000_6ff8, -9000))),
        (0x1000_8fff, Some((0x1000_6ff8, -9000))),
    ];
    expect_found(&rt, &heap, &bricks, low, high, &cases);
    let wants = [
        0x1000_1200,
        0x1000_1218,
        0x1000_1fe8,
        0x1000_2000,
        0x1000_2800,
        0x1000_6ff8,
    ];
    expect_walked(&rt, &heap, &bricks, low, high, &wants);
    Ok(())
}

#[test]
fn a_part_without_plugs_has_none(rt: HostRuntime) -> Result<(), Fail> {
    let (mut heap, mut bricks) = started(rt.alloc())?;
    lay(&rt, &mut heap, &mut bricks, 0x1000_1000, 0x1000_4000, &[]);
    let cases = [(0x1000_1000, None), (0x1000_3fff, None)];
    expect_found(&rt, &heap, &bricks, 0x1000_1000, 0x1000_4000, &cases);
    expect_walked(&rt, &heap, &bricks, 0x1000_1000, 0x1000_4000, &[]);
    Ok(())
}
