// Bricks that are entered and found.
ghost use Rattle.std.specs.Prelude.{◌≡◌, ◌/◌, ◌<◌, true, IfOk};
ghost use Rattle.clr_covers.specs.Covers.{HasAll, is_covered, spans};

use clr_bricks::Bricks;
use clr_nums::Steps;
use std::alloc::Global;
use std::marker::Brand;
use std::process::Abort;
use std::sync::ledger::{Blank, Ledger};
use std::test::Fail;

// The bricks of two segments, one right below the other, of which the tests use the upper one,
// from 0x1000_0000 up to 0x1004_0000.
fn two_segments(alloc: Global) -> Result<Bricks, Fail>
    ensures { IfOk result (λ b. HasAll b 65536 65600) }
{
    let mut bricks = Bricks::new(alloc);
    bricks.add(0x1000_0000, 0x4_0000)?;
    bricks.add(0x0fff_0000, 0x1_0000)?;
    Ok(bricks)
}

// Gives each brick, counted from the first one, its entry.
fn enter_each(rt: &impl Abort, bricks: &mut Bricks, entries: &[(u64, i16)])
    requires { HasAll bricks.old 65536 65600 }
    ensures { HasAll bricks.new 65536 65600 }
{
    for &(number, entry) in entries {
        assert!(rt; number < 64);
        enter(rt, bricks, 0x1_0000 + number, entry);
        expect_entry(rt, bricks, 0x1_0000 + number, entry);
    }
}

fn enter(rt: &impl Abort, bricks: &mut Bricks, brick: u64, entry: i16)
    requires { is_covered bricks.old brick ≡ true }
    ensures { spans bricks.new ≡ spans bricks.old }
{
    if entry > 0 {
        assert!(rt; entry <= 4096);
        bricks.set_root(brick, entry as u16 - 1);
        return;
    }
    let back = entry.unsigned_abs();
    if back == 0 {
        bricks.set_none(brick);
        return;
    }
    assert!(rt; back <= 32_767);
    bricks.set_back(brick, back);
}

// Looks at the entry of a brick by a right guess of its cover, a wrong one and one that no cover has.
fn expect_entry(rt: &impl Abort, bricks: &Bricks, brick: u64, entry: i16)
    requires { is_covered bricks.now brick ≡ true }
{
    let found = [
        bricks.entry(brick),
        bricks.entry_near(0, brick),
        bricks.entry_near(9, brick),
    ];
    assert_eq!(rt; found, [entry; 3], "of brick {brick}");
}

// A search from an address, with a count of its own, and another by a wrong guess.
fn found_from<L: Ledger>(bricks: &Bricks, a: u64, blank: Blank) -> [Option<u64>; 2]
    requires covered { is_covered bricks.now (a / 4096) ≡ true }
    requires name { blank.name ≡ L.name }
    requires parts { blank.parts ≡ L.parts }
    requires some { 0 < blank.parts }
{
    let mut steps = Steps::<L>::new(blank);
    let found = bricks.find_brick(a, &mut steps);
    [found, bricks.find_brick_near(0, a, &mut steps)]
}

fn expect_found(rt: &impl Abort, bricks: &Bricks, cases: &[(u64, Option<u64>)])
    requires { HasAll bricks.now 65536 65600 }
{
    for &(a, want) in cases {
        assert!(rt; 0x1000_0000 <= a && a < 0x1004_0000);
        let found = found_from::<Brand>(bricks, a, Blank::new(1));
        assert_eq!(rt; found, [want; 2], "from {a}");
    }
}

#[test]
fn bricks_are_found(rt: HostRuntime) -> Result<(), Fail> {
    let mut bricks = two_segments(rt.alloc())?;
    let entries = [
        (1, 1),
        (2, -1),
        (3, -1),
        (4, -3),
        (5, 4096),
        (7, -1),
        (8, -2),
        (9, -10),
        (10, -9),
        (20, -15),
        (63, -32_767),
    ];
    enter_each(&rt, &mut bricks, &entries);
    let cases = [
        (0x1000_1000, Some(0x1_0001)),
        (0x1000_1fff, Some(0x1_0001)),
        (0x1000_2000, Some(0x1_0001)),
        (0x1000_3008, Some(0x1_0001)),
        (0x1000_4ff8, Some(0x1_0001)),
        (0x1000_5000, Some(0x1_0005)),
        (0x1001_4000, Some(0x1_0005)),
        (0x1000_0000, None),
        (0x1000_6000, None),
        (0x1000_7000, None),
        (0x1000_8000, None),
        (0x1000_9000, None),
        (0x1000_a000, Some(0x1_0001)),
        (0x1003_ffff, None),
    ];
    expect_found(&rt, &bricks, &cases);
    enter_each(&rt, &mut bricks, &[(1, 0), (5, -1), (6, 17)]);
    let cases = [
        (0x1000_3000, None),
        (0x1000_5000, None),
        (0x1000_8000, Some(0x1_0006)),
        (0x1001_4000, None),
    ];
    expect_found(&rt, &bricks, &cases);
    Ok(())
}

#[test]
fn a_cover_ends(rt: HostRuntime) -> Result<(), Fail> {
    let mut bricks = Bricks::new(rt.alloc());
    bricks.add(0x1000_0000, 0x4_0000)?;
    assert_eq!(rt; bricks.covers(), 1);
    bricks.remove(0x1000_0000);
    assert_eq!(rt; bricks.covers(), 0);
    bricks.add(0x1000_0000, 0x1000)?;
    Ok(())
}
