// Where a walk begins, by the entries of bricks before a plan.
ghost use Rattle.std.specs.Prelude.{◌≡◌, ℕ, ◌+◌, ◌/◌, ◌<◌, ◌≤◌, ◌^◌, ◌⊎◌, true, ◌==◌, if◌then◌else◌};
ghost use Rattle.clr_bricks.specs.Bricks.{entry_at};
ghost use Rattle.clr_covers.specs.Covers.{is_covered};
ghost use Rattle.clr_scan.specs.Entries.{IsEntryPlace};
ghost use Rattle.clr_reloc.specs.Scanning.{entry_before};

use clr_bricks::Bricks;
use clr_moves::Planned;
use clr_nums::Grid;

// Where a walk begins that meets what ends above `lo`: at the first object of the brick of `lo`, or of the nearest
// brick below it in which one starts, and at the cursor where that is nearer. A part begins in the brick `border`.
pub(crate) fn nearest(
    bricks: &Bricks,
    planned: &Planned,
    border: u64,
    first: u64,
    cursor: u64,
    lo: u64,
) -> u64
    requires low { first ≤ lo }
    requires small { lo < 2 ^ 62 }
    requires covered { (i : ℕ) → first / 4096 ≤ i → i ≤ lo / 4096 → is_covered bricks.now i ≡ true }
    ensures { (result ≡ cursor) ⊎ ((cursor < result) × (result ≤ lo)
        × IsEntryPlace (entry_before bricks.now planned.now.below planned.now.first border) (first / 4096) (lo / 4096)
        result) }
{
    let low = Grid::<4096>::index(first);
    let brick = Grid::<4096>::index(lo);
    let mut found = first_object(bricks, planned, border, low, brick);
    if found > lo && brick > low {
        found = first_object(bricks, planned, border, low, brick - 1);
    }
    if found > cursor && found <= lo {
        found
    } else {
        cursor
    }
}

// The first object of a brick, or of one that it leads back to, where an entry of the bricks from `low` up to it named
// one, and else 0.
fn first_object(bricks: &Bricks, planned: &Planned, border: u64, low: u64, from: u64) -> u64
    requires order { low ≤ from }
    requires small { from < 2 ^ 50 }
    requires covered { (i : ℕ) → low ≤ i → i ≤ from → is_covered bricks.now i ≡ true }
    ensures { (result ≡ 0)
        ⊎ IsEntryPlace (entry_before bricks.now planned.now.below planned.now.first border) low from result }
{
    let mut at = from;
    loop {
        let entry = old_entry(bricks, planned, border, at);
        if entry > 0 {
            return at * 4096 + (entry as u64 - 1);
        }
        let back = u64::from(entry.unsigned_abs());
        if back == 0 || back > at - low {
            return 0;
        }
        at -= back;
    }
}

// The entry of a brick before the plan.
fn old_entry(bricks: &Bricks, planned: &Planned, border: u64, brick: u64) -> i16
    requires small { brick < 2 ^ 50 }
    requires covered { is_covered bricks.now brick ≡ true }
    ensures { result ≡ entry_before bricks.now planned.now.below planned.now.first border brick }
{
    if brick == border {
        planned.first
    } else if brick + 1 == border {
        planned.below
    } else {
        bricks.entry(brick)
    }
}
