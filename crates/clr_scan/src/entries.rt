// Where a walk begins, by the entries of bricks.
ghost use Rattle.std.specs.Prelude.{◌≡◌, ℕ, ◌/◌, ◌<◌, ◌≤◌, ◌^◌, ◌⊎◌, true};
ghost use Rattle.clr_bricks.specs.Bricks.{entry_at};
ghost use Rattle.clr_covers.specs.Covers.{is_covered};
ghost use Rattle.clr_scan.specs.Entries.{IsEntryPlace};

use clr_bricks::Bricks;
use clr_nums::Grid;

// Where a walk begins that meets what ends above `lo`: at the first object of the brick of `lo`, or of the nearest
// brick below it in which one starts, and at the cursor where that is nearer.
pub(crate) fn nearest(bricks: &Bricks, first: u64, cursor: u64, lo: u64) -> u64
    requires low { first ≤ lo }
    requires small { lo < 2 ^ 62 }
    requires covered { (i : ℕ) → first / 4096 ≤ i → i ≤ lo / 4096 → is_covered bricks.now i ≡ true }
    ensures { (result ≡ cursor) ⊎ ((cursor < result) × (result ≤ lo)
        × IsEntryPlace (entry_at bricks.now) (first / 4096) (lo / 4096) result) }
{
    let low = Grid::<4096>::index(first);
    let brick = Grid::<4096>::index(lo);
    let mut found = first_object(bricks, low, brick);
    if found > lo && brick > low {
        found = first_object(bricks, low, brick - 1);
    }
    if found > cursor && found <= lo {
        found
    } else {
        cursor
    }
}

// The first object of a brick, or of one that it leads back to, where an entry of the bricks from `low` up to it names
// one, and else 0.
fn first_object(bricks: &Bricks, low: u64, from: u64) -> u64
    requires order { low ≤ from }
    requires small { from < 2 ^ 50 }
    requires covered { (i : ℕ) → low ≤ i → i ≤ from → is_covered bricks.now i ≡ true }
    ensures { (result ≡ 0) ⊎ IsEntryPlace (entry_at bricks.now) low from result }
{
    let mut at = from;
    loop {
        let entry = bricks.entry(at);
        if entry > 0 {
            return at * 4096 + (entry as u64 - 1);
        }
        let back = u64::from(entry.unsigned_abs());
        if back == 0 || back > at - low {
            return 0;
        }
        at -= back;
    }
}
