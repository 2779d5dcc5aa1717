// What bricks tell of a new object of generation 2.
ghost use Rattle.std.specs.Prelude.{◌≡◌, ℕ, ◌+◌, ◌*◌, ◌/◌, ◌<◌, ◌≤◌, ◌^◌, ◌⊎◌, List, true};
ghost use Rattle.clr_types.specs.Segments.{Layout};
ghost use Rattle.clr_types.specs.Types.{TypeRow};
ghost use Rattle.clr_bricks.specs.Bricks.{entry_at, led_back};
ghost use Rattle.clr_covers.specs.Covers.{is_covered, spans};
ghost use Rattle.clr_model.specs.Lookups.{object_size};
ghost use Rattle.clr_model.specs.Machine.{Object};
ghost use Rattle.clr_generations.specs.Laws.{BrickLaw};
ghost use Rattle.clr_generations.specs.OldBirths.{HasOldNewborn, LeadUpTo};

use crate::births::name_newborn;
use clr_bricks::{Bricks, hop};

/// Lets the bricks tell of a new object of generation 2, of `size` bytes, at a place: its brick names it, where it
/// names none up to it, and each brick above that it reaches into leads back to its own, where no object starts in it.
/// All other entries stay.
pub fn enter_old_newborn(bricks: &mut Bricks, place: u64, size: u64)
    requires some { 0 < size }
    requires fits { place + size < 2 ^ 62 }
    requires covered { (i : ℕ) → place / 4096 ≤ i → 4096 * i < place + size → is_covered bricks.old i ≡ true }
    ensures bricks { (rows : List TypeRow) (before after : Layout) (objects now : List Object) (newborn : Object)
        → newborn.place ≡ place → object_size rows newborn ≡ size
        → HasOldNewborn rows before after objects now newborn
        → BrickLaw rows before objects (entry_at bricks.old) → BrickLaw rows after now (entry_at bricks.new) }
    ensures others { (i : ℕ) → (i < place / 4096) ⊎ (place + size ≤ 4096 * i)
        → entry_at bricks.new i ≡ entry_at bricks.old i }
    ensures spans { spans bricks.new ≡ spans bricks.old }
{
    let to = led_end(bricks, place, size);
    name_newborn(bricks, place);
    lead_back(bricks, place / 4096 + 1, to);
}

// The brick behind those that are to lead back to that of `place`, of an object of `size` bytes there: all above that
// it reaches into, but for the last one where an object starts in it.
fn led_end(bricks: &Bricks, place: u64, size: u64) -> u64
    requires some { 0 < size }
    requires fits { place + size < 2 ^ 62 }
    requires covered { (i : ℕ) → place / 4096 ≤ i → 4096 * i < place + size → is_covered bricks.now i ≡ true }
    ensures { LeadUpTo (entry_at bricks.now) place size result }
{
    let last = (place + size - 1) / 4096;
    if last > place / 4096 && bricks.entry(last) > 0 {
        last
    } else {
        last + 1
    }
}

// Lets the bricks of [next, to) lead back to the one below `next`.
fn lead_back(bricks: &mut Bricks, next: u64, to: u64)
    requires order { next ≤ to }
    requires covered { (i : ℕ) → next ≤ i → i < to → is_covered bricks.old i ≡ true }
    ensures entries { (i : ℕ) → entry_at bricks.new i ≡ led_back (entry_at bricks.old) next to i }
    ensures spans { spans bricks.new ≡ spans bricks.old }
{
    for brick in next..to {
        bricks.set_back(brick, hop(brick - next + 1));
    }
}
