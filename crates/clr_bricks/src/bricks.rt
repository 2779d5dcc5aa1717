// The bricks of all segments.
ghost use Rattle.std.specs.Prelude.{◌≡◌, ℕ, ◌+◌, ◌-◌, ◌/◌, ◌%◌, ◌<◌, ◌≤◌, ◌^◌, ◌==◌, ◌&&◌, ◌||◌, ◌↔◌, pos, true};
ghost use Rattle.std.specs.Prelude.{if◌then◌else◌, [], length, get_or, nat_le, nat_lt, Some, IfSome, IsNone};
ghost use Rattle.std.specs.Prelude.{OnErr, OnOk};
ghost use Rattle.std.specs.List.{remove};
ghost use Rattle.clr_covers.specs.Covers.{AreApart, begins, has_unit, is_covered, IsFree, share_cover, spans};
ghost use Rattle.clr_covers.specs.Covers.{with_cover, with_value, without_cover};
ghost use Rattle.clr_bricks.specs.Bricks.{AreLedBack, back_entry, entry_at, IsRoot, LeadsNowhere, LeadsToRoot};
ghost use Rattle.clr_bricks.specs.Bricks.{led_back, new_bricks, root_entry, StopsAt};

use crate::NoMemory;
use crate::leading::{count_led, hop};
use crate::search::{first_root, search};
use clr_covers::Covers;
use clr_nums::{Grid, Steps};
use std::alloc::Global;
use std::marker::Model;
use std::sync::ledger::Ledger;

/// An entry for each brick, that is for each 4,096 bytes of what is covered. It is 0, or one more than an offset in the
/// brick, or negative: how many bricks to go back. Clauses see the covers, by rising address, and each brick by its
/// number, that of its 4,096 bytes.
///
/// The calls look first where an entry was written or expected last. Those that take `near`, a guess of the number of
/// the cover, look there first.
#[derive(Drop)]
pub struct Bricks {
    covers: Covers<i16>,
}

impl Model for Bricks {
    ghost use Rattle.std.specs.Prelude.{ℤ, List};
    ghost use Rattle.clr_covers.specs.Covers.{CoverView};

    ghost Value = { List (CoverView ℤ) };

    ghost view = { λ b. b.covers };
}

impl Bricks {
    /// No bricks. Takes no memory.
    pub fn new(alloc: Global) -> Bricks
        ensures { result ≡ [] }
    {
        Bricks {
            covers: Covers::new(alloc),
        }
    }

    /// How many covers there are.
    pub fn covers(&self) -> usize
        ensures count { result ≡ length self.now }
        ensures apart { AreApart self.now }
    {
        self.covers.len()
    }

    /// Covers `[base, base + len)`, in bytes, with bricks without entries. No address of it is covered, and all other
    /// entries stay. `NoMemory` comes where there was no memory for the bricks; nothing has changed then.
    pub fn add(&mut self, base: u64, len: u64) -> Result<(), NoMemory>
        requires base_aligned { base % 4096 ≡ 0 }
        requires len_aligned { len % 4096 ≡ 0 }
        requires some { 0 < len }
        requires fits { base + len < 2 ^ 64 }
        requires free { IsFree self.old (base / 4096) ((base + len) / 4096) }
        ensures ok { OnOk result (self.new ≡ with_cover (new_bricks base len) self.old) }
        ensures covered { OnOk result ((i : ℕ) → is_covered self.new i
            ≡ (has_unit (new_bricks base len) i || is_covered self.old i)) }
        ensures entries { (i : ℕ) → entry_at self.new i ≡ entry_at self.old i }
        ensures err { OnErr result (self.new ≡ self.old) }
    {
        let count = len / 4096;
        self.covers
            .add(Grid::<4096>::index(base), count as usize, 0)
    }

    /// Ends the cover that begins at the address `base`. All other entries stay.
    pub fn remove(&mut self, base: u64)
        requires aligned { base % 4096 ≡ 0 }
        requires begins { begins self.old (base / 4096) ≡ true }
        ensures value { self.new ≡ without_cover (base / 4096) self.old }
        ensures entries { (i : ℕ) → is_covered self.new i ≡ true → entry_at self.new i ≡ entry_at self.old i }
        ensures spans { (k : ℕ) → k < length self.old → (get_or (spans self.old) k (0, 0)).0 ≡ base / 4096
            → spans self.new ≡ remove (spans self.old) k }
    {
        self.covers.remove(Grid::<4096>::index(base));
    }

    /// Makes the cover that has a brick the one where the calls look first. All entries stay.
    pub fn expect(&mut self, brick: u64)
        requires { is_covered self.old brick ≡ true }
        ensures { self.new ≡ self.old }
    {
        self.covers.expect(brick);
    }

    /// Lets a brick name an offset, in bytes from its first address. All other entries stay.
    #[inline(never)]
    pub fn set_root(&mut self, brick: u64, offset: u16)
        requires covered { is_covered self.old brick ≡ true }
        requires inside { offset < 4096 }
        ensures value { self.new ≡ with_value self.old brick (root_entry offset) }
        ensures entries { (i : ℕ) → entry_at self.new i
            ≡ (if i == brick then root_entry offset else entry_at self.old i) }
        ensures spans { spans self.new ≡ spans self.old }
    {
        self.put(brick, offset as i16 + 1);
    }

    /// Lets a brick lead `back` bricks back. All other entries stay.
    #[inline]
    pub fn set_back(&mut self, brick: u64, back: u16)
        requires covered { is_covered self.old brick ≡ true }
        requires some { 1 ≤ back }
        requires most { back ≤ 32767 }
        ensures value { self.new ≡ with_value self.old brick (back_entry back) }
        ensures entries { (i : ℕ) → entry_at self.new i
            ≡ (if i == brick then back_entry back else entry_at self.old i) }
        ensures spans { spans self.new ≡ spans self.old }
    {
        self.put(brick, -(back as i16));
    }

    /// Lets the bricks from `from` to below `past`, if there are any, lead back to the one below `from`. One cover has
    /// them all. Those before the first one that doesn't lead there yet cost a compare each. All other entries stay.
    pub fn lead_back(&mut self, from: u64, past: u64)
        requires order { from ≤ past }
        requires shared { from < past → share_cover self.old from (past - 1) ≡ true }
        ensures entries { (i : ℕ) → entry_at self.new i ≡ led_back (entry_at self.old) from past i }
        ensures spans { spans self.new ≡ spans self.old }
    {
        let led = self.led_up_to(from, past);
        self.lead_on(from, led, past);
    }

    /// Lets the bricks from `from` to below `past` lead back to the one below `from`, as `lead_back` does, where those
    /// below `led` lead there already: they cost nothing. All other entries stay.
    pub fn lead_on(&mut self, from: u64, led: u64, past: u64)
        requires low { from ≤ led }
        requires high { led ≤ past }
        requires shared { led < past → share_cover self.old from (past - 1) ≡ true }
        requires led { AreLedBack (entry_at self.old) from led }
        ensures entries { (i : ℕ) → entry_at self.new i ≡ led_back (entry_at self.old) from past i }
        ensures spans { spans self.new ≡ spans self.old }
    {
        for brick in led..past {
            self.set_back(brick, hop(brick - from + 1));
        }
    }

    /// The first brick from `from` on and below `past` that doesn't lead back to the one below `from`, and `past` where
    /// each does. One cover has them all. It costs a compare for each brick that it passes.
    pub fn led_up_to(&self, from: u64, past: u64) -> u64
        requires order { from ≤ past }
        requires shared { from < past → share_cover self.now from (past - 1) ≡ true }
        ensures low { from ≤ result }
        ensures high { result ≤ past }
        ensures led { AreLedBack (entry_at self.now) from result }
    {
        if from == past {
            return past;
        }
        let entries = self.covers.values(self.covers.recent(), from, past);
        from + count_led(entries) as u64
    }

    /// Takes a brick's entry away. All other entries stay.
    #[inline]
    pub fn set_none(&mut self, brick: u64)
        requires { is_covered self.old brick ≡ true }
        ensures value { self.new ≡ with_value self.old brick (pos 0) }
        ensures entries { (i : ℕ) → entry_at self.new i ≡ (if i == brick then pos 0 else entry_at self.old i) }
        ensures spans { spans self.new ≡ spans self.old }
    {
        self.put(brick, 0);
    }

    /// Takes away the entries of the bricks from `from` to below `past`, if there are any. One cover has them all. All
    /// other entries stay.
    pub fn clear(&mut self, from: u64, past: u64)
        requires { from < past → share_cover self.old from (past - 1) ≡ true }
        ensures entries { (i : ℕ) → entry_at self.new i
            ≡ (if nat_le from i && nat_lt i past then pos 0 else entry_at self.old i) }
        ensures spans { spans self.new ≡ spans self.old }
    {
        let near = self.covers.recent();
        self.covers.fill(near, from, past, 0);
    }

    /// The entry of a brick.
    #[inline(always)]
    pub fn entry(&self, brick: u64) -> i16
        requires { is_covered self.now brick ≡ true }
        ensures { result ≡ entry_at self.now brick }
    {
        self.entry_near(self.covers.recent(), brick)
    }

    /// The entry of a brick; `near` is a guess of the number of its cover.
    #[inline(always)]
    pub fn entry_near(&self, near: usize, brick: u64) -> i16
        requires { is_covered self.now brick ≡ true }
        ensures { result ≡ entry_at self.now brick }
    {
        self.covers.get(near, brick)
    }

    /// The first brick from `from` on and below `past` whose entry names an offset, and `past` where none does. One
    /// cover has them all. It costs a compare for each brick that it passes.
    pub fn next_root(&self, from: u64, past: u64) -> u64
        requires { from < past → share_cover self.now from (past - 1) ≡ true }
        ensures low { from ≤ past → from ≤ result }
        ensures high { result ≤ past }
        ensures none { (i : ℕ) → from ≤ i → i < result → IsRoot (entry_at self.now i) → ⊥ }
        ensures found { result < past → IsRoot (entry_at self.now result) }
    {
        if from >= past {
            return past;
        }
        let entries = self.covers.values(self.covers.recent(), from, past);
        from + first_root(entries) as u64
    }

    /// The brick that names an offset, found from the brick of the address `a` on by following back entries. `None`
    /// comes exactly where a brick without an entry is met, or an entry that leads below the first brick of the cover.
    /// Each entry that is read counts one step.
    pub fn find_brick<L: Ledger>(&self, a: u64, steps: &mut Steps<L>) -> Option<u64>
        requires { is_covered self.now (a / 4096) ≡ true }
        ensures found { (b : ℕ) → (result ≡ Some b) ↔ LeadsToRoot self.now (a / 4096) b }
        ensures none { IsNone result ↔ LeadsNowhere self.now (a / 4096) }
        ensures steps { (b n : ℕ) → StopsAt self.now (a / 4096) b n → steps.new ≡ steps.old + n + 1 }
        ensures covered { IfSome result (λ b. is_covered self.now b ≡ true) }
        ensures below { IfSome result (λ b. b ≤ a / 4096) }
    {
        self.find_brick_near(self.covers.recent(), a, steps)
    }

    /// The brick that names an offset, as `find_brick` finds it; `near` is a guess of the number of the cover.
    pub fn find_brick_near<L: Ledger>(
        &self,
        near: usize,
        a: u64,
        steps: &mut Steps<L>,
    ) -> Option<u64>
        requires { is_covered self.now (a / 4096) ≡ true }
        ensures found { (b : ℕ) → (result ≡ Some b) ↔ LeadsToRoot self.now (a / 4096) b }
        ensures none { IsNone result ↔ LeadsNowhere self.now (a / 4096) }
        ensures steps { (b n : ℕ) → StopsAt self.now (a / 4096) b n → steps.new ≡ steps.old + n + 1 }
        ensures covered { IfSome result (λ b. is_covered self.now b ≡ true) }
        ensures below { IfSome result (λ b. b ≤ a / 4096) }
    {
        let from = Grid::<4096>::index(a);
        let k = self.covers.locate(near, from);
        search(&self.covers, k, from, steps)
    }

    // Gives a brick an entry.
    #[inline]
    fn put(&mut self, brick: u64, entry: i16)
        requires { is_covered self.old brick ≡ true }
        ensures value { self.new ≡ with_value self.old brick entry }
        ensures entries { (i : ℕ) → entry_at self.new i ≡ (if i == brick then entry else entry_at self.old i) }
        ensures spans { spans self.new ≡ spans self.old }
    {
        let near = self.covers.recent();
        self.covers.set(near, brick, entry);
    }
}
