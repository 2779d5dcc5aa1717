// Numbers of what may hold gray objects.
ghost use Rattle.std.specs.Prelude.{◌≡◌, ℕ, ◌+◌, ◌*◌, ◌/◌, ◌<◌, ◌≤◌, ◌^◌, ◌&&◌, ◌||◌, not, nat_eq, true, false, [], length};
ghost use Rattle.std.specs.Prelude.{IfOk};
ghost use Rattle.clr_bgmark.specs.Bits.{has_bit};
ghost use Rattle.clr_bgmark.specs.Pending.{AreGrouped};

use crate::bits::Bits;
use std::alloc::{AllocError, Global};
use std::marker::Model;

/// A set of numbers of which the lowest one is at hand: words of bits in which an object may be gray, or segments. Each
/// 64 numbers have a bit that says whether any of them is in the set, so that the next one is found in a few words,
/// however far away it is.
#[derive(Drop)]
pub(crate) struct Pending {
    numbers: Bits,
    // Of each 64 numbers whether any is in the set.
    groups: Bits,
    // No number of the set is lower.
    lowest: u64,
    // The number that was put in last, where it is still in the set, or else the most that there is.
    last: u64,
}

impl Model for Pending {
    ghost use Rattle.clr_bgmark.specs.Pending.{IsPending, PendingView};

    ghost Value = { PendingView };

    ghost view = { λ p. record { numbers = p.numbers; lowest = p.lowest } };

    ghost invariant = { λ p. IsPending p.numbers p.groups p.lowest p.last };
}

impl Pending {
    /// No number, and room for none. Takes no memory.
    pub(crate) fn none(alloc: Global) -> Pending
        ensures { result ≡ record { numbers = []; lowest = 0 } }
    {
        Pending {
            numbers: Bits::none(alloc),
            groups: Bits::none(alloc),
            lowest: 0,
            last: u64::MAX,
        }
    }

    /// No number, with room for those below `count`.
    pub(crate) fn new(alloc: Global, count: u64) -> Result<Pending, AllocError>
        ensures room { IfOk result (λ p. count ≤ 64 * length p.numbers) }
        ensures none { IfOk result (λ p. (n : ℕ) → has_bit p.numbers n ≡ false) }
    {
        let numbers = Bits::new(alloc, count)?;
        let groups = Bits::new(alloc, count / 64 + 1)?;
        Ok(Pending {
            numbers,
            groups,
            lowest: 0,
            last: u64::MAX,
        })
    }

    /// A number such that none of the set is lower.
    #[inline(always)]
    pub(crate) fn lowest(&self) -> u64
        ensures value { result ≡ self.now.lowest }
        ensures above { (n : ℕ) → has_bit self.now.numbers n ≡ true → result ≤ n }
    {
        self.lowest
    }

    /// Puts a number in, for which there is room: at once where it was put in last.
    #[inline(always)]
    #[tactic(auto, using(crate::proofs::Groups::more_same))]
    pub(crate) fn add(&mut self, n: u64)
        requires room { n < 64 * length self.old.numbers }
        requires few { n < 2 ^ 63 }
        ensures length { length self.new.numbers ≡ length self.old.numbers }
        ensures numbers { (i : ℕ) → has_bit self.new.numbers i ≡ (nat_eq i n || has_bit self.old.numbers i) }
    {
        if n != self.last {
            self.add_other(n);
        }
    }

    // Puts in a number that wasn't put in last, most likely.
    #[inline(never)]
    fn add_other(&mut self, n: u64)
        requires room { n < 64 * length self.old.numbers }
        ensures length { length self.new.numbers ≡ length self.old.numbers }
        ensures numbers { (i : ℕ) → has_bit self.new.numbers i ≡ (nat_eq i n || has_bit self.old.numbers i) }
    {
        self.numbers.add(n);
        self.groups.add(n / 64);
        self.lowest = self.lowest.min(n);
        self.last = n;
    }

    /// Takes out the number that `lowest` tells, and answers the next one below `past`, or `past` where there is none.
    /// `lowest` tells that one then.
    #[inline(never)]
    pub(crate) fn pass(&mut self, past: u64) -> u64
        requires room { past ≤ 64 * length self.old.numbers }
        requires few { past < 2 ^ 63 }
        requires within { self.old.lowest < past }
        ensures length { length self.new.numbers ≡ length self.old.numbers }
        ensures value { result ≡ self.new.lowest }
        ensures low { self.old.lowest < result }
        ensures high { result ≤ past }
        ensures above { (n : ℕ) → has_bit self.new.numbers n ≡ true → result ≤ n }
        ensures numbers { (i : ℕ) → has_bit self.new.numbers i
            ≡ (not (nat_eq i self.old.lowest) && has_bit self.old.numbers i) }
    {
        let passed = self.lowest;
        self.numbers.remove(passed);
        leave_group(&self.numbers, &mut self.groups, passed / 64);
        let next = next_in(&self.numbers, &self.groups, passed + 1, past);
        self.lowest = next;
        self.last = if next < past { next } else { u64::MAX };
        next
    }
}

// Where none of the 64 numbers of a group is in a set, `groups` doesn't say so any more.
#[inline(always)]
fn leave_group(numbers: &Bits, groups: &mut Bits, group: u64)
    requires room { group < 64 * length groups.old }
    requires grouped { AreGrouped numbers.now groups.old }
    ensures length { length groups.new ≡ length groups.old }
    ensures grouped { AreGrouped numbers.now groups.new }
{
    if numbers.word(group) == 0 {
        groups.remove(group);
    }
}

// The first number from `from` on, below `past`, that is in a set, or `past` where there is none. Of each 64 numbers
// `groups` says whether any is in the set.
#[inline(always)]
fn next_in(numbers: &Bits, groups: &Bits, from: u64, past: u64) -> u64
    requires grouped { AreGrouped numbers.now groups.now }
    requires low { from ≤ past }
    requires few { past < 2 ^ 63 }
    ensures low { from ≤ result }
    ensures high { result ≤ past }
    ensures here { result < past → has_bit numbers.now result ≡ true }
    ensures below { (n : ℕ) → from ≤ n → n < result → has_bit numbers.now n ≡ false }
{
    let end = from / 64 * 64 + 64;
    if let Some(n) = numbers.first(from, end.min(past)) {
        return n;
    }
    let Some(group) = groups.first(from / 64 + 1, past / 64 + 1) else {
        return past;
    };
    match numbers.first(64 * group, past) {
        Some(n) => n,
        None => past,
    }
}
