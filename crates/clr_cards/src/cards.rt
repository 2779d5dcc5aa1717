// The cards of all segments.
ghost use Rattle.std.specs.Prelude.{◌≡◌, ℕ, ◌+◌, ◌-◌, ◌/◌, ◌%◌, ◌<◌, ◌^◌, ◌==◌, ◌&&◌, ◌||◌, not, true, []};
ghost use Rattle.std.specs.Prelude.{length, get_or, OnErr, OnOk};
ghost use Rattle.std.specs.List.{remove};
ghost use Rattle.clr_covers.specs.Covers.{AreApart, begins, has_unit, is_covered, IsFree, share_cover, spans};
ghost use Rattle.clr_covers.specs.Covers.{with_cover, with_value, without_cover};
ghost use Rattle.clr_cards.specs.Cards.{AreRuns, clear_cards, is_card_set};

use crate::NoMemory;
use crate::runs::Runs;
use clr_covers::Covers;
use clr_nums::Grid;
use std::alloc::Global;
use std::marker::Model;

/// How many bytes a card covers.
pub const CARD: u64 = 2048;

/// A card for each 2,048 bytes of what is covered, set or clear. Clauses see the covers, by rising address, and the
/// card of an address by its number, that of the 2,048 bytes in which the address lies.
///
/// The calls look first where a card was written last. Those that take `near`, a guess of the number of the cover, look
/// there first.
#[derive(Drop)]
pub struct Cards {
    covers: Covers<u8>,
}

impl Model for Cards {
    ghost use Rattle.std.specs.Prelude.{ℕ, List};
    ghost use Rattle.clr_covers.specs.Covers.{CoverView};

    ghost Value = { List (CoverView ℕ) };

    ghost view = { λ c. c.covers };
}

impl Cards {
    /// No cards. Takes no memory.
    pub fn new(alloc: Global) -> Cards
        ensures { result ≡ [] }
    {
        Cards {
            covers: Covers::new(alloc),
        }
    }

    /// How many covers there are.
    pub fn covers(&self) -> usize
        ensures count { result ≡ length self.now }
        ensures apart { AreApart self.now }
    {
        self.covers.len()
    }

    /// Covers `[base, base + len)`, in bytes, with clear cards. No address of it is covered, and all other cards stay.
    /// `NoMemory` comes where there was no memory for the cards; nothing has changed then.
    pub fn add(&mut self, base: u64, len: u64) -> Result<(), NoMemory>
        requires base_aligned { base % 4096 ≡ 0 }
        requires len_aligned { len % 4096 ≡ 0 }
        requires some { 0 < len }
        requires fits { base + len < 2 ^ 64 }
        requires free { IsFree self.old (base / CARD) ((base + len) / CARD) }
        ensures ok { OnOk result (self.new ≡ with_cover (clear_cards base len) self.old) }
        ensures covered { OnOk result ((i : ℕ) → is_covered self.new i
            ≡ (has_unit (clear_cards base len) i || is_covered self.old i)) }
        ensures cards { (i : ℕ) → is_card_set self.new i ≡ is_card_set self.old i }
        ensures err { OnErr result (self.new ≡ self.old) }
    {
        let count = len / CARD;
        self.covers
            .add(Grid::<CARD>::index(base), count as usize, 0)
    }

    /// Ends the cover that begins at the address `base`. All other cards stay.
    pub fn remove(&mut self, base: u64)
        requires aligned { base % 4096 ≡ 0 }
        requires begins { begins self.old (base / CARD) ≡ true }
        ensures value { self.new ≡ without_cover (base / CARD) self.old }
        ensures cards { (i : ℕ) → is_covered self.new i ≡ true → is_card_set self.new i ≡ is_card_set self.old i }
        ensures spans { (k : ℕ) → k < length self.old → (get_or (spans self.old) k (0, 0)).0 ≡ base / CARD
            → spans self.new ≡ remove (spans self.old) k }
    {
        self.covers.remove(Grid::<CARD>::index(base));
    }

    /// Sets the card of the address `a`. All other cards stay.
    #[inline(always)]
    pub fn set(&mut self, a: u64)
        requires { is_covered self.old (a / CARD) ≡ true }
        ensures value { self.new ≡ with_value self.old (a / CARD) 1 }
        ensures cards { (i : ℕ) → is_card_set self.new i ≡ ((i == a / CARD) || is_card_set self.old i) }
        ensures spans { spans self.new ≡ spans self.old }
    {
        let near = self.covers.recent();
        self.set_near(near, a);
    }

    /// Sets the card of the address `a`; `near` is a guess of the number of its cover, as the write barrier has one
    /// from the slot's segment. All other cards stay.
    #[inline]
    #[tactic(auto, using(crate::proofs::Setting::set_card))]
    pub fn set_near(&mut self, near: usize, a: u64)
        requires { is_covered self.old (a / CARD) ≡ true }
        ensures value { self.new ≡ with_value self.old (a / CARD) 1 }
        ensures cards { (i : ℕ) → is_card_set self.new i ≡ ((i == a / CARD) || is_card_set self.old i) }
        ensures spans { spans self.new ≡ spans self.old }
    {
        self.covers.set(near, Grid::<CARD>::index(a), 1);
    }

    /// Clears the card of the address `a`. All other cards stay.
    #[inline]
    #[tactic(auto, using(crate::proofs::Setting::cleared_card))]
    pub fn clear(&mut self, a: u64)
        requires { is_covered self.old (a / CARD) ≡ true }
        ensures value { self.new ≡ with_value self.old (a / CARD) 0 }
        ensures cards { (i : ℕ) → is_card_set self.new i ≡ (not (i == a / CARD) && is_card_set self.old i) }
        ensures spans { spans self.new ≡ spans self.old }
    {
        let near = self.covers.recent();
        self.covers.set(near, Grid::<CARD>::index(a), 0);
    }

    /// Whether the card of the address `a` is set.
    #[inline]
    pub fn is_set(&self, a: u64) -> bool
        requires { is_covered self.now (a / CARD) ≡ true }
        ensures { result ≡ is_card_set self.now (a / CARD) }
    {
        self.is_set_near(self.covers.recent(), a)
    }

    /// Whether the card of the address `a` is set; `near` is a guess of the number of its cover.
    #[inline]
    pub fn is_set_near(&self, near: usize, a: u64) -> bool
        requires { is_covered self.now (a / CARD) ≡ true }
        ensures { result ≡ is_card_set self.now (a / CARD) }
    {
        self.covers.get(near, Grid::<CARD>::index(a)) > 0
    }

    /// The maximal stretches of addresses inside `[lo, hi)` whose cards are set, each as its first address and one past
    /// its last, by rising address. The range lies in one cover.
    pub fn runs(&self, lo: u64, hi: u64) -> Runs<'_>
        requires { lo < hi → share_cover self.now (lo / CARD) ((hi - 1) / CARD) ≡ true }
        ensures { AreRuns (is_card_set self.now) lo hi result }
    {
        if lo >= hi {
            return Runs::new(&[], 0, lo, hi);
        }
        let (from, past) = Grid::<CARD>::cover(lo, hi);
        let near = self.covers.recent();
        let cards = self.covers.values(near, from, past);
        Runs::new(cards, from, lo, hi)
    }
}
