// The bits of one segment.
ghost use Rattle.std.specs.Prelude.{◌≡◌, ℕ, ◌+◌, ◌*◌, ◌/◌, ◌%◌, ◌<◌, ◌≤◌, ◌^◌, ◌&&◌, not, true, false, IfOk, IfSome};
ghost use Rattle.std.specs.Prelude.{get_or, IfNone, length, ◌↔◌};
ghost use Rattle.clr_bgmark.specs.Bits.{count_below, has_bit};
ghost use Rattle.clr_bgmark.specs.Lending.{found_near, IsNear, met_near};
ghost use Rattle.clr_bgmark.specs.Pauses.{IsUnlogged, PassesCell};
ghost use Rattle.clr_bgmark.specs.Settling.{IsTakenIn};
ghost use Rattle.clr_bgmark.specs.Shades.{card_of, cell_colour, cell_of, covers, HasNoGray, is_gray_cell};
ghost use Rattle.clr_bgmark.specs.Shades.{is_gray_number, is_outside, is_white};
ghost use Rattle.clr_bgmark.specs.Shades.{with_scanned, with_set};

use crate::background::Colour;
use crate::bits::Bits;
use crate::pending::Pending;
use clr_cards::CARD;
use std::alloc::{AllocError, Global};
use std::marker::Model;

// How many places of eight bytes a card has.
const CARD_CELLS: u64 = CARD / 8;

/// What a bit says: of a place that its object was taken, is marked or was scanned, or of a card that it is logged.
#[derive(Clone, Copy, Debug, PartialEq, Eq)]
pub(crate) enum Bit {
    Taken,
    Marked,
    Scanned,
    Logged,
}

/// Which marked places are looked for.
#[derive(Clone, Copy)]
pub(crate) enum Search {
    /// Those that weren't scanned.
    Gray,
    /// Those behind which a card is logged before the next marked place, and the last one of the segment.
    Logged,
}

/// The bits of one segment: of each eight bytes whether an object stands there that was taken, that is marked, that was
/// scanned, and of each card whether it is logged.
#[derive(Drop)]
pub(crate) struct Shade {
    base: u64,
    size: u64,
    taken: Bits,
    marked: Bits,
    scanned: Bits,
    logged: Bits,
    // Which words of bits may have a gray place.
    pending: Pending,
}

impl Model for Shade {
    ghost use Rattle.clr_bgmark.specs.Shades.{IsSearched, shade_code, ShadeView};

    ghost Value = { ShadeView };

    ghost coded = { shade_code };

    ghost view = { λ s. record {
      base = s.base;
      size = s.size;
      taken = s.taken;
      marked = s.marked;
      scanned = s.scanned;
      logged = s.logged;
    } };

    ghost invariant = { λ s. IsSearched (record {
      base = s.base;
      size = s.size;
      taken = s.taken;
      marked = s.marked;
      scanned = s.scanned;
      logged = s.logged;
    }) s.pending.numbers };
}

impl Shade {
    ghost use Rattle.clr_bgmark.specs.Shades.{IsShade};

    /// The bits of a segment, of which none is set.
    pub(crate) fn new(alloc: Global, base: u64, size: u64) -> Result<Shade, AllocError>
        requires base { base % 4096 ≡ 0 }
        requires size { size % 4096 ≡ 0 }
        requires fits { base + size < 2 ^ 63 }
        ensures lawful { IfOk result IsShade }
        ensures base { IfOk result (λ s. s.base ≡ base) }
        ensures size { IfOk result (λ s. s.size ≡ size) }
        ensures taken { IfOk result (λ s. (n : ℕ) → has_bit s.taken n ≡ false) }
        ensures marked { IfOk result (λ s. (n : ℕ) → has_bit s.marked n ≡ false) }
        ensures scanned { IfOk result (λ s. (n : ℕ) → has_bit s.scanned n ≡ false) }
        ensures logged { IfOk result (λ s. (n : ℕ) → has_bit s.logged n ≡ false) }
    {
        let taken = Bits::new(alloc, size / 8)?;
        let marked = Bits::new(alloc, size / 8)?;
        let scanned = Bits::new(alloc, size / 8)?;
        let logged = Bits::new(alloc, size / CARD)?;
        let pending = Pending::new(alloc, size / 512)?;
        Ok(Shade {
            base,
            size,
            taken,
            marked,
            scanned,
            logged,
            pending,
        })
    }

    /// Where the segment begins.
    #[inline]
    pub(crate) fn base(&self) -> u64
        ensures { result ≡ self.now.base }
    {
        self.base
    }

    /// The number of the eight bytes of an address.
    #[inline]
    pub(crate) fn cell(&self, a: u64) -> u64
        requires { covers self.now a ≡ true }
        ensures { result ≡ cell_of self.now a }
    {
        (a - self.base) / 8
    }

    /// Whether the address lies in the segment.
    #[inline]
    pub(crate) fn covers(&self, a: u64) -> bool
        ensures { result ≡ covers self.now a }
    {
        a.wrapping_sub(self.base) < self.size
    }

    /// Whether the place was taken.
    #[inline]
    pub(crate) fn is_taken(&self, a: u64) -> bool
        requires { covers self.now a ≡ true }
        ensures { result ≡ has_bit self.now.taken (cell_of self.now a) }
    {
        self.taken.has((a - self.base) / 8)
    }

    /// Whether it is marked.
    #[inline]
    pub(crate) fn is_marked(&self, a: u64) -> bool
        requires { covers self.now a ≡ true }
        ensures { result ≡ has_bit self.now.marked (cell_of self.now a) }
    {
        self.marked.has((a - self.base) / 8)
    }

    /// Whether it was scanned.
    #[inline]
    pub(crate) fn is_scanned(&self, a: u64) -> bool
        requires { covers self.now a ≡ true }
        ensures { result ≡ has_bit self.now.scanned (cell_of self.now a) }
    {
        self.scanned.has((a - self.base) / 8)
    }

    /// Its colour; but one that is black may be told as gray.
    #[inline(always)]
    pub(crate) fn colour_met(&self, a: u64) -> Colour
        requires { covers self.now a ≡ true }
        ensures white { is_white result ≡ is_white (cell_colour self.now a) }
        ensures outside { is_outside result ≡ is_outside (cell_colour self.now a) }
    {
        let cell = (a - self.base) / 8;
        if self.marked.holds(cell) {
            return Colour::Gray;
        }
        if self.scanned.holds(cell) {
            return Colour::Black;
        }
        if self.taken.holds(cell) {
            Colour::White
        } else {
            Colour::Outside
        }
    }

    /// A reference to `target` is met: where that is white it becomes gray. It answers how many became gray, and none
    /// where the target lies elsewhere or wasn't taken; nothing has changed then.
    #[inline(always)]
    pub(crate) fn meet(&mut self, target: u64) -> Option<u64>
        ensures near { IfSome result (λ _. IsNear self.old target) }
        ensures met { IfSome result (λ _. self.new ≡ met_near self.old target) }
        ensures found { IfSome result (λ n. n ≡ found_near self.old target) }
        ensures same { IfNone result (self.new ≡ self.old) }
    {
        if target == 0 {
            return Some(0);
        }
        if !self.covers(target) {
            return None;
        }
        match self.colour_met(target) {
            Colour::White => {
                self.set_bit(Bit::Marked, target);
                Some(1)
            }
            Colour::Outside => None,
            Colour::Gray | Colour::Black => Some(0),
        }
    }

    /// Whether its card is logged.
    #[inline]
    pub(crate) fn is_logged(&self, a: u64) -> bool
        requires { covers self.now a ≡ true }
        ensures { result ≡ has_bit self.now.logged (card_of self.now a) }
    {
        self.logged.has((a - self.base) / CARD)
    }

    /// The first gray place, one that is marked and wasn't scanned: it is scanned then.
    #[inline(always)]
    pub(crate) fn take_gray(&mut self) -> Option<u64>
        ensures taken { IfSome result (λ a. self.new ≡ with_scanned a self.old) }
        ensures same { IfNone result (self.new ≡ self.old) }
        ensures covered { IfSome result (λ a. covers self.old a ≡ true) }
        ensures aligned { IfSome result (λ a. a % 8 ≡ 0) }
        ensures gray { IfSome result (λ a. is_gray_cell self.old (cell_of self.old a) ≡ true) }
        ensures lowest { IfSome result (λ a. (n : ℕ) → n < cell_of self.old a → is_gray_cell self.old n ≡ false) }
        ensures none { IfNone result (HasNoGray self.old) }
    {
        let past = self.size / 512;
        match first_gray(&mut self.pending, &self.marked, &self.scanned, past) {
            Some(n) => {
                self.scanned.add(n);
                Some(self.base + 8 * n)
            }
            None => None,
        }
    }

    /// A marked place from `from` on. It passes over no marked place that is looked for.
    pub(crate) fn first_marked(&self, search: Search, from: u64) -> Option<u64>
        ensures covered { IfSome result (λ a. covers self.now a ≡ true) }
        ensures aligned { IfSome result (λ a. a % 8 ≡ 0) }
        ensures low { IfSome result (λ a. from / 8 ≤ a / 8) }
        ensures high { IfSome result (λ a. a < 2 ^ 63) }
        ensures marked { IfSome result (λ a. has_bit self.now.marked (cell_of self.now a) ≡ true) }
        ensures first { IfSome result (λ a. (b : ℕ) → covers self.now b ≡ true → from / 8 ≤ b / 8 → b / 8 < a / 8
            → has_bit self.now.marked (cell_of self.now b) ≡ true → PassesCell search self.now (cell_of self.now b)) }
        ensures none { IfNone result ((b : ℕ) → covers self.now b ≡ true → from / 8 ≤ b / 8
            → has_bit self.now.marked (cell_of self.now b) ≡ true → PassesCell search self.now (cell_of self.now b)) }
    {
        let start = from.saturating_sub(self.base) / 8;
        let n = self.first_cell(search, start)?;
        Some(self.base + 8 * n)
    }

    // The first marked one from a cell on, by the numbers of cells. It passes over none that is looked for.
    fn first_cell(&self, search: Search, start: u64) -> Option<u64>
        ensures low { IfSome result (λ n. start ≤ n) }
        ensures high { IfSome result (λ n. n < self.now.size / 8) }
        ensures marked { IfSome result (λ n. has_bit self.now.marked n ≡ true) }
        ensures first { IfSome result (λ n. (i : ℕ) → start ≤ i → i < n → has_bit self.now.marked i ≡ true
            → PassesCell search self.now i) }
        ensures none { IfNone result ((i : ℕ) → start ≤ i → i < self.now.size / 8 → has_bit self.now.marked i ≡ true
            → PassesCell search self.now i) }
    {
        match search {
            Search::Gray => self.first_gray_cell(start),
            Search::Logged => self.first_logged_cell(start),
        }
    }

    // The first gray one.
    fn first_gray_cell(&self, start: u64) -> Option<u64>
        ensures low { IfSome result (λ n. start ≤ n) }
        ensures high { IfSome result (λ n. n < self.now.size / 8) }
        ensures marked { IfSome result (λ n. has_bit self.now.marked n ≡ true) }
        ensures first { IfSome result (λ n. (i : ℕ) → start ≤ i → i < n → is_gray_cell self.now i ≡ false) }
        ensures none { IfNone result ((i : ℕ) → start ≤ i → i < self.now.size / 8 → is_gray_cell self.now i ≡ false) }
    {
        let low = self.pending.lowest().min(self.size / 512);
        match self
            .marked
            .first_beside(&self.scanned, start.max(64 * low), self.size / 8)
        {
            Some(n) => Some(n),
            None => None,
        }
    }

    // The last marked one before the next logged card, whose object may reach into it, or else the first one from that
    // card on. Where no card is logged any more, the end of the segment is taken for one.
    fn first_logged_cell(&self, start: u64) -> Option<u64>
        ensures low { IfSome result (λ n. start ≤ n) }
        ensures high { IfSome result (λ n. n < self.now.size / 8) }
        ensures marked { IfSome result (λ n. has_bit self.now.marked n ≡ true) }
        ensures first { IfSome result (λ n. (i : ℕ) → start ≤ i → i < n → has_bit self.now.marked i ≡ true
            → IsUnlogged self.now i) }
        ensures none { IfNone result ((i : ℕ) → start ≤ i → i < self.now.size / 8
            → has_bit self.now.marked i ≡ false) }
    {
        let edge = CARD_CELLS * self.next_logged(start / CARD_CELLS);
        match self.marked.last(start, edge) {
            Some(n) => Some(n),
            None => self.marked.first(start.max(edge), self.size / 8),
        }
    }

    // The number of the first logged card from one on, and how many cards there are where none is logged.
    fn next_logged(&self, card: u64) -> u64
        ensures high { result ≤ self.now.size / 2048 }
        ensures few { result < 2 ^ 52 }
        ensures clear { (k : ℕ) → card ≤ k → k < result → has_bit self.now.logged k ≡ false }
    {
        match self.logged.first(card, self.size / CARD) {
            Some(next) => next,
            None => self.size / CARD,
        }
    }

    /// Sets a bit of an address.
    pub(crate) fn set_bit(&mut self, bit: Bit, a: u64)
        requires { covers self.old a ≡ true }
        ensures { self.new ≡ with_set bit a self.old }
    {
        match bit {
            Bit::Taken => self.taken.add((a - self.base) / 8),
            Bit::Marked => {
                self.marked.add((a - self.base) / 8);
                self.pending.add((a - self.base) / 512);
            }
            Bit::Scanned => self.scanned.add((a - self.base) / 8),
            Bit::Logged => self.logged.add((a - self.base) / CARD),
        }
    }

    /// How many words the bits of the marked places are.
    #[inline]
    pub(crate) fn marked_words(&self) -> u64
        ensures { result ≡ self.now.size / 512 }
    {
        self.size / 512
    }

    /// The word of this number of the bits of the marked places, with the place of its lowest bit.
    #[inline]
    pub(crate) fn marked_word(&self, n: u64) -> (u64, u64)
        requires { n < self.now.size / 512 }
        ensures place { result.0 ≡ self.now.base + 512 * n }
        ensures bits { result.1 ≡ get_or self.now.marked n 0 }
    {
        (self.base + 512 * n, self.marked.word(n))
    }

    /// Whether all is marked that was taken in the 512 bytes of this number.
    #[inline(always)]
    pub(crate) fn is_found(&self, n: u64) -> bool
        ensures { result ≡ true ↔ ((c : ℕ) → 64 * n ≤ c → c < 64 * n + 64 → has_bit self.now.taken c ≡ true
            → has_bit self.now.marked c ≡ true) }
    {
        self.taken.is_within(&self.marked, n)
    }

    /// How many objects were taken in the 512 bytes of this number.
    #[inline(always)]
    pub(crate) fn taken_count(&self, n: u64) -> u64
        ensures { count_below self.now.taken (64 * n) + result ≡ count_below self.now.taken (64 * n + 64) }
    {
        self.taken.count_in(n)
    }

    /// Whether the place lies in the segment, and was taken.
    pub(crate) fn has_taken(&self, a: u64) -> bool
        ensures { result ≡ true
            ↔ ((covers self.now a ≡ true) × (has_bit self.now.taken (cell_of self.now a) ≡ true)) }
    {
        self.covers(a) && self.is_taken(a)
    }

    /// The last place that was taken in the first 512 bytes, so many times.
    pub(crate) fn last_taken(&self, words: u64) -> Option<u64>
        requires { words ≤ self.now.size / 512 }
        ensures taken { IfSome result (IsTakenIn self.now) }
        ensures low { IfSome result (λ a. cell_of self.now a < 64 * words) }
        ensures last { IfSome result (λ a. (c : ℕ) → cell_of self.now a < c → c < 64 * words
            → has_bit self.now.taken c ≡ false) }
        ensures none { IfNone result ((c : ℕ) → c < 64 * words → has_bit self.now.taken c ≡ false) }
    {
        let n = self.taken.last(0, 64 * words)?;
        Some(self.base + 8 * n)
    }
}

// The lowest number that is marked and wasn't scanned, below 64 times `past`. What is pending are words that may have
// some: those that are passed have none, and aren't pending any more.
#[inline(always)]
fn first_gray(pending: &mut Pending, marked: &Bits, scanned: &Bits, past: u64) -> Option<u64>
    requires room { past ≤ 64 * length pending.old.numbers }
    requires marked_room { past ≤ length marked.now }
    requires scanned_room { past ≤ length scanned.now }
    requires few { past < 2 ^ 57 }
    requires pending { (n : ℕ) → n < 64 * past → is_gray_number marked.now scanned.now n ≡ true
        → has_bit pending.old.numbers (n / 64) ≡ true }
    ensures length { length pending.new.numbers ≡ length pending.old.numbers }
    ensures pending { (n : ℕ) → n < 64 * past → is_gray_number marked.now scanned.now n ≡ true
        → has_bit pending.new.numbers (n / 64) ≡ true }
    ensures high { IfSome result (λ n. n < 64 * past) }
    ensures gray { IfSome result (λ n. is_gray_number marked.now scanned.now n ≡ true) }
    ensures lowest { IfSome result (λ n. (i : ℕ) → i < n → is_gray_number marked.now scanned.now i ≡ false) }
    ensures none { IfNone result ((i : ℕ) → i < 64 * past → is_gray_number marked.now scanned.now i ≡ false) }
{
    let mut k = pending.lowest();
    while k < past {
        if let Some(n) = marked.lowest_beside(scanned, k) {
            return Some(n);
        }
        k = pending.pass(past);
    }
    None
}
