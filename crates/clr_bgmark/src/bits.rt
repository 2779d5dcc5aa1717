// Sets of numbers.
ghost use Rattle.std.specs.Int.{bit_at};
ghost use Rattle.std.specs.Prelude.{◌≡◌, ◌⊎◌, ℕ, ◌*◌, ◌/◌, ◌%◌, ◌<◌, ◌≤◌, ◌^◌, ◌&&◌, not, true, false, length, get_or};
ghost use Rattle.std.specs.Prelude.{IfNone, IfOk, IfSome, nat_eq, [], ◌↔◌};
ghost use Rattle.clr_bgmark.specs.Bits.{count_below, has_bit, with_bit};
ghost use Rattle.std.specs.Prelude.{◌+◌, count_ones};

use std::alloc::{AllocError, Global};
use std::marker::Model;

/// A set of numbers below a bound, with a bit for each.
#[derive(Drop)]
pub(crate) struct Bits {
    words: Vec<u64>,
}

impl Model for Bits {
    ghost use Rattle.std.specs.Prelude.{List, ℕ};

    ghost Value = { List ℕ };

    ghost view = { λ b. b.words.items };
}

impl Bits {
    /// No number, with room for those below `count`.
    pub(crate) fn new(alloc: Global, count: u64) -> Result<Bits, AllocError>
        ensures room { IfOk result (λ b. count ≤ 64 * length b) }
        ensures length { IfOk result (λ b. length b ≡ count / 64 + 1) }
        ensures none { IfOk result (λ b. (n : ℕ) → has_bit b n ≡ false) }
    {
        let words = vec![in alloc; 0; (count / 64 + 1) as usize]?;
        Ok(Bits { words })
    }

    /// No number, and room for none. Takes no memory.
    pub(crate) fn none(alloc: Global) -> Bits
        ensures { result ≡ [] }
    {
        Bits {
            words: Vec::new(alloc),
        }
    }

    /// Whether a number is in the set.
    #[inline]
    pub(crate) fn has(&self, n: u64) -> bool
        ensures { result ≡ has_bit self.now n }
    {
        match self.words.get((n / 64) as usize) {
            Some(word) => (word >> (n % 64)) & 1 == 1,
            None => false,
        }
    }

    /// The first number from `from` on, below `past`, that is in this set and not in the other.
    pub(crate) fn first_beside(&self, other: &Bits, from: u64, past: u64) -> Option<u64>
        requires { past < 2 ^ 62 }
        ensures low { IfSome result (λ n. from ≤ n) }
        ensures high { IfSome result (λ n. n < past) }
        ensures here { IfSome result (λ n. has_bit self.now n ≡ true) }
        ensures not_there { IfSome result (λ n. has_bit other.now n ≡ false) }
        ensures first { IfSome result (λ n. (i : ℕ) → from ≤ i → i < n
            → (has_bit self.now i && not (has_bit other.now i)) ≡ false) }
        ensures none { IfNone result ((n : ℕ) → from ≤ n → n < past
            → (has_bit self.now n && not (has_bit other.now n)) ≡ false) }
    {
        let mut n = from;
        while n < past {
            if let Some(m) = first_in(beside(self.word(n / 64), other.word(n / 64)), n) {
                return if m < past { Some(m) } else { None };
            }
            n = (n / 64 + 1) * 64;
        }
        None
    }

    /// The first number from `from` on, below `past`, that is in the set.
    pub(crate) fn first(&self, from: u64, past: u64) -> Option<u64>
        requires { past < 2 ^ 63 }
        ensures low { IfSome result (λ n. from ≤ n) }
        ensures high { IfSome result (λ n. n < past) }
        ensures here { IfSome result (λ n. has_bit self.now n ≡ true) }
        ensures first { IfSome result (λ n. (i : ℕ) → from ≤ i → i < n → has_bit self.now i ≡ false) }
        ensures none { IfNone result ((i : ℕ) → from ≤ i → i < past → has_bit self.now i ≡ false) }
    {
        let mut n = from;
        while n < past {
            if let Some(m) = first_in(self.word(n / 64), n) {
                return if m < past { Some(m) } else { None };
            }
            n = (n / 64 + 1) * 64;
        }
        None
    }

    /// The last number from `from` on, below `before`, that is in the set.
    pub(crate) fn last(&self, from: u64, before: u64) -> Option<u64>
        requires { before < 2 ^ 62 }
        ensures low { IfSome result (λ n. from ≤ n) }
        ensures high { IfSome result (λ n. n < before) }
        ensures here { IfSome result (λ n. has_bit self.now n ≡ true) }
        ensures last { IfSome result (λ n. (i : ℕ) → n < i → i < before → has_bit self.now i ≡ false) }
        ensures none { IfNone result ((i : ℕ) → from ≤ i → i < before → has_bit self.now i ≡ false) }
    {
        let mut end = before;
        while from < end {
            if let Some(m) = last_in(self.word((end - 1) / 64), end - 1) {
                return if from <= m { Some(m) } else { None };
            }
            end = (end - 1) / 64 * 64;
        }
        None
    }

    /// The word of this number, and 0 where there is none.
    #[inline]
    pub(crate) fn word(&self, k: u64) -> u64
        ensures { result ≡ get_or self.now k 0 }
    {
        match self.words.get(k as usize) {
            Some(word) => *word,
            None => 0,
        }
    }

    /// Puts a number in, for which there is room.
    #[inline]
    pub(crate) fn add(&mut self, n: u64)
        requires room { n < 64 * length self.old }
        ensures value { self.new ≡ with_bit self.old n }
    {
        let k = (n / 64) as usize;
        self.words[k] |= 1 << (n % 64);
    }

    /// Takes a number out, for which there is room.
    #[inline]
    pub(crate) fn remove(&mut self, n: u64)
        requires room { n < 64 * length self.old }
        ensures length { length self.new ≡ length self.old }
        ensures bits { (i : ℕ) → has_bit self.new i ≡ (not (nat_eq i n) && has_bit self.old i) }
    {
        let k = (n / 64) as usize;
        self.words[k] &= !(1 << (n % 64));
    }

    /// The lowest of the 64 numbers from 64 times this one on that is in this set and not in the other.
    #[inline(always)]
    pub(crate) fn lowest_beside(&self, other: &Bits, k: u64) -> Option<u64>
        requires room { k < length self.now }
        requires other_room { k < length other.now }
        requires few { k < 2 ^ 57 }
        ensures low { IfSome result (λ n. 64 * k ≤ n) }
        ensures high { IfSome result (λ n. n < 64 * k + 64) }
        ensures here { IfSome result (λ n. has_bit self.now n ≡ true) }
        ensures not_there { IfSome result (λ n. has_bit other.now n ≡ false) }
        ensures first { IfSome result (λ n. (i : ℕ) → 64 * k ≤ i → i < n
            → (has_bit self.now i && not (has_bit other.now i)) ≡ false) }
        ensures none { IfNone result ((n : ℕ) → 64 * k ≤ n → n < 64 * k + 64
            → (has_bit self.now n && not (has_bit other.now n)) ≡ false) }
    {
        first_in(
            beside(self.words[k as usize], other.words[k as usize]),
            64 * k,
        )
    }

    /// Whether all of the 64 numbers from 64 times this one on that are in this set are in the other, too.
    #[inline(always)]
    pub(crate) fn is_within(&self, other: &Bits, k: u64) -> bool
        ensures { result ≡ true ↔ ((n : ℕ) → 64 * k ≤ n → n < 64 * k + 64 → has_bit self.now n ≡ true
            → has_bit other.now n ≡ true) }
    {
        beside(self.word(k), other.word(k)) == 0
    }

    /// How many of these 64 numbers are in the set.
    #[inline(always)]
    pub(crate) fn count_in(&self, k: u64) -> u64
        ensures { count_below self.now (64 * k) + result ≡ count_below self.now (64 * k + 64) }
    {
        ones_of(self.word(k))
    }

    /// Whether a number, for which there is room, is in the set.
    #[inline(always)]
    pub(crate) fn holds(&self, n: u64) -> bool
        requires room { n < 64 * length self.now }
        ensures { result ≡ has_bit self.now n }
    {
        let word = self.words[(n / 64) as usize];
        (word >> (n % 64)) & 1 == 1
    }
}

// The first number from `n` on that is among the 64 numbers of its word, and in the word.
#[inline]
fn first_in(word: u64, n: u64) -> Option<u64>
    requires { n < 2 ^ 63 }
    ensures low { IfSome result (λ m. n ≤ m) }
    ensures near { IfSome result (λ m. m / 64 ≡ n / 64) }
    ensures here { IfSome result (λ m. bit_at word (m % 64) ≡ 1) }
    ensures first { IfSome result (λ m. (i : ℕ) → n ≤ i → i < m → bit_at word (i % 64) ≡ 0) }
    ensures none { IfNone result ((i : ℕ) → n ≤ i → i / 64 ≡ n / 64 → bit_at word (i % 64) ≡ 0) }
{
    let rest = word >> (n % 64);
    if rest == 0 {
        return None;
    }
    Some(n + rest.trailing_zeros() as u64)
}

// The last number up to `n` that is among the 64 numbers of its word, and in the word.
#[inline]
fn last_in(word: u64, n: u64) -> Option<u64>
    ensures high { IfSome result (λ m. m ≤ n) }
    ensures near { IfSome result (λ m. m / 64 ≡ n / 64) }
    ensures here { IfSome result (λ m. bit_at word (m % 64) ≡ 1) }
    ensures last { IfSome result (λ m. (i : ℕ) → m < i → i ≤ n → bit_at word (i % 64) ≡ 0) }
    ensures none { IfNone result ((i : ℕ) → i ≤ n → i / 64 ≡ n / 64 → bit_at word (i % 64) ≡ 0) }
{
    if word == 0 {
        return None;
    }
    let rest = word << (63 - n % 64);
    if rest == 0 {
        return None;
    }
    Some(n - rest.leading_zeros() as u64)
}

// How many bits a word has.
#[inline(always)]
fn ones_of(word: u64) -> u64
    ensures { result ≡ count_ones (word % 2 ^ 64) }
{
    word.count_ones() as u64
}

// The bits of a word that aren't in the other.
#[inline]
fn beside(one: u64, other: u64) -> u64
    ensures has { (i : ℕ) → i < 64 → bit_at result i ≡ 1 → (bit_at one i ≡ 1) × (bit_at other i ≡ 0) }
    ensures lacks { (i : ℕ) → i < 64 → bit_at result i ≡ 0 → (bit_at one i ≡ 0) ⊎ (bit_at other i ≡ 1) }
{
    one & !other
}
