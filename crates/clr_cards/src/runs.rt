// The stretches of addresses whose cards are set.
ghost use Rattle.std.specs.Prelude.{◌≡◌, ◌+◌, ◌<◌, ◌≤◌, ◌^◌, true, length, slice_index, None};
ghost use Rattle.clr_cards.specs.Runs.{AreClear, AreSet, end_at, runs_in};

use crate::cards::CARD;
use clr_nums::Grid;
use std::marker::Model;

/// The stretches of set cards that are left, each as its first address and one past its last, by rising address.
/// Clauses see them as a list.
#[derive(Drop)]
pub struct Runs<'a> {
    cards: &'a [u8],
    at: usize,
    first: u64,
    lo: u64,
    hi: u64,
}

impl<'a> Model for Runs<'a> {
    ghost use Rattle.std.specs.Prelude.{◌+◌, ℕ, List, None, drop};
    ghost use Rattle.clr_cards.specs.Runs.{IsScan, runs_in};

    ghost Value = { List (ℕ × ℕ) };

    ghost view = { λ r. runs_in r.lo r.hi None (r.first + r.at) (drop r.at r.cards.now) };

    ghost invariant = { λ r. IsScan r.cards.now r.at r.first };
}

impl<'a> Runs<'a> {
    // The stretches inside `[lo, hi)` of these cards, the first of which has the number `first`.
    pub(crate) fn new(cards: &'a [u8], first: u64, lo: u64, hi: u64) -> Runs<'a>
        requires { first + length cards.now < 2 ^ 53 }
        ensures { result ≡ runs_in lo hi None first cards.entry.now }
    {
        Runs {
            cards,
            at: 0,
            first,
            lo,
            hi,
        }
    }
}

impl<'a> Iterator for Runs<'a> {
    ghost use Rattle.std.specs.Iterator.{item_count, YieldsFirst};

    type Item = (u64, u64);

    ghost next_gives = { YieldsFirst (λ runs. runs) };

    ghost remaining = { item_count (λ runs. runs) };

    fn next(&mut self) -> Option<(u64, u64)> {
        let from = first_set(self.cards, self.at);
        if from == self.cards.len() {
            self.at = from;
            return None;
        }
        let to = first_clear(self.cards, from + 1);
        self.at = to;
        let start = self.lo.max(Grid::<CARD>::first(self.first + from as u64));
        let end = end_of(self.cards, self.first, to, self.hi);
        Some((start, end))
    }
}

// Where a stretch ends that has the cards up to `to`: with them, or at `hi` where they are the last ones.
fn end_of(cards: &[u8], first: u64, to: usize, hi: u64) -> u64
    requires within { to ≤ length cards.now }
    requires fits { first + length cards.now < 2 ^ 53 }
    ensures { result ≡ end_at cards.now first hi to }
{
    if to == cards.len() {
        hi
    } else {
        Grid::<CARD>::first(first + to as u64)
    }
}

// The first set card from `from` on, and the count of cards where there is none.
fn first_set(cards: &[u8], from: usize) -> usize
    requires { from ≤ length cards.now }
    ensures from { from ≤ result }
    ensures within { result ≤ length cards.now }
    ensures clear { AreClear cards.now from result }
    ensures set { result < length cards.now → 0 < slice_index cards.now result }
{
    let mut at = past_clear_words(cards, from);
    while at < cards.len() && cards[at] == 0 {
        at += 1;
    }
    at
}

// Passes over clear cards from `from` on, eight at a time.
fn past_clear_words(cards: &[u8], from: usize) -> usize
    requires { from ≤ length cards.now }
    ensures from { from ≤ result }
    ensures within { result ≤ length cards.now }
    ensures clear { AreClear cards.now from result }
{
    let mut at = from;
    while cards.len() - at >= 8 && are_clear(cards, at) {
        at += 8;
    }
    at
}

// Whether the eight cards from `at` on are clear.
#[inline]
fn are_clear(cards: &[u8], at: usize) -> bool
    requires { at + 8 ≤ length cards.now }
    ensures { result ≡ true → AreClear cards.now at (at + 8) }
{
    let word = u64::from_le_bytes([
        cards[at],
        cards[at + 1],
        cards[at + 2],
        cards[at + 3],
        cards[at + 4],
        cards[at + 5],
        cards[at + 6],
        cards[at + 7],
    ]);
    word == 0
}

// The first clear card from `from` on, and the count of cards where there is none.
fn first_clear(cards: &[u8], from: usize) -> usize
    requires { from ≤ length cards.now }
    ensures from { from ≤ result }
    ensures within { result ≤ length cards.now }
    ensures set { AreSet cards.now from result }
    ensures clear { result < length cards.now → slice_index cards.now result ≡ 0 }
{
    let mut at = from;
    while at < cards.len() && cards[at] != 0 {
        at += 1;
    }
    at
}
