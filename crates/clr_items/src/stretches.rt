// Stretches of a list of free items: a few that follow each other, with a size that none of them exceeds.
ghost use Rattle.std.specs.Prelude.{◌≡◌, ℕ, ◌+◌, ◌-◌, ◌<◌, ◌≤◌, ◌^◌, ◌++◌, [], ◌∷◌, ◌==◌, if◌then◌else◌};
ghost use Rattle.std.specs.Prelude.{drop, find, IfSome, length, List, take, true, false};
ghost use Rattle.std.specs.List.{AllByRecursion};
ghost use Rattle.clr_types.specs.Rising.{insert_by, IsIn, IsRisingBy};
ghost use Rattle.clr_types.specs.Ranges.{fits, Piece};
ghost use Rattle.clr_model.specs.Allocation.{taken_from};
ghost use Rattle.clr_items.specs.Items.{lower_count};
ghost use Rattle.clr_items.specs.Stretches.{HaveAtMost};

use crate::items::fits_in;
use clr_types::Span;
use std::alloc::Global;
use std::marker::Model;

// How many items a stretch has when the next one begins behind it. One that gets more than twice as many is split.
const USUAL: usize = 128;

/// A few free items that follow each other. Clauses see them as the list. No item has more bytes than `most`.
#[derive(Drop)]
pub(crate) struct Stretch {
    items: Vec<Span>,
    most: u64,
}

impl Model for Stretch {
    ghost Value = { List Piece };

    ghost view = { λ s. s.items.items };

    ghost invariant = { λ s. HaveAtMost s.most s.items.items };
}

impl Stretch {
    // A stretch of one item, with memory for as many as are usual: `None` where there is none.
    #[inline(never)]
    pub(crate) fn of(alloc: Global, item: Span) -> Option<Stretch>
        ensures { IfSome result (λ s. s ≡ item ∷ []) }
    {
        let Ok(mut items) = Vec::with_capacity(alloc, USUAL) else {
            return None;
        };
        if items.push(item).is_err() {
            return None;
        }
        Some(Stretch {
            items,
            most: item.size(),
        })
    }

    // Whether it has fewer items than are usual.
    #[inline(always)]
    pub(crate) fn has_room(&self) -> bool {
        self.items.len() < USUAL
    }

    // Whether it has to be split.
    pub(crate) fn is_long(&self) -> bool
        ensures { result ≡ true → 256 < length self.now }
    {
        self.items.len() > 2 * USUAL
    }

    // Whether it has no items.
    pub(crate) fn is_empty(&self) -> bool
        ensures { result ≡ (length self.now == 0) }
    {
        self.items.is_empty()
    }

    // Whether all items stand below a place.
    #[inline]
    pub(crate) fn is_below(&self, place: u64) -> bool
        requires filled { 0 < length self.now }
        requires rising { IsRisingBy (λ p. p.place) self.now }
        ensures below { result ≡ true → AllByRecursion (λ (p : Piece). p.place < place) self.now }
        ensures reached { result ≡ false → lower_count place self.now < length self.now }
    {
        self.items[self.items.len() - 1].place() < place
    }

    // The first item in which a size fits: `None` where it fits in none.
    #[inline(always)]
    pub(crate) fn first_in(&self, size: u64) -> Option<Span>
        requires { size < 2 ^ 62 }
        ensures { result ≡ find (λ p. fits size p.size) self.now }
    {
        if size > self.most {
            return None;
        }
        first_of(self.items.as_slice(), size)
    }

    // Puts an item behind all others: `false` where there is no memory for it.
    #[inline(always)]
    pub(crate) fn push(&mut self, item: Span) -> bool
        ensures { self.new ≡ (if result then self.old ++ item ∷ [] else self.old) }
    {
        if self.items.push(item).is_err() {
            return false;
        }
        self.most = self.most.max(item.size());
        true
    }

    // Puts an item in before those that do not stand below it: `false` where there is no memory for it.
    pub(crate) fn put(&mut self, item: Span) -> bool
        requires { IsRisingBy (λ p. p.place) self.old }
        ensures { self.new ≡ (if result then insert_by (λ p. p.place) item self.old else self.old) }
    {
        let at = count_below(self.items.as_slice(), item.place());
        if self.items.insert(at, item).is_err() {
            return false;
        }
        self.most = self.most.max(item.size());
        true
    }

    // Takes `taken` bytes from the front of one of the items. What is left of it stays.
    pub(crate) fn take_front(&mut self, item: Span, taken: u64)
        requires rising { IsRisingBy (λ p. p.place) self.old }
        requires listed { IsIn item self.old }
        requires within { taken ≤ item.size }
        ensures { self.new ≡ taken_from item.place taken self.old }
    {
        take_from(&mut self.items, item, taken);
        self.most = most_after(self.items.as_slice(), self.most, item.size());
    }

    // The items behind the usual ones as a stretch of their own: `None` where there is no memory for it.
    pub(crate) fn upper(&self, alloc: Global) -> Option<Stretch>
        requires { 128 ≤ length self.now }
        ensures { IfSome result (λ s. s ≡ drop 128 self.now) }
    {
        let Ok(items) = Vec::from_slice(alloc, &self.items[USUAL..]) else {
            return None;
        };
        Some(Stretch {
            items,
            most: self.most,
        })
    }

    // Forgets the items behind the usual ones.
    pub(crate) fn cut(&mut self)
        ensures { self.new ≡ take 128 self.old }
    {
        self.items.truncate(USUAL);
    }
}

// The first item of a slice in which a size fits.
fn first_of(items: &[Span], size: u64) -> Option<Span>
    requires { size < 2 ^ 62 }
    ensures { result ≡ find (λ p. fits size p.size) items.now }
{
    for item in items {
        if fits_in(size, item.size()) {
            return Some(*item);
        }
    }
    None
}

// How many items stand below a place.
fn count_below(items: &[Span], place: u64) -> usize
    requires { IsRisingBy (λ p. p.place) items.now }
    ensures { result ≡ lower_count place items.now }
{
    let mut low = 0;
    let mut high = items.len();
    while low < high {
        let middle = low + (high - low) / 2;
        if items[middle].place() < place {
            low = middle + 1;
        } else {
            high = middle;
        }
    }
    low
}

// Takes `taken` bytes from the front of one of the items. What is left of it stays.
fn take_from(items: &mut Vec<Span>, item: Span, taken: u64)
    requires rising { IsRisingBy (λ p. p.place) items.old.items }
    requires listed { IsIn item items.old.items }
    requires within { taken ≤ item.size }
    ensures { items.new.items ≡ taken_from item.place taken items.old.items }
{
    let at = count_below(items.as_slice(), item.place());
    if taken == item.size() {
        let _ = items.remove(at);
    } else {
        items[at] = Span::between(item.place() + taken, item.end());
    }
}

// A size that none of the items exceeds: `bound` is one, but one of `size` bytes is gone or became smaller.
fn most_after(items: &[Span], bound: u64, size: u64) -> u64
    ensures { HaveAtMost bound items.now → HaveAtMost result items.now }
{
    if size < bound {
        bound
    } else {
        most_in(items, bound)
    }
}

// The greatest size of these, or `bound` where one has as much.
fn most_in(items: &[Span], bound: u64) -> u64
    ensures { HaveAtMost bound items.now → HaveAtMost result items.now }
{
    let mut most = 0;
    for item in items {
        if item.size() >= bound {
            return bound;
        }
        most = most.max(item.size());
    }
    most
}
