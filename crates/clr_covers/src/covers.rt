// Covers: what they hold, how a unit is found, and how they come and go.
ghost use Rattle.std.specs.Prelude.{◌≡◌, ℕ, ◌+◌, ◌-◌, ◌^◌, ◌<◌, ◌≤◌, ◌↔◌, ◌&&◌, ◌||◌, IsTrue, true, [], length};
ghost use Rattle.std.specs.Prelude.{get_or, nat_le, nat_lt, slice_range, vec_len, if◌then◌else◌, ◌==◌};
ghost use Rattle.std.specs.Prelude.{IfOk, OnErr, OnOk};
ghost use Rattle.std.specs.List.{remove};
ghost use Rattle.clr_covers.specs.Covers.{AreApart, begins, cover_of, cover_with, has_unit, is_covered, IsAt, IsFree};
ghost use Rattle.clr_covers.specs.Covers.{past_last, same_values, share_cover, spans, value_at, with_cover};
ghost use Rattle.clr_covers.specs.Covers.{with_value, without_cover};

use clr_mem::NoMemory;
use std::alloc::{AllocError, Global};
use std::marker::Model;

// A stretch of units from `first` on, with a value each.
#[derive(Drop)]
struct Cover<T> {
    first: u64,
    values: Vec<T>,
}

impl<T> Model for Cover<T> {
    ghost use Rattle.clr_covers.specs.Covers.{cover_code, CoverView};

    ghost Value = { CoverView T };

    ghost coded = { cover_code T.code };

    ghost view = { λ c. record { first = c.first; values = c.values.items } };
}

/// Stretches of units, called covers, with a value for each unit. Clauses see them as a list, by rising number.
///
/// The calls on one unit take `near`, a guess of the number of its cover. Any guess serves, and the right one saves the
/// search.
#[derive(Drop)]
pub struct Covers<T> {
    alloc: Global,
    covers: Vec<Cover<T>>,
    // The number of the cover that was written or expected last.
    recent: usize,
}

impl<T> Model for Covers<T> {
    ghost use Rattle.std.specs.Prelude.{List};
    ghost use Rattle.std.specs.Coded.{coded_list};
    ghost use Rattle.clr_covers.specs.Covers.{AreApart, cover_code, CoverView};

    ghost Value = { List (CoverView T) };

    ghost coded = { coded_list (cover_code T.code) };

    ghost view = { λ c. c.covers.items };

    ghost invariant = { λ c. AreApart c.covers.items };
}

impl<T: Copy + Drop> Covers<T> {
    /// No covers. Takes no memory.
    pub fn new(alloc: Global) -> Covers<T>
        ensures { result ≡ [] }
    {
        Covers {
            alloc,
            covers: Vec::new(alloc),
            recent: 0,
        }
    }

    /// How many covers there are.
    pub fn len(&self) -> usize
        ensures count { result ≡ length self.now }
        ensures apart { AreApart self.now }
    {
        self.covers.len()
    }

    /// Whether there is none.
    pub fn is_empty(&self) -> bool
        ensures { IsTrue result ↔ (self.now ≡ []) }
    {
        self.covers.is_empty()
    }

    /// Covers the `count` units from `first` on, none of which is covered, and gives each of them the value `v`. All
    /// other units stay. `NoMemory` comes where there was no memory for them; nothing has changed then.
    pub fn add(&mut self, first: u64, count: usize, v: T) -> Result<(), NoMemory>
        requires some { 0 < count }
        requires fits { first + count < 2 ^ 53 }
        requires free { IsFree self.old first (first + count) }
        ensures ok { OnOk result (self.new ≡ with_cover (cover_of first (same_values v count)) self.old) }
        ensures covered { OnOk result ((i : ℕ) → is_covered self.new i
            ≡ (has_unit (cover_of first (same_values v count)) i || is_covered self.old i)) }
        ensures values { (i : ℕ) → value_at v self.new i ≡ value_at v self.old i }
        ensures err { OnErr result (self.new ≡ self.old) }
    {
        let values = values_of(self.alloc, v, count)?;
        put_in(&mut self.covers, Cover { first, values })
    }

    /// Ends the cover that begins with unit `first`. All other units stay.
    pub fn remove(&mut self, first: u64)
        requires { begins self.old first ≡ true }
        ensures value { self.new ≡ without_cover first self.old }
        ensures values { (d : _) (i : ℕ) → is_covered self.new i ≡ true
            → value_at d self.new i ≡ value_at d self.old i }
        ensures spans { (k : ℕ) → k < length self.old → (get_or (spans self.old) k (0, 0)).0 ≡ first
            → spans self.new ≡ remove (spans self.old) k }
    {
        take_out(&mut self.covers, first);
    }

    /// The number of the cover that was written or expected last, as a guess for the calls on one unit.
    #[inline]
    pub fn recent(&self) -> usize {
        self.recent
    }

    /// Makes the cover that has unit `i` the recent one, so that reads that follow there need no search. The one behind
    /// the recent cover is tried first. All units stay.
    pub fn expect(&mut self, i: u64)
        requires { is_covered self.old i ≡ true }
        ensures { self.new ≡ self.old }
    {
        if !is_in(&self.covers, self.recent, i) {
            self.recent = self.locate(self.recent.wrapping_add(1), i);
        }
    }

    /// The value of unit `i`.
    #[inline(always)]
    pub fn get(&self, near: usize, i: u64) -> T
        requires { is_covered self.now i ≡ true }
        ensures { (d : _) → result ≡ value_at d self.now i }
    {
        let k = self.locate(near, i);
        self.value(k, i)
    }

    /// Gives unit `i` the value `v`. All other units stay.
    #[inline]
    pub fn set(&mut self, near: usize, i: u64, v: T)
        requires { is_covered self.old i ≡ true }
        ensures value { self.new ≡ with_value self.old i v }
        ensures values { (d : _) (j : ℕ) → value_at d self.new j ≡ (if j == i then v else value_at d self.old j) }
        ensures spans { spans self.new ≡ spans self.old }
    {
        let k = self.locate(near, i);
        self.recent = k;
        set_value_in(&mut self.covers, k, i, v);
    }

    /// The number of the cover that has unit `i`.
    #[inline(always)]
    pub fn locate(&self, near: usize, i: u64) -> usize
        requires { is_covered self.now i ≡ true }
        ensures { IsAt self.now result i }
    {
        if is_in(&self.covers, near, i) {
            near
        } else {
            find(&self.covers, i)
        }
    }

    /// The value of unit `i`, which cover `k` has.
    #[inline(always)]
    pub fn value(&self, k: usize, i: u64) -> T
        requires { IsAt self.now k i }
        ensures { (d : _) → result ≡ value_at d self.now i }
    {
        value_in(&self.covers, k, i)
    }

    /// The first unit of cover `k`.
    pub fn first(&self, k: usize) -> u64
        requires { k < length self.now }
        ensures value { (d : _) → result ≡ (get_or self.now k d).first }
        ensures apart { AreApart self.now }
    {
        let cover = &self.covers[k];
        cover.first
    }

    /// The values of the units from `from` up to `past`, in order. One cover has them all.
    pub fn values(&self, near: usize, from: u64, past: u64) -> &[T]
        requires some { from < past }
        requires shared { share_cover self.now from (past - 1) ≡ true }
        ensures count { length result.now ≡ past - from }
        ensures values { (d : _) (i : ℕ) → from ≤ i → i < past
            → get_or result.now (i - from) d ≡ value_at d self.now i }
        ensures fits { past < 2 ^ 53 }
    {
        let k = self.locate(near, from);
        part_in(&self.covers, k, from, past)
    }

    /// Gives the units from `from` to below `past`, if there are any, the value `v`. One cover has them all. All other
    /// units stay.
    #[tactic(auto, using(crate::proofs::Filling::filled_nowhere))]
    pub fn fill(&mut self, near: usize, from: u64, past: u64, v: T)
        requires { from < past → share_cover self.old from (past - 1) ≡ true }
        ensures values { (d : _) (i : ℕ) → value_at d self.new i
            ≡ (if nat_le from i && nat_lt i past then v else value_at d self.old i) }
        ensures spans { spans self.new ≡ spans self.old }
    {
        if from < past {
            let k = self.locate(near, from);
            self.recent = k;
            fill_in(&mut self.covers, k, from, past, v);
        }
    }
}

// So many values, each of them `v`.
fn values_of<T: Copy + Drop>(alloc: Global, v: T, count: usize) -> Result<Vec<T>, AllocError>
    ensures items { IfOk result (λ values. values.items ≡ same_values v count) }
    ensures len { IfOk result (λ values. vec_len values ≡ count) }
{
    let mut values = Vec::with_capacity(alloc, count)?;
    for _ in 0..count {
        values.push_reserved(v);
    }
    Ok(values)
}

// Whether cover `k` is there, and has unit `i`.
#[inline(always)]
fn is_in<T: Copy + Drop>(covers: &Vec<Cover<T>>, k: usize, i: u64) -> bool
    ensures { result ≡ true → IsAt covers.now.items k i }
{
    match covers.get(k) {
        Some(cover) => cover.has(i),
        None => false,
    }
}

// Puts a cover where it belongs.
fn put_in<T: Copy + Drop>(covers: &mut Vec<Cover<T>>, cover: Cover<T>) -> Result<(), NoMemory>
    requires apart { AreApart covers.old.items }
    requires some { 0 < length cover.values }
    requires fits { past_last cover < 2 ^ 53 }
    requires free { IsFree covers.old.items cover.first (past_last cover) }
    ensures ok { OnOk result (covers.new.items ≡ with_cover cover covers.old.items) }
    ensures err { OnErr result (covers.new.items ≡ covers.old.items) }
    ensures apart { AreApart covers.new.items }
{
    let at = place_for(covers, cover.first);
    covers.insert(at, cover)?;
    Ok(())
}

// Takes out the cover that begins with unit `first`.
fn take_out<T: Copy + Drop>(covers: &mut Vec<Cover<T>>, first: u64)
    requires apart { AreApart covers.old.items }
    requires begins { begins covers.old.items first ≡ true }
    ensures value { covers.new.items ≡ without_cover first covers.old.items }
    ensures apart { AreApart covers.new.items }
{
    let k = find(covers, first);
    let _ = covers.remove(k);
}

// How many covers begin at `first` or below.
fn place_for<T: Copy + Drop>(covers: &Vec<Cover<T>>, first: u64) -> usize
    requires { AreApart covers.now.items }
    ensures in_range { result ≤ length covers.now.items }
    ensures before { (d : _) (j : ℕ) → j < result → (get_or covers.now.items j d).first ≤ first }
    ensures behind { (d : _) → result < length covers.now.items → first < (get_or covers.now.items result d).first }
{
    let mut at = covers.len();
    while at > 0 {
        let cover = &covers[at - 1];
        if cover.first <= first {
            break;
        }
        at -= 1;
    }
    at
}

// The value of unit `i`, which cover `k` has.
#[inline(always)]
fn value_in<T: Copy + Drop>(covers: &Vec<Cover<T>>, k: usize, i: u64) -> T
    requires at { IsAt covers.now.items k i }
    requires apart { AreApart covers.now.items }
    ensures { (d : _) → result ≡ value_at d covers.now.items i }
{
    let cover = &covers[k];
    cover.get(i)
}

// The values of the units from `from` up to `past`, which cover `k` has.
fn part_in<T: Copy + Drop>(covers: &Vec<Cover<T>>, k: usize, from: u64, past: u64) -> &[T]
    requires at { IsAt covers.now.items k from }
    requires some { from < past }
    requires shared { share_cover covers.now.items from (past - 1) ≡ true }
    requires apart { AreApart covers.now.items }
    ensures count { length result.now ≡ past - from }
    ensures values { (d : _) (i : ℕ) → from ≤ i → i < past
        → get_or result.now (i - from) d ≡ value_at d covers.now.items i }
    ensures fits { past < 2 ^ 53 }
{
    let cover = &covers[k];
    cover.part(from, past)
}

// Gives unit `i`, which cover `k` has, the value `v`.
#[inline]
fn set_value_in<T: Copy + Drop>(covers: &mut Vec<Cover<T>>, k: usize, i: u64, v: T)
    requires at { IsAt covers.old.items k i }
    requires apart { AreApart covers.old.items }
    ensures value { covers.new.items ≡ with_value covers.old.items i v }
    ensures apart { AreApart covers.new.items }
{
    let cover = &mut covers[k];
    cover.set(i, v);
}

// Gives the units from `from` to below `past`, which cover `k` has, the value `v`.
fn fill_in<T: Copy + Drop>(covers: &mut Vec<Cover<T>>, k: usize, from: u64, past: u64, v: T)
    requires at { IsAt covers.old.items k from }
    requires some { from < past }
    requires shared { share_cover covers.old.items from (past - 1) ≡ true }
    requires apart { AreApart covers.old.items }
    ensures values { (d : _) (i : ℕ) → value_at d covers.new.items i
        ≡ (if nat_le from i && nat_lt i past then v else value_at d covers.old.items i) }
    ensures spans { spans covers.new.items ≡ spans covers.old.items }
    ensures apart { AreApart covers.new.items }
{
    let cover = &mut covers[k];
    cover.fill(from, past, v);
}

// Gives the values at the places from `at` to below `end` the value `v`.
#[tactic(auto, using(crate::proofs::Filling::filled_more, crate::proofs::Filling::filled_nowhere))]
fn fill_part<T: Copy + Drop>(values: &mut Vec<T>, at: usize, end: usize, v: T)
    requires order { at ≤ end }
    requires within { end ≤ length values.old.items }
    ensures count { length values.new.items ≡ length values.old.items }
    ensures values { (d : _) (i : ℕ) → get_or values.new.items i d
        ≡ (if nat_le at i && nat_lt i end then v else get_or values.old.items i d) }
{
    for i in at..end {
        values[i] = v;
    }
}

// The number of the cover that has unit `i`. It isn't inlined, since guesses are mostly right.
#[cold]
#[inline(never)]
fn find<T: Copy + Drop>(covers: &Vec<Cover<T>>, i: u64) -> usize
    requires covered { is_covered covers.now.items i ≡ true }
    requires apart { AreApart covers.now.items }
    ensures { IsAt covers.now.items result i }
{
    let mut low = 0;
    let mut high = covers.len();
    while low + 1 < high {
        let middle = low + (high - low) / 2;
        let cover = &covers[middle];
        if cover.first <= i {
            low = middle;
        } else {
            high = middle;
        }
    }
    low
}

impl<T: Copy + Drop> Cover<T> {
    // Whether unit `i` belongs to the cover.
    #[inline]
    fn has(&self, i: u64) -> bool
        ensures { result ≡ has_unit self.now i }
    {
        self.first <= i && i - self.first < self.values.len() as u64
    }

    // The value of unit `i`.
    #[inline(always)]
    fn get(&self, i: u64) -> T
        requires { has_unit self.now i ≡ true }
        ensures { (d : _) → result ≡ get_or self.now.values (i - self.now.first) d }
    {
        self.values[(i - self.first) as usize]
    }

    // The values of the units from `from` up to `past`.
    fn part(&self, from: u64, past: u64) -> &[T]
        requires first { self.now.first ≤ from }
        requires order { from ≤ past }
        requires last { past ≤ past_last self.now }
        ensures { result.now ≡ slice_range self.now.values (from - self.now.first) (past - self.now.first) }
    {
        &self.values[(from - self.first) as usize..(past - self.first) as usize]
    }

    // Gives unit `i` the value `v`.
    #[inline]
    fn set(&mut self, i: u64, v: T)
        requires { has_unit self.old i ≡ true }
        ensures { self.new ≡ cover_with self.old i v }
    {
        let at = (i - self.first) as usize;
        self.values[at] = v;
    }

    // Gives the units from `from` to below `past` the value `v`.
    fn fill(&mut self, from: u64, past: u64, v: T)
        requires first { self.old.first ≤ from }
        requires order { from ≤ past }
        requires last { past ≤ past_last self.old }
        ensures first { self.new.first ≡ self.old.first }
        ensures count { length self.new.values ≡ length self.old.values }
        ensures values { (d : _) (i : ℕ) → get_or self.new.values i d
            ≡ (if nat_le from (self.old.first + i) && nat_lt (self.old.first + i) past then v
            else get_or self.old.values i d) }
    {
        let at = (from - self.first) as usize;
        let end = (past - self.first) as usize;
        fill_part(&mut self.values, at, end, v);
    }
}
