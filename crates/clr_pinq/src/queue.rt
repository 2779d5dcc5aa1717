// The queue of saved words.
ghost use Rattle.std.specs.Prelude.{false, IfSome, Some, true};
ghost use Rattle.std.specs.Prelude.{◌≡◌, ◌≢◌, ℕ, ◌+◌, ◌-◌, ◌%◌, ◌<◌, ◌≤◌, ◌^◌, ◌⊎◌, ◌↔◌, ◌==◌, if◌then◌else◌, IsTrue};
ghost use Rattle.std.specs.Prelude.{[], ◌∷◌, ◌++◌, length, get_or, set, map, None, IsSome, IfOk, OnOk, OnErr, is_some};
ghost use Rattle.std.specs.Prelude.{nat_le};
ghost use Rattle.std.specs.Prelude.{vec_len, vec_capacity};
ghost use Rattle.clr_heap.specs.Memories.{HasWord, memory_index};
ghost use Rattle.clr_heap.specs.View.{SameShape, stored, word_of};
ghost use Rattle.clr_pinq.specs.Queue.{AreInOrder, AreRising, AreSavedFrom, ComesAfter, entry_with, entry_word};
ghost use Rattle.clr_pinq.specs.Queue.{IsPlain, last_end, logical, option_word, or_else, queue_with, queue_word};
ghost use Rattle.clr_pinq.specs.Bounds.{AreSavedHeld, CanPutBack, IsBracket, IsPlaceOf};

use crate::NoMemory;
use crate::entry::{PinEntry, Saved};
use clr_heap::Heap;
use std::alloc::Global;
use std::marker::Model;

/// Plugs by rising address, with the words that their information overwrites in live neighbours.
///
/// A word of the heap reads as the saved one where one is saved, and else as it stands. A read far from all saved words
/// costs two comparisons, and one among them a search by halves. A guess of the entry, as `near` gives it, spares the
/// search where it is right, or one too low: a walk by rising address takes it along. A wrong one changes no answer.
#[derive(Drop)]
pub struct PinQueue {
    entries: Vec<PinEntry>,
    low: u64,
    high: u64,
}

impl Model for PinQueue {
    ghost use Rattle.std.specs.Prelude.{◌-◌, vec_capacity, vec_len};
    ghost use Rattle.clr_pinq.specs.Queue.{QueueView};
    ghost use Rattle.clr_pinq.specs.Bounds.{IsQueue};

    ghost Value = { QueueView };

    ghost view = { λ q. record { entries = q.entries.items; spare = vec_capacity q.entries - vec_len q.entries } };

    ghost invariant = { λ q. IsQueue q.entries.items q.low q.high };
}

impl PinQueue {
    /// No entries. Takes no memory.
    pub fn new(alloc: Global) -> Result<PinQueue, NoMemory>
        ensures { IfOk result (λ q. q.entries ≡ []) }
    {
        Ok(PinQueue {
            entries: Vec::new(alloc),
            low: u64::MAX,
            high: 0,
        })
    }

    /// Takes memory, so that `n` more entries can be pushed. `NoMemory` comes only where there is no room for them and
    /// none is left. The entries stay in both cases.
    pub fn reserve(&mut self, n: usize) -> Result<(), NoMemory>
        ensures ok { OnOk result (n ≤ self.new.spare) }
        ensures err { OnErr result (self.old.spare < n) }
        ensures entries { self.new.entries ≡ self.old.entries }
        ensures spare { self.old.spare ≤ self.new.spare }
    {
        self.entries.reserve(n)?;
        Ok(())
    }

    /// Adds an entry above all others: what it saves lies between the end of the last entry and its own end. Takes no
    /// memory.
    pub fn push(&mut self, entry: PinEntry)
        requires room { 1 ≤ self.old.spare }
        requires above { ComesAfter (last_end 0 self.old.entries) entry }
        ensures entries { self.new.entries ≡ self.old.entries ++ entry ∷ [] }
        ensures spare { self.new.spare + 1 ≡ self.old.spare }
    {
        let (low, high) = widened(self.low, self.high, entry.pre);
        let (low, high) = widened(low, high, entry.post);
        push_within(&mut self.entries, entry);
        self.low = low;
        self.high = high;
    }

    /// How many entries there are.
    pub fn len(&self) -> usize
        ensures count { result ≡ length self.now.entries }
        ensures rising { AreRising 0 self.now.entries }
    {
        self.entries.len()
    }

    /// Entry `i`, counted from the lowest one.
    pub fn get(&self, i: usize) -> PinEntry
        requires { i < length self.now.entries }
        ensures { result ≡ get_or self.now.entries i result }
    {
        self.entries[i]
    }

    /// The guess for words at and near the address `a`, found from another one.
    #[inline]
    pub fn near(&self, guess: usize, a: u64) -> usize {
        if a < self.low || self.high <= a {
            return guess;
        }
        place_of(&self.entries, guess, a)
    }

    /// The logical word at the address `a`: the saved one, and the heap's own where none is saved.
    #[inline(always)]
    pub fn logical_word(&self, heap: &Heap, near: usize, a: u64) -> u64
        requires { HasWord heap.now.memories a }
        ensures { result ≡ logical self.now.entries (word_of heap.now) a }
    {
        if a < self.low || self.high <= a {
            return heap.word(a);
        }
        match saved_in(&self.entries, near, a) {
            Some(word) => word,
            None => heap.word(a),
        }
    }

    /// The logical word at the address `a` of segment `k`, faster than `logical_word`.
    #[inline(always)]
    pub fn logical_word_at(&self, heap: &Heap, k: usize, near: usize, a: u64) -> u64
        requires word { HasWord heap.now.memories a }
        requires segment { k ≡ memory_index heap.now.memories a }
        ensures { result ≡ logical self.now.entries (word_of heap.now) a }
    {
        if a < self.low || self.high <= a {
            return heap.word_at(k, a);
        }
        if let Some(word) = saved_in(&self.entries, near, a) {
            return word;
        }
        heap.word_at(k, a)
    }

    /// Writes the logical word at the address `a`: the saved one, and the heap's own where none is saved. All other
    /// logical words stay.
    pub fn set_logical_word(&mut self, heap: &mut Heap, near: usize, a: u64, v: u64)
        requires { HasWord heap.old.memories a }
        ensures words { (b : ℕ) → b % 8 ≡ 0 → logical self.new.entries (word_of heap.new) b
            ≡ (if b == a then v else logical self.old.entries (word_of heap.old) b) }
        ensures entries { self.new ≡ record self.old { entries = queue_with self.old.entries a v } }
        ensures heap { heap.new ≡ (if is_some (queue_word self.old.entries a) then heap.old else stored heap.old a v) }
    {
        if a < self.low || self.high <= a {
            heap.set_word(a, v);
            return;
        }
        if write_saved(&mut self.entries, near, a, v) {
            return;
        }
        heap.set_word(a, v);
    }

    /// Writes the logical word at the address `a` of segment `k`, faster than `set_logical_word`. All other logical
    /// words stay.
    #[inline(always)]
    pub fn set_logical_word_at(&mut self, heap: &mut Heap, k: usize, near: usize, a: u64, v: u64)
        requires word { HasWord heap.old.memories a }
        requires segment { k ≡ memory_index heap.old.memories a }
        ensures words { (b : ℕ) → b % 8 ≡ 0 → logical self.new.entries (word_of heap.new) b
            ≡ (if b == a then v else logical self.old.entries (word_of heap.old) b) }
        ensures entries { self.new ≡ record self.old { entries = queue_with self.old.entries a v } }
        ensures heap { heap.new ≡ (if is_some (queue_word self.old.entries a) then heap.old else stored heap.old a v) }
    {
        if a < self.low || self.high <= a {
            heap.set_word_at(k, a, v);
            return;
        }
        if write_saved(&mut self.entries, near, a, v) {
            return;
        }
        heap.set_word_at(k, a, v);
    }

    /// Whether it is sure that no word is saved for an address in `[from, to)`. It looks at the bounds of all that is
    /// saved alone, so it may say no where none is.
    #[inline(always)]
    pub fn is_plain(&self, from: u64, to: u64) -> bool
        ensures { result ≡ true → IsPlain self.now.entries from to }
    {
        to <= self.low || self.high <= from
    }

    /// The lowest address at or above `a` for which a word is saved, and `u64::MAX` where there is none. The heap's
    /// words from `a` up to it are the logical ones, so a walk reads them as they stand.
    pub fn next_saved(&self, near: usize, a: u64) -> u64
        ensures plain { IsPlain self.now.entries a result }
        ensures saved { (IsSome (queue_word self.now.entries result) × (a ≤ result)) ⊎ (result ≡ 2 ^ 64 - 1) }
    {
        if self.high <= a {
            return u64::MAX;
        }
        let mut i = place_of(&self.entries, near, a);
        while i < self.entries.len() {
            let next = next_in(self.entries[i], a);
            if next != u64::MAX {
                return next;
            }
            i += 1;
        }
        u64::MAX
    }

    /// The three words that are saved from the address `a` on, where those at the end of the guessed entry are: `None`
    /// tells nothing.
    #[inline]
    pub fn saved_from(&self, near: usize, a: u64) -> Option<Saved>
        ensures { IfSome result (λ saved. AreSavedFrom self.now.entries a saved) }
    {
        if near < self.entries.len() {
            return end_from(self.entries[near], a);
        }
        None
    }

    /// Takes all entries out, without writing what they save. Their memory is kept for later entries.
    pub fn clear(&mut self)
        ensures entries { self.new.entries ≡ [] }
        ensures spare { self.new.spare ≡ self.old.spare + length self.old.entries }
    {
        self.entries.clear();
        self.low = u64::MAX;
        self.high = 0;
    }

    /// Writes the saved words into the heap, so that each word of the heap is the logical one, and takes all entries
    /// out. Their memory is kept for later entries.
    pub fn put_back(&mut self, heap: &mut Heap)
        requires { AreSavedHeld heap.old self.old.entries }
        ensures words { (b : ℕ) → b % 8 ≡ 0 → word_of heap.new b ≡ logical self.old.entries (word_of heap.old) b }
        ensures shape { SameShape heap.old heap.new }
        ensures entries { self.new.entries ≡ [] }
        ensures spare { self.new.spare ≡ self.old.spare + length self.old.entries }
    {
        put_all(&mut self.entries, heap);
        self.low = u64::MAX;
        self.high = 0;
    }
}

fn push_within(entries: &mut Vec<PinEntry>, entry: PinEntry)
    requires { vec_len entries.old < vec_capacity entries.old }
    ensures items { entries.new.items ≡ entries.old.items ++ entry ∷ [] }
    ensures len { vec_len entries.new ≡ vec_len entries.old + 1 }
    ensures capacity { vec_capacity entries.new ≡ vec_capacity entries.old }
{
    entries.push_reserved(entry);
}

// The bounds of what is saved, with three words more.
fn widened(low: u64, high: u64, saved: Option<Saved>) -> (u64, u64)
    requires { IsPlaceOf saved }
    ensures low { result.0 ≤ low }
    ensures high { high ≤ result.1 }
    ensures holds { (a : ℕ) → IsSome (option_word saved a) → (result.0 ≤ a) × (a < result.1) }
{
    match saved {
        Some(saved) => (low.min(saved.at), high.max(saved.at + 24)),
        None => (low, high),
    }
}

// The number of entries that end at `a + 8` or below, none of which saves a word at or above `a`.
fn place_of(entries: &Vec<PinEntry>, near: usize, a: u64) -> usize
    requires { AreRising 0 entries.now.items }
    ensures count { result ≤ length entries.now.items }
    ensures below { (i : ℕ) (d : PinEntry) → i < result → (get_or entries.now.items i d).end ≤ a + 8 }
    ensures above { (i : ℕ) (d : PinEntry) → result ≤ i → i < length entries.now.items
        → a + 8 < (get_or entries.now.items i d).end }
{
    let (mut low, mut high) = around(entries, near, a);
    while low < high {
        let middle = low + (high - low) / 2;
        if is_below(entries[middle], a) {
            low = middle + 1;
        } else {
            high = middle;
        }
    }
    low
}

// Bounds of that number, which meet where the guess is right, or one too low.
fn around(entries: &Vec<PinEntry>, near: usize, a: u64) -> (usize, usize)
    requires { AreRising 0 entries.now.items }
    ensures { IsBracket entries.now.items a result.0 result.1 }
{
    let count = entries.len();
    if near > count {
        return (0, count);
    }
    if !are_below(entries, near, a) {
        return (0, near - 1);
    }
    if are_above(entries, near, a) {
        return (near, near);
    }
    if are_above(entries, near + 1, a) {
        return (near + 1, near + 1);
    }
    (near + 2, count)
}

// Whether the first `n` entries end at `a + 8` or below.
#[inline]
fn are_below(entries: &Vec<PinEntry>, n: usize, a: u64) -> bool
    requires rising { AreRising 0 entries.now.items }
    requires within { n ≤ length entries.now.items }
    ensures yes { result ≡ true → (i : ℕ) (d : PinEntry) → i < n → (get_or entries.now.items i d).end ≤ a + 8 }
    ensures no { result ≡ false → (1 ≤ n) × ((i : ℕ) (d : PinEntry) → n - 1 ≤ i → i < length entries.now.items
        → a + 8 < (get_or entries.now.items i d).end) }
{
    if n == 0 {
        return true;
    }
    is_below(entries[n - 1], a)
}

// Whether all entries from number `n` on end above that.
#[inline]
fn are_above(entries: &Vec<PinEntry>, n: usize, a: u64) -> bool
    requires rising { AreRising 0 entries.now.items }
    requires within { n ≤ length entries.now.items }
    ensures yes { result ≡ true → (i : ℕ) (d : PinEntry) → n ≤ i → i < length entries.now.items
        → a + 8 < (get_or entries.now.items i d).end }
    ensures no { result ≡ false → (n < length entries.now.items) × ((i : ℕ) (d : PinEntry) → i < n + 1
        → (get_or entries.now.items i d).end ≤ a + 8) }
{
    if n == entries.len() {
        return true;
    }
    !is_below(entries[n], a)
}

// Whether an entry ends at `a + 8` or below.
#[inline]
fn is_below(entry: PinEntry, a: u64) -> bool
    ensures { result ≡ nat_le entry.end (a + 8) }
{
    entry.end <= a || entry.end - a <= 8
}

// The word that is saved for `a`. Most often the guessed entry saves it, or is the one that would.
#[inline(always)]
fn saved_in(entries: &Vec<PinEntry>, near: usize, a: u64) -> Option<u64>
    requires { AreRising 0 entries.now.items }
    ensures { result ≡ queue_word entries.now.items a }
{
    if near < entries.len() {
        let word = entries[near].word(a);
        if word.is_some() {
            return word;
        }
        if is_place(entries, near, a) {
            return None;
        }
    }
    searched_in(entries, near, a)
}

// Whether entry `i` is the first that ends above `a + 8`, so that no other one saves a word for `a`.
#[inline]
fn is_place(entries: &Vec<PinEntry>, i: usize, a: u64) -> bool
    requires rising { AreRising 0 entries.now.items }
    requires within { i < length entries.now.items }
    ensures { result ≡ true → (d : PinEntry) → queue_word entries.now.items a
        ≡ entry_word (get_or entries.now.items i d) a }
{
    if !are_below(entries, i, a) {
        return false;
    }
    are_above(entries, i, a)
}

// The word that is saved for `a`, by a search.
#[inline(never)]
fn searched_in(entries: &Vec<PinEntry>, near: usize, a: u64) -> Option<u64>
    requires { AreRising 0 entries.now.items }
    ensures { result ≡ queue_word entries.now.items a }
{
    let i = place_of(entries, near, a);
    if i < entries.len() {
        entries[i].word(a)
    } else {
        None
    }
}

// Writes the word that is saved for `a`, and answers whether there is one. It stands apart, since it searches.
#[inline(never)]
fn write_saved(entries: &mut Vec<PinEntry>, near: usize, a: u64, v: u64) -> bool
    requires { AreRising 0 entries.old.items }
    ensures found { result ≡ is_some (queue_word entries.old.items a) }
    ensures items { entries.new.items ≡ queue_with entries.old.items a v }
    ensures len { vec_len entries.new ≡ vec_len entries.old }
    ensures capacity { vec_capacity entries.new ≡ vec_capacity entries.old }
{
    let i = place_of(entries, near, a);
    if i < entries.len() {
        let entry = entries[i];
        if entry.word(a).is_some() {
            entries[i] = entry.with(a, v);
            return true;
        }
    }
    false
}

// What the entry saves at its end, where that begins at `a`.
#[inline]
fn end_from(entry: PinEntry, a: u64) -> Option<Saved>
    ensures { IfSome result (λ saved. (entry.post ≡ Some saved) × (saved.at ≡ a)) }
{
    match entry.post {
        Some(saved) if saved.at == a => Some(saved),
        _ => None,
    }
}

// The lowest address at or above `a` for which the entry saves a word, and `u64::MAX` where there is none.
fn next_in(entry: PinEntry, a: u64) -> u64
    requires order { AreInOrder entry.pre entry.post }
    requires pre { IsPlaceOf entry.pre }
    requires post { IsPlaceOf entry.post }
    ensures plain { IsPlain (entry ∷ []) a result }
    ensures saved { (IsSome (entry_word entry result) × (a ≤ result)) ⊎ (result ≡ 2 ^ 64 - 1) }
{
    next_of(entry.pre, a).min(next_of(entry.post, a))
}

fn next_of(saved: Option<Saved>, a: u64) -> u64
    requires { IsPlaceOf saved }
    ensures plain { (b : ℕ) → a ≤ b → b < result → option_word saved b ≡ None }
    ensures saved { (IsSome (option_word saved result) × (a ≤ result)) ⊎ (result ≡ 2 ^ 64 - 1) }
{
    match saved {
        Some(saved) if a <= saved.at => saved.at,
        Some(saved) if a <= saved.at + 8 => saved.at + 8,
        Some(saved) if a <= saved.at + 16 => saved.at + 16,
        _ => u64::MAX,
    }
}

// Writes the saved words of all entries into the heap, from the last entry on, and takes the entries out.
fn put_all(entries: &mut Vec<PinEntry>, heap: &mut Heap)
    requires { AreSavedHeld heap.old entries.old.items }
    ensures words { (b : ℕ) → b % 8 ≡ 0 → word_of heap.new b ≡ logical entries.old.items (word_of heap.old) b }
    ensures shape { SameShape heap.old heap.new }
    ensures items { entries.new.items ≡ [] }
    ensures len { vec_len entries.new ≡ 0 }
    ensures capacity { vec_capacity entries.new ≡ vec_capacity entries.old }
{
    while let Some(entry) = entries.pop() {
        put(heap, entry.post);
        put(heap, entry.pre);
    }
}

// Writes three saved words into the heap.
fn put(heap: &mut Heap, saved: Option<Saved>)
    requires { CanPutBack heap.old saved }
    ensures words { (b : ℕ) → b % 8 ≡ 0 → word_of heap.new b ≡ or_else (option_word saved b) (word_of heap.old b) }
    ensures shape { SameShape heap.old heap.new }
{
    if let Some(saved) = saved {
        heap.set_word(saved.at, saved.w0);
        heap.set_word(saved.at + 8, saved.w1);
        heap.set_word(saved.at + 16, saved.w2);
    }
}
