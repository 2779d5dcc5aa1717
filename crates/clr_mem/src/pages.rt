// Zero words in pages that take memory as they are written.
ghost use Rattle.std.specs.Prelude.{◌≡◌, ℕ, ◌+◌, ◌*◌, ◌%◌, ◌<◌, ◌≤◌, false, true, length, set, get_or, IfOk};
ghost use Rattle.std.specs.Prelude.{◌^◌, ◌++◌, ◌-◌, Some, drop, replicate, take};
ghost use Rattle.std.specs.Vec.{vec_capacity};
ghost use Rattle.clr_mem.specs.Paged as paged;
ghost use Rattle.clr_mem.specs.Paged.{IsPaged, paged_words};
ghost use Rattle.clr_mem.specs.Words.{is_between, overwrite, part, zeros};

use crate::bytes::is_number_between;
use std::alloc::{AllocError, Global};
use std::marker::Model;

// How many words a page has: 4 KiB.
const PAGE: usize = 512;

/// Words that are 0 until they are written. Those pages are stored in which a word was written, one behind another, and
/// the others take no memory. The room for all is reserved when they are made, so no write can fail. Clauses see the
/// list of all.
#[derive(Drop)]
pub struct PagedWords {
    // Of each page up to the last one that is stored, one more than its number among the stored pages, and 0 where it
    // isn't stored.
    numbers: Vec<usize>,
    // The words of the pages that are stored.
    stored: Vec<u64>,
    len: usize,
}

impl Model for PagedWords {
    ghost use Rattle.std.specs.Prelude.{ℕ, List, length};
    ghost use Rattle.std.specs.Coded.{coded_list, coded_ℕ};
    ghost use Rattle.std.specs.Vec.{vec_capacity};
    ghost use Rattle.clr_mem.specs.Paged.{IsPaged, paged_words};

    ghost Value = { List ℕ };

    ghost coded = { coded_list coded_ℕ };

    ghost view = { λ p. paged_words p.len p.numbers.items p.stored.items };

    ghost invariant = { λ p. IsPaged p.len p.numbers.items (length p.stored.items) (vec_capacity p.numbers)
        (vec_capacity p.stored) };
}

impl PagedWords {
    // `len` zero words.
    pub fn new(alloc: Global, len: usize) -> Result<PagedWords, AllocError>
        requires { len % 512 ≡ 0 }
        ensures { IfOk result (λ p. p ≡ zeros len) }
    {
        let numbers = Vec::with_capacity(alloc, len / PAGE)?;
        let stored = Vec::with_capacity(alloc, len)?;
        Ok(PagedWords {
            numbers,
            stored,
            len,
        })
    }

    // How many words.
    pub fn len(&self) -> usize
        ensures { result ≡ length self.now }
    {
        self.len
    }

    // The word of this number.
    pub fn word(&self, i: usize) -> u64
        ensures { result ≡ get_or self.now i 0 }
    {
        if self.len <= i {
            return 0;
        }
        match page_begin(&self.numbers, i / PAGE) {
            Some(begin) => self.stored[begin + i % PAGE],
            None => 0,
        }
    }

    // Writes a word.
    pub fn set_word(&mut self, i: usize, v: u64)
        requires { i < length self.old }
        ensures { self.new ≡ set self.old i v }
    {
        match page_begin(&self.numbers, i / PAGE) {
            Some(begin) => self.stored[begin + i % PAGE] = v,
            None => {
                if v != 0 {
                    let begin = add_page(&mut self.numbers, &mut self.stored, i / PAGE);
                    self.stored[begin + i % PAGE] = v;
                }
            }
        }
    }

    // Of the `n` words from `i` on, the number of the first one that is one of the numbers from `low`, which is above
    // 0, to below `high`, and `n` where none is.
    pub fn first_between(&self, i: usize, n: usize, low: u64, high: u64) -> usize
        requires inside { i + n ≤ length self.now }
        requires fits { i + n < 2 ^ 64 }
        requires above { 0 < low }
        ensures most { result ≤ n }
        ensures before { (j : ℕ) → j < result → is_between low high (get_or self.now (i + j) 0) ≡ false }
        ensures found { result < n → is_between low high (get_or self.now (i + result) 0) ≡ true }
    {
        let mut passed = 0;
        while passed < n {
            let at = i + passed;
            let count = (PAGE - at % PAGE).min(n - passed);
            let met = self.first_in_page(at, count, low, high);
            if met < count {
                return passed + met;
            }
            passed += count;
        }
        n
    }

    // The number of the first word from `low` to below `high`, as `first_between` finds it, where the words lie in one
    // page.
    fn first_in_page(&self, i: usize, n: usize, low: u64, high: u64) -> usize
        requires inside { i + n ≤ length self.now }
        requires page { i % 512 + n ≤ 512 }
        requires above { 0 < low }
        ensures most { result ≤ n }
        ensures before { (j : ℕ) → j < result → is_between low high (get_or self.now (i + j) 0) ≡ false }
        ensures found { result < n → is_between low high (get_or self.now (i + result) 0) ≡ true }
    {
        match page_begin(&self.numbers, i / PAGE) {
            Some(begin) => {
                let from = begin + i % PAGE;
                first_number_between(&self.stored[from..from + n], low, high)
            }
            None => n,
        }
    }

    // Moves `n` words from `start` down to `at`. The two ranges may overlap.
    pub fn slide(&mut self, start: usize, at: usize, n: usize)
        requires from_in { start + n ≤ length self.old }
        requires down { at ≤ start }
        requires fits { start + n < 2 ^ 64 }
        ensures items { self.new ≡ overwrite self.old at (part self.old start n) }
        ensures len { length self.new ≡ length self.old }
    {
        let mut done = 0;
        while done < n {
            done += self.slide_front(start + done, at + done, n - done);
        }
    }

    // Moves the first words of these, as many as end in the page of their first one and in that where it goes, and
    // answers how many.
    fn slide_front(&mut self, start: usize, at: usize, n: usize) -> usize
        requires from_in { start + n ≤ length self.old }
        requires down { at ≤ start }
        requires some { 0 < n }
        ensures more { 0 < result }
        ensures most { result ≤ n }
        ensures items { self.new ≡ overwrite self.old at (part self.old start result) }
        ensures len { length self.new ≡ length self.old }
    {
        let count = (PAGE - start % PAGE).min(PAGE - at % PAGE).min(n);
        match page_begin(&self.numbers, start / PAGE) {
            Some(begin) => {
                let from = begin + start % PAGE;
                let to = reach_page(&mut self.numbers, &mut self.stored, at / PAGE) + at % PAGE;
                move_words(&mut self.stored, from, to, count);
            }
            None => self.clear_in_page(at, count),
        }
        count
    }

    // Writes zeros over `n` words from `at` on. What isn't stored stays so.
    pub fn clear(&mut self, at: usize, n: usize)
        requires inside { at + n ≤ length self.old }
        requires fits { at + n < 2 ^ 64 }
        ensures items { self.new ≡ overwrite self.old at (zeros n) }
        ensures len { length self.new ≡ length self.old }
    {
        let mut done = 0;
        while done < n {
            let count = (PAGE - (at + done) % PAGE).min(n - done);
            self.clear_in_page(at + done, count);
            done += count;
        }
    }

    // Writes zeros over `n` words from `at` on, which lie in one page.
    fn clear_in_page(&mut self, at: usize, n: usize)
        requires inside { at + n ≤ length self.old }
        requires page { at % 512 + n ≤ 512 }
        ensures items { self.new ≡ overwrite self.old at (zeros n) }
        ensures len { length self.new ≡ length self.old }
    {
        if let Some(begin) = page_begin(&self.numbers, at / PAGE) {
            clear_words(&mut self.stored, begin + at % PAGE, n);
        }
    }
}

// Where the words of a page begin among those that are stored, if it is stored.
#[inline(always)]
fn page_begin(numbers: &Vec<usize>, page: usize) -> Option<usize>
    requires { 512 * get_or numbers.now.items page 0 < 2 ^ 64 }
    ensures { result ≡ paged.page_begin numbers.now.items page }
{
    match numbers.get(page) {
        Some(&number) => if number == 0 {
            None
        } else {
            Some(PAGE * (number - 1))
        },
        None => None,
    }
}

// Sees to it that a page is stored, and answers where its words begin.
fn reach_page(numbers: &mut Vec<usize>, stored: &mut Vec<u64>, page: usize) -> usize
    requires paged { (len : ℕ) × IsPaged len numbers.old.items (length stored.old.items) (vec_capacity numbers.old)
        (vec_capacity stored.old) × (512 * page < len) }
    ensures paged { (len : ℕ) → 512 * page < len
        → IsPaged len numbers.old.items (length stored.old.items) (vec_capacity numbers.old) (vec_capacity stored.old)
        → IsPaged len numbers.new.items (length stored.new.items) (vec_capacity numbers.new) (vec_capacity stored.new) }
    ensures begin { paged.page_begin numbers.new.items page ≡ Some result }
    ensures words { (len : ℕ) → paged_words len numbers.new.items stored.new.items
        ≡ paged_words len numbers.old.items stored.old.items }
    ensures kept { (p begin : ℕ) → paged.page_begin numbers.old.items p ≡ Some begin
        → paged.page_begin numbers.new.items p ≡ Some begin }
{
    match page_begin(numbers, page) {
        Some(begin) => begin,
        None => add_page(numbers, stored, page),
    }
}

// Stores a page that isn't stored, behind the others, and answers where its words begin.
#[inline(never)]
fn add_page(numbers: &mut Vec<usize>, stored: &mut Vec<u64>, page: usize) -> usize
    requires paged { (len : ℕ) × IsPaged len numbers.old.items (length stored.old.items) (vec_capacity numbers.old)
        (vec_capacity stored.old) × (512 * page < len) }
    requires lacks { get_or numbers.old.items page 0 ≡ 0 }
    ensures paged { (len : ℕ) → 512 * page < len
        → IsPaged len numbers.old.items (length stored.old.items) (vec_capacity numbers.old) (vec_capacity stored.old)
        → IsPaged len numbers.new.items (length stored.new.items) (vec_capacity numbers.new) (vec_capacity stored.new) }
    ensures begin { paged.page_begin numbers.new.items page ≡ Some result }
    ensures words { (len : ℕ) → paged_words len numbers.new.items stored.new.items
        ≡ paged_words len numbers.old.items stored.old.items }
    ensures kept { (p begin : ℕ) → paged.page_begin numbers.old.items p ≡ Some begin
        → paged.page_begin numbers.new.items p ≡ Some begin }
{
    let begin = stored.len();
    reach_number(numbers, page);
    store_page(stored);
    numbers[page] = begin / PAGE + 1;
    begin
}

// Stores the zeros of one page more.
fn store_page(stored: &mut Vec<u64>)
    requires room { length stored.old.items + 512 ≤ vec_capacity stored.old }
    ensures items { stored.new.items ≡ stored.old.items ++ replicate 512 0 }
    ensures room { vec_capacity stored.old ≤ vec_capacity stored.new }
{
    stored.resize(stored.len() + PAGE, 0).unwrap();
}

// Sees to it that there is a number of this page.
fn reach_number(numbers: &mut Vec<usize>, page: usize)
    requires room { page < vec_capacity numbers.old }
    ensures items { numbers.new.items ≡ numbers.old.items
        ++ replicate (length numbers.new.items - length numbers.old.items) 0 }
    ensures more { length numbers.old.items ≤ length numbers.new.items }
    ensures few { (n : ℕ) → length numbers.old.items ≤ n → page < n → length numbers.new.items ≤ n }
    ensures there { page < length numbers.new.items }
    ensures room { vec_capacity numbers.old ≤ vec_capacity numbers.new }
{
    if numbers.len() <= page {
        numbers.resize(page + 1, 0).unwrap();
    }
}

// Of these words, the number of the first one that is one of the numbers from `low` to below `high`, and how many words
// there are where none is. The first eight are looked at singly, as mostly one of them is in the range or there are no
// more. Then it goes by eights.
#[inline]
fn first_number_between(words: &[u64], low: u64, high: u64) -> usize
    ensures most { result ≤ length words.now }
    ensures before { (j : ℕ) → j < result → is_between low high (get_or words.now j 0) ≡ false }
    ensures found { result < length words.now → is_between low high (get_or words.now result 0) ≡ true }
{
    let Some((eight, rest)) = words.split_first_chunk::<8>() else {
        return next_number_between(words, low, high);
    };
    let met = next_number_between(eight, low, high);
    if met < 8 {
        return met;
    }
    8 + first_number_by_eights(rest, low, high)
}

// The number of the first word from `low` to below `high`, as `first_number_between` finds it, by eights of words, up
// to the first eight that has one. It stands apart, so that the search of a few words stays small where it is inlined.
#[inline(never)]
fn first_number_by_eights(words: &[u64], low: u64, high: u64) -> usize
    ensures most { result ≤ length words.now }
    ensures before { (j : ℕ) → j < result → is_between low high (get_or words.now j 0) ≡ false }
    ensures found { result < length words.now → is_between low high (get_or words.now result 0) ≡ true }
{
    let passed = passed_eights(words, low, high);
    8 * passed + next_number_between(&words[8 * passed..], low, high)
}

// How many eights of words come before the first eight that has one of the numbers from `low` to below `high`, or
// before the last words, where these are less than eight.
#[inline(always)]
fn passed_eights(words: &[u64], low: u64, high: u64) -> usize
    ensures most { 8 * result ≤ length words.now }
    ensures before { (j : ℕ) → j < 8 * result → is_between low high (get_or words.now j 0) ≡ false }
{
    let mut rest = words;
    let mut passed = 0;
    while let Some((eight, more)) = rest.split_first_chunk::<8>() {
        if is_any_between(eight, low, high) {
            return passed;
        }
        rest = more;
        passed += 1;
    }
    passed
}

// Whether one of eight words is one of the numbers from `low` to below `high`. Each is looked at, whatever the others
// are, so that all are tested without a jump.
#[inline(always)]
fn is_any_between(eight: &[u64; 8], low: u64, high: u64) -> bool
    ensures { result ≡ false → (j : ℕ) → j < 8 → is_between low high (get_or eight.now j 0) ≡ false }
{
    let mut any = false;
    for i in 0..8 {
        any |= is_number_between(eight[i], low, high);
    }
    any
}

// Of these words, the number of the first one that is one of the numbers from `low` to below `high`, and how many words
// there are where none is, by looking at one after another.
#[inline(always)]
fn next_number_between(words: &[u64], low: u64, high: u64) -> usize
    ensures most { result ≤ length words.now }
    ensures before { (j : ℕ) → j < result → is_between low high (get_or words.now j 0) ≡ false }
    ensures found { result < length words.now → is_between low high (get_or words.now result 0) ≡ true }
{
    for i in 0..words.len() {
        if is_number_between(words[i], low, high) {
            return i;
        }
    }
    words.len()
}

// Moves `n` words from `start` to `at`. The two ranges may overlap.
fn move_words(words: &mut Vec<u64>, start: usize, at: usize, n: usize)
    requires from_in { start + n ≤ length words.old.items }
    requires to_in { at + n ≤ length words.old.items }
    ensures items { words.new.items ≡ take at words.old.items
        ++ (take n (drop start words.old.items) ++ drop (at + n) words.old.items) }
    ensures len { length words.new.items ≡ length words.old.items }
    ensures room { vec_capacity words.new ≡ vec_capacity words.old }
{
    words.copy_within(start..start + n, at);
}

// Writes zeros over `n` words from `at` on.
fn clear_words(words: &mut Vec<u64>, at: usize, n: usize)
    requires { at + n ≤ length words.old.items }
    ensures items { words.new.items ≡ take at words.old.items ++ (replicate n 0 ++ drop (at + n) words.old.items) }
    ensures len { length words.new.items ≡ length words.old.items }
    ensures room { vec_capacity words.new ≡ vec_capacity words.old }
{
    words[at..at + n].fill(0);
}
