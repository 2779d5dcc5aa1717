// Zero bytes that take memory as they are written.
ghost use Rattle.std.specs.Prelude.{◌≡◌, ℕ, ◌+◌, ◌*◌, ◌%◌, ◌<◌, ◌≤◌, ◌++◌, false, true, length, set, take, drop};
ghost use Rattle.std.specs.Prelude.{slice_index, IfOk};
ghost use Rattle.std.specs.Int.{bytes_low_first};
ghost use Rattle.clr_mem.specs.Words.{is_between, spelled, zeros};

use crate::bytes::{
    clear_bytes, copy_bytes, first_word_between, load_byte, load_word, move_bytes, reach,
    store_byte, store_word,
};
use std::alloc::{AllocError, Global};
use std::marker::Model;

// Bytes that are 0 until they are written. The front of them is stored, and the rest takes no
// memory. The room for all is reserved when they are made, so no write can fail. Clauses see the
// list of all.
#[derive(Drop)]
pub struct LazyBytes {
    stored: Vec<u8>,
    size: usize,
}

impl Model for LazyBytes {
    ghost use Rattle.std.specs.Prelude.{ℕ, List, length};
    ghost use Rattle.std.specs.Coded.{coded_list, coded_ℕ};
    ghost use Rattle.std.specs.Vec.{vec_capacity};
    ghost use Rattle.clr_mem.specs.Stored.{IsReserved, with_zeros};

    ghost Value = { List ℕ };

    ghost coded = { coded_list coded_ℕ };

    ghost view = { λ b. with_zeros b.size b.stored.items };

    ghost invariant = { λ b. IsReserved b.size (length b.stored.items) (vec_capacity b.stored) };
}

// How many of the `n` bytes from `start` on are among the first `len`.
fn count_below(len: usize, start: usize, n: usize) -> usize
    ensures most { result ≤ n }
    ensures below { 0 < result → start + result ≤ len }
    ensures rest { result < n → len ≤ start + result }
{
    len.saturating_sub(start).min(n)
}

impl LazyBytes {
    // `size` zero bytes.
    pub fn new(alloc: Global, size: usize) -> Result<LazyBytes, AllocError>
        requires { size % 8 ≡ 0 }
        ensures { IfOk result (λ b. b ≡ zeros size) }
    {
        let stored = Vec::with_capacity(alloc, size)?;
        Ok(LazyBytes { stored, size })
    }

    #[inline(always)]
    pub fn len(&self) -> usize
        ensures { result ≡ length self.now }
    {
        self.size
    }

    // Whether the byte at `at` is stored.
    #[inline(always)]
    pub fn has(&self, at: usize) -> bool
        ensures { result ≡ true → at < length self.now }
    {
        at < self.stored.len()
    }

    // The number that the eight bytes from `at` on spell.
    #[inline(always)]
    pub fn word(&self, at: usize) -> u64
        requires { at % 8 ≡ 0 }
        ensures { result ≡ spelled (drop at self.now) }
    {
        load_word(&self.stored, at)
    }

    // Of the `n` words from `at` on, the number of the first one that is one of the numbers from `low`, which is above
    // 0, to below `high`, and `n` where none is.
    #[inline(always)]
    pub fn first_between(&self, at: usize, n: usize, low: u64, high: u64) -> usize
        requires inside { at + 8 * n ≤ length self.now }
        requires aligned { at % 8 ≡ 0 }
        requires above { 0 < low }
        ensures most { result ≤ n }
        ensures before { (j : ℕ) → j < result → is_between low high (spelled (drop (at + 8 * j) self.now)) ≡ false }
        ensures found { result < n → is_between low high (spelled (drop (at + 8 * result) self.now)) ≡ true }
    {
        let count = count_below(self.stored.len(), at, 8 * n);
        if count == 0 {
            return n;
        }
        let met = first_word_between(&self.stored[at..at + count], low, high);
        if 8 * met < count { met } else { n }
    }

    // Writes a number over the eight bytes from `at` on.
    #[inline(always)]
    pub fn set_word(&mut self, at: usize, v: u64)
        requires inside { at + 8 ≤ length self.old }
        requires aligned { at % 8 ≡ 0 }
        ensures items { self.new ≡ take at self.old ++ (bytes_low_first 0 8 v ++ drop (at + 8) self.old) }
        ensures len { length self.new ≡ length self.old }
    {
        if at < self.stored.len() {
            store_word(&mut self.stored, at, v);
        } else {
            self.set_word_beyond(at, v);
        }
    }

    // Writes a number over the eight bytes from `at` on, which aren't stored yet. It stands apart, and is the last that
    // a write does, so that what writes inline needs no frame for it.
    #[cold]
    #[inline(never)]
    fn set_word_beyond(&mut self, at: usize, v: u64)
        requires inside { at + 8 ≤ length self.old }
        requires aligned { at % 8 ≡ 0 }
        ensures items { self.new ≡ take at self.old ++ (bytes_low_first 0 8 v ++ drop (at + 8) self.old) }
        ensures len { length self.new ≡ length self.old }
    {
        reach(&mut self.stored, self.size, at);
        store_word(&mut self.stored, at, v);
    }

    // The byte at `at`.
    #[inline(always)]
    pub fn byte(&self, at: usize) -> u8
        ensures value { result ≡ slice_index self.now at }
        ensures fits { (j : ℕ) → slice_index self.now j < 256 }
    {
        load_byte(&self.stored, at)
    }

    // Writes the byte at `at`.
    #[inline(always)]
    pub fn set_byte(&mut self, at: usize, v: u8)
        requires { at < length self.old }
        ensures items { self.new ≡ set self.old at v }
        ensures fits { (j : ℕ) → slice_index self.old j < 256 }
    {
        if at < self.stored.len() {
            store_byte(&mut self.stored, at, v);
        } else {
            self.set_byte_beyond(at, v);
        }
    }

    // Writes the byte at `at`, which isn't stored yet.
    #[cold]
    #[inline(never)]
    fn set_byte_beyond(&mut self, at: usize, v: u8)
        requires { at < length self.old }
        ensures items { self.new ≡ set self.old at v }
        ensures fits { (j : ℕ) → slice_index self.old j < 256 }
    {
        reach(&mut self.stored, self.size, at);
        store_byte(&mut self.stored, at, v);
    }

    // Moves `n` bytes from `start` down to `at`. The two ranges may overlap.
    pub fn slide(&mut self, start: usize, at: usize, n: usize)
        requires from_in { start + n ≤ length self.old }
        requires down { at ≤ start }
        ensures items { self.new ≡ take at self.old ++ (take n (drop start self.old) ++ drop (at + n) self.old) }
        ensures len { length self.new ≡ length self.old }
    {
        let count = count_below(self.stored.len(), start, n);
        if count == 0 {
            return self.clear(at, n);
        }
        move_bytes(&mut self.stored, start, at, count);
        self.clear(at + count, n - count);
    }

    // Copies `n` bytes from `start` of `source` to `at`.
    pub fn carry(&mut self, at: usize, source: &LazyBytes, start: usize, n: usize)
        requires to_in { at + n ≤ length self.old }
        requires from_in { start + n ≤ length source.now }
        ensures items { self.new ≡ take at self.old ++ (take n (drop start source.now) ++ drop (at + n) self.old) }
        ensures len { length self.new ≡ length self.old }
    {
        let count = count_below(source.stored.len(), start, n);
        if count == 0 {
            return self.clear(at, n);
        }
        reach(&mut self.stored, self.size, at + count - 1);
        copy_bytes(&mut self.stored, at, &source.stored, start, count);
        self.clear(at + count, n - count);
    }

    // Writes zeros over `n` bytes from `at` on. What isn't stored stays so.
    pub fn clear(&mut self, at: usize, n: usize)
        requires { at + n ≤ length self.old }
        ensures items { self.new ≡ take at self.old ++ (zeros n ++ drop (at + n) self.old) }
        ensures len { length self.new ≡ length self.old }
    {
        let count = count_below(self.stored.len(), at, n);
        if count == 0 {
            return;
        }
        clear_bytes(&mut self.stored, at, count);
    }
}
