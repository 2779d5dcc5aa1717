//! Memory at fixed addresses, read and written by words of eight bytes, lowest byte first.
//!
//! A [`Mem`] holds the bytes `[base, base + len)`. Its contracts see it as a list of words, so
//! that nothing above this crate reasons about bytes. Every call requires that its range lies in
//! the memory, so none of them can fail; only [`Mem::new`] and [`Mem::sparse`] can, where no memory
//! is left.
//!
//! Memory is taken as it is used. [`Mem::new`] reserves the room for all bytes and touches none of
//! it. Bytes are stored from the first on, up to the last that was written, in steps of 4 KiB up to
//! 64 KiB and of 64 KiB from there on, and what was never written reads as 0. A memory of
//! [`Mem::sparse`] stores the pages of 4 KiB alone that were written.
#![tactic(auto)]

ghost use Rattle.std.specs.Prelude.{◌≡◌, ℕ, ◌+◌, ◌*◌, ◌%◌, ◌<◌, ◌≤◌, ◌^◌, ◌↔◌, false, true, length, IfOk, IsTrue};
ghost use Rattle.clr_mem.specs.Words.{byte_at, cleared, end_of, Holds, HoldsBytes, moved, with_byte_at, with_word};
ghost use Rattle.clr_mem.specs.Words.{is_between, with_byte, word_at, zeroed};
ghost use Rattle.clr_mem.specs.Words as words;
ghost use Rattle.std.specs.Prelude.{◌/◌, get_or, set};

use crate::lazy::LazyBytes;
use std::alloc::Global;
use std::marker::Model;

mod bytes;
mod lazy;
mod no_memory;
mod pages;

pub use crate::no_memory::NoMemory;
pub use crate::pages::PagedWords;

/// The bytes `[base, base + len)`: `base` and `len` are multiples of 8, and `base + len` is below
/// 2^64. Clauses see its words.
#[derive(Drop)]
pub struct Mem {
    base: u64,
    // How many bytes it holds.
    len: u64,
    // The bytes of a memory that isn't sparse, and none of one that is.
    bytes: LazyBytes,
    // The words of a sparse one.
    far: Option<Box<PagedWords>>,
}

impl Model for Mem {
    ghost use Rattle.clr_mem.specs.Sparse.{IsMemory, words_in};
    ghost use Rattle.clr_mem.specs.Words.{Memory, memory_code};

    ghost Value = { Memory };

    ghost coded = { memory_code };

    ghost view = { λ m. record {
      base = m.base;
      words = words_in m.bytes m.far;
    } };

    ghost invariant = { λ m. IsMemory m.base m.len m.bytes m.far };
}

impl Mem {
    /// `len` zero bytes from the address `base` on; `len` is in bytes. `NoMemory` comes only where
    /// the allocator has no room for them. None of them is touched before something is written.
    pub fn new(alloc: Global, base: u64, len: u64) -> Result<Mem, NoMemory>
        requires base_aligned { base % 8 ≡ 0 }
        requires len_aligned { len % 8 ≡ 0 }
        requires fits { base + len < 2 ^ 64 }
        ensures value { IfOk result (λ m. m ≡ zeroed base len) }
        ensures end { IfOk result (λ m. end_of m ≡ base + len) }
    {
        let bytes = LazyBytes::new(alloc, len as usize)?;
        Ok(Mem {
            base,
            len,
            bytes,
            far: None,
        })
    }

    /// `len` zero bytes from the address `base` on, in pages of 4 KiB: those take memory that words were written to,
    /// and no others. `NoMemory` comes only where the allocator has no room for them. A read or write costs more than
    /// one of a memory that isn't sparse, so it is for memory of which little is written.
    pub fn sparse(alloc: Global, base: u64, len: u64) -> Result<Mem, NoMemory>
        requires base_aligned { base % 8 ≡ 0 }
        requires len_aligned { len % 4096 ≡ 0 }
        requires fits { base + len < 2 ^ 64 }
        ensures value { IfOk result (λ m. m ≡ zeroed base len) }
        ensures end { IfOk result (λ m. end_of m ≡ base + len) }
    {
        let bytes = LazyBytes::new(alloc, 0)?;
        let pages = PagedWords::new(alloc, (len / 8) as usize)?;
        let far = Some(Box::new(alloc, pages)?);
        Ok(Mem {
            base,
            len,
            bytes,
            far,
        })
    }

    // The word whose bytes begin at an offset, where it isn't among those that are stored from the first on. It stands
    // apart, so that what reads inline stays small.
    #[cold]
    #[inline(never)]
    fn word_beyond(&self, at: usize) -> u64
        requires { at % 8 ≡ 0 }
        ensures { result ≡ get_or self.now.words (at / 8) 0 }
    {
        match &self.far {
            Some(pages) => pages.word(at / 8),
            None => self.bytes.word(at),
        }
    }

    // Writes it.
    #[cold]
    #[inline(never)]
    fn set_word_beyond(&mut self, at: usize, v: u64)
        requires aligned { at % 8 ≡ 0 }
        requires inside { at < 8 * length self.old.words }
        ensures { self.new ≡ record self.old { words = set self.old.words (at / 8) v } }
    {
        match &mut self.far {
            Some(pages) => pages.set_word(at / 8, v),
            None => self.bytes.set_word(at, v),
        }
    }

    /// The first address.
    #[inline(always)]
    pub fn base(&self) -> u64
        ensures value { result ≡ self.now.base }
        ensures aligned { self.now.base % 8 ≡ 0 }
        ensures fits { end_of self.now < 2 ^ 64 }
    {
        self.base
    }

    /// How many bytes it holds.
    #[inline(always)]
    pub fn len(&self) -> u64
        ensures value { result ≡ 8 * length self.now.words }
        ensures aligned { self.now.base % 8 ≡ 0 }
        ensures fits { end_of self.now < 2 ^ 64 }
    {
        self.len
    }

    /// Whether it holds the byte at `a`.
    #[inline(always)]
    pub fn contains(&self, a: u64) -> bool
        ensures { result ≡ is_between self.now.base (end_of self.now) a }
    {
        a.wrapping_sub(self.base) < self.len
    }

    /// Whether it holds no byte at all.
    pub fn is_empty(&self) -> bool
        ensures { IsTrue result ↔ (length self.now.words ≡ 0) }
    {
        self.len() == 0
    }

    /// The word whose eight bytes begin at `a`, a multiple of 8.
    #[inline(always)]
    pub fn word(&self, a: u64) -> u64
        requires { Holds self.now a 8 }
        ensures value { result ≡ word_at self.now a }
        ensures fits { a + 8 < 2 ^ 64 }
    {
        let at = (a - self.base) as usize;
        if self.bytes.has(at) {
            self.bytes.word(at)
        } else {
            self.word_beyond(at)
        }
    }

    /// Of the `n` words from `a` on, a multiple of 8, the number of the first one that is one of the numbers from
    /// `low`, which is above 0, to below `high`, and `n` where none is.
    #[inline(always)]
    pub fn first_between(&self, a: u64, n: u64, low: u64, high: u64) -> u64
        requires words { Holds self.now a (8 * n) }
        requires above { 0 < low }
        ensures most { result ≤ n }
        ensures before { (j : ℕ) → j < result → is_between low high (word_at self.now (a + 8 * j)) ≡ false }
        ensures found { result < n → is_between low high (word_at self.now (a + 8 * result)) ≡ true }
    {
        let at = (a - self.base) as usize;
        match &self.far {
            Some(pages) => pages.first_between(at / 8, n as usize, low, high) as u64,
            None => self.bytes.first_between(at, n as usize, low, high) as u64,
        }
    }

    /// Writes the word at `a`, a multiple of 8; every other word stays.
    #[inline(always)]
    pub fn set_word(&mut self, a: u64, v: u64)
        requires { Holds self.old a 8 }
        ensures value { self.new ≡ with_word self.old a v }
        ensures size { length self.new.words ≡ length self.old.words }
        ensures fits { a + 8 < 2 ^ 64 }
    {
        let at = (a - self.base) as usize;
        if self.bytes.has(at) {
            self.bytes.set_word(at, v);
        } else {
            self.set_word_beyond(at, v);
        }
    }

    // Writes the byte at an offset.
    #[cold]
    #[inline(never)]
    fn set_byte_beyond(&mut self, at: usize, v: u8)
        requires { at < 8 * length self.old.words }
        ensures { self.new ≡ record self.old {
          words = set self.old.words (at / 8) (with_byte (get_or self.old.words (at / 8) 0) (at % 8) v);
        } }
    {
        match &mut self.far {
            Some(pages) => {
                let word = pages.word(at / 8);
                pages.set_word(at / 8, with_byte(word, at % 8, v));
            }
            None => self.bytes.set_byte(at, v),
        }
    }

    /// The byte at `a`: of its word, the lowest eight bits where `a` is a multiple of 8.
    #[inline(always)]
    pub fn byte(&self, a: u64) -> u8
        requires { HoldsBytes self.now a 1 }
        ensures value { result ≡ byte_at self.now a }
        ensures fits { a + 1 < 2 ^ 64 }
    {
        let at = (a - self.base) as usize;
        if self.bytes.has(at) {
            self.bytes.byte(at)
        } else {
            byte_of(self.word_beyond(at - at % 8), at % 8)
        }
    }

    /// Writes the byte at `a`; every other byte stays.
    #[inline(always)]
    pub fn set_byte(&mut self, a: u64, v: u8)
        requires { HoldsBytes self.old a 1 }
        ensures value { self.new ≡ with_byte_at self.old a v }
        ensures size { length self.new.words ≡ length self.old.words }
        ensures fits { a + 1 < 2 ^ 64 }
    {
        let at = (a - self.base) as usize;
        if self.bytes.has(at) {
            self.bytes.set_byte(at, v);
        } else {
            self.set_byte_beyond(at, v);
        }
    }

    /// Moves the `len` bytes from `from` on down to `to`, in whole words. The ranges may overlap;
    /// what `[to, to + len)` does not cover stays.
    pub fn slide(&mut self, from: u64, to: u64, len: u64)
        requires from_in { Holds self.old from len }
        requires to_in { Holds self.old to len }
        requires down { to ≤ from }
        ensures value { self.new ≡ moved self.old self.old to from len }
        ensures size { length self.new.words ≡ length self.old.words }
        ensures fits { from + len < 2 ^ 64 }
    {
        let start = (from - self.base) as usize;
        let at = (to - self.base) as usize;
        match &mut self.far {
            Some(pages) => pages.slide(start / 8, at / 8, len as usize / 8),
            None => self.bytes.slide(start, at, len as usize),
        }
    }

    /// Copies the `len` bytes from `from` on of another memory to `to`, in whole words; what
    /// `[to, to + len)` does not cover stays.
    pub fn carry(&mut self, to: u64, other: &Mem, from: u64, len: u64)
        requires to_in { Holds self.old to len }
        requires from_in { Holds other.now from len }
        ensures value { self.new ≡ moved self.old other.now to from len }
        ensures size { length self.new.words ≡ length self.old.words }
        ensures to_fits { to + len < 2 ^ 64 }
        ensures from_fits { from + len < 2 ^ 64 }
    {
        let start = (from - other.base) as usize;
        let at = (to - self.base) as usize;
        if self.far.is_some() {
            return self.carry_words(to, other, from, len);
        }
        if other.far.is_some() {
            return self.carry_words(to, other, from, len);
        }
        self.bytes.carry(at, &other.bytes, start, len as usize);
    }

    // Copies the `len` bytes from `from` on of another memory to `to`, word by word.
    #[cold]
    fn carry_words(&mut self, to: u64, other: &Mem, from: u64, len: u64)
        requires to_in { Holds self.old to len }
        requires from_in { Holds other.now from len }
        requires to_end { end_of self.old < 2 ^ 64 }
        requires from_end { end_of other.now < 2 ^ 64 }
        ensures value { self.new ≡ moved self.old other.now to from len }
        ensures size { length self.new.words ≡ length self.old.words }
    {
        for i in 0..len / 8 {
            self.set_word(to + 8 * i, other.word(from + 8 * i));
        }
    }

    /// Clears the `len` bytes from `a` on, in whole words; every other word stays. Bytes that aren't
    /// stored stay so.
    pub fn zero(&mut self, a: u64, len: u64)
        requires { Holds self.old a len }
        ensures value { self.new ≡ cleared self.old a len }
        ensures size { length self.new.words ≡ length self.old.words }
        ensures fits { a + len < 2 ^ 64 }
    {
        let at = (a - self.base) as usize;
        match &mut self.far {
            Some(pages) => pages.clear(at / 8, len as usize / 8),
            None => self.bytes.clear(at, len as usize),
        }
    }
}

// Byte `k` of a word, the lowest first.
fn byte_of(word: u64, k: usize) -> u8
    requires { k < 8 }
    ensures { result ≡ words.byte_of word k }
{
    ((word >> (8 * k)) % 256) as u8
}

// The word with byte `k` replaced.
fn with_byte(word: u64, k: usize, v: u8) -> u64
    requires { k < 8 }
    ensures { result ≡ words.with_byte word k v }
{
    let shift = 8 * k;
    word - ((byte_of(word, k) as u64) << shift) + ((v as u64) << shift)
}
