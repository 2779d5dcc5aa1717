// Sets of numbers.
ghost use Rattle.std.specs.Prelude.{◌≡◌, ℕ, ◌+◌, ◌*◌, ◌%◌, ◌<◌, ◌≤◌, ◌||◌, false, get_or, length, nat_eq, set, IfOk};
ghost use Rattle.clr_sos.specs.Bits.{has_bit};

use clr_mem::PagedWords;
use std::alloc::{AllocError, Global};
use std::marker::Model;

/// A set of numbers below a bound, with a bit for each. Those of the front are cleared at once, and found at once, and
/// those behind it page by page, as they are set.
#[derive(Drop)]
pub(crate) struct Bits {
    front: Vec<u64>,
    pages: PagedWords,
}

impl Model for Bits {
    ghost use Rattle.std.specs.Prelude.{List, ℕ, ◌++◌};

    ghost Value = { List ℕ };

    ghost view = { λ b. b.front.items ++ b.pages };
}

impl Bits {
    /// No number, with room for those below `count`. The bits of a search that meets all of a heap are cleared at once,
    /// and those of one that meets little page by page.
    pub(crate) fn new(alloc: Global, count: u64, at_once: bool) -> Result<Bits, AllocError>
        ensures room { IfOk result (λ b. count ≤ 64 * length b) }
        ensures none { IfOk result (λ b. (n : ℕ) → has_bit b n ≡ false) }
    {
        let (whole, paged) = counts(count, at_once);
        let front = vec![in alloc; 0; whole]?;
        let pages = PagedWords::new(alloc, paged)?;
        Ok(Bits { front, pages })
    }

    /// Whether a number is in the set.
    #[inline(always)]
    pub(crate) fn has(&self, n: u64) -> bool
        ensures { result ≡ has_bit self.now n }
    {
        (self.word((n / 64) as usize) >> (n % 64)) & 1 == 1
    }

    // A word of bits.
    #[inline(always)]
    fn word(&self, k: usize) -> u64
        ensures { result ≡ get_or self.now k 0 }
    {
        match self.front.get(k) {
            Some(word) => *word,
            None => paged_word(&self.pages, k - self.front.len()),
        }
    }

    /// Puts a number in, for which there is room.
    #[inline(always)]
    pub(crate) fn add(&mut self, n: u64)
        requires room { n < 64 * length self.old }
        ensures room { length self.new ≡ length self.old }
        ensures added { (i : ℕ) → has_bit self.new i ≡ (nat_eq i n || has_bit self.old i) }
    {
        let k = (n / 64) as usize;
        let word = self.word(k);
        self.set_word(k, word | 1 << (n % 64));
    }

    // Writes a word of bits.
    #[inline(always)]
    fn set_word(&mut self, k: usize, word: u64)
        requires { k < length self.old }
        ensures { self.new ≡ set self.old k word }
    {
        let count = self.front.len();
        if k < count {
            self.front[k] = word;
        } else {
            set_paged_word(&mut self.pages, k - count, word);
        }
    }
}

// A word of pages. It stands apart, so that the front is looked up in line.
#[inline(never)]
fn paged_word(pages: &PagedWords, k: usize) -> u64
    ensures { result ≡ get_or pages.now k 0 }
{
    pages.word(k)
}

// Writes it.
#[inline(never)]
fn set_paged_word(pages: &mut PagedWords, k: usize, word: u64)
    requires { k < length pages.old }
    ensures { pages.new ≡ set pages.old k word }
{
    pages.set_word(k, word);
}

// How many words the bits of numbers below `count` have in front, and how many in pages.
fn counts(count: u64, at_once: bool) -> (usize, usize)
    ensures room { count ≤ 64 * (result.0 + result.1) }
    ensures whole { result.1 % 512 ≡ 0 }
{
    if at_once {
        ((count / 64 + 1) as usize, 0)
    } else {
        (0, (count / 32768 + 1) as usize * 512)
    }
}
