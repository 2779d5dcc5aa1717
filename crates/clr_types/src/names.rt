//! Names in order of definition.

ghost use Rattle.std.specs.Prelude.{◌≡◌, ◌↔◌, ◌<◌, [], ◌∷◌, ◌++◌, length, get_or};
ghost use Rattle.std.specs.Prelude.{None, Some, IfOk, IfSome, IsTrue, OnErr};
ghost use Rattle.clr_types.specs.Table.{name_number};

use crate::NoMemory;
use crate::guesses::Guesses;
use indexmap::IndexSet;
use std::alloc::Global;
use std::marker::Model;

/// Names, each once, numbered from 0 in order of definition.
#[derive(Drop)]
pub(crate) struct Names {
    set: IndexSet<Vec<u8>>,
    guesses: Guesses,
}

impl Model for Names {
    ghost use Rattle.std.specs.Prelude.{List, ℕ, map};
    ghost use Rattle.clr_types.specs.Kept.{bytes_of};

    ghost Value = { List (List ℕ) };

    ghost view = { λ names. map bytes_of names.set.keys };
}

impl Names {
    /// No name.
    pub(crate) fn new(alloc: Global) -> Names
        ensures { result ≡ [] }
    {
        Names {
            set: IndexSet::new(alloc),
            guesses: Guesses::new(),
        }
    }

    /// The number of a name.
    #[inline(always)]
    pub(crate) fn number(&self, name: &[u8]) -> Option<usize>
        ensures value { result ≡ name_number 0 self.now name.now }
        ensures below { IfSome result (λ number. number < length self.now) }
    {
        let guess = self.guesses.of(name);
        if self.is_name(guess, name) {
            Some(guess)
        } else {
            self.search(name)
        }
    }

    /// Whether a number has this name.
    #[inline(always)]
    pub(crate) fn is_name(&self, number: usize, name: &[u8]) -> bool
        ensures value { IsTrue result ↔ (name_number 0 self.now name.now ≡ Some number) }
        ensures below { IsTrue result → number < length self.now }
    {
        match self.set.as_slice().get(number) {
            Some(known) => is_same(known.as_slice(), name),
            None => false,
        }
    }

    // The number of a name, by its hash.
    #[inline(never)]
    fn search(&self, name: &[u8]) -> Option<usize>
        ensures value { result ≡ name_number 0 self.now name.now }
        ensures below { IfSome result (λ number. number < length self.now) }
    {
        self.set.get_index_of(name)
    }

    /// The name of a number.
    #[inline(always)]
    pub(crate) fn name(&self, number: usize) -> &[u8]
        requires { number < length self.now }
        ensures { result.now ≡ get_or self.now number [] }
    {
        self.set.as_slice()[number].as_slice()
    }

    /// Adds a name that isn't there. After an error the names are as they were.
    pub(crate) fn add(&mut self, alloc: Global, name: &[u8]) -> Result<(), NoMemory>
        requires { name_number 0 self.old name.now ≡ None }
        ensures ok { IfOk result (λ _. self.new ≡ self.old ++ name.now ∷ []) }
        ensures err { OnErr result (self.new ≡ self.old) }
    {
        let owned = Vec::from_slice(alloc, name)?;
        let number = self.set.len();
        self.set.insert(owned)?;
        self.guesses.keep(name, number);
        Ok(())
    }
}

// Whether two texts are equal. Most names have four to eight bytes, which two words cover that may overlap, or one.
#[inline(always)]
fn is_same(text: &[u8], other: &[u8]) -> bool
    ensures { IsTrue result ↔ (text.now ≡ other.now) }
{
    if text.len() != other.len() {
        return false;
    }
    if text.len() == 1 {
        return text[0] == other[0];
    }
    if text.len() < 4 || 8 < text.len() {
        return text == other;
    }
    text.first_chunk::<4>() == other.first_chunk::<4>()
        && text.last_chunk::<4>() == other.last_chunk::<4>()
}
