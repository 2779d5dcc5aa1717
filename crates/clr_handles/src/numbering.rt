// Which slot of the slab each number stands for.
ghost use Rattle.std.specs.Prelude.{◌≡◌, ℕ, ◌<◌, length, IfOk, OnOk, OnErr};
ghost use Rattle.clr_handles.specs.Numbers.{IsNumbering, IsEachNumber, key_at, number_at, Regives};

use crate::NoMemory;
use std::alloc::Global;
use std::marker::Model;

/// How many numbers there are.
pub const MOST_HANDLES: usize = 65_536;

/// The keys of the numbers and the numbers of the keys. Both are themselves past the end of the two lists, which stay
/// empty until a number is given a key of choice.
#[derive(Drop)]
pub(crate) struct Numbering {
    keys: Vec<u16>,
    numbers: Vec<u16>,
}

impl Model for Numbering {
    ghost use Rattle.clr_handles.specs.Numbers.{Numbers, IsNumbering};

    ghost Value = { Numbers };

    ghost view = { λ n. record { keys = n.keys.items; numbers = n.numbers.items } };

    ghost invariant = { λ n. IsNumbering (record { keys = n.keys.items; numbers = n.numbers.items }) };
}

impl Numbering {
    /// Each number is its own key. Takes no memory.
    pub(crate) fn new(alloc: Global) -> Numbering
        ensures keys { (n : ℕ) → key_at result n ≡ n }
        ensures numbers { (k : ℕ) → number_at result k ≡ k }
    {
        Numbering {
            keys: Vec::new(alloc),
            numbers: Vec::new(alloc),
        }
    }

    /// The key of a number.
    pub(crate) fn key_of(&self, number: usize) -> usize
        ensures value { result ≡ key_at self.now number }
        ensures lawful { IsNumbering self.now }
    {
        match self.keys.get(number) {
            Some(key) => usize::from(*key),
            None => number,
        }
    }

    /// The number of a key.
    pub(crate) fn number_of(&self, key: usize) -> usize
        ensures value { result ≡ number_at self.now key }
        ensures lawful { IsNumbering self.now }
    {
        match self.numbers.get(key) {
            Some(number) => usize::from(*number),
            None => key,
        }
    }

    /// Makes this the key of the number. The number that had it gets the key that this one had.
    ///
    /// `NoMemory` where there is no memory for the lists, or the key is too high for them. Then nothing changes.
    pub(crate) fn assign(
        &mut self,
        alloc: Global,
        number: usize,
        key: usize,
    ) -> Result<(), NoMemory>
        requires { number < 65536 }
        ensures ok { OnOk result (Regives self.old self.new number key) }
        ensures err { OnErr result (self.new ≡ self.old) }
    {
        if self.key_of(number) == key {
            return Ok(());
        }
        if key >= MOST_HANDLES {
            return Err(NoMemory);
        }
        self.prepare(alloc)?;
        self.give(number, key);
        Ok(())
    }

    // Makes sure that each number can be given another key. Nothing else changes, and nothing at all where there is no
    // memory.
    fn prepare(&mut self, alloc: Global) -> Result<(), NoMemory>
        ensures keys { (n : ℕ) → key_at self.new n ≡ key_at self.old n }
        ensures numbers { (k : ℕ) → number_at self.new k ≡ number_at self.old k }
        ensures ok { OnOk result (length self.new.keys ≡ 65536) }
        ensures err { OnErr result (self.new ≡ self.old) }
    {
        if self.keys.is_empty() {
            let keys = each_number(alloc)?;
            let numbers = each_number(alloc)?;
            self.keys = keys;
            self.numbers = numbers;
        }
        Ok(())
    }

    // Gives the number this key, and the number that had it the key that this one had.
    fn give(&mut self, number: usize, key: usize)
        requires prepared { length self.old.keys ≡ 65536 }
        requires number { number < 65536 }
        requires key { key < 65536 }
        ensures given { Regives self.old self.new number key }
    {
        let other_key = usize::from(self.keys[number]);
        let other_number = usize::from(self.numbers[key]);
        self.keys[other_number] = other_key as u16;
        self.keys[number] = key as u16;
        self.numbers[other_key] = other_number as u16;
        self.numbers[key] = number as u16;
    }
}

// The numbers from 0 on, each at its own index.
fn each_number(alloc: Global) -> Result<Vec<u16>, NoMemory>
    ensures { IfOk result (λ v. IsEachNumber v.items) }
{
    let mut numbers = Vec::with_capacity(alloc, MOST_HANDLES)?;
    for number in 0..MOST_HANDLES {
        numbers.push(number as u16)?;
    }
    Ok(numbers)
}
