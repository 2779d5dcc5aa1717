//! Where objects start: for each segment a bit for each word from its first place on.
ghost use Rattle.std.specs.Prelude.{◌≡◌, ℕ, ◌+◌, ◌*◌, ◌-◌, ◌/◌, ◌%◌, ◌<◌, ◌≤◌, ◌||◌, ◌==◌, length, nat_eq, false, IfOk};
ghost use Rattle.std.specs.Prelude.{OnOk, replicate, [], ◌∷◌, ◌++◌};
ghost use Rattle.clr_sos.specs.Windows.{bit_of};
ghost use Rattle.clr_load.specs.Starts.{AreBelow, has_place, has_start, range_end};

use std::alloc::{AllocError, Global};
use std::marker::Model;

/// A bit for each word from the address `first` on.
#[derive(Drop)]
pub struct Range {
    pub first: u64,
    pub bits: Vec<u64>,
}

impl Range {
    /// A bit for each word from the address `first` on up to `end`, and up to 64 more. None is set.
    ///
    /// An error comes where there is no memory for the bits, which is one for each 8 bytes.
    pub fn new(alloc: Global, first: u64, end: u64) -> Result<Range, AllocError>
        requires { first ≤ end }
        ensures none { IfOk result (λ r. (x : ℕ) → has_place r x ≡ false) }
        ensures first { IfOk result (λ r. r.first ≡ first) }
        ensures room { IfOk result (λ r. end < range_end r) }
        ensures short { IfOk result (λ r. range_end r ≤ end + 512) }
    {
        let count = (end - first) / 512 + 1;
        let bits = clear_bits(alloc, count as usize)?;
        Ok(Range { first, bits })
    }

    /// Sets the bit of a place. All others stay.
    #[inline]
    pub fn mark(&mut self, place: u64)
        requires above { self.old.first ≤ place }
        requires aligned { (place - self.old.first) % 8 ≡ 0 }
        requires room { place < range_end self.old }
        ensures marked { (x : ℕ) → has_place self.new x ≡ (has_place self.old x || (place == x)) }
        ensures first { self.new.first ≡ self.old.first }
        ensures end { range_end self.new ≡ range_end self.old }
    {
        let i = (place - self.first) / 8;
        set_bit(&mut self.bits, i);
    }

    /// Whether the bit of a place is set. One that has no bit isn't.
    #[inline]
    pub fn has(&self, place: u64) -> bool
        ensures { result ≡ has_place self.now place }
    {
        if place < self.first || (place - self.first) % 8 != 0 {
            return false;
        }
        has_bit(&self.bits, (place - self.first) / 8)
    }
}

// Words without a bit.
fn clear_bits(alloc: Global, n: usize) -> Result<Vec<u64>, AllocError>
    ensures { IfOk result (λ v. v.items ≡ replicate n 0) }
{
    vec![in alloc; 0; n]
}

// Sets bit `i`.
#[inline]
fn set_bit(bits: &mut Vec<u64>, i: u64)
    requires { i / 64 < length bits.old.items }
    ensures bits { (j : ℕ) → bit_of bits.new.items j ≡ (bit_of bits.old.items j || nat_eq i j) }
    ensures len { length bits.new.items ≡ length bits.old.items }
{
    bits[(i / 64) as usize] |= 1 << (i % 64);
}

// Whether bit `i` is set. Past the end none is.
#[inline]
fn has_bit(bits: &Vec<u64>, i: u64) -> bool
    ensures { result ≡ bit_of bits.now.items i }
{
    i / 64 < bits.len() as u64 && bits[(i / 64) as usize] >> (i % 64) & 1 == 1
}

/// Where the objects of all segments start. Contracts see a range for each segment, by rising address.
#[derive(Drop)]
pub struct Starts {
    ranges: Vec<Range>,
}

impl Model for Starts {
    ghost use Rattle.std.specs.Prelude.{List};
    ghost use Rattle.clr_load.specs.Starts.{AreApart};
    ghost use Rattle.clr_load.specs.declared.starts.Range.{Range};

    ghost Value = { List Range };

    ghost view = { λ s. s.ranges.items };

    ghost invariant = { λ s. AreApart s.ranges.items };
}

impl Starts {
    /// Nowhere. Takes no memory.
    pub fn new(alloc: Global) -> Starts
        ensures { result ≡ [] }
    {
        Starts {
            ranges: Vec::new(alloc),
        }
    }

    /// Adds what is marked in a range, which begins behind all others.
    ///
    /// An error comes where there is no memory for one range more.
    pub fn add(&mut self, range: Range) -> Result<(), AllocError>
        requires { AreBelow range.first self.old }
        ensures { OnOk result (self.new ≡ self.old ++ range ∷ []) }
    {
        self.ranges.push(range)?;
        Ok(())
    }

    /// Whether an object starts at a place.
    #[inline]
    pub fn has(&self, place: u64) -> bool
        ensures { result ≡ has_start self.now place }
    {
        let below = self.ranges.partition_point(|range| range.first <= place);
        below > 0 && self.ranges[below - 1].has(place)
    }
}
