//! Reads fields from bytes, one behind the other.
ghost use Rattle.std.specs.Prelude.{◌≡◌, ℕ, ◌+◌, ◌<◌, ◌≤◌, ◌^◌, length, OnOk};
ghost use Rattle.std.specs.Prelude.{IfOk};
ghost use Rattle.clr_fields.specs.Fields.{any_text, anything, field, is_from_to, is_up_to, is_zero, nothing_more};
ghost use Rattle.clr_fields.specs.Fields.{text};
ghost use Rattle.clr_fields.specs.Finds.{Finds, FindsAs, FindsThat};

use crate::LoadFault;
use byteorder::{ByteOrder, LittleEndian};
use std::marker::Model;

/// A reader of fields in bytes that nobody trusts. Contracts see the bytes, and at which offset it stands in them.
///
/// What it reads it passes over. After a fault the bytes are the same, and it may stand anywhere in them.
#[derive(Drop)]
pub struct Reader<'a> {
    bytes: &'a [u8],
    at: usize,
}

impl<'a> Model for Reader<'a> {
    ghost use Rattle.std.specs.Prelude.{◌≤◌, length};
    ghost use Rattle.clr_fields.specs.Finds.{Reading};

    ghost Value = { Reading };

    ghost view = { λ r. record { bytes = r.bytes.now; at = r.at } };

    ghost invariant = { λ r. r.at ≤ length r.bytes.now };
}

impl<'a> Reader<'a> {
    /// A reader that stands at the front of the bytes.
    pub fn new(bytes: &'a [u8]) -> Reader<'a>
        ensures { result ≡ record { bytes = bytes.entry.now; at = 0 } }
    {
        Reader { bytes, at: 0 }
    }

    /// The word that follows: 8 bytes, the lowest first.
    ///
    /// `At` comes with the offset of its first byte where they aren't all there.
    #[inline]
    #[tactic(auto, unfolding(crate::specs::Fields::word_at))]
    pub fn word(&mut self) -> Result<u64, LoadFault>
        ensures { Finds (field anything) self.old self.new result }
    {
        if self.bytes.len() - self.at < 8 {
            return Err(LoadFault::At(self.at as u64));
        }
        let from = self.at;
        self.at += 8;
        Ok(LittleEndian::read_u64(&self.bytes[from..from + 8]))
    }

    /// The word that follows, a number from `low` to `high`.
    ///
    /// `At` comes with the offset of its first byte where it isn't whole, or no such number.
    #[inline]
    #[tactic(auto, unfolding(crate::specs::Fields::word_at))]
    pub fn from_to(&mut self, low: u64, high: u64) -> Result<u64, LoadFault>
        ensures finds { Finds (field (is_from_to low high)) self.old self.new result }
        ensures low { IfOk result (λ n. low ≤ n) }
        ensures high { IfOk result (λ n. n ≤ high) }
    {
        let at = self.at;
        let n = self.word()?;
        if n < low || n > high {
            return Err(LoadFault::At(at as u64));
        }
        Ok(n)
    }

    /// The word that follows, a number up to `high`.
    ///
    /// `At` comes with the offset of its first byte where it isn't whole, or a greater number.
    #[inline]
    pub fn up_to(&mut self, high: u64) -> Result<u64, LoadFault>
        ensures finds { Finds (field (is_up_to high)) self.old self.new result }
        ensures bound { IfOk result (λ n. n ≤ high) }
    {
        let at = self.at;
        let n = self.word()?;
        if n > high {
            return Err(LoadFault::At(at as u64));
        }
        Ok(n)
    }

    /// Passes over a word that is zero.
    ///
    /// `At` comes with the offset of its first byte where it isn't whole, or not zero.
    #[inline]
    pub fn zero(&mut self) -> Result<(), LoadFault>
        ensures { FindsThat (field is_zero) self.old self.new result 0 }
    {
        let at = self.at;
        if self.word()? != 0 {
            return Err(LoadFault::At(at as u64));
        }
        Ok(())
    }

    /// The `n` bytes that follow.
    ///
    /// `At` comes with the offset of the first of them where they aren't all there.
    #[inline]
    pub fn text(&mut self, n: usize) -> Result<&'a [u8], LoadFault>
        ensures finds { FindsAs (λ t. t.now) (text n any_text) self.old self.new result }
        ensures len { IfOk result (λ t. length t.now ≡ n) }
        ensures within { OnOk result (self.old.at + n < 2 ^ 64) }
    {
        if self.bytes.len() - self.at < n {
            return Err(LoadFault::At(self.at as u64));
        }
        let from = self.at;
        self.at += n;
        Ok(&self.bytes[from..self.at])
    }

    /// The offset at which it stands.
    #[inline]
    pub fn at(&self) -> usize
        ensures at { result ≡ self.now.at }
        ensures within { result ≤ length self.now.bytes }
    {
        self.at
    }

    /// All of the bytes, also those that it has passed.
    #[inline]
    pub fn bytes(&self) -> &'a [u8]
        ensures bytes { result.now ≡ self.now.bytes }
        ensures small { length self.now.bytes < 2 ^ 63 }
        ensures within { self.now.at ≤ length self.now.bytes }
    {
        self.bytes
    }

    /// Passes over `n` bytes, which are there.
    #[inline]
    pub fn skip(&mut self, n: usize)
        requires { self.old.at + n ≤ length self.old.bytes }
        ensures { self.new ≡ record self.old { at = self.old.at + n } }
    {
        self.at += n;
    }

    /// Nothing, where it stands behind the last byte.
    ///
    /// `At` comes with its offset where a byte follows.
    pub fn end(&self) -> Result<(), LoadFault>
        ensures { Finds nothing_more self.now self.now result }
    {
        if self.at < self.bytes.len() {
            return Err(LoadFault::At(self.at as u64));
        }
        Ok(())
    }
}
