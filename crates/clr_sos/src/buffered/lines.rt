//! Lines that are made in arrays.
ghost use Rattle.std.specs.Prelude.{◌≡◌, ◌+◌, ◌≤◌, ◌++◌, ◌∷◌, [], codes, decimal, length, take};
ghost use Rattle.clr_nums.specs.Numbers.{hex16};
ghost use Rattle.clr_sos.specs.Buffered.{counts_line};
ghost use Rattle.clr_sos.specs.Dumping.{totals_line};

use crate::listing_lines::Totals;
use clr_nums::{put_dec, put_hex16};
use clr_streams::write_behind;

/// Writes the line of the totals at the front, and gives its length.
pub(crate) fn write_totals(into: &mut [u8], totals: Totals) -> usize
    requires { 80 ≤ length into.old }
    ensures end { result ≤ 80 }
    ensures text { take result into.new ≡ totals_line totals }
{
    let at = write_word_number(into, 0, b"total ", totals.objects);
    let at = write_word_number(into, at, b" bytes ", totals.bytes);
    let at = write_word_number(into, at, b" free ", totals.free);
    write_behind(into, at, b"\n")
}

/// Writes the line of the lengths of a finalisation queue at the front, and gives its length.
pub(crate) fn write_counts(into: &mut [u8], entries: u64, ready: u64) -> usize
    requires { 56 ≤ length into.old }
    ensures end { result ≤ 56 }
    ensures text { take result into.new ≡ counts_line entries ready }
{
    let at = write_word_number(into, 0, b"entries ", entries);
    let at = write_word_number(into, at, b" ready ", ready);
    write_behind(into, at, b"\n")
}

/// Writes a word of at most 5 bytes and a place at the front, a space behind each, and gives where the last space ends.
#[inline(always)]
pub(crate) fn write_queued(into: &mut [u8], word: &[u8], place: u64) -> usize
    requires room { 23 ≤ length into.old }
    requires short { length word.now ≤ 5 }
    ensures end { result ≤ 23 }
    ensures text { take result into.new ≡ ((word.now ++ codes " ") ++ hex16 place) ++ codes " " }
{
    let at = write_behind(into, 0, word);
    let at = write_behind(into, at, b" ");
    let at = write_hex(into, at, place);
    write_behind(into, at, b" ")
}

// Writes 16 hexadecimal digits behind the first `at` bytes, and gives where they end.
#[inline(always)]
fn write_hex(into: &mut [u8], at: usize, v: u64) -> usize
    requires { at + 16 ≤ length into.old }
    ensures end { result ≡ at + 16 }
    ensures text { take result into.new ≡ take at into.old ++ hex16 v }
{
    let mut digits = [0; 16];
    put_hex16(v, &mut digits);
    write_behind(into, at, &digits)
}

// Writes a word and a decimal number behind the first `at` bytes, and gives where they end.
fn write_word_number(into: &mut [u8], at: usize, word: &[u8], v: u64) -> usize
    requires { at + length word.now + 20 ≤ length into.old }
    ensures end { result ≤ at + length word.now + 20 }
    ensures text { take result into.new ≡ (take at into.old ++ word.now) ++ decimal v }
{
    let mut digits = [0; 20];
    let count = put_dec(v, &mut digits);
    let at = write_behind(into, at, word);
    write_behind(into, at, &digits[..count])
}
