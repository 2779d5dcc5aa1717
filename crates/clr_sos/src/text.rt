// Text that grows at its end.
ghost use Rattle.std.specs.Prelude.{◌≡◌, ◌+◌, ◌≤◌, ◌<◌, ◌++◌, ◌∷◌, [], OnOk, decimal, drop, length, take};
ghost use Rattle.clr_nums.specs.Numbers.{hex16};
ghost use Rattle.clr_model.specs.ReplyText.{place_text};
ghost use Rattle.clr_sos.specs.TextPieces.{head_words};

use clr_nums::{put_dec, put_hex16};
use std::alloc::AllocError;

/// Puts 16 hexadecimal digits at the end.
pub fn put_address(text: &mut Vec<u8>, v: u64) -> Result<(), AllocError>
    ensures { OnOk result (text.new.items ≡ text.old.items ++ hex16 v) }
{
    let mut digits = [0; 16];
    put_hex16(v, &mut digits);
    text.extend_from_slice(&digits)?;
    Ok(())
}

/// Puts a decimal number at the end.
pub fn put_number(text: &mut Vec<u8>, v: u64) -> Result<(), AllocError>
    ensures { OnOk result (text.new.items ≡ text.old.items ++ decimal v) }
{
    let mut digits = [0; 20];
    let count = put_dec(v, &mut digits);
    text.extend_from_slice(&digits[..count])?;
    Ok(())
}

/// Puts a text and a decimal number behind it at the end.
#[inline(always)]
pub fn put_word_number(text: &mut Vec<u8>, word: &[u8], v: u64) -> Result<(), AllocError>
    ensures { OnOk result (text.new.items ≡ (text.old.items ++ word.now) ++ decimal v) }
{
    text.extend_from_slice(word)?;
    put_number(text, v)
}

/// Puts a text and 16 hexadecimal digits behind it at the end.
#[inline(always)]
pub fn put_word_address(text: &mut Vec<u8>, word: &[u8], v: u64) -> Result<(), AllocError>
    ensures { OnOk result (text.new.items ≡ (text.old.items ++ word.now) ++ hex16 v) }
{
    text.extend_from_slice(word)?;
    put_address(text, v)
}

/// Puts two texts at the end.
#[inline(always)]
pub fn put_words(text: &mut Vec<u8>, first: &[u8], second: &[u8]) -> Result<(), AllocError>
    ensures { OnOk result (text.new.items ≡ (text.old.items ++ first.now) ++ second.now) }
{
    text.extend_from_slice(first)?;
    text.extend_from_slice(second)?;
    Ok(())
}

/// Puts a place at the end: `null` for 0, else 16 hexadecimal digits.
pub fn put_place(text: &mut Vec<u8>, place: u64) -> Result<(), AllocError>
    ensures { OnOk result (text.new.items ≡ text.old.items ++ place_text place) }
{
    if place == 0 {
        text.extend_from_slice(b"null")?;
        return Ok(());
    }
    put_address(text, place)
}

/// Puts a place, a method table word and a size at the end, and a space behind each. They are written side by side
/// first, so that the text grows once.
pub(crate) fn put_head(text: &mut Vec<u8>, place: u64, mt: u64, size: u64) -> Result<(), AllocError>
    ensures { OnOk result (text.new.items ≡ text.old.items ++ head_words place mt size) }
{
    let mut head = [0; 56];
    let end = write_head(&mut head, place, mt, size);
    text.extend_from_slice(&head[..end])?;
    Ok(())
}

/// Writes a place, a method table word and a size at the front, a space behind each, and gives where the last space
/// ends.
#[inline(always)]
pub(crate) fn write_head(into: &mut [u8; 56], place: u64, mt: u64, size: u64) -> usize
    ensures end { result ≤ 56 }
    ensures text { take result into.new ≡ head_words place mt size }
{
    let at = append_address(into, 0, place);
    let at = append_address(into, at, mt);
    append_number(into, at, size)
}

// Writes 16 hexadecimal digits and a space behind the first `at` bytes, and gives where the space ends.
#[inline(always)]
fn append_address(into: &mut [u8; 56], at: usize, v: u64) -> usize
    requires { at ≤ 17 }
    ensures end { result ≡ at + 17 }
    ensures text { take result into.new ≡ take at into.old ++ (hex16 v ++ (32 ∷ [])) }
{
    let at = append_hex(into, at, v);
    append_space(into, at)
}

// Writes decimal digits and a space behind the first `at` bytes, and gives where the space ends.
#[inline(always)]
fn append_number(into: &mut [u8; 56], at: usize, v: u64) -> usize
    requires { at ≤ 34 }
    ensures end { result ≤ at + 21 }
    ensures text { take result into.new ≡ take at into.old ++ (decimal v ++ (32 ∷ [])) }
{
    let at = append_decimal(into, at, v);
    append_space(into, at)
}

// Writes 16 hexadecimal digits behind the first `at` bytes, and gives where they end.
#[inline(always)]
fn append_hex(into: &mut [u8; 56], at: usize, v: u64) -> usize
    requires { at ≤ 40 }
    ensures end { result ≡ at + 16 }
    ensures text { take result into.new ≡ take at into.old ++ hex16 v }
{
    put_hex_digits(v, &mut into[at..]);
    at + 16
}

// Writes decimal digits behind the first `at` bytes, and gives where they end.
#[inline(always)]
fn append_decimal(into: &mut [u8; 56], at: usize, v: u64) -> usize
    requires { at ≤ 36 }
    ensures end { result ≤ at + 20 }
    ensures text { take result into.new ≡ take at into.old ++ decimal v }
{
    let count = put_digits(v, &mut into[at..]);
    at + count
}

// Writes a space behind the first `at` bytes, and gives where it ends.
#[inline(always)]
fn append_space(into: &mut [u8; 56], at: usize) -> usize
    requires { at < 56 }
    ensures end { result ≡ at + 1 }
    ensures text { take result into.new ≡ take at into.old ++ (32 ∷ []) }
{
    let end = at + 1;
    into[at..end].copy_from_slice(b" ");
    end
}

// Writes 16 hexadecimal digits at the front. The bytes behind them stay.
#[inline(always)]
fn put_hex_digits(v: u64, into: &mut [u8])
    requires { 16 ≤ length into.old }
    ensures { into.new ≡ hex16 v ++ drop 16 into.old }
{
    if let Some(digits) = into.first_chunk_mut::<16>() {
        put_hex16(v, digits);
    }
}

// Writes decimal digits at the front, and gives their count.
#[inline(always)]
fn put_digits(v: u64, into: &mut [u8]) -> usize
    requires { 20 ≤ length into.old }
    ensures fits { result ≤ 20 }
    ensures within { result ≤ length into.new }
    ensures text { take result into.new ≡ decimal v }
{
    match into.first_chunk_mut::<20>() {
        Some(digits) => put_dec(v, digits),
        None => 0,
    }
}
