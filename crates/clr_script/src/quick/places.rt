//! Numbers and locals at places of a text that has enough bytes behind them. Nothing is cut off, so a place is all that
//! goes from one reader to the next, and no byte's place is tested.
ghost use Rattle.std.specs.Prelude.{◌≡◌, ◌<◌, ◌≤◌, ◌+◌, ◌*◌, ◌^◌, ◌∷◌, ◌++◌, ℕ, IfSome, IsTrue, decimal, drop, length};
ghost use Rattle.clr_model.specs.LineGrammar.{thread_word};

use crate::cut::is_word;

/// Below this number one digit more fits 64 bits.
const ROOM: u64 = 1_000_000_000_000_000_000;

/// A space and the letter of locals, as `two_bytes` gives them.
const LOCAL: u16 = 0x6c20;

// The two bytes at a place, the first one the lowest.
#[inline(always)]
fn two_bytes(text: &[u8], at: usize) -> u16
    requires { at + 2 ≤ length text.now }
    ensures { (a b : ℕ) → a < 256 → b < 256 → result ≡ a + 256 * b
        → drop at text.now ≡ a ∷ b ∷ drop (at + 2) text.now }
{
    u16::from_le_bytes([text[at], text[at + 1]])
}

/// The four bytes at a place, the first one the lowest.
#[inline(always)]
pub fn four_bytes(text: &[u8], at: usize) -> u32
    requires { at + 4 ≤ length text.now }
    ensures { (a b c d : ℕ) → a < 256 → b < 256 → c < 256 → d < 256
        → result ≡ a + 256 * b + 65536 * c + 16777216 * d
        → drop at text.now ≡ a ∷ b ∷ c ∷ d ∷ drop (at + 4) text.now }
{
    let Some(bytes) = text[at..].first_chunk::<4>() else {
        unreachable!()
    };
    u32::from_le_bytes(*bytes)
}

/// Whether this byte stands at a place.
#[inline(always)]
pub fn is_at(text: &[u8], at: usize, byte: u8) -> bool
    requires { at < length text.now }
    ensures { IsTrue result → drop at text.now ≡ byte ∷ drop (at + 1) text.now }
{
    text[at] == byte
}

// The digit at a place, and 10 or more where another byte stands there.
#[inline(always)]
fn digit_at(text: &[u8], at: usize) -> u64
    requires { at < length text.now }
    ensures { result < 10 → drop at text.now ≡ (48 + result) ∷ drop (at + 1) text.now }
{
    u64::from(text[at].wrapping_sub(b'0'))
}

// The number of one or two digits at a place, and where it ends.
#[inline(always)]
fn short_number(text: &[u8], at: usize) -> Option<(u64, usize)>
    requires { at + 2 ≤ length text.now }
    ensures read { IfSome result (λ p. (drop at text.now ≡ decimal p.0 ++ drop p.1 text.now) × (p.0 < 2 ^ 64)) }
    ensures near { IfSome result (λ p. p.1 ≤ at + 2) }
{
    let front = digit_at(text, at);
    if front > 9 {
        return None;
    }
    let second = digit_at(text, at + 1);
    if second > 9 {
        return Some((front, at + 1));
    }
    if front == 0 {
        return None;
    }
    Some((front * 10 + second, at + 2))
}

// The number that goes on with the digits at a place, up to 19 digits, and where it ends.
#[inline(always)]
fn more_digits(text: &[u8], from: usize, front: u64) -> (u64, usize)
    requires some { 0 < front }
    requires digit { front < 10 }
    requires room { from + 20 ≤ length text.now }
    ensures read { decimal front ++ drop from text.now ≡ decimal result.0 ++ drop result.1 text.now }
    ensures fits { result.0 < 2 ^ 64 }
    ensures near { result.1 ≤ from + 19 }
{
    let mut number = front;
    let mut at = from;
    while number < ROOM {
        let digit = digit_at(text, at);
        if digit > 9 {
            break;
        }
        number = number * 10 + digit;
        at += 1;
    }
    (number, at)
}

// The number of at most 19 digits at a place, and where it ends. Nothing goes on behind a digit 0.
#[inline(always)]
fn long_number(text: &[u8], at: usize) -> Option<(u64, usize)>
    requires { at + 21 ≤ length text.now }
    ensures read { IfSome result (λ p. (drop at text.now ≡ decimal p.0 ++ drop p.1 text.now) × (p.0 < 2 ^ 64)) }
    ensures near { IfSome result (λ p. p.1 ≤ at + 20) }
{
    let front = digit_at(text, at);
    if front > 9 {
        return None;
    }
    if front == 0 {
        return Some((0, at + 1));
    }
    Some(more_digits(text, at + 1, front))
}

/// The thread of one or two digits whose word is the first of a text, and where what is behind the space after it
/// begins.
#[inline(always)]
pub fn thread_at(text: &[u8]) -> Option<(u64, usize)>
    requires { 4 ≤ length text.now }
    ensures read { IfSome result (λ p. (text.now ≡ thread_word p.0 ++ 32 ∷ drop p.1 text.now) × (p.0 < 2 ^ 64)) }
    ensures near { IfSome result (λ p. p.1 ≤ 4) }
{
    if !is_at(text, 0, b't') {
        return None;
    }
    let (t, at) = short_number(text, 1)?;
    if is_at(text, at, b' ') {
        Some((t, at + 1))
    } else {
        None
    }
}

/// The local of the word at a place, of one or two digits, and where it ends.
#[inline(always)]
pub fn local_at(text: &[u8], at: usize) -> Option<(u64, usize)>
    requires { at + 4 ≤ length text.now }
    ensures read { IfSome result (λ p. (drop at text.now ≡ (32 ∷ 108 ∷ decimal p.0) ++ drop p.1 text.now)
        × (p.0 < 2 ^ 64)) }
    ensures near { IfSome result (λ p. p.1 ≤ at + 4) }
{
    if two_bytes(text, at) == LOCAL {
        short_number(text, at + 2)
    } else {
        None
    }
}

/// The local of the word whose space stands before a place, of one or two digits, and where it ends.
#[inline(always)]
pub fn local_here(text: &[u8], at: usize) -> Option<(u64, usize)>
    requires { at + 3 ≤ length text.now }
    ensures read { IfSome result (λ p. (32 ∷ drop at text.now ≡ (32 ∷ 108 ∷ decimal p.0) ++ drop p.1 text.now)
        × (p.0 < 2 ^ 64)) }
    ensures near { IfSome result (λ p. p.1 ≤ at + 3) }
{
    if is_at(text, at, b'l') {
        short_number(text, at + 1)
    } else {
        None
    }
}

/// The number of the word at a place, and where it ends.
#[inline(always)]
pub fn number_at(text: &[u8], at: usize) -> Option<(u64, usize)>
    requires { at + 22 ≤ length text.now }
    ensures read { IfSome result (λ p. (drop at text.now ≡ (32 ∷ decimal p.0) ++ drop p.1 text.now) × (p.0 < 2 ^ 64)) }
    ensures near { IfSome result (λ p. p.1 ≤ at + 21) }
{
    if is_at(text, at, b' ') {
        long_number(text, at + 1)
    } else {
        None
    }
}

/// Where what is behind the line feed at a place begins.
#[inline(always)]
pub fn feed_at(text: &[u8], at: usize) -> Option<usize>
    requires { at < length text.now }
    ensures read { IfSome result (λ end. drop at text.now ≡ 10 ∷ drop end text.now) }
    ensures near { IfSome result (λ end. end ≤ at + 1) }
{
    if is_at(text, at, b'\n') {
        Some(at + 1)
    } else {
        None
    }
}

/// Where a text ends that stands at a place.
#[inline(always)]
pub fn text_at(text: &[u8], at: usize, word: &[u8]) -> Option<usize>
    requires { at + length word.now ≤ length text.now }
    ensures read { IfSome result (λ end. drop at text.now ≡ word.now ++ drop end text.now) }
    ensures near { IfSome result (λ end. end ≡ at + length word.now) }
{
    let end = at + word.len();
    if is_word(&text[at..end], word) {
        Some(end)
    } else {
        None
    }
}
