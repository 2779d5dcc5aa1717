// The steps over the bytes that are stored, each with one clause on their list. Words and bytes
// behind them read as 0. A write is "the front, what is written, the rest", and its range must lie
// in the list. No step gives room back.
ghost use Rattle.std.specs.Prelude.{◌≡◌, ℕ, ◌+◌, ◌-◌, ◌*◌, ◌%◌, ◌<◌, ◌≤◌, ◌++◌, length, set, take, drop, replicate};
ghost use Rattle.std.specs.Prelude.{false, true, slice_index};
ghost use Rattle.std.specs.Int.{bytes_low_first};
ghost use Rattle.std.specs.Vec.{vec_capacity};
ghost use Rattle.clr_mem.specs.Stored.{IsReserved};
ghost use Rattle.clr_mem.specs.Words.{is_between, spelled};

use byteorder::{ByteOrder, LittleEndian};
use std::mem::replace;

// The stored bytes grow up to a multiple of this, in bytes, so that they seldom do.
const STEP: usize = 1 << 16;

// The first of them up to a multiple of this, so that small stretches take little.
const FIRST_STEP: usize = 1 << 12;

// How many bytes eight words have.
const EIGHT: usize = 64;

// Sees to it that the byte at `at` is stored. The room of all `size` bytes is reserved.
#[inline(always)]
pub fn reach(bytes: &mut Vec<u8>, size: usize, at: usize)
    requires reserved { IsReserved size (length bytes.old.items) (vec_capacity bytes.old) }
    requires inside { at < size }
    ensures items { bytes.new.items ≡ bytes.old.items
        ++ replicate (length bytes.new.items - length bytes.old.items) 0 }
    ensures more { length bytes.old.items ≤ length bytes.new.items }
    ensures reserved { IsReserved size (length bytes.new.items) (vec_capacity bytes.new) }
    ensures stored { at < length bytes.new.items }
{
    if bytes.len() <= at {
        let step = if at < STEP { FIRST_STEP } else { STEP };
        let len = ((at / step + 1) * step).min(size);
        let stored = replace(bytes, Vec::new(*bytes.allocator()));
        *bytes = store_zeros(stored, len);
    }
}

// Stores zeros behind the bytes, so that they are `len`. It stands apart, so that what writes
// inline stays small, and has the bytes by value, so that no address of theirs leaves a loop.
#[cold]
#[inline(never)]
fn store_zeros(mut bytes: Vec<u8>, len: usize) -> Vec<u8>
    requires room { len ≤ vec_capacity bytes }
    requires more { length bytes.items ≤ len }
    ensures items { result.items ≡ bytes.items ++ replicate (len - length bytes.items) 0 }
    ensures room { vec_capacity bytes ≤ vec_capacity result }
{
    bytes.resize(len, 0).unwrap();
    bytes
}

// The number that the eight bytes from `at` on spell.
#[inline(always)]
pub fn load_word(bytes: &Vec<u8>, at: usize) -> u64
    requires whole { length bytes.now.items % 8 ≡ 0 }
    requires aligned { at % 8 ≡ 0 }
    ensures { result ≡ spelled (drop at bytes.now.items) }
{
    if at < bytes.len() {
        LittleEndian::read_u64(&bytes[at..at + 8])
    } else {
        0
    }
}

// Of the words that the bytes spell, the number of the first one that is one of the numbers from `low` to below `high`,
// and how many words there are where none is. The first eight words are looked at singly, as mostly one of them is in
// the range or there are no more. Then it goes by eights.
#[inline(always)]
pub fn first_word_between(bytes: &[u8], low: u64, high: u64) -> usize
    requires whole { length bytes.now % 8 ≡ 0 }
    ensures most { 8 * result ≤ length bytes.now }
    ensures before { (j : ℕ) → j < result → is_between low high (spelled (drop (8 * j) bytes.now)) ≡ false }
    ensures found { 8 * result < length bytes.now
        → is_between low high (spelled (drop (8 * result) bytes.now)) ≡ true }
{
    let Some((eight, rest)) = bytes.split_first_chunk::<EIGHT>() else {
        return next_between(bytes, low, high);
    };
    let met = next_between(eight, low, high);
    if met < 8 {
        return met;
    }
    8 + first_by_eights(rest, low, high)
}

// The number of the first word from `low` to below `high`, as `first_word_between` finds it, by eights of words, up to
// the first eight that has one. It stands apart, so that the search of a few words stays small where it is inlined.
#[inline(never)]
fn first_by_eights(bytes: &[u8], low: u64, high: u64) -> usize
    requires whole { length bytes.now % 8 ≡ 0 }
    ensures most { 8 * result ≤ length bytes.now }
    ensures before { (j : ℕ) → j < result → is_between low high (spelled (drop (8 * j) bytes.now)) ≡ false }
    ensures found { 8 * result < length bytes.now
        → is_between low high (spelled (drop (8 * result) bytes.now)) ≡ true }
{
    let passed = passed_eights(bytes, low, high);
    8 * passed + next_between(&bytes[EIGHT * passed..], low, high)
}

// How many eights of words come before the first eight that has one of the numbers from `low` to below `high`, or
// before the last words, where these are less than eight.
#[inline(always)]
fn passed_eights(bytes: &[u8], low: u64, high: u64) -> usize
    ensures most { 64 * result ≤ length bytes.now }
    ensures before { (j : ℕ) → j < 8 * result → is_between low high (spelled (drop (8 * j) bytes.now)) ≡ false }
{
    let mut rest = bytes;
    let mut passed = 0;
    while let Some((eight, more)) = rest.split_first_chunk::<EIGHT>() {
        if is_any_between(eight, low, high) {
            return passed;
        }
        rest = more;
        passed += 1;
    }
    passed
}

// Whether one of eight words is one of the numbers from `low` to below `high`. Each is looked at, whatever the others
// are, so that all are tested without a jump.
#[inline(always)]
fn is_any_between(eight: &[u8; 64], low: u64, high: u64) -> bool
    ensures { result ≡ false
        → (j : ℕ) → j < 8 → is_between low high (spelled (drop (8 * j) eight.now)) ≡ false }
{
    let mut any = false;
    for i in 0..8 {
        any |= is_number_between(number_at(eight, i), low, high);
    }
    any
}

// The number that word `i` of eight spells.
#[inline(always)]
fn number_at(eight: &[u8; 64], i: usize) -> u64
    requires { i < 8 }
    ensures { result ≡ spelled (drop (8 * i) eight.now) }
{
    LittleEndian::read_u64(&eight[8 * i..8 * i + 8])
}

// Whether a number is one of those from `low` to below `high`. One below `low` wraps to no less than their count.
#[inline(always)]
pub fn is_number_between(number: u64, low: u64, high: u64) -> bool
    ensures { result ≡ is_between low high number }
{
    number.wrapping_sub(low) < high.saturating_sub(low)
}

// Of the words that the bytes spell, the number of the first one that is one of the numbers from `low` to below `high`,
// and how many words there are where none is, by looking at one after another.
#[inline(always)]
fn next_between(bytes: &[u8], low: u64, high: u64) -> usize
    requires whole { length bytes.now % 8 ≡ 0 }
    ensures most { 8 * result ≤ length bytes.now }
    ensures before { (j : ℕ) → j < result → is_between low high (spelled (drop (8 * j) bytes.now)) ≡ false }
    ensures found { 8 * result < length bytes.now
        → is_between low high (spelled (drop (8 * result) bytes.now)) ≡ true }
{
    let mut rest = bytes;
    let mut passed = 0;
    while let Some((word, more)) = rest.split_first_chunk::<8>() {
        if is_number_between(LittleEndian::read_u64(word), low, high) {
            return passed;
        }
        rest = more;
        passed += 1;
    }
    passed
}

// Writes a number over the eight bytes from `at` on.
#[inline(always)]
pub fn store_word(bytes: &mut Vec<u8>, at: usize, v: u64)
    requires { at + 8 ≤ length bytes.old.items }
    ensures items { bytes.new.items ≡ take at bytes.old.items
        ++ (bytes_low_first 0 8 v ++ drop (at + 8) bytes.old.items) }
    ensures len { length bytes.new.items ≡ length bytes.old.items }
    ensures room { vec_capacity bytes.new ≡ vec_capacity bytes.old }
{
    LittleEndian::write_u64(&mut bytes[at..at + 8], v);
}

// The byte at `at`.
#[inline(always)]
pub fn load_byte(bytes: &Vec<u8>, at: usize) -> u8
    ensures value { result ≡ slice_index bytes.now.items at }
    ensures fits { (j : ℕ) → slice_index bytes.now.items j < 256 }
{
    if at < bytes.len() { bytes[at] } else { 0 }
}

// Writes the byte at `at`.
#[inline(always)]
pub fn store_byte(bytes: &mut Vec<u8>, at: usize, v: u8)
    requires { at < length bytes.old.items }
    ensures items { bytes.new.items ≡ set bytes.old.items at v }
    ensures room { vec_capacity bytes.new ≡ vec_capacity bytes.old }
    ensures fits { (j : ℕ) → slice_index bytes.old.items j < 256 }
{
    bytes[at] = v;
}

// Moves `n` bytes from `start` to `at`. The two ranges may overlap.
pub fn move_bytes(bytes: &mut Vec<u8>, start: usize, at: usize, n: usize)
    requires from_in { start + n ≤ length bytes.old.items }
    requires to_in { at + n ≤ length bytes.old.items }
    ensures items { bytes.new.items ≡ take at bytes.old.items
        ++ (take n (drop start bytes.old.items) ++ drop (at + n) bytes.old.items) }
    ensures len { length bytes.new.items ≡ length bytes.old.items }
    ensures room { vec_capacity bytes.new ≡ vec_capacity bytes.old }
{
    bytes.copy_within(start..start + n, at);
}

// Copies `n` bytes from `start` of `source` to `at`.
pub fn copy_bytes(bytes: &mut Vec<u8>, at: usize, source: &Vec<u8>, start: usize, n: usize)
    requires to_in { at + n ≤ length bytes.old.items }
    requires from_in { start + n ≤ length source.now.items }
    ensures items { bytes.new.items ≡ take at bytes.old.items
        ++ (take n (drop start source.now.items) ++ drop (at + n) bytes.old.items) }
    ensures len { length bytes.new.items ≡ length bytes.old.items }
    ensures room { vec_capacity bytes.new ≡ vec_capacity bytes.old }
{
    bytes[at..at + n].copy_from_slice(&source[start..start + n]);
}

// Writes zeros over `n` bytes from `at` on.
pub fn clear_bytes(bytes: &mut Vec<u8>, at: usize, n: usize)
    requires { at + n ≤ length bytes.old.items }
    ensures items { bytes.new.items ≡ take at bytes.old.items
        ++ (replicate n 0 ++ drop (at + n) bytes.old.items) }
    ensures len { length bytes.new.items ≡ length bytes.old.items }
    ensures room { vec_capacity bytes.new ≡ vec_capacity bytes.old }
{
    bytes[at..at + n].fill(0);
}
