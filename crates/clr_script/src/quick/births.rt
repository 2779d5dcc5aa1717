//! The lines that make objects, in front of a text, and the whole ones that collect them. Each reader takes the text
//! behind the verb that its contract names.
ghost use Rattle.std.specs.Prelude.{◌≡◌, ◌∷◌, ◌++◌, ◌≤◌, ◌+◌, ℕ, List, IfSome, IsTrue, codes, drop, length};
ghost use Rattle.std.specs.Prelude.{position, not};
ghost use Rattle.std.specs.List.{list_all};
ghost use Rattle.clr_model.specs.LineGrammar.{is_name, is_name_byte, how_words, number_words, IsHowForm, IsWord};
ghost use Rattle.clr_model.specs.Instructions.{new_object};
ghost use Rattle.clr_script.specs.Fronts.{behind, Continues, SpellsBehind};

use crate::fields::{continues_name, starts_name};
use crate::quick::digits::{end_number, take_local, take_number};
use crate::quick::places::{feed_at, is_at, number_at};
use clr_model::{Command, How};

// Where the first byte stands that may not stand in a name.
#[inline(always)]
fn first_other(text: &[u8]) -> Option<usize>
    ensures { result ≡ position (λ b. not (is_name_byte b)) text.now }
{
    text.iter().position(|b| !continues_name(*b))
}

// The bytes in front that may stand in a name, and what is behind them.
#[inline(always)]
fn cut_name(text: &[u8]) -> (&[u8], &[u8])
    ensures whole { text.now ≡ result.0.now ++ result.1.now }
    ensures named { IsTrue (list_all is_name_byte result.0.now) }
{
    match first_other(text) {
        None => (text, &[]),
        Some(at) => text.split_at(at),
    }
}

// The name in front, and what is behind it. A name goes as far as its bytes do.
#[inline(always)]
fn front_name(text: &[u8]) -> Option<(&[u8], &[u8])>
    ensures { IfSome result (λ p. (text.now ≡ p.0.now ++ p.1.now) × IsTrue (is_name p.0.now)) }
{
    let (name, rest) = cut_name(text);
    let (first, more) = name.split_first()?;
    if starts_name(*first) && more.len() <= 127 {
        Some((name, rest))
    } else {
        None
    }
}

// Whether two texts are equal. It says no where they are, too, but for one byte and four to eight, as most names have.
#[inline(always)]
fn is_same(text: &[u8], other: &[u8]) -> bool
    ensures { IsTrue result → text.now ≡ other.now }
{
    if text.len() != other.len() {
        return false;
    }
    if text.len() == 1 {
        return text[0] == other[0];
    }
    if text.len() < 4 || 8 < text.len() {
        return false;
    }
    text.first_chunk::<4>() == other.first_chunk::<4>()
        && text.last_chunk::<4>() == other.last_chunk::<4>()
}

/// The name that is the word at a place, where it is the hint, and where it ends.
#[inline(always)]
pub fn name_at<'a>(text: &'a [u8], at: usize, hint: &[u8]) -> Option<(&'a [u8], usize)>
    requires { at + 10 ≤ length text.now }
    ensures cut { IfSome result (λ p. drop at text.now ≡ (32 ∷ p.0.now) ++ drop p.1 text.now) }
    ensures same { IfSome result (λ p. p.0.now ≡ hint.now) }
    ensures near { IfSome result (λ p. p.1 ≤ at + 9) }
{
    if hint.len() > 8 {
        return None;
    }
    if !is_at(text, at, b' ') {
        return None;
    }
    let end = at + 1 + hint.len();
    let name = &text[at + 1..end];
    if is_same(name, hint) && ends_word(text[end]) {
        Some((name, end))
    } else {
        None
    }
}

// Whether a word ends before this byte.
#[inline(always)]
fn ends_word(b: u8) -> bool {
    b == b'\n' || b == b' '
}

/// The length that is the last word of a line at a place, or nothing, and where what is behind the line feed begins.
#[inline(always)]
pub fn length_at(text: &[u8], at: usize) -> Option<(Option<u64>, usize)>
    requires { at + 23 ≤ length text.now }
    ensures read { IfSome result (λ p. (drop at text.now ≡ behind (number_words p.0) ++ 10 ∷ drop p.1 text.now)
        × IfSome p.0 IsWord) }
    ensures near { IfSome result (λ p. p.1 ≤ at + 22) }
{
    if is_at(text, at, b'\n') {
        return Some((None, at + 1));
    }
    let (len, next) = number_at(text, at)?;
    let end = feed_at(text, next)?;
    Some((Some(len), end))
}

// The name that is the next word, and what is behind it.
#[inline(always)]
fn take_name(text: &[u8]) -> Option<(&[u8], &[u8])>
    ensures { IfSome result (λ p. (text.now ≡ (32 ∷ p.0.now) ++ p.1.now) × IsTrue (is_name p.0.now)) }
{
    match text {
        [b' ', word @ ..] => front_name(word),
        _ => None,
    }
}

// The length that is the last word of a line, or nothing, and what is behind its line feed.
#[inline(always)]
fn end_length(text: &[u8]) -> Option<(Option<u64>, &[u8])>
    ensures { IfSome result (λ p. (text.now ≡ behind (number_words p.0) ++ 10 ∷ p.1.now) × IfSome p.0 IsWord) }
{
    if let [b'\n', rest @ ..] = text {
        return Some((None, rest));
    }
    let (len, rest) = end_number(text)?;
    Some((Some(len), rest))
}

/// The line of a birth, as it was read behind its verb.
#[derive(Clone, Copy)]
pub struct NewLine<'a> {
    /// The local that gets the newborn.
    pub local: u64,
    /// The name of its type.
    pub name: &'a [u8],
    /// How many elements it has, where the line tells.
    pub len: Option<u64>,
    /// What is behind the line's feed.
    pub rest: &'a [u8],
}

/// For which local, of which type and how long an object is made, and what is behind that line.
pub fn read_new<'a>(text: &'a [u8]) -> Option<NewLine<'a>>
    ensures line { IfSome result (λ l. Continues (codes "new") (λ t. new_object t l.local l.name.now l.len)
        text.now l.rest.now) }
    ensures ends { IfSome result (λ l. (front : List ℕ) × (text.now ≡ front ++ l.rest.now)) }
{
    let (local, rest) = take_local(text)?;
    let (name, rest) = take_name(rest)?;
    let (len, rest) = end_length(rest)?;
    Some(NewLine {
        local,
        name,
        len,
        rest,
    })
}

// How to collect, but for `fitting`: the last word, or nothing.
fn last_how(text: &[u8]) -> Option<How>
    ensures { IfSome result (λ how. (text.now ≡ behind (how_words how)) × ((g : ℕ) → g ≤ 2 → IsHowForm g how)) }
{
    if text.is_empty() {
        return Some(How::Decide);
    }
    if text == b" compacting".as_slice() {
        return Some(How::Compact);
    }
    if text == b" sweeping".as_slice() {
        return Some(How::Sweep);
    }
    None
}

/// Which generation is collected, and how.
pub fn read_collect<'a>(t: u64, text: &'a [u8]) -> Option<Command<'a>>
    ensures { IfSome result (λ command. SpellsBehind t (codes "collect") text.now command) }
{
    let (g, rest) = take_number(text)?;
    let how = last_how(rest)?;
    if g <= 2 {
        Some(Command::Collect { t, g: g as u8, how })
    } else {
        None
    }
}
