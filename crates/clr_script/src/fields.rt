//! Single words, and what they stand for.
ghost use Rattle.std.specs.Prelude.{◌≡◌, ℕ, [], ◌∷◌};
ghost use Rattle.std.specs.Option.{option_map};
ghost use Rattle.std.specs.List.{list_all};
ghost use Rattle.clr_types.specs.Types.{is_pattern_byte};
ghost use Rattle.clr_model.specs.LineGrammar.{is_name_start, is_name_byte};
ghost use Rattle.clr_model.specs.Parsing.{number_in, address_in, numbered_in, thread_in, local_in, handle_in, name_in};
ghost use Rattle.clr_model.specs.Parsing.{pattern_in, kind_in, generation_in};

use crate::cut::is_word;
use crate::table::by_row;
use clr_nums::{read_dec, read_hex};
use clr_types::Kind;

// The number of one digit.
#[inline]
fn read_digit(b: u8) -> Option<u64>
    ensures { result ≡ number_in (b ∷ []) }
{
    if b.is_ascii_digit() {
        Some(u64::from(b - b'0'))
    } else {
        None
    }
}

/// The number of a word in decimal digits, if it fits.
#[inline]
pub fn read_number(word: &[u8]) -> Option<u64>
    ensures { result ≡ number_in word.now }
{
    if let [digit] = word {
        return read_digit(*digit);
    }
    read_dec(word).ok()
}

/// The address of a word of 16 digits.
pub fn read_address(word: &[u8]) -> Option<u64>
    ensures { result ≡ address_in word.now }
{
    read_hex(word)
}

// The number behind this letter.
fn read_numbered(letter: u8, word: &[u8]) -> Option<u64>
    ensures { result ≡ numbered_in letter word.now }
{
    let (first, digits) = word.split_first()?;
    if *first == letter {
        read_number(digits)
    } else {
        None
    }
}

/// The number of a thread.
#[tactic(auto, unfolding(clr_model::specs::Parsing::thread_in))]
pub fn read_thread(word: &[u8]) -> Option<u64>
    ensures { result ≡ thread_in word.now }
{
    read_numbered(b't', word)
}

/// The number of a local.
#[tactic(auto, unfolding(clr_model::specs::Parsing::local_in))]
pub fn read_local(word: &[u8]) -> Option<u64>
    ensures { result ≡ local_in word.now }
{
    read_numbered(b'l', word)
}

/// The number of a handle.
#[tactic(auto, unfolding(clr_model::specs::Parsing::handle_in))]
pub fn read_handle(word: &[u8]) -> Option<u64>
    ensures { result ≡ handle_in word.now }
{
    read_numbered(b'h', word)
}

// Of each byte 2 where a name may begin with it, 1 where it may stand behind that, and 0 where it may not, as digits.
static NAME_BYTES: [u8; 256] = *b"\
    0000000000000000000000000000000000000000000110101111111111001010\
    0222222222222222222222222221010202222222222222222222222222200000\
    0000000000000000000000000000000000000000000000000000000000000000\
    0000000000000000000000000000000000000000000000000000000000000000";

/// Whether a name may begin with this byte.
#[inline(always)]
pub fn starts_name(b: u8) -> bool
    ensures { result ≡ is_name_start b }
{
    NAME_BYTES[usize::from(b)] == b'2'
}

/// Whether this byte may stand in a name.
#[inline(always)]
pub fn continues_name(b: u8) -> bool
    ensures { result ≡ is_name_byte b }
{
    NAME_BYTES[usize::from(b)] != b'0'
}

// Whether each byte may stand in a name.
fn all_go_on(bytes: &[u8]) -> bool
    ensures { result ≡ list_all is_name_byte bytes.now }
{
    bytes.iter().all(|b| continues_name(*b))
}

// Whether the word is a name: at most 128 bytes, and the first one no digit or sign.
fn is_name(word: &[u8]) -> bool
    ensures { result ≡ Rattle.clr_model.specs.LineGrammar.is_name word.now }
{
    match word.split_first() {
        None => false,
        Some((first, rest)) => starts_name(*first) && all_go_on(rest) && rest.len() <= 127,
    }
}

/// The word, if it is a name.
#[tactic(auto, unfolding(clr_model::specs::Parsing::name_in))]
pub fn read_name(word: &[u8]) -> Option<&[u8]>
    ensures { option_map (λ n. n.now) result ≡ name_in word.now }
{
    if is_name(word) { Some(word) } else { None }
}

// Whether each byte is `r` or `n`.
fn all_slots(bytes: &[u8]) -> bool
    ensures { result ≡ list_all is_pattern_byte bytes.now }
{
    bytes.iter().all(|b| *b == b'r' || *b == b'n')
}

/// The pattern that a word stands for, with a byte for each slot: empty for `-`. `None` for any other word than `-` and
/// one or
/// more of `r` and `n`.
#[tactic(auto, unfolding(clr_model::specs::Parsing::pattern_in))]
pub fn read_pattern(word: &[u8]) -> Option<&[u8]>
    ensures { option_map (λ p. p.now) result ≡ pattern_in word.now }
{
    if is_word(word, b"-") {
        return Some(&word[1..]);
    }
    if word.is_empty() || !all_slots(word) {
        return None;
    }
    Some(word)
}

/// The kind of a handle.
#[tactic(auto, unfolding(clr_model::specs::Parsing::kind_in))]
pub fn read_kind(word: &[u8]) -> Option<Kind>
    ensures { result ≡ kind_in word.now }
{
    by_row! { word;
        b"strong" => Some(Kind::Strong),
        b"pinned" => Some(Kind::Pinned),
        b"weak" => Some(Kind::Weak),
        b"weaklong" => Some(Kind::WeakLong),
        b"dependent" => Some(Kind::Dependent),
    }
}

/// The number of a generation, 0, 1 or 2.
#[tactic(auto, unfolding(clr_model::specs::Parsing::generation_in))]
pub fn read_generation(word: &[u8]) -> Option<u8>
    ensures { result ≡ generation_in word.now }
{
    let g = read_number(word)?;
    if g <= 2 { Some(g as u8) } else { None }
}
