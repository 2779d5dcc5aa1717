//! What stands behind the verb of a thread's line.
ghost use Rattle.std.specs.Prelude.{◌≡◌, ℕ};
ghost use Rattle.std.specs.Option.{option_map, option_and_then};
ghost use Rattle.clr_model.specs.Parsing.{one_local_in, one_handle_in, address_after_in, locals_in};
ghost use Rattle.clr_model.specs.Parsing.{local_and_number_in, local_and_handle_in, load_in, store_in, number_store_in};
ghost use Rattle.clr_model.specs.Parsing.{length_in, birth_in, how_in, one_number_in, second_in};
ghost use Rattle.clr_script.specs.Cuts.{words_left};
ghost use Rattle.clr_script.specs.Readings.{fitting_in};

use crate::cut::{Rest, is_word, no_word, one_word, take_word, three_words, two_words};
use crate::fields::{read_address, read_handle, read_local, read_name, read_number};
use crate::table::by_row;
use clr_model::How;
use clr_types::Kind;

// All three, where each is there.
#[inline(always)]
fn all(first: Option<u64>, second: Option<u64>, third: Option<u64>) -> Option<(u64, u64, u64)>
    ensures { result ≡ option_and_then (λ a. option_and_then (λ b. option_map (λ c. (a, b, c)) third) second) first }
{
    Some((first?, second?, third?))
}

/// A local.
#[tactic(auto, unfolding(clr_model::specs::Parsing::one_local_in))]
pub fn read_one_local(rest: Rest<'_>) -> Option<u64>
    ensures { result ≡ one_local_in (words_left rest.entry) }
{
    read_local(one_word(rest)?)
}

/// A handle.
#[tactic(auto, unfolding(clr_model::specs::Parsing::one_handle_in))]
pub fn read_one_handle(rest: Rest<'_>) -> Option<u64>
    ensures { result ≡ one_handle_in (words_left rest.entry) }
{
    read_handle(one_word(rest)?)
}

/// A number.
#[tactic(auto, unfolding(clr_model::specs::Parsing::one_number_in))]
pub fn read_one_number(rest: Rest<'_>) -> Option<u64>
    ensures { result ≡ one_number_in (words_left rest.entry) }
{
    read_number(one_word(rest)?)
}

/// An address.
#[tactic(auto, unfolding(clr_model::specs::Parsing::address_after_in))]
pub fn read_one_address(rest: Rest<'_>) -> Option<u64>
    ensures { result ≡ address_after_in (words_left rest.entry) }
{
    read_address(one_word(rest)?)
}

/// Two locals.
#[tactic(auto, unfolding(clr_model::specs::Parsing::locals_in))]
pub fn read_locals(rest: Rest<'_>) -> Option<(u64, u64)>
    ensures { result ≡ locals_in (words_left rest.entry) }
{
    let (to, from) = two_words(rest)?;
    read_local(to).zip(read_local(from))
}

/// A local and a number.
#[tactic(auto, unfolding(clr_model::specs::Parsing::local_and_number_in))]
pub fn read_local_and_number(rest: Rest<'_>) -> Option<(u64, u64)>
    ensures { result ≡ local_and_number_in (words_left rest.entry) }
{
    let (from, index) = two_words(rest)?;
    read_local(from).zip(read_number(index))
}

/// A local and a handle.
#[tactic(auto, unfolding(clr_model::specs::Parsing::local_and_handle_in))]
pub fn read_local_and_handle(rest: Rest<'_>) -> Option<(u64, u64)>
    ensures { result ≡ local_and_handle_in (words_left rest.entry) }
{
    let (to, h) = two_words(rest)?;
    read_local(to).zip(read_handle(h))
}

/// Two locals and a number.
#[tactic(auto, unfolding(clr_model::specs::Parsing::load_in))]
pub fn read_load(rest: Rest<'_>) -> Option<(u64, u64, u64)>
    ensures { result ≡ load_in (words_left rest.entry) }
{
    let (to, from, index) = three_words(rest)?;
    all(read_local(to), read_local(from), read_number(index))
}

/// A local, a number and a local.
#[tactic(auto, unfolding(clr_model::specs::Parsing::store_in))]
pub fn read_store(rest: Rest<'_>) -> Option<(u64, u64, u64)>
    ensures { result ≡ store_in (words_left rest.entry) }
{
    let (into, index, from) = three_words(rest)?;
    all(read_local(into), read_number(index), read_local(from))
}

/// A local and two numbers.
#[tactic(auto, unfolding(clr_model::specs::Parsing::number_store_in))]
pub fn read_number_store(rest: Rest<'_>) -> Option<(u64, u64, u64)>
    ensures { result ≡ number_store_in (words_left rest.entry) }
{
    let (into, index, value) = three_words(rest)?;
    all(read_local(into), read_number(index), read_number(value))
}

// A number, or nothing.
#[tactic(auto, unfolding(clr_model::specs::Parsing::length_in))]
fn read_length(rest: Rest<'_>) -> Option<Option<u64>>
    ensures { result ≡ length_in (words_left rest.entry) }
{
    let Some((word, rest)) = take_word(rest) else {
        return Some(None);
    };
    no_word(rest)?;
    Some(Some(read_number(word)?))
}

/// A local, a name, and a number if one is written.
#[tactic(auto, unfolding(clr_model::specs::Parsing::birth_in))]
pub fn read_birth<'a>(rest: Rest<'a>) -> Option<(u64, &'a [u8], Option<u64>)>
    ensures { option_map (λ b. (b.0, b.1.now, b.2)) result ≡ birth_in (words_left rest.entry) }
{
    let (local, rest) = take_word(rest)?;
    let (name, rest) = take_word(rest)?;
    let local = read_local(local)?;
    let name = read_name(name)?;
    Some((local, name, read_length(rest)?))
}

// `fitting` for generation 1.
fn read_fitting(g: u8, word: &[u8]) -> Option<How>
    ensures { result ≡ fitting_in g word.now }
{
    if g == 1 && is_word(word, b"fitting") {
        Some(How::Fit)
    } else {
        None
    }
}

/// `compacting`, `sweeping` or nothing, or `fitting` for generation 1.
#[tactic(auto, unfolding(clr_model::specs::Parsing::how_in))]
pub fn read_how(g: u8, rest: Rest<'_>) -> Option<How>
    ensures { result ≡ how_in g (words_left rest.entry) }
{
    let Some((word, rest)) = take_word(rest) else {
        return Some(How::Decide);
    };
    no_word(rest)?;
    by_row! { word, read_fitting(g, word);
        b"compacting" => Some(How::Compact),
        b"sweeping" => Some(How::Sweep),
    }
}

/// The second local of a handle: a dependent one has it, and no other.
#[tactic(auto, unfolding(clr_model::specs::Parsing::second_in))]
pub fn read_second(kind: Kind, rest: Rest<'_>) -> Option<Option<u64>>
    ensures { result ≡ second_in kind (words_left rest.entry) }
{
    if kind == Kind::Dependent {
        return Some(Some(read_one_local(rest)?));
    }
    no_word(rest)?;
    Some(None)
}
