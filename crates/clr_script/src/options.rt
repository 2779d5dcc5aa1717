//! The options of `dumpheap`.
ghost use Rattle.std.specs.Prelude.{◌≡◌, ℕ};
ghost use Rattle.std.specs.Option.{option_map};
ghost use Rattle.clr_model.specs.Instructions.{options_of, plain_options};
ghost use Rattle.clr_model.specs.Parsing.{mode_in, life_in, mt_choice_in, name_choice_in, choice_in, number_then_in};
ghost use Rattle.clr_model.specs.Parsing.{size_in, options_in, generation_choice_in, generation_then_in, places_in};
ghost use Rattle.clr_model.specs.Parsing.{address_then_in, segment_choice_in};
ghost use Rattle.clr_script.specs.Cuts.{words_left};
ghost use Rattle.clr_script.specs.Choices.{choice_of};

use crate::cut::{Rest, is_word, no_word, take_word};
use crate::fields::{read_address, read_generation, read_name, read_number};
use crate::table::by_row;
use clr_model::{Filter, Life, Mode};

// The type by its method table word or by its name, or neither.
#[derive(Clone, Copy)]
struct TypeChoice<'a> {
    mt: Option<u64>,
    name: Option<&'a [u8]>,
}

// How to show the heap, and what is left behind that option.
#[tactic(auto, unfolding(clr_model::specs::Parsing::mode_in))]
fn read_mode<'a>(rest: Rest<'a>) -> (Mode, Rest<'a>)
    ensures { (result.0, words_left result.1) ≡ mode_in (words_left rest.entry) }
{
    let Some((word, behind)) = take_word(rest) else {
        return (Mode::Full, rest);
    };
    by_row! { word, (Mode::Full, rest);
        b"-stat" => (Mode::Stat, behind),
        b"-short" => (Mode::Short, behind),
    }
}

// Which objects to show, and what is left behind that option.
#[tactic(auto, unfolding(clr_model::specs::Parsing::life_in))]
fn read_life<'a>(rest: Rest<'a>) -> (Life, Rest<'a>)
    ensures { (result.0, words_left result.1) ≡ life_in (words_left rest.entry) }
{
    let Some((word, behind)) = take_word(rest) else {
        return (Life::Any, rest);
    };
    by_row! { word, (Life::Any, rest);
        b"-live" => (Life::Live, behind),
        b"-dead" => (Life::Dead, behind),
    }
}

// The method table word behind `-mt`.
fn read_mt<'a>(rest: Rest<'a>) -> Option<(TypeChoice<'a>, Rest<'a>)>
    ensures { option_map (λ p. (choice_of p.0, words_left p.1)) result ≡ mt_choice_in (words_left rest.entry) }
{
    let (word, rest) = take_word(rest)?;
    let mt = Some(read_address(word)?);
    Some((TypeChoice { mt, name: None }, rest))
}

// The name behind `-type`.
fn read_type<'a>(rest: Rest<'a>) -> Option<(TypeChoice<'a>, Rest<'a>)>
    ensures { option_map (λ p. (choice_of p.0, words_left p.1)) result ≡ name_choice_in (words_left rest.entry) }
{
    let (word, rest) = take_word(rest)?;
    let name = Some(read_name(word)?);
    Some((TypeChoice { mt: None, name }, rest))
}

// The type whose objects to show, and what is left behind that option.
#[tactic(auto, unfolding(clr_model::specs::Parsing::choice_in))]
fn read_choice<'a>(rest: Rest<'a>) -> Option<(TypeChoice<'a>, Rest<'a>)>
    ensures { option_map (λ p. (choice_of p.0, words_left p.1)) result ≡ choice_in (words_left rest.entry) }
{
    let none = TypeChoice {
        mt: None,
        name: None,
    };
    let Some((word, behind)) = take_word(rest) else {
        return Some((none, rest));
    };
    by_row! { word, Some((none, rest));
        b"-mt" => read_mt(behind),
        b"-type" => read_type(behind),
    }
}

// The number that is due, and what is left behind it.
fn read_number_then<'a>(rest: Rest<'a>) -> Option<(Option<u64>, Rest<'a>)>
    ensures { option_map (λ p. (p.0, words_left p.1)) result ≡ number_then_in (words_left rest.entry) }
{
    let (word, rest) = take_word(rest)?;
    let number = read_number(word)?;
    Some((Some(number), rest))
}

/// The number behind this option, if it is written, and what is left.
#[tactic(auto, unfolding(clr_model::specs::Parsing::size_in))]
pub fn read_size<'a>(option: &[u8], rest: Rest<'a>) -> Option<(Option<u64>, Rest<'a>)>
    ensures { option_map (λ p. (p.0, words_left p.1)) result ≡ size_in option.now (words_left rest.entry) }
{
    let Some((word, behind)) = take_word(rest) else {
        return Some((None, rest));
    };
    if is_word(word, option) {
        read_number_then(behind)
    } else {
        Some((None, rest))
    }
}

// The generation that is due, and what is left behind it.
fn read_generation_then<'a>(rest: Rest<'a>) -> Option<(Option<u8>, Rest<'a>)>
    ensures { option_map (λ p. (p.0, words_left p.1)) result ≡ generation_then_in (words_left rest.entry) }
{
    let (word, rest) = take_word(rest)?;
    let g = read_generation(word)?;
    Some((Some(g), rest))
}

// The generation behind `-gen`, if it is written, and what is left.
#[tactic(auto, unfolding(clr_model::specs::Parsing::generation_choice_in))]
fn read_generation_choice<'a>(rest: Rest<'a>) -> Option<(Option<u8>, Rest<'a>)>
    ensures { option_map (λ p. (p.0, words_left p.1)) result ≡ generation_choice_in (words_left rest.entry) }
{
    let Some((word, behind)) = take_word(rest) else {
        return Some((None, rest));
    };
    by_row! { word, Some((None, rest));
        b"-gen" => read_generation_then(behind),
    }
}

// The address that is due, and what is left behind it.
fn read_address_then<'a>(rest: Rest<'a>) -> Option<(Option<u64>, Rest<'a>)>
    ensures { option_map (λ p. (p.0, words_left p.1)) result ≡ address_then_in (words_left rest.entry) }
{
    let (word, rest) = take_word(rest)?;
    let a = read_address(word)?;
    Some((Some(a), rest))
}

// The base behind `-segment`, if it is written, and what is left.
#[tactic(auto, unfolding(clr_model::specs::Parsing::segment_choice_in))]
fn read_segment_choice<'a>(rest: Rest<'a>) -> Option<(Option<u64>, Rest<'a>)>
    ensures { option_map (λ p. (p.0, words_left p.1)) result ≡ segment_choice_in (words_left rest.entry) }
{
    let Some((word, behind)) = take_word(rest) else {
        return Some((None, rest));
    };
    by_row! { word, Some((None, rest));
        b"-segment" => read_address_then(behind),
    }
}

// The options that say where items stand.
#[tactic(auto, unfolding(clr_model::specs::Parsing::places_in))]
fn read_places(rest: Rest<'_>) -> Option<(Option<u8>, Option<u64>)>
    ensures { result ≡ places_in (words_left rest.entry) }
{
    let (generation, rest) = read_generation_choice(rest)?;
    let (segment, rest) = read_segment_choice(rest)?;
    no_word(rest)?;
    Some((generation, segment))
}

/// What stands behind `dumpheap`.
#[tactic(auto, unfolding(clr_model::specs::Parsing::options_in))]
pub fn read_filter<'a>(rest: Rest<'a>) -> Option<Filter<'a>>
    ensures { option_map options_of result ≡ option_map plain_options (options_in (words_left rest.entry)) }
{
    let (mode, rest) = read_mode(rest);
    let (life, rest) = read_life(rest);
    let (choice, rest) = read_choice(rest)?;
    let (least, rest) = read_size(b"-min", rest)?;
    let (greatest, rest) = read_size(b"-max", rest)?;
    let (generation, segment) = read_places(rest)?;
    Some(Filter {
        mode,
        life,
        mt: choice.mt,
        name: choice.name,
        min: least.unwrap_or(0),
        max: greatest.unwrap_or(u64::MAX),
        generation,
        segment,
    })
}
