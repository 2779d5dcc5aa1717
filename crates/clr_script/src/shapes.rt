//! The lines that define types.
ghost use Rattle.std.specs.Prelude.{◌≡◌, ℕ, List};
ghost use Rattle.clr_model.specs.Parsing.{final_in, class_in, structs_in, shape_in, define_in};
ghost use Rattle.clr_script.specs.Cuts.{words_left};
ghost use Rattle.clr_script.specs.Readings.{Reads, defined};

use crate::cut::{Rest, is_word, no_word, one_word, take_word};
use crate::fields::{read_name, read_pattern};
use crate::table::by_row;
use clr_model::Command;
use clr_types::Shape;

// Whether `final` is written.
#[tactic(auto, unfolding(clr_model::specs::Parsing::final_in))]
fn read_final(rest: Rest<'_>) -> Option<bool>
    ensures { result ≡ final_in (words_left rest.entry) }
{
    let Some((word, rest)) = take_word(rest) else {
        return Some(false);
    };
    no_word(rest)?;
    if is_word(word, b"final") {
        Some(true)
    } else {
        None
    }
}

// A class: its pattern, and whether it has a finaliser.
#[tactic(auto, unfolding(clr_model::specs::Parsing::class_in))]
fn read_class<'a>(rest: Rest<'a>) -> Option<(Shape<'a>, bool)>
    ensures { (name : List ℕ) → defined name result ≡ class_in name (words_left rest.entry) }
{
    let (word, rest) = take_word(rest)?;
    let pattern = read_pattern(word)?;
    let finalizer = read_final(rest)?;
    Some((Shape::Class(pattern), finalizer))
}

// An array of structs: its pattern.
#[tactic(auto, unfolding(clr_model::specs::Parsing::structs_in))]
fn read_structs<'a>(rest: Rest<'a>) -> Option<(Shape<'a>, bool)>
    ensures { (name : List ℕ) → defined name result ≡ structs_in name (words_left rest.entry) }
{
    let pattern = read_pattern(one_word(rest)?)?;
    Some((Shape::StructArray(pattern), false))
}

// A shape that begins with this word, and whether its type has a finaliser.
#[tactic(auto, unfolding(clr_model::specs::Parsing::shape_in))]
fn read_shape<'a>(word: &[u8], rest: Rest<'a>) -> Option<(Shape<'a>, bool)>
    ensures { (name : List ℕ) → defined name result ≡ shape_in name word.now (words_left rest.entry) }
{
    by_row! { word;
        b"class" => read_class(rest),
        b"structs" => read_structs(rest),
        b"refs": () = no_word(rest) => (Shape::RefArray, false),
        b"bytes": () = no_word(rest) => (Shape::ByteArray, false),
    }
}

/// What stands behind `type`.
#[tactic(auto, unfolding(clr_model::specs::Parsing::define_in))]
pub fn read_define<'a>(rest: Rest<'a>) -> Option<Command<'a>>
    ensures { Reads result (define_in (words_left rest.entry)) }
{
    let (name, rest) = take_word(rest)?;
    let (word, rest) = take_word(rest)?;
    let name = read_name(name)?;
    let (shape, finalizer) = read_shape(word, rest)?;
    Some(Command::Define {
        name,
        shape,
        finalizer,
    })
}
