//! Lines that look at the heap and change nothing.
ghost use Rattle.std.specs.Prelude.{◌≡◌};
ghost use Rattle.clr_model.specs.Parsing.{addresses_in, handles_in, look_in, one_kind_in, roots_in, slots_in};
ghost use Rattle.clr_model.specs.Parsing.{unrooted_in};
ghost use Rattle.clr_script.specs.Cuts.{words_left};
ghost use Rattle.clr_script.specs.Readings.{Reads};

use crate::arguments::read_one_address;
use crate::cut::{Rest, is_word, no_word, one_word, take_word, two_words};
use crate::fields::{read_address, read_kind};
use crate::options::read_size;
use crate::table::{by_row, look_rows};
use clr_model::{Command, Look};
use clr_types::Kind;

// Two addresses.
#[tactic(auto, unfolding(clr_model::specs::Parsing::addresses_in))]
fn read_addresses(rest: Rest<'_>) -> Option<(u64, u64)>
    ensures { result ≡ addresses_in (words_left rest.entry) }
{
    let (a, b) = two_words(rest)?;
    read_address(a).zip(read_address(b))
}

// Whether `-inclUnrooted` is written, alone.
#[tactic(auto, unfolding(clr_model::specs::Parsing::unrooted_in))]
fn read_unrooted(rest: Rest<'_>) -> Option<bool>
    ensures { result ≡ unrooted_in (words_left rest.entry) }
{
    let Some((word, rest)) = take_word(rest) else {
        return Some(false);
    };
    no_word(rest)?;
    if is_word(word, b"-inclUnrooted") {
        Some(true)
    } else {
        None
    }
}

// What stands behind `dumparray`: from which slot on, how many, and of which object.
#[tactic(auto, unfolding(clr_model::specs::Parsing::slots_in))]
fn read_slots(rest: Rest<'_>) -> Option<(Option<u64>, Option<u64>, u64)>
    ensures { result ≡ slots_in (words_left rest.entry) }
{
    let (start, rest) = read_size(b"-start", rest)?;
    let (length, rest) = read_size(b"-length", rest)?;
    let a = read_one_address(rest)?;
    Some((start, length, a))
}

/// What stands behind `gcroot`: an object, and `-all` before it where each root is asked for.
#[tactic(auto, unfolding(clr_model::specs::Parsing::roots_in))]
pub fn read_roots<'a>(rest: Rest<'a>) -> Option<Command<'a>>
    ensures { Reads result (roots_in (words_left rest.entry)) }
{
    let (word, behind) = take_word(rest)?;
    if is_word(word, b"-all") {
        let a = read_one_address(behind)?;
        return Some(Command::Look {
            look: Look::GcRoots { a },
        });
    }
    let a = read_one_address(rest)?;
    Some(Command::GcRoot { a })
}

// The kind behind `-type`, alone.
#[tactic(auto, unfolding(clr_model::specs::Parsing::one_kind_in))]
fn read_one_kind(rest: Rest<'_>) -> Option<Kind>
    ensures { result ≡ one_kind_in (words_left rest.entry) }
{
    read_kind(one_word(rest)?)
}

/// What stands behind `gchandles`: nothing, `-stat`, or `-type` and a kind.
#[tactic(auto, unfolding(clr_model::specs::Parsing::handles_in))]
pub fn read_handles<'a>(rest: Rest<'a>) -> Option<Command<'a>>
    ensures { Reads result (handles_in (words_left rest.entry)) }
{
    let Some((word, rest)) = take_word(rest) else {
        return Some(Command::GcHandles);
    };
    by_row! { word;
        b"-stat": () = no_word(rest) => Command::Look { look: Look::HandleStat },
        b"-type": kind = read_one_kind(rest) => Command::Look { look: Look::HandlesOf { kind } },
    }
}

/// The lines that look, by their words.
#[tactic(auto, unfolding(clr_model::specs::Parsing::look_in))]
pub fn read_look<'a>(word: &'a [u8], rest: Rest<'a>) -> Option<Command<'a>>
    ensures { Reads result (look_in word.now (words_left rest.entry)) }
{
    look_rows!(word, rest)
}
