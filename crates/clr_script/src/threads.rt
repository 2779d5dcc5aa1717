//! The lines of threads.
ghost use Rattle.std.specs.Prelude.{◌≡◌, ℕ};
ghost use Rattle.std.specs.Option.{option_map};
ghost use Rattle.clr_model.specs.Instructions.{collect_heap, compact_large_once, create_handle, new_pinned};
ghost use Rattle.clr_model.specs.Parsing.{begin_in, collect_in, create_in, once_in, pause_in, pinned_in, rarely_in};
ghost use Rattle.clr_model.specs.Parsing.{rooted_in, seldom_in, threaded_in};
ghost use Rattle.clr_script.specs.Cuts.{words_left};
ghost use Rattle.clr_script.specs.Readings.{Reads};

use crate::arguments::{
    read_birth, read_how, read_load, read_local_and_handle, read_local_and_number, read_locals,
    read_number_store, read_one_handle, read_one_local, read_one_number, read_second, read_store,
};
use crate::cut::{Rest, is_word, no_word, one_word, take_word};
use crate::fields::{read_generation, read_kind, read_local, read_name};
use crate::table::{begin_rows, by_row, rare_rows, rooted_rows, seldom_rows, thread_rows};
use clr_model::{Command, How};
use clr_types::Kind;

// What stands behind `collect`: a generation, and how to collect it.
#[tactic(auto, unfolding(clr_model::specs::Parsing::collect_in))]
fn read_collect(rest: Rest<'_>) -> Option<(u8, How)>
    ensures { (t : ℕ) → option_map (λ p. collect_heap t p.0 p.1) result ≡ collect_in t (words_left rest.entry) }
{
    let (word, rest) = take_word(rest)?;
    let g = read_generation(word)?;
    let how = read_how(g, rest)?;
    Some((g, how))
}

// What stands behind `handle`: a kind, a local, and a second one if the kind has it.
#[tactic(auto, unfolding(clr_model::specs::Parsing::create_in))]
fn read_create(rest: Rest<'_>) -> Option<(Kind, u64, Option<u64>)>
    ensures { (t : ℕ) → option_map (λ p. create_handle t p.0 p.1 p.2) result ≡ create_in t (words_left rest.entry) }
{
    let (word, rest) = take_word(rest)?;
    let (local, rest) = take_word(rest)?;
    let kind = read_kind(word)?;
    let local = read_local(local)?;
    let second = read_second(kind, rest)?;
    Some((kind, local, second))
}

// What stands behind `begin`.
#[tactic(auto, unfolding(clr_model::specs::Parsing::begin_in))]
fn read_begin<'a>(t: u64, rest: Rest<'a>) -> Option<Command<'a>>
    ensures { Reads result (begin_in t (words_left rest.entry)) }
{
    match take_word(rest) {
        Some((verb, rest)) => begin_rows!(t, verb, rest),
        None => None,
    }
}

// What stands behind `new-pinned`: a local, a name and a length.
#[tactic(auto, unfolding(clr_model::specs::Parsing::pinned_in))]
fn read_pinned<'a>(rest: Rest<'a>) -> Option<(u64, &'a [u8], u64)>
    ensures { (t : ℕ) → option_map (λ p. new_pinned t p.0 p.1.now p.2) result ≡ pinned_in t (words_left rest.entry) }
{
    let (local, rest) = take_word(rest)?;
    let (name, rest) = take_word(rest)?;
    let local = read_local(local)?;
    let name = read_name(name)?;
    Some((local, name, read_one_number(rest)?))
}

// What stands behind `background` in the line of a thread.
#[tactic(auto, unfolding(clr_model::specs::Parsing::pause_in))]
fn read_pause<'a>(t: u64, rest: Rest<'a>) -> Option<Command<'a>>
    ensures { Reads result (pause_in t (words_left rest.entry)) }
{
    let (word, rest) = take_word(rest)?;
    by_row! { word;
        b"begin": () = no_word(rest) => Command::BackgroundBegin { t },
        b"end": () = no_word(rest) => Command::BackgroundEnd { t },
    }
}

// What stands behind `compact-large`: the word `once`.
#[tactic(auto, unfolding(clr_model::specs::Parsing::once_in))]
fn read_once(rest: Rest<'_>) -> Option<()>
    ensures { (t : ℕ) → option_map (λ u. compact_large_once t) result ≡ once_in t (words_left rest.entry) }
{
    let word = one_word(rest)?;
    if is_word(word, b"once") {
        Some(())
    } else {
        None
    }
}

// What stands behind the verb of a thread's line on pinned segments, background collections or the large heap.
#[tactic(auto, unfolding(clr_model::specs::Parsing::seldom_in))]
fn read_seldom<'a>(t: u64, verb: &[u8], rest: Rest<'a>) -> Option<Command<'a>>
    ensures { Reads result (seldom_in t verb.now (words_left rest.entry)) }
{
    seldom_rows!(t, verb, rest)
}

// What stands behind the verb of a thread's line on handles or finalisers, or of one that is rarer still.
#[tactic(auto, unfolding(clr_model::specs::Parsing::rooted_in))]
fn read_rooted<'a>(t: u64, verb: &[u8], rest: Rest<'a>) -> Option<Command<'a>>
    ensures { Reads result (rooted_in t verb.now (words_left rest.entry)) }
{
    rooted_rows!(t, verb, rest)
}

// What stands behind the verb of a thread's line on collections or other threads, or of one that is rarer still.
#[tactic(auto, unfolding(clr_model::specs::Parsing::rarely_in))]
fn read_rare<'a>(t: u64, verb: &[u8], rest: Rest<'a>) -> Option<Command<'a>>
    ensures { Reads result (rarely_in t verb.now (words_left rest.entry)) }
{
    rare_rows!(t, verb, rest)
}

/// What stands behind the word of a thread.
#[tactic(auto, unfolding(clr_model::specs::Parsing::threaded_in, clr_model::specs::Parsing::verb_in))]
pub fn read_threaded<'a>(t: u64, rest: Rest<'a>) -> Option<Command<'a>>
    ensures { Reads result (threaded_in t (words_left rest.entry)) }
{
    match take_word(rest) {
        Some((verb, rest)) => thread_rows!(t, verb, rest),
        None => None,
    }
}
