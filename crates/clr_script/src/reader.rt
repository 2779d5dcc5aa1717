//! The reader of lines.
ghost use Rattle.std.specs.Prelude.{◌≡◌, ◌<◌, ◌≤◌, ◌↔◌, ◌⊎◌, ℕ, length, IfOk, IfErr};
ghost use Rattle.std.specs.Option.{option_map};
ghost use Rattle.clr_model.specs.Instructions.{show_segments};
ghost use Rattle.clr_model.specs.Parsing.{heaps_in, marking_in, other_in, line_in, thread_in};
ghost use Rattle.clr_script.specs.Cuts.{words_left};
ghost use Rattle.clr_script.specs.Readings.{Reads, IsReadAs, IsNoLine};

use crate::arguments::{read_one_address, read_one_number};
use crate::cut::{Rest, is_word, next_word, no_word, one_word, take_word};
use crate::fields::read_thread;
use crate::looks::{read_handles, read_look, read_roots};
use crate::options::read_filter;
use crate::shapes::read_define;
use crate::table::{by_row, other_rows};
use crate::threads::read_threaded;
use clr_model::{Command, Refusal};

/// How many bytes the longest line has that is read.
pub const LONGEST: usize = 4096;

// Whether the one word behind `eeheap` is `-gc`.
#[tactic(auto, unfolding(clr_model::specs::Parsing::heaps_in))]
fn read_gc(rest: Rest<'_>) -> Option<()>
    ensures { option_map (λ u. show_segments) result ≡ heaps_in (words_left rest.entry) }
{
    let word = one_word(rest)?;
    if is_word(word, b"-gc") {
        Some(())
    } else {
        None
    }
}

// What stands behind `background` in a line that is no thread's.
#[tactic(auto, unfolding(clr_model::specs::Parsing::marking_in))]
fn read_marking<'a>(rest: Rest<'a>) -> Option<Command<'a>>
    ensures { Reads result (marking_in (words_left rest.entry)) }
{
    let (word, rest) = take_word(rest)?;
    by_row! { word;
        b"step": n = read_one_number(rest) => Command::BackgroundStep { n },
    }
}

// The lines that are no thread's.
#[tactic(auto, unfolding(clr_model::specs::Parsing::other_in))]
fn read_other<'a>(word: &'a [u8], rest: Rest<'a>) -> Option<Command<'a>>
    ensures { Reads result (other_in word.now (words_left rest.entry)) }
{
    other_rows!(word, rest)
}

// The command that a first word and the words behind it spell.
fn read_words<'a>(word: &'a [u8], rest: Rest<'a>) -> Option<Command<'a>>
    ensures { Reads result (line_in (thread_in word.now) word.now (words_left rest.entry)) }
{
    match read_thread(word) {
        Some(t) => read_threaded(t, rest),
        None => read_other(word, rest),
    }
}

/// Reads a line.
///
/// `Err(TooLong)` comes exactly where it has more than 4,096 bytes, and `Err(Syntax)` where it has no more and is the
/// line of no
/// instruction. There is no other error.
pub fn read_line(line: &[u8]) -> Result<Command<'_>, Refusal>
    ensures too_long { (result ≡ Err Refusal.TooLong) ↔ (4096 < length line.now) }
    ensures short { IfOk result (λ command. length line.now ≤ 4096) }
    ensures read { IfOk result (λ command. IsReadAs line.now command) }
    ensures syntax { result ≡ Err Refusal.Syntax → (length line.now ≤ 4096) × IsNoLine line.now }
    ensures no_other { IfErr result (λ refusal. (refusal ≡ Refusal.TooLong) ⊎ (refusal ≡ Refusal.Syntax)) }
{
    if line.len() > LONGEST {
        return Err(Refusal::TooLong);
    }
    let (word, rest) = next_word(line);
    read_words(word, rest).ok_or(Refusal::Syntax)
}
