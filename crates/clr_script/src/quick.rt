//! Lines read in one pass over their bytes: in front of a text those that scripts are mostly made of, and whole ones
//! that are rarer.
ghost use Rattle.std.specs.Prelude.{◌≤◌, ◌∷◌, ◌++◌, [], IfSome, codes, length};
ghost use Rattle.clr_script.specs.Fronts.{SpellsBehind};
ghost use Rattle.clr_script.specs.Readings.{IsReadAs};

mod births;
mod digits;
mod handles;
mod lines;
mod places;

use crate::cut::strip;
use crate::reader::LONGEST;
use births::read_collect;
pub use births::{NewLine, length_at, name_at, read_new};
use clr_model::Command;
pub use digits::take_thread;
use handles::{read_create, read_fetch, read_free};
pub use lines::{
    copy_at, finalizer_at, get_at, handle_at, null_at, put_at, set_at, slot_at, suppress_at,
};
pub use places::{four_bytes, local_here, thread_at};

// Whether a text may begin with the verb of such a line, by its first letters.
#[inline(always)]
fn may_be_quick(text: &[u8]) -> bool {
    matches!(text, [b'c' | b'h', ..] | [b'f', b'e' | b'r', ..])
}

// The line of this thread, of which the verb and its words stand in the text.
fn read_verb<'a>(t: u64, text: &'a [u8]) -> Option<Command<'a>>
    ensures { IfSome result (λ command. SpellsBehind t [] text.now command) }
{
    if let Some(rest) = strip(text, b"collect") {
        read_collect(t, rest)
    } else if let Some(rest) = strip(text, b"handle") {
        read_create(t, rest)
    } else if let Some(rest) = strip(text, b"fetch") {
        read_fetch(t, rest)
    } else if let Some(rest) = strip(text, b"free") {
        read_free(t, rest)
    } else {
        None
    }
}

/// Reads a line that collects, or one on handles. `None` where it is another, too long, or has a number of 20 digits.
/// Then `read_line` says what it is. No clause promises `Some`, since a `None` only costs the time of the general
/// reader.
pub fn read_quick(line: &[u8]) -> Option<Command<'_>>
    ensures short { IfSome result (λ command. length line.now ≤ 4096) }
    ensures read { IfSome result (λ command. IsReadAs line.now command) }
{
    if line.len() > LONGEST {
        return None;
    }
    let (t, rest) = take_thread(line)?;
    if may_be_quick(rest) {
        read_verb(t, rest)
    } else {
        None
    }
}
