// The handles in use, as text.
ghost use Rattle.std.specs.Prelude.{◌≡◌, ◌++◌, ◌∷◌, [], codes, decimal, IfOk, OnOk};
ghost use Rattle.std.specs.List.{flat_map};
ghost use Rattle.std.specs.FinMap as finmap;
ghost use Rattle.clr_types.specs.Kinds.{is_dependent};
ghost use Rattle.clr_model.specs.Machine.{Machine};
ghost use Rattle.clr_model.specs.ReplyText.{kind_word};
ghost use Rattle.clr_model.specs.Sos.{gchandles_text, handle_line, line, second_words};
ghost use Rattle.clr_sos.specs.TextPieces.{each_spaced};
ghost use Rattle.clr_sos.specs.Views.{IsViewOf};

use crate::View;
use crate::text::{put_place, put_word_number, put_words};
use clr_handles::Handles;
use clr_mem::NoMemory;
use clr_types::{Handle, Kind};
use std::alloc::{AllocError, Global};

/// The handles in use.
///
/// A line for each, by rising number: `hNUMBER KIND TARGET`. `KIND` is `strong`, `pinned`, `weak`, `weaklong` or
/// `dependent`, and `TARGET` is the place of the object that the handle names, which of a dependent one is its primary.
/// The line of a dependent handle goes on with the place of its secondary. The last line tells how many there are:
/// `handles COUNT`.
///
/// Numbers are decimal. A place has 16 hexadecimal digits, and is `null` where no object is named. `NoMemory` comes
/// only where there was no memory for the text.
pub fn gchandles(alloc: Global, view: &View<'_>) -> Result<Vec<u8>, NoMemory>
    ensures text { IfOk result (λ text. (m : Machine) → IsViewOf view.now m → text.items ≡ gchandles_text m) }
{
    let mut text = Vec::new(alloc);
    let count = put_handles(&mut text, view.handles)?;
    put_count(&mut text, count)?;
    Ok(text)
}

// Puts a line for each handle at the end, and answers how many there are.
fn put_handles(text: &mut Vec<u8>, handles: &Handles) -> Result<u64, AllocError>
    ensures text { OnOk result
        (text.new.items ≡ text.old.items ++ flat_map handle_line (finmap.entries handles.now)) }
    ensures count { IfOk result (λ count. count ≡ finmap.len handles.now) }
{
    let mut count = 0;
    let mut from = 0;
    while let Some((number, handle)) = handles.next_from(from, 0) {
        put_handle(text, number, &handle)?;
        count += 1;
        from = number + 1;
    }
    Ok(count)
}

/// Puts the line of a handle at the end.
pub fn put_handle(text: &mut Vec<u8>, number: u64, handle: &Handle) -> Result<(), AllocError>
    ensures { OnOk result (text.new.items ≡ text.old.items ++ handle_line (number, handle.now)) }
{
    put_name(text, number, handle.kind)?;
    put_place(text, handle.target)?;
    put_second(text, handle)?;
    text.extend_from_slice(b"\n")?;
    Ok(())
}

// Puts the number and the kind of a handle at the end, a space behind each.
fn put_name(text: &mut Vec<u8>, number: u64, kind: Kind) -> Result<(), AllocError>
    ensures { OnOk result (text.new.items ≡ ((((text.old.items ++ 104 ∷ []) ++ decimal number) ++ 32 ∷ [])
        ++ kind_word kind) ++ 32 ∷ []) }
{
    put_word_number(text, b"h", number)?;
    put_words(text, b" ", kind_text(kind))?;
    text.extend_from_slice(b" ")?;
    Ok(())
}

/// The word of a kind of handles.
pub fn kind_text(kind: Kind) -> &'static [u8]
    ensures { result.now ≡ kind_word kind }
{
    match kind {
        Kind::Strong => b"strong",
        Kind::Pinned => b"pinned",
        Kind::Weak => b"weak",
        Kind::WeakLong => b"weaklong",
        Kind::Dependent => b"dependent",
    }
}

// Puts the secondary of a dependent handle at the end.
fn put_second(text: &mut Vec<u8>, handle: &Handle) -> Result<(), AllocError>
    ensures { OnOk result (text.new.items ≡ text.old.items
        ++ each_spaced (second_words (is_dependent handle.now.kind) handle.now.second)) }
{
    if !handle.kind.is_dependent() {
        return Ok(());
    }
    text.extend_from_slice(b" ")?;
    put_place(text, handle.second)
}

/// Puts the line of how many handles there are at the end.
pub fn put_count(text: &mut Vec<u8>, count: u64) -> Result<(), AllocError>
    ensures { OnOk result (text.new.items ≡ text.old.items ++ line (codes "handles" ∷ decimal count ∷ [])) }
{
    put_word_number(text, b"handles ", count)?;
    text.extend_from_slice(b"\n")?;
    Ok(())
}
