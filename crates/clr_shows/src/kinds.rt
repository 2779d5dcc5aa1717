//! `gchandles` by kinds.
ghost use Rattle.std.specs.Prelude.{◌≡◌, ◌≤◌, ◌++◌, ◌∷◌, [], ℕ, decimal, filter, length, IfOk, OnOk};
ghost use Rattle.std.specs.List.{flat_map};
ghost use Rattle.std.specs.FinMap as finmap;
ghost use Rattle.clr_model.specs.Looks.{handlesof_text, handlestat_text, is_kind};
ghost use Rattle.clr_model.specs.Machine.{Machine};
ghost use Rattle.clr_model.specs.ReplyText.{kind_word};
ghost use Rattle.clr_model.specs.Sos.{handle_line, line};
ghost use Rattle.clr_shows.specs.Kinds.{has_kind, of_kind};
ghost use Rattle.clr_sos.specs.Views.{IsViewOf};

use clr_handles::Handles;
use clr_mem::NoMemory;
use clr_sos::{View, kind_text, put_count, put_handle, put_number, put_words};
use clr_types::{Handle, Kind};
use std::alloc::{AllocError, Global};

/// The handles of a kind: a line for each, by rising number, as `gchandles` has it, and how many these are.
///
/// `NoMemory` comes only where there was no memory for the text.
pub fn handles_of_kind(alloc: Global, view: &View<'_>, kind: Kind) -> Result<Vec<u8>, NoMemory>
    ensures text { IfOk result (λ text. (m : Machine) → IsViewOf view.now m → text.items ≡ handlesof_text m kind) }
{
    let mut text = Vec::new(alloc);
    let count = put_handles_of(&mut text, view.handles, kind)?;
    put_count(&mut text, count)?;
    Ok(text)
}

/// How many handles of each kind there are, a line for each kind, and how many in all.
///
/// ```text
/// strong 0
/// pinned 2
/// weak 0
/// weaklong 0
/// dependent 1
/// handles 3
/// ```
///
/// `NoMemory` comes only where there was no memory for the text.
pub fn handle_counts(alloc: Global, view: &View<'_>) -> Result<Vec<u8>, NoMemory>
    ensures text { IfOk result (λ text. (m : Machine) → IsViewOf view.now m → text.items ≡ handlestat_text m) }
{
    let mut text = Vec::new(alloc);
    put_kind(&mut text, view.handles, Kind::Strong)?;
    put_kind(&mut text, view.handles, Kind::Pinned)?;
    put_kind(&mut text, view.handles, Kind::Weak)?;
    put_kind(&mut text, view.handles, Kind::WeakLong)?;
    put_kind(&mut text, view.handles, Kind::Dependent)?;
    put_count(&mut text, count_all(view.handles))?;
    Ok(text)
}

// Puts the line of how many handles of a kind there are at the end.
fn put_kind(text: &mut Vec<u8>, handles: &Handles, kind: Kind) -> Result<(), AllocError>
    ensures { OnOk result (text.new.items
        ≡ text.old.items ++ line (kind_word kind ∷ decimal (length (of_kind handles.now kind)) ∷ [])) }
{
    put_words(text, kind_text(kind), b" ")?;
    put_number(text, count_of(handles, kind))?;
    text.extend_from_slice(b"\n")?;
    Ok(())
}

// How many handles there are.
fn count_all(handles: &Handles) -> u64
    ensures { result ≡ finmap.len handles.now }
{
    let mut count = 0;
    let mut from = 0;
    while let Some((number, _)) = handles.next_from(from, 0) {
        count += 1;
        from = number + 1;
    }
    count
}

// How many handles of a kind there are.
fn count_of(handles: &Handles, kind: Kind) -> u64
    ensures { result ≡ length (of_kind handles.now kind) }
{
    let mut count = 0;
    let mut from = 0;
    while let Some((number, handle)) = handles.next_from(from, 0) {
        count += one_of(kind, &handle);
        from = number + 1;
    }
    count
}

// Puts a line for each handle of a kind at the end, and answers how many there are.
fn put_handles_of(text: &mut Vec<u8>, handles: &Handles, kind: Kind) -> Result<u64, AllocError>
    ensures text { OnOk result (text.new.items ≡ text.old.items ++ flat_map handle_line (of_kind handles.now kind)) }
    ensures count { IfOk result (λ count. count ≡ length (of_kind handles.now kind)) }
{
    let mut count = 0;
    let mut from = 0;
    while let Some((number, handle)) = handles.next_from(from, 0) {
        put_if(text, number, &handle, kind)?;
        count += one_of(kind, &handle);
        from = number + 1;
    }
    Ok(count)
}

// Puts the line of a handle at the end, where it is of the kind.
fn put_if(text: &mut Vec<u8>, number: u64, handle: &Handle, kind: Kind) -> Result<(), AllocError>
    ensures { OnOk result (text.new.items
        ≡ text.old.items ++ flat_map handle_line (filter (has_kind kind) ((number, handle.now) ∷ []))) }
{
    if is_kind(kind, handle.kind) {
        put_handle(text, number, handle)?;
    }
    Ok(())
}

// 1 for a handle of the kind, and 0 for another.
fn one_of(kind: Kind, handle: &Handle) -> u64
    ensures count { (number : ℕ) → result ≡ length (filter (has_kind kind) ((number, handle.now) ∷ [])) }
    ensures few { result ≤ 1 }
{
    if is_kind(kind, handle.kind) { 1 } else { 0 }
}

// Whether two kinds are the same.
fn is_kind(kind: Kind, other: Kind) -> bool
    ensures { result ≡ is_kind kind other }
{
    match kind {
        Kind::Strong => matches!(other, Kind::Strong),
        Kind::Pinned => matches!(other, Kind::Pinned),
        Kind::Weak => matches!(other, Kind::Weak),
        Kind::WeakLong => matches!(other, Kind::WeakLong),
        Kind::Dependent => matches!(other, Kind::Dependent),
    }
}
