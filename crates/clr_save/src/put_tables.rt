//! The tables, at the end of other bytes.
ghost use Rattle.std.specs.Prelude.{◌≡◌, ℕ, ◌<◌, ◌++◌, length, option_map, OnOk, IfOk};
ghost use Rattle.std.specs.List.{flat_map};
ghost use Rattle.std.specs.FinMap as finmap;
ghost use Rattle.clr_types.specs.HandleCode.{number_of_kind};
ghost use Rattle.clr_format.specs.Saved.{handle_bytes, number_or_zero, queue_bytes, word_bytes, words_bytes};
ghost use Rattle.clr_save.specs.Written.{bytes_of_tables, step_bytes};

use crate::put::{put_word, put_words};
use clr_final::Finals;
use clr_format::Step;
use clr_handles::Handles;
use clr_types::{Handle, Kind};
use std::alloc::AllocError;

// Who holds all others, as a word.
fn holder_word(holder: Option<u64>) -> u64
    ensures { result ≡ number_or_zero holder }
{
    match holder {
        None => 0,
        Some(thread) => thread,
    }
}

// Puts what a thread has begun at the end.
fn put_step(out: &mut Vec<u8>, step: &Step) -> Result<(), AllocError>
    ensures { OnOk result (out.new.items ≡ out.old.items ++ step_bytes step.now) }
{
    match *step {
        Step::Idle => put_words(out, &[0, 0, 0, 0, 0]),
        Step::Store { object, slot } => put_words(out, &[1, object, slot, 0, 0]),
        Step::Begun {
            type_id,
            len,
            local,
            front,
        } => put_words(out, &[2, u64::from(type_id.0), len, local, front]),
    }
}

/// Puts what each thread has begun at the end.
fn put_steps(out: &mut Vec<u8>, steps: &[Step]) -> Result<(), AllocError>
    ensures { OnOk result (out.new.items ≡ out.old.items ++ flat_map step_bytes steps.now) }
{
    for step in steps {
        put_step(out, step)?;
    }
    Ok(())
}

// The number of a kind of handles.
fn number_of(kind: Kind) -> u64
    ensures { result ≡ number_of_kind kind }
{
    match kind {
        Kind::Strong => 0,
        Kind::Pinned => 1,
        Kind::Weak => 2,
        Kind::WeakLong => 3,
        Kind::Dependent => 4,
    }
}

// Puts a handle at the end.
fn put_handle(out: &mut Vec<u8>, h: u64, handle: &Handle) -> Result<(), AllocError>
    ensures { OnOk result (out.new.items ≡ out.old.items ++ handle_bytes (h, handle.now)) }
{
    put_word(out, h)?;
    put_word(out, number_of(handle.kind))?;
    put_word(out, handle.target)?;
    put_word(out, handle.second)
}

// How many handles are in use.
pub fn count_handles(handles: &Handles) -> u64
    ensures { result ≡ finmap.len handles.now }
{
    let mut count = 0;
    let mut from = 0;
    while let Some((number, _handle)) = handles.next_from(from, 0) {
        count += 1;
        from = number + 1;
    }
    count
}

// Puts each handle at the end, by rising number.
fn put_handles(out: &mut Vec<u8>, handles: &Handles) -> Result<(), AllocError>
    ensures { OnOk result
        (out.new.items ≡ out.old.items ++ flat_map handle_bytes (finmap.entries handles.now)) }
{
    let mut from = 0;
    while let Some((number, handle)) = handles.next_from(from, 0) {
        put_handle(out, number, &handle)?;
        from = number + 1;
    }
    Ok(())
}

// Puts a queue at the end: how many places it has, and the places.
fn put_queue(out: &mut Vec<u8>, places: &[u64]) -> Result<(), AllocError>
    ensures { OnOk result (out.new.items ≡ out.old.items ++ queue_bytes places.now) }
{
    put_word(out, places.len() as u64)?;
    put_words(out, places)
}

/// Puts the tables at the end: who holds all others, what each thread has begun, the handles and both queues.
#[tactic(auto, unfolding(crate::specs::Written::bytes_of_tables))]
pub fn put_tables(
    out: &mut Vec<u8>,
    holder: Option<u64>,
    steps: &[Step],
    handles: &Handles,
    finals: &Finals,
) -> Result<(), AllocError>
    ensures { OnOk result (out.new.items ≡ out.old.items
        ++ bytes_of_tables (record {
          holder = holder;
          steps = steps.now;
          handles = finmap.entries handles.now;
          entries = finals.now.entries;
          ready = finals.now.ready;
        })) }
{
    put_word(out, holder_word(holder))?;
    put_steps(out, steps)?;
    put_word(out, count_handles(handles))?;
    put_handles(out, handles)?;
    put_queue(out, finals.entries())?;
    put_queue(out, finals.ready())
}
