//! What an image says, of parts that were checked.
ghost use Rattle.std.specs.Prelude.{◌≡◌, ℕ, ◌<◌, IfOk, List};
ghost use Rattle.std.specs.FinMap as finmap;
ghost use Rattle.std.specs.List.{AllByRecursion};
ghost use Rattle.clr_types.specs.Rising.{IsRisingBy};
ghost use Rattle.clr_types.specs.declared.handle.Handle.{Handle as Row};
ghost use Rattle.clr_format.specs.Images.{Parts};
ghost use Rattle.clr_load.specs.Shown.{ShowsParts};
ghost use Rattle.clr_load.specs.Wholes.{IsWhole};

use crate::image::Image;
use crate::rest::Rest;
use crate::whole::Whole;
use clr_final::Finals;
use clr_handles::{Handles, NoMemory};
use clr_types::Handle;
use std::alloc::Global;

// The table of these handles, which stand by rising number.
fn restore_handles(alloc: Global, rows: &[(u64, Handle)]) -> Result<Handles, NoMemory>
    requires rising { IsRisingBy (λ (e : ℕ × Row). e.0) rows.now }
    requires below { AllByRecursion (λ (e : ℕ × Row). e.0 < 65536) rows.now }
    ensures { IfOk result (λ handles. finmap.entries handles ≡ rows.now) }
{
    let mut handles = Handles::new(alloc);
    for i in 0..rows.len() {
        handles.restore(rows[i].0, rows[i].1)?;
    }
    Ok(handles)
}

// The queues with these places.
fn restore_finals(alloc: Global, entries: &[u64], ready: &[u64]) -> Result<Finals, NoMemory>
    ensures entries { IfOk result (λ finals. finals.entries ≡ entries.now) }
    ensures ready { IfOk result (λ finals. finals.ready ≡ ready.now) }
{
    let mut finals = Finals::new(alloc);
    finals.restore(entries, ready)?;
    Ok(finals)
}

// The number of a thread as a word.
fn wide(thread: Option<u32>) -> Option<u64>
    ensures { result ≡ thread }
{
    match thread {
        None => None,
        Some(t) => Some(u64::from(t)),
    }
}

/// What the parts of an image say.
pub fn restore(alloc: Global, whole: Whole) -> Result<Image, NoMemory>
    requires { (bytes : List ℕ) × (p : Parts) × IsWhole bytes whole p }
    ensures { (bytes : List ℕ) → (p : Parts) → IsWhole bytes whole p → IfOk result (λ image. ShowsParts image p) }
{
    let Whole {
        head,
        types,
        heap,
        starts: _,
        rest,
    } = whole;
    let Rest { locals, tables, .. } = rest;
    let handles = restore_handles(alloc, &tables.handles)?;
    let finals = restore_finals(alloc, &tables.entries, &tables.ready)?;
    Ok(Image {
        types,
        heap,
        locals,
        limit: head.limit,
        large: head.large,
        compact_large: head.compact_large,
        holder: wide(tables.holder),
        steps: tables.steps,
        handles,
        finals,
        first: head.first,
    })
}
