//! Images of the first version become images of the second.
ghost use Rattle.std.specs.Prelude.{◌≡◌, ◌≤◌, ◌++◌, length, drop, take, IfOk, IfErr, OnOk, true};
ghost use Rattle.clr_fields.specs.declared.fault.LoadFault.{LoadFault as Fault};
ghost use Rattle.clr_format.specs.Images.{is_first};
ghost use Rattle.clr_format.specs.Saved.{empty_tables_bytes, migrated, words_bytes};
ghost use Rattle.clr_image.specs.Texts.{Migrated, Tells, TellsVersion};

use clr_fields::LoadFault;
use clr_load::load;
use clr_save::{put_words, put_zeros};
use std::alloc::{AllocError, Global};

// The tables of an image without handles, entries, steps and holder have so many words.
const EMPTY_WORDS: u64 = 84;

/// The image of the second version with what an image says: its own bytes where it is of the second version, and one
/// with empty tables where it is of the first. Bytes that are no image have the fault of `load`.
pub fn migrate(alloc: Global, bytes: &[u8]) -> Result<Vec<u8>, LoadFault>
    ensures { Tells Migrated bytes.now result }
{
    let first = is_of_first(alloc, bytes)?;
    let mut out = Vec::with_capacity(
        alloc,
        bytes.len().saturating_add(16 + 8 * EMPTY_WORDS as usize),
    )?;
    if first {
        put_migrated(&mut out, bytes)?;
    } else {
        out.extend_from_slice(bytes)?;
    }
    Ok(out)
}

// Whether bytes that are an image are one of the first version. What was loaded goes here, so that beside the bytes
// there is the new image alone.
fn is_of_first(alloc: Global, bytes: &[u8]) -> Result<bool, LoadFault>
    ensures { TellsVersion bytes.now result }
{
    let image = load(alloc, bytes)?;
    Ok(image.first)
}

// Puts the second version of an image of the first version at the end.
#[tactic(auto, unfolding(clr_format::specs::Saved::migrated))]
fn put_migrated(out: &mut Vec<u8>, bytes: &[u8]) -> Result<(), AllocError>
    requires { 16 ≤ length bytes.now }
    ensures { OnOk result (out.new.items ≡ out.old.items ++ migrated true bytes.now) }
{
    out.extend_from_slice(b"CLRHEAP2")?;
    out.extend_from_slice(&bytes[8..16])?;
    put_words(out, &[85_000, 0])?;
    out.extend_from_slice(&bytes[16..])?;
    put_empty_tables(out)
}

// Puts the words of empty tables at the end.
fn put_empty_tables(out: &mut Vec<u8>) -> Result<(), AllocError>
    ensures { OnOk result (out.new.items ≡ out.old.items ++ empty_tables_bytes) }
{
    put_zeros(out, EMPTY_WORDS)
}
