//! What stands around the types and the heap of an image.
ghost use Rattle.std.specs.Prelude.{◌≡◌, ◌+◌, ◌*◌, ◌≤◌, IfOk, length, codes, drop, if◌then◌else◌};
ghost use Rattle.clr_mem.specs.Words.{spelled, words_of};
ghost use Rattle.clr_fields.specs.Fields.{text};
ghost use Rattle.clr_fields.specs.Finds.{Finds, FindsAs};
ghost use Rattle.clr_format.specs.TableFields as no_tables_spec;
ghost use Rattle.clr_format.specs.Images.{first_head_fields, head_fields, is_first, locals_field, magic, rest_fields};
ghost use Rattle.clr_format.specs.Images.{second_head_fields, version_tables};
ghost use Rattle.clr_load.specs.ReadTables.{rest_of, tables_of};

use crate::tables::{Tables, read_tables};
use byteorder::{ByteOrder, LittleEndian};
use clr_fields::{LoadFault, Reader};
use clr_format::{Head, Step};
use clr_types::Types;
use std::alloc::{AllocError, Global};

/// How many bytes the locals take: 64 words for each of 16 threads.
pub const LOCALS: usize = 8192;

/// What stands behind the heap, and the offset behind the locals.
#[derive(Drop)]
pub struct Rest {
    pub locals: Vec<u64>,
    pub tables: Tables,
    pub tables_at: usize,
}

/// Whether bytes begin as an image of the first version.
#[tactic(auto, unfolding(clr_format::specs::Images::is_first))]
pub fn is_first(bytes: &[u8]) -> bool
    ensures { result ≡ is_first bytes.now }
{
    bytes.starts_with(b"CLRHEAP1")
}

#[tactic(auto, unfolding(clr_format::specs::Images::first_head_fields))]
fn read_first_head(reader: &mut Reader<'_>) -> Result<Head, LoadFault>
    ensures finds { Finds first_head_fields reader.old reader.new result }
    ensures limit { IfOk result (λ h. h.limit ≤ 1073741824) }
    ensures large { IfOk result (λ h. h.large ≤ 67104768) }
{
    let at = reader.at();
    let name = reader.text(8)?;
    if name != b"CLRHEAP1".as_slice() {
        return Err(LoadFault::At(at as u64));
    }
    let limit = reader.from_to(524_288, 1_073_741_824)?;
    Ok(Head {
        limit,
        large: 85_000,
        compact_large: false,
        first: true,
    })
}

#[tactic(auto, unfolding(clr_format::specs::Images::second_head_fields))]
fn read_second_head(reader: &mut Reader<'_>) -> Result<Head, LoadFault>
    ensures finds { Finds second_head_fields reader.old reader.new result }
    ensures limit { IfOk result (λ h. h.limit ≤ 1073741824) }
    ensures large { IfOk result (λ h. h.large ≤ 67104768) }
{
    let at = reader.at();
    let name = reader.text(8)?;
    if name != b"CLRHEAP2".as_slice() {
        return Err(LoadFault::At(at as u64));
    }
    let limit = reader.from_to(524_288, 1_073_741_824)?;
    let large = reader.from_to(85_000, 67_104_768)?;
    let flag = reader.up_to(1)?;
    Ok(Head {
        limit,
        large,
        compact_large: flag == 1,
        first: false,
    })
}

/// What stands before the types.
pub fn read_head(reader: &mut Reader<'_>, first: bool) -> Result<Head, LoadFault>
    ensures finds { Finds (head_fields first) reader.old reader.new result }
    ensures limit { IfOk result (λ h. h.limit ≤ 1073741824) }
    ensures large { IfOk result (λ h. h.large ≤ 67104768) }
{
    if first {
        read_first_head(reader)
    } else {
        read_second_head(reader)
    }
}

// The word whose eight bytes begin at an offset.
#[inline]
#[tactic(auto, unfolding(clr_mem::specs::Words::spelled))]
fn word_of_bytes(bytes: &[u8], o: usize) -> u64
    requires { o + 8 ≤ length bytes.now }
    ensures { result ≡ spelled (drop o bytes.now) }
{
    LittleEndian::read_u64(&bytes[o..o + 8])
}

// The words that bytes spell.
fn words_from(alloc: Global, bytes: &[u8]) -> Result<Vec<u64>, AllocError>
    requires { length bytes.now ≡ 8192 }
    ensures { IfOk result (λ v. v.items ≡ words_of 1024 bytes.now) }
{
    let mut words = Vec::new(alloc);
    for i in 0..LOCALS / 8 {
        words.push(word_of_bytes(bytes, 8 * i))?;
    }
    Ok(words)
}

// The locals of all threads.
#[tactic(auto, unfolding(clr_format::specs::Images::locals_field))]
fn read_locals(alloc: Global, reader: &mut Reader<'_>) -> Result<Vec<u64>, LoadFault>
    ensures { FindsAs (λ v. v.items) locals_field reader.old reader.new result }
{
    let bytes = reader.text(LOCALS)?;
    Ok(words_from(alloc, bytes)?)
}

// The tables of an image without tables.
fn no_tables(alloc: Global) -> Result<Tables, AllocError>
    ensures { IfOk result (λ t. tables_of t ≡ no_tables_spec.no_tables) }
{
    Ok(Tables {
        holder: None,
        steps: vec![in alloc; Step::Idle; 16]?,
        handles: Vec::new(alloc),
        entries: Vec::new(alloc),
        ready: Vec::new(alloc),
    })
}

// The tables of either version.
fn read_version_tables(
    alloc: Global,
    reader: &mut Reader<'_>,
    head: &Head,
    types: &Types,
) -> Result<Tables, LoadFault>
    requires { head.now.large ≤ 67104768 }
    ensures { FindsAs tables_of (version_tables head.now types.now) reader.old reader.new result }
{
    if head.first {
        Ok(no_tables(alloc)?)
    } else {
        read_tables(alloc, reader, head, types)
    }
}

/// What stands behind the heap.
#[tactic(auto, unfolding(clr_format::specs::Images::rest_fields))]
pub fn read_rest(
    alloc: Global,
    reader: &mut Reader<'_>,
    head: &Head,
    types: &Types,
) -> Result<Rest, LoadFault>
    requires { head.now.large ≤ 67104768 }
    ensures { FindsAs rest_of (rest_fields head.now types.now) reader.old reader.new result }
{
    let locals = read_locals(alloc, reader)?;
    let tables_at = reader.at();
    let tables = read_version_tables(alloc, reader, head, types)?;
    reader.end()?;
    Ok(Rest {
        locals,
        tables,
        tables_at,
    })
}
