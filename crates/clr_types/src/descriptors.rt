//! The references of a type as runs of slots.

ghost use Rattle.std.specs.Prelude.{◌≡◌, ◌+◌, ◌*◌, ◌≤◌, ◌++◌, map, length, Bool, true, IfOk};
ghost use Rattle.clr_types.specs.Types.{form_of, is_lawful_form, is_reference};
ghost use Rattle.clr_types.specs.Table.{base_size};
ghost use Rattle.clr_types.specs.ReferenceRuns as runs;
ghost use Rattle.clr_types.specs.Descriptors.{runs_of, series_of_run};
ghost use Rattle.clr_types.specs.Descriptors as spec;

use crate::slots::run_slots;
use crate::{NoMemory, Shape};
use smallvec::SmallVec;
use std::alloc::Global;

/// A run of references: the offset of its first slot from the place, and its length in bytes less the object's size.
///
/// Of an array of structs the runs are those of one element, and the size is that of an array of one element. There the
/// runs
/// come again in each element, so many bytes later as an element has.
#[derive(Clone, Copy, Debug, Default, PartialEq, Eq)]
pub struct Series {
    pub start: u64,
    pub run_less_size: i64,
}

/// References one behind the other in an object: the offset of the first from the place, in bytes, and how many there
/// are.
#[derive(Clone, Copy, Debug, PartialEq, Eq)]
pub struct ReferenceRun {
    pub offset: u64,
    pub count: u64,
}

/// The run of a class whose references are one run. Other classes and arrays have none.
pub(crate) fn class_run(shape: Shape<'_>, series: &[Series], size: u64) -> Option<ReferenceRun>
    requires lawful { (finalizer : Bool) × (is_lawful_form (form_of shape) finalizer ≡ true) }
    requires series { series.now ≡ spec.series_of (form_of shape) }
    requires size { size ≡ base_size (form_of shape) }
    ensures { result ≡ runs.class_run (form_of shape.entry) }
{
    match shape {
        Shape::Class(_) => match series {
            [run] => Some(ReferenceRun {
                offset: run.start,
                count: run_slots(*run, size),
            }),
            _ => None,
        },
        Shape::RefArray | Shape::ByteArray | Shape::StructArray(_) => None,
    }
}

/// The series of a shape, by rising offset.
pub(crate) fn series_of(
    alloc: Global,
    shape: Shape<'_>,
    finalizer: bool,
) -> Result<SmallVec<Series, 4>, NoMemory>
    requires { is_lawful_form (form_of shape) finalizer ≡ true }
    ensures { IfOk result (λ series. series.items ≡ spec.series_of (form_of shape.entry)) }
{
    match shape {
        Shape::Class(pattern) => pattern_series(
            alloc,
            pattern,
            8,
            24u64.max(16 + 8 * pattern.len() as u64),
        ),
        Shape::RefArray => pattern_series(alloc, b"r", 16, 32),
        Shape::ByteArray => Ok(SmallVec::new(alloc)),
        Shape::StructArray(pattern) => pattern_series(
            alloc,
            pattern,
            16,
            24 + 8 * pattern.len() as u64,
        ),
    }
}

// The series of a pattern whose first slot has this offset, in objects of this size.
fn pattern_series(
    alloc: Global,
    pattern: &[u8],
    offset: u64,
    size: u64,
) -> Result<SmallVec<Series, 4>, NoMemory>
    requires few { length pattern.now ≤ 256 }
    requires low { offset ≤ 16 }
    requires small { size ≤ 4096 }
    ensures { IfOk result (λ series. series.items
        ≡ map (series_of_run offset size) (runs_of (map is_reference pattern.now))) }
{
    let mut series = SmallVec::new(alloc);
    let mut references = 0;
    for (i, byte) in pattern.iter().enumerate() {
        if *byte == b'r' {
            references += 1;
        } else if references > 0 {
            series.push(series_at(offset, size, i as u64 - references, references))?;
            references = 0;
        }
    }
    if references > 0 {
        series.push(series_at(offset, size, pattern.len() as u64 - references, references))?;
    }
    Ok(series)
}

// A run of `count` slots from the slot `first` on.
fn series_at(offset: u64, size: u64, first: u64, count: u64) -> Series
    requires low { offset ≤ 16 }
    requires small { size ≤ 4096 }
    requires near { first ≤ 256 }
    requires few { count ≤ 256 }
    ensures { result ≡ series_of_run offset size record { first = first; count = count } }
{
    Series {
        start: offset + 8 * first,
        run_less_size: (8 * count) as i64 - size as i64,
    }
}
