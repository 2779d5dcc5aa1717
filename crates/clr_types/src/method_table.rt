//! What is kept of each type besides its name.

ghost use Rattle.std.specs.Prelude.{◌≡◌, ◌<◌, ◌≤◌, true, false, length, slice_get, Some, IfOk, SomeIff};
ghost use Rattle.std.specs.List.{list_all};
ghost use Rattle.clr_types.specs.Types.{form_of, is_lawful_form, is_array, is_pattern_byte, bytes_form, slot_kinds};
ghost use Rattle.clr_types.specs.Types.{slot_offset};
ghost use Rattle.clr_types.specs.Types as types;
ghost use Rattle.clr_types.specs.Table as table;
ghost use Rattle.clr_types.specs.Descriptors as descriptors;
ghost use Rattle.clr_types.specs.Kept.{form_of_pattern};
ghost use Rattle.clr_types.specs.ReferenceRuns as runs;

use crate::descriptors::{class_run, series_of};
use crate::{NoMemory, ReferenceRun, Series, Shape, Slot, Slots};
use smallvec::SmallVec;
use std::alloc::Global;
use std::marker::Model;

/// The bytes that no object exceeds.
const LARGEST_OBJECT: u64 = 1 << 30;

/// A shape that owns its pattern.
#[derive(Drop)]
enum Pattern {
    Class(Vec<u8>),
    RefArray,
    ByteArray,
    StructArray(Vec<u8>),
}

/// What is kept of a type: its shape, whether it has a finaliser, the sizes in bytes of its objects without their
/// elements
/// and of one element, which is 0 where there are no elements, its series, and the run of a class whose references are
/// one run.
#[derive(Drop)]
pub(crate) struct MethodTable {
    pattern: Pattern,
    finalizer: bool,
    base_size: u64,
    element_size: u64,
    series: SmallVec<Series, 4>,
    run: Option<ReferenceRun>,
}

impl Model for MethodTable {
    ghost use Rattle.clr_types.specs.Table.{Described};

    ghost Value = { Described };

    ghost use Rattle.clr_types.specs.MethodTables.{described, IsMethodTable};

    ghost view = { described };

    ghost invariant = { IsMethodTable };
}

impl MethodTable {
    /// The method table of unused space.
    pub(crate) fn free(alloc: Global) -> MethodTable
        ensures form { result.form ≡ bytes_form }
        ensures finalizer { result.finalizer ≡ false }
    {
        MethodTable {
            pattern: Pattern::ByteArray,
            finalizer: false,
            base_size: 24,
            element_size: 1,
            series: SmallVec::new(alloc),
            run: None,
        }
    }

    /// The method table of a lawful shape.
    pub(crate) fn new(
        alloc: Global,
        shape: Shape<'_>,
        finalizer: bool,
    ) -> Result<MethodTable, NoMemory>
        requires { is_lawful_form (form_of shape) finalizer ≡ true }
        ensures { IfOk result (λ made. made ≡ record { form = form_of shape.entry; finalizer = finalizer }) }
    {
        let base_size = base_size(shape, finalizer);
        let element_size = element_size(shape, finalizer);
        let series = series_of(alloc, shape, finalizer)?;
        let run = class_run(shape, series.as_slice(), base_size);
        let pattern = owned(alloc, shape)?;
        Ok(MethodTable {
            pattern,
            finalizer,
            base_size,
            element_size,
            series,
            run,
        })
    }

    pub(crate) fn has_finalizer(&self) -> bool
        ensures { result ≡ self.now.finalizer }
    {
        self.finalizer
    }

    /// Whether objects have a length word.
    #[inline(always)]
    pub(crate) fn has_length(&self) -> bool
        ensures { result ≡ is_array self.now.form }
    {
        self.element_size > 0
    }

    /// The shape that the type was defined with.
    #[inline(always)]
    pub(crate) fn shape(&self) -> Shape<'_>
        ensures { form_of result ≡ self.now.form }
    {
        match &self.pattern {
            Pattern::Class(pattern) => Shape::Class(pattern.as_slice()),
            Pattern::RefArray => Shape::RefArray,
            Pattern::ByteArray => Shape::ByteArray,
            Pattern::StructArray(pattern) => Shape::StructArray(pattern.as_slice()),
        }
    }

    /// The runs of references, by rising offset.
    pub(crate) fn series(&self) -> &[Series]
        ensures { result.now ≡ descriptors.series_of self.now.form }
    {
        self.series.as_slice()
    }

    /// The run of the references of an object of `len` elements, where they are one run: those of many classes, and of
    /// an array of
    /// references.
    #[inline]
    pub(crate) fn reference_run(&self, len: u64) -> Option<ReferenceRun>
        ensures { result ≡ runs.single_run self.now.form len }
    {
        if !self.has_length() {
            return self.run;
        }
        if let Pattern::RefArray = &self.pattern {
            Some(ReferenceRun {
                offset: 16,
                count: len,
            })
        } else {
            None
        }
    }

    /// How many slots an object of `len` elements has.
    #[inline(always)]
    pub(crate) fn slot_count(&self, len: u64) -> u64
        requires { types.size_of self.now.form len ≤ 1073741824 }
        ensures { result ≡ length (slot_kinds self.now.form len) }
    {
        match &self.pattern {
            Pattern::Class(pattern) => pattern.len() as u64,
            Pattern::RefArray | Pattern::ByteArray => len,
            Pattern::StructArray(pattern) => pattern.len() as u64 * len,
        }
    }

    /// Slot `i` of an object of `len` elements.
    #[inline(always)]
    pub(crate) fn slot(&self, len: u64, i: u64) -> Slot
        requires size { types.size_of self.now.form len ≤ 1073741824 }
        requires below { i < length (slot_kinds self.now.form len) }
        ensures offset { result.offset ≡ slot_offset self.now.form i }
        ensures reference { slice_get (slot_kinds self.now.form len) i ≡ Some result.reference }
    {
        match &self.pattern {
            Pattern::Class(pattern) => Slot {
                offset: 8 + 8 * i,
                reference: pattern[i as usize] == b'r',
            },
            Pattern::RefArray => Slot {
                offset: 16 + 8 * i,
                reference: true,
            },
            Pattern::ByteArray => Slot {
                offset: 16 + i,
                reference: false,
            },
            Pattern::StructArray(pattern) => Slot {
                offset: 16 + 8 * i,
                reference: pattern[i as usize % pattern.len()] == b'r',
            },
        }
    }

    /// The offsets of the references of an object of `len` elements, by rising offset, as the series spell them.
    pub(crate) fn slots(&self, len: u64) -> Slots<'_>
        requires { types.size_of self.now.form len ≤ 1073741824 }
        ensures { result ≡ descriptors.reference_offsets self.now.form len }
    {
        let series = self.series.as_slice();
        match &self.pattern {
            Pattern::Class(_) => Slots::new(series, self.base_size, 0, 1),
            Pattern::RefArray if len > 0 => Slots::new(
                series,
                self.base_size + self.element_size * len,
                0,
                1,
            ),
            Pattern::RefArray => Slots::none(),
            Pattern::ByteArray => Slots::none(),
            Pattern::StructArray(_) => Slots::new(
                series,
                self.base_size + self.element_size,
                self.element_size,
                len,
            ),
        }
    }

    /// The bytes of an object of `len` elements, where they are at most 2^30. An object of a class, without elements,
    /// needs no product.
    #[inline(always)]
    pub(crate) fn item_size(&self, len: u64) -> u64
        requires { types.size_of self.now.form len ≤ 1073741824 }
        ensures { result ≡ types.size_of self.now.form len }
    {
        if self.element_size == 0 {
            return self.base_size;
        }
        let counted = len.min(LARGEST_OBJECT);
        (self.base_size + self.element_size * counted + 7) / 8 * 8
    }

    /// The bytes of an object of `len` elements, and none where they are more than 2^30.
    #[inline]
    pub(crate) fn size(&self, len: u64) -> Option<u64>
        ensures { SomeIff result (types.size_of self.now.form len ≤ 1073741824) (types.size_of self.now.form len) }
    {
        let counted = len.min(LARGEST_OBJECT);
        let size = (self.base_size + self.element_size * counted + 7) / 8 * 8;
        if size <= LARGEST_OBJECT {
            Some(size)
        } else {
            None
        }
    }
}

fn base_size(shape: Shape<'_>, finalizer: bool) -> u64
    requires { is_lawful_form (form_of shape) finalizer ≡ true }
    ensures { result ≡ table.base_size (form_of shape.entry) }
{
    match shape {
        Shape::Class(pattern) => 24u64.max(16 + 8 * pattern.len() as u64),
        Shape::RefArray | Shape::ByteArray | Shape::StructArray(_) => 24,
    }
}

fn element_size(shape: Shape<'_>, finalizer: bool) -> u64
    requires { is_lawful_form (form_of shape) finalizer ≡ true }
    ensures { result ≡ table.element_size (form_of shape.entry) }
{
    match shape {
        Shape::Class(_) => 0,
        Shape::RefArray => 8,
        Shape::ByteArray => 1,
        Shape::StructArray(pattern) => 8 * pattern.len() as u64,
    }
}

fn owned(alloc: Global, shape: Shape<'_>) -> Result<Pattern, NoMemory>
    ensures { IfOk result (λ pattern. form_of_pattern pattern ≡ form_of shape.entry) }
{
    match shape {
        Shape::Class(pattern) => Ok(Pattern::Class(Vec::from_slice(alloc, pattern)?)),
        Shape::RefArray => Ok(Pattern::RefArray),
        Shape::ByteArray => Ok(Pattern::ByteArray),
        Shape::StructArray(pattern) => Ok(Pattern::StructArray(Vec::from_slice(alloc, pattern)?)),
    }
}

/// Whether a type may have this shape, with a finaliser or without.
pub(crate) fn is_lawful(shape: Shape<'_>, finalizer: bool) -> bool
    ensures { result ≡ is_lawful_form (form_of shape.entry) finalizer }
{
    match shape {
        Shape::Class(pattern) => is_pattern(pattern) && pattern.len() <= 256,
        Shape::RefArray | Shape::ByteArray => !finalizer,
        Shape::StructArray(pattern) => is_pattern(pattern)
            && !pattern.is_empty()
            && pattern.len() <= 64
            && !finalizer,
    }
}

fn is_pattern(pattern: &[u8]) -> bool
    ensures { result ≡ list_all is_pattern_byte pattern.now }
{
    pattern.iter().all(|byte| *byte == b'r' || *byte == b'n')
}
