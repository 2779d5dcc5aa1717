//! The table of types.

ghost use Rattle.std.specs.Prelude.{◌≡◌, ◌≢◌, ℕ, ◌+◌, ◌-◌, ◌/◌, ◌<◌, ◌≤◌, ◌↔◌, [], ◌∷◌, ◌++◌};
ghost use Rattle.std.specs.Prelude.{IfOk, IfSome, IsSome, IsTrue, MatchOption, None, OnErr, OnOk, Some, SomeIff};
ghost use Rattle.std.specs.Prelude.{false, length, option_map, slice_get, true};
ghost use Rattle.std.specs.List.{AllByRecursion};
ghost use Rattle.clr_types.specs.Types.{form_of, form_at, is_array, is_lawful_form, mt_of, name_of};
ghost use Rattle.clr_types.specs.Types.{number_with_free, slot_kinds, slot_offset, slots_of, type_row};
ghost use Rattle.clr_types.specs.Types as types;
ghost use Rattle.clr_types.specs.Descriptors.{reference_offsets, series_of};
ghost use Rattle.clr_types.specs.ReferenceRuns.{single_run, SpellsReferences};
ghost use Rattle.clr_types.specs.Table.{first_refusal, IsLawfulRow, HasDistinctNames};

use crate::method_table::{MethodTable, is_lawful};
use crate::names::Names;
use crate::{DefineFault, FREE_MT, NoMemory, ReferenceRun, Series, Shape, Slot, Slots, TypeId};
use std::alloc::Global;
use std::marker::Model;

/// The types that a script may define, at most.
const MOST_TYPES: u32 = 1000;

/// The method table word of number 0.
const FIRST_WORD: u64 = FREE_MT;

/// The types that a script defined, numbered from 1 in order of definition. `Free`, the type of unused space, is
/// number 0.
#[derive(Drop)]
pub struct Types {
    alloc: Global,
    names: Names,
    tables: Vec<MethodTable>,
}

impl Model for Types {
    ghost use Rattle.std.specs.Prelude.{List};
    ghost use Rattle.clr_types.specs.Types.{TypeRow};
    ghost use Rattle.clr_types.specs.Table.{rows_of, without_first, IsTable};

    ghost Value = { List TypeRow };

    ghost view = { λ types. without_first (rows_of types.names types.tables.items) };

    ghost invariant = { λ types. IsTable types.names types.tables.items };
}

impl Types {
    /// No type but `Free`.
    pub fn new(alloc: Global) -> Result<Types, NoMemory>
        ensures { IfOk result (λ types. types ≡ []) }
    {
        let mut names = Names::new(alloc);
        names.add(alloc, b"Free")?;
        let mut tables = Vec::new(alloc);
        tables.push(MethodTable::free(alloc))?;
        Ok(Types {
            alloc,
            names,
            tables,
        })
    }

    /// How many types there are, `Free` among them.
    pub fn count(&self) -> u32
        ensures value { result ≡ length self.now + 1 }
        ensures few { length self.now ≤ 1000 }
        ensures lawful { AllByRecursion IsLawfulRow self.now }
        ensures distinct { HasDistinctNames self.now }
    {
        self.tables.len() as u32
    }

    /// Defines a type, which takes the next number. After an error the table is as it was.
    ///
    /// The refusals come in the order of `DefineFault`'s variants.
    pub fn define(
        &mut self,
        name: &[u8],
        shape: Shape<'_>,
        finalizer: bool,
    ) -> Result<TypeId, DefineFault>
        ensures number { IfOk result (λ t. t.0 ≡ length self.old + 1) }
        ensures defined { OnOk result (self.new ≡ self.old
            ++ record { name = name.now; form = form_of shape.entry; finalizer = finalizer } ∷ []) }
        ensures err { OnErr result (self.new ≡ self.old) }

        // Each refusal comes exactly where it is the first that fits.
        ensures duplicate { (result ≡ Err DefineFault.Duplicate) ↔ (number_with_free self.old name.now ≢ None) }
        ensures bad_shape { (result ≡ Err DefineFault.BadShape)
            ↔ ((number_with_free self.old name.now ≡ None)
            × (is_lawful_form (form_of shape.entry) finalizer ≡ false)) }
        ensures too_many { (result ≡ Err DefineFault.TooManyTypes)
            ↔ ((number_with_free self.old name.now ≡ None)
            × (is_lawful_form (form_of shape.entry) finalizer ≡ true)
            × (length self.old ≡ 1000)) }
    {
        if let Some(fault) = self.refusal(name, shape, finalizer) {
            return Err(fault);
        }
        let number = self.count();
        let table = MethodTable::new(self.alloc, shape, finalizer)?;
        self.tables.reserve(1)?;
        self.names.add(self.alloc, name)?;
        self.tables.push_reserved(table);
        Ok(TypeId(number))
    }

    // Why a type can't be defined, if not for want of memory.
    fn refusal(&self, name: &[u8], shape: Shape<'_>, finalizer: bool) -> Option<DefineFault>
        ensures { let named = number_with_free self.now name.now in
            let lawful = is_lawful_form (form_of shape.entry) finalizer in
            result ≡ first_refusal named lawful (length self.now) }
    {
        if self.by_name(name).is_some() {
            Some(DefineFault::Duplicate)
        } else if !is_lawful(shape, finalizer) {
            Some(DefineFault::BadShape)
        } else if self.count() > MOST_TYPES {
            Some(DefineFault::TooManyTypes)
        } else {
            None
        }
    }

    /// The type with this name.
    #[inline(always)]
    pub fn by_name(&self, name: &[u8]) -> Option<TypeId>
        ensures { option_map (λ (t : TypeId). t.0) result ≡ number_with_free self.now name.now }
    {
        let number = self.names.number(name)?;
        Some(TypeId(number as u32))
    }

    /// Whether a type has this name: that of unused space is `Free`. A number that no type has has no name.
    #[inline(always)]
    pub fn has_name(&self, t: TypeId, name: &[u8]) -> bool
        ensures named { IsTrue result ↔ (number_with_free self.now name.now ≡ Some t.0) }
        ensures name { IsTrue result → name_of self.now t.0 ≡ name.now }
        ensures known { IsTrue result → t.0 ≤ length self.now }
    {
        self.names.is_name(t.0 as usize, name)
    }

    /// The method table word of a type.
    pub fn mt(&self, t: TypeId) -> u64
        requires { t.0 ≤ length self.now }
        ensures { result ≡ mt_of t.0 }
    {
        let _ = &self.tables;
        FIRST_WORD + 64 * u64::from(t.0)
    }

    /// The type with this method table word.
    pub fn by_mt(&self, mt: u64) -> Option<TypeId>
        ensures { MatchOption result
            ((t : ℕ) → t ≤ length self.now → mt ≢ mt_of t)
            (λ t. (t.0 ≤ length self.now) × (mt ≡ mt_of t.0)) }
    {
        if mt < FIRST_WORD || (mt - FIRST_WORD) % 64 != 0 {
            return None;
        }
        let number = (mt - FIRST_WORD) / 64;
        if number < u64::from(self.count()) {
            Some(TypeId(number as u32))
        } else {
            None
        }
    }

    /// The type that a method table word names. The word is one of the table's.
    #[inline(always)]
    pub fn of_mt(&self, mt: u64) -> TypeId
        requires known { (mt - FIRST_WORD) / 64 ≤ length self.now }
        requires word { mt ≡ mt_of ((mt - FIRST_WORD) / 64) }
        ensures { result.0 ≡ (mt - FIRST_WORD) / 64 }
    {
        let _ = self.count();
        TypeId(((mt - FIRST_WORD) / 64) as u32)
    }

    /// The name of a type.
    #[inline(always)]
    pub fn name(&self, t: TypeId) -> &[u8]
        requires { t.0 ≤ length self.now }
        ensures { result.now ≡ name_of self.now t.0 }
    {
        self.names.name(t.0 as usize)
    }

    /// Whether objects of a type have a finaliser.
    pub fn finalizer(&self, t: TypeId) -> bool
        requires { t.0 ≤ length self.now }
        ensures { result ≡ types.has_finalizer (type_row self.now t.0) }
    {
        self.table(t).has_finalizer()
    }

    /// Whether objects of a type have a length word, as unused space has.
    #[inline(always)]
    pub fn has_length(&self, t: TypeId) -> bool
        requires { t.0 ≤ length self.now }
        ensures { result ≡ is_array (form_at self.now t.0) }
    {
        self.table(t).has_length()
    }

    /// The bytes of an object of `len` elements, and none where they are more than 2^30.
    ///
    /// Unused space has the size of an array of bytes, 24 and its length.
    #[inline]
    pub fn size_of(&self, t: TypeId, len: u64) -> Option<u64>
        requires { t.0 ≤ length self.now }
        ensures { let size = types.size_of (form_at self.now t.0) len in
            SomeIff result (size ≤ 1073741824) size }
    {
        self.table(t).size(len)
    }

    /// The bytes of an item of `len` elements, where they are at most 2^30. It has no test for that, so a walk can
    /// afford it.
    #[inline(always)]
    pub fn item_size(&self, t: TypeId, len: u64) -> u64
        requires known { t.0 ≤ length self.now }
        requires size { types.size_of (form_at self.now t.0) len ≤ 1073741824 }
        ensures { result ≡ types.size_of (form_at self.now t.0) len }
    {
        self.table(t).item_size(len)
    }

    /// The shape of a type. That of unused space is an array of bytes.
    #[inline(always)]
    pub fn shape(&self, t: TypeId) -> Shape<'_>
        requires { t.0 ≤ length self.now }
        ensures { form_of result ≡ form_at self.now t.0 }
    {
        self.table(t).shape()
    }

    /// How many slots an object of `len` elements has.
    #[inline(always)]
    pub fn slot_count(&self, t: TypeId, len: u64) -> u64
        requires known { t.0 ≤ length self.now }
        requires size { types.size_of (form_at self.now t.0) len ≤ 1073741824 }
        ensures { result ≡ length (slot_kinds (form_at self.now t.0) len) }
    {
        self.table(t).slot_count(len)
    }

    /// Slot `i` of an object of `len` elements.
    #[inline(always)]
    pub fn slot(&self, t: TypeId, len: u64, i: u64) -> Slot
        requires known { t.0 ≤ length self.now }
        requires size { types.size_of (form_at self.now t.0) len ≤ 1073741824 }
        requires below { i < length (slot_kinds (form_at self.now t.0) len) }
        ensures offset { result.offset ≡ slot_offset (form_at self.now t.0) i }
        ensures reference { slice_get (slot_kinds (form_at self.now t.0) len) i ≡ Some result.reference }
        ensures slot { slice_get (slots_of (form_at self.now t.0) len) i ≡ Some result }
    {
        self.table(t).slot(len, i)
    }

    /// The runs of references in objects of a type, by rising offset.
    pub fn series(&self, t: TypeId) -> &[Series]
        requires { t.0 ≤ length self.now }
        ensures { result.now ≡ series_of (form_at self.now t.0) }
    {
        self.table(t).series()
    }

    /// The references of an object of `len` elements, where they stand one behind the other: those of a class in which
    /// they are one run, as in most, and of an array of references. `None` comes of classes with none or with several
    /// runs, and of other arrays.
    #[inline]
    pub fn reference_run(&self, t: TypeId, len: u64) -> Option<ReferenceRun>
        requires { t.0 ≤ length self.now }
        ensures run { result ≡ single_run (form_at self.now t.0) len }
        ensures spelled { IfSome result (SpellsReferences (form_at self.now t.0) len) }
    {
        self.table(t).reference_run(len)
    }

    /// The offsets of the references of an object of `len` elements, by rising offset. It reads them from the runs.
    pub fn slots(&self, t: TypeId, len: u64) -> Slots<'_>
        requires known { t.0 ≤ length self.now }
        requires size { types.size_of (form_at self.now t.0) len ≤ 1073741824 }
        ensures { result ≡ reference_offsets (form_at self.now t.0) len }
    {
        self.table(t).slots(len)
    }

    // All but the name of a type.
    #[inline(always)]
    fn table(&self, t: TypeId) -> &MethodTable
        requires { t.0 ≤ length self.now }
        ensures form { result.now.form ≡ form_at self.now t.0 }
        ensures finalizer { result.now.finalizer ≡ types.has_finalizer (type_row self.now t.0) }
    {
        &self.tables[t.0 as usize]
    }
}
