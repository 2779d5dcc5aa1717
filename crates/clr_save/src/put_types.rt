//! The types, at the end of other bytes.
ghost use Rattle.std.specs.Prelude.{◌≡◌, ℕ, ◌+◌, ◌<◌, ◌≤◌, ◌++◌, length, OnOk};
ghost use Rattle.std.specs.List.{flat_map};
ghost use Rattle.clr_types.specs.Types.{form_of};
ghost use Rattle.clr_fields.specs.TypeFields.{form_number, form_pattern};
ghost use Rattle.clr_format.specs.Saved.{type_bytes, word_bytes};
ghost use Rattle.clr_save.specs.Written.{row_at};

use crate::put::put_word;
use clr_types::{Shape, TypeId, Types};
use std::alloc::AllocError;

// The number of a shape.
fn number_of(shape: Shape<'_>) -> u64
    ensures { result ≡ form_number (form_of shape.entry) }
{
    match shape {
        Shape::Class(_) => 0,
        Shape::RefArray => 1,
        Shape::ByteArray => 2,
        Shape::StructArray(_) => 3,
    }
}

// The pattern of a shape, empty where it has none.
fn pattern_of(shape: Shape<'_>) -> &[u8]
    ensures { result.now ≡ form_pattern (form_of shape.entry) }
{
    match shape {
        Shape::Class(pattern) => pattern,
        Shape::RefArray => b"",
        Shape::ByteArray => b"",
        Shape::StructArray(pattern) => pattern,
    }
}

// Puts a type at the end.
fn put_type(out: &mut Vec<u8>, types: &Types, t: TypeId) -> Result<(), AllocError>
    requires { t.0 ≤ length types.now }
    ensures { OnOk result (out.new.items ≡ out.old.items ++ type_bytes (row_at types.now t.0)) }
{
    let name = types.name(t);
    let shape = types.shape(t);
    let pattern = pattern_of(shape);
    put_word(out, name.len() as u64)?;
    out.extend_from_slice(name)?;
    put_word(out, number_of(shape))?;
    put_word(out, u64::from(types.finalizer(t)))?;
    put_word(out, pattern.len() as u64)?;
    out.extend_from_slice(pattern)
}

/// Puts the number of types and each type at the end.
pub fn put_types(out: &mut Vec<u8>, types: &Types) -> Result<(), AllocError>
    ensures { OnOk result (out.new.items ≡ out.old.items
        ++ (word_bytes (length types.now) ++ flat_map type_bytes types.now)) }
{
    let count = types.count();
    put_word(out, u64::from(count - 1))?;
    for t in 1..count {
        put_type(out, types, TypeId(t))?;
    }
    Ok(())
}
