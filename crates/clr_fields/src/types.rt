//! Types read from bytes.
ghost use Rattle.std.specs.Prelude.{◌≡◌, ◌+◌, ◌<◌, ◌≤◌, [], ◌∷◌, ◌++◌, length, take, drop, Option, None, IfErr, IfOk};
ghost use Rattle.std.specs.Prelude.{IfSome, OnOk, position, true};
ghost use Rattle.std.specs.List.{list_all};
ghost use Rattle.clr_types.specs.Types.{form_of, is_lawful_form, number_with_free};
ghost use Rattle.clr_model.specs.LineGrammar as grammar;
ghost use Rattle.clr_fields.specs.Fields.{field, text, times};
ghost use Rattle.clr_fields.specs.Finds.{Finds, FindsAs, FindsThat};
ghost use Rattle.clr_fields.specs.TypeFields.{is_final_mark, is_new_name, is_no_slot, is_pattern_length};
ghost use Rattle.clr_fields.specs.TypeFields.{form_with, pattern_field, type_fields, types_fields};

use crate::{LoadFault, Reader};
use clr_types::{Shape, Types};
use std::alloc::Global;

// Whether a name may begin with this byte: an ASCII letter or `_`.
fn starts_name(b: u8) -> bool
    ensures { result ≡ grammar.is_name_start b }
{
    b.is_ascii_uppercase() || b.is_ascii_lowercase() || b == b'_'
}

// Whether this byte may stand in a name.
fn continues_name(b: u8) -> bool
    ensures { result ≡ grammar.is_name_byte b }
{
    starts_name(b)
        || b.is_ascii_digit()
        || b == b'.'
        || b == b'['
        || b == b']'
        || b == b'<'
        || b == b'>'
        || b == b'+'
        || b == b','
}

// Whether each byte may stand in a name.
fn all_go_on(bytes: &[u8]) -> bool
    ensures { result ≡ list_all grammar.is_name_byte bytes.now }
{
    bytes.iter().all(|b| continues_name(*b))
}

// Whether the bytes are a name: at most 128, of which the first is a letter or `_`.
fn is_name(word: &[u8]) -> bool
    ensures { result ≡ grammar.is_name word.now }
{
    match word.split_first() {
        None => false,
        Some((first, rest)) => starts_name(*first) && all_go_on(rest) && rest.len() <= 127,
    }
}

// Whether no type has this name.
fn is_new(types: &Types, name: &[u8]) -> bool
    ensures { result ≡ is_new_name types.now name.now }
{
    is_name(name) && types.by_name(name).is_none()
}

// A name of `n` bytes, which no type has.
fn read_name<'a>(reader: &mut Reader<'a>, types: &Types, n: usize) -> Result<&'a [u8], LoadFault>
    ensures finds { FindsAs (λ t. t.now) (text n (is_new_name types.now)) reader.old reader.new result }
    ensures new { IfOk result (λ t. number_with_free types.now t.now ≡ None) }
{
    let at = reader.at();
    let name = reader.text(n)?;
    if is_new(types, name) {
        Ok(name)
    } else {
        Err(LoadFault::At(at as u64))
    }
}

// Whether the type has a finaliser, 0 or 1; only a class has one.
fn read_final(reader: &mut Reader<'_>, shape: u64) -> Result<u64, LoadFault>
    ensures finds { Finds (field (is_final_mark shape)) reader.old reader.new result }
    ensures lawful { IfOk result (λ m. is_final_mark shape m ≡ true) }
{
    let at = reader.at();
    let mark = reader.word()?;
    if mark == 0 || (mark == 1 && shape == 0) {
        Ok(mark)
    } else {
        Err(LoadFault::At(at as u64))
    }
}

// The length of the pattern.
fn read_length(reader: &mut Reader<'_>, shape: u64) -> Result<u64, LoadFault>
    ensures finds { Finds (field (is_pattern_length shape)) reader.old reader.new result }
    ensures lawful { IfOk result (λ n. is_pattern_length shape n ≡ true) }
{
    let at = reader.at();
    let n = reader.word()?;
    let lawful = if shape == 0 {
        n <= 256
    } else if shape == 3 {
        1 <= n && n <= 64
    } else {
        n == 0
    };
    if lawful {
        Ok(n)
    } else {
        Err(LoadFault::At(at as u64))
    }
}

// A pattern of `n` bytes.
fn read_pattern<'a>(reader: &mut Reader<'a>, n: usize) -> Result<&'a [u8], LoadFault>
    ensures finds { FindsAs (λ t. t.now) (pattern_field n) reader.old reader.new result }
    ensures len { IfOk result (λ t. length t.now ≡ n) }
    ensures slots { IfOk result (λ t. position is_no_slot t.now ≡ None) }
{
    let at = reader.at();
    let pattern = reader.text(n)?;
    match first_bad(pattern) {
        None => Ok(pattern),
        Some(i) => Err(LoadFault::At((at + i) as u64)),
    }
}

// The first byte that no pattern has.
fn first_bad(pattern: &[u8]) -> Option<usize>
    ensures position { result ≡ position is_no_slot pattern.now }
    ensures within { IfSome result (λ i. i < length pattern.now) }
{
    pattern.iter().position(|b| *b != b'r' && *b != b'n')
}

// The shape of this number.
fn shape_with(shape: u64, pattern: &[u8]) -> Shape<'_>
    ensures { form_of result ≡ form_with shape pattern.now }
{
    match shape {
        0 => Shape::Class(pattern),
        1 => Shape::RefArray,
        2 => Shape::ByteArray,
        _ => Shape::StructArray(pattern),
    }
}

// One type more, which the table takes.
#[tactic(auto, unfolding(crate::specs::TypeFields::type_fields))]
fn read_type(reader: &mut Reader<'_>, types: &mut Types) -> Result<(), LoadFault>
    requires { length types.old < 1000 }
    ensures finds { FindsThat (type_fields types.old) reader.old reader.new result types.new }
    ensures count { OnOk result (length types.new ≡ length types.old + 1) }
{
    let n = reader.from_to(1, 128)?;
    let name = read_name(reader, types, n as usize)?;
    let shape = reader.up_to(3)?;
    let mark = read_final(reader, shape)?;
    let len = read_length(reader, shape)?;
    let pattern = read_pattern(reader, len as usize)?;
    define(types, name, shape_with(shape, pattern), mark == 1)
}

/// The types that follow: their count, which is at most 1,000, and so many of them.
///
/// A type is the length of its name, the name, the number of its shape, whether it has a finaliser, the length of its
/// pattern, and the pattern. All but name and pattern are words.
///
/// `At` comes with the offset of the first field that isn't whole or not lawful, and of a pattern's first byte that
/// says no slot. `NoMemory` comes where there is no memory for them, which is taken for types that were read alone.
#[tactic(auto, unfolding(crate::specs::TypeFields::types_fields))]
pub fn read_types(alloc: Global, reader: &mut Reader<'_>) -> Result<Types, LoadFault>
    ensures { Finds types_fields reader.old reader.new result }
{
    let n = reader.up_to(1000)?;
    let mut types = Types::new(alloc)?;
    read_all(reader, &mut types, n)?;
    Ok(types)
}

// So many types, which the table takes.
fn read_all(reader: &mut Reader<'_>, types: &mut Types, n: u64) -> Result<(), LoadFault>
    requires { length types.old + n ≤ 1000 }
    ensures { FindsThat (times n type_fields types.old) reader.old reader.new result types.new }
{
    for _turn in 0..n {
        read_type(reader, types)?;
    }
    Ok(())
}

// A type more, whose name is new and whose shape is lawful, of fewer than 1,000.
fn define(
    types: &mut Types,
    name: &[u8],
    shape: Shape<'_>,
    finalizer: bool,
) -> Result<(), LoadFault>
    requires new { number_with_free types.old name.now ≡ None }
    requires lawful { is_lawful_form (form_of shape) finalizer ≡ true }
    requires room { length types.old < 1000 }
    ensures defined { OnOk result (types.new
        ≡ types.old ++ record { name = name.now; form = form_of shape.entry; finalizer = finalizer } ∷ []) }
    ensures only { IfErr result (λ e. e ≡ LoadFault.NoMemory) }
{
    match types.define(name, shape, finalizer) {
        Ok(_) => Ok(()),
        Err(_) => Err(LoadFault::NoMemory),
    }
}
