//! `dumpmt`: one type.
ghost use Rattle.std.specs.Prelude.{◌≡◌, ◌≢◌, ◌≤◌, ◌↔◌, ◌∷◌, ◌++◌, length, IfOk, OnOk, Err, Some, codes, false};
ghost use Rattle.clr_types.specs.Types.{form_of, name_of};
ghost use Rattle.clr_nums.specs.Numbers.{hex16};
ghost use Rattle.clr_model.specs.Checks.{has_mt};
ghost use Rattle.clr_model.specs.LineGrammar.{final_words, form_words, pattern_word};
ghost use Rattle.clr_model.specs.Looks.{defining_words, dumpmt_text};
ghost use Rattle.clr_model.specs.Machine.{Machine};
ghost use Rattle.clr_model.specs.Sos.{line};
ghost use Rattle.clr_sos.specs.TextPieces.{each_spaced};
ghost use Rattle.clr_sos.specs.Views.{IsViewOf};

use clr_sos::{SosFault, View, put_word_address, put_words};
use clr_types::{Shape, TypeId, Types};
use std::alloc::{AllocError, Global};

/// What `dumpmt` tells of the type with a method table word: that word, its name, and what the line that defines it
/// says behind the name. Behind `Free`, whose word is that of free items, nothing stands.
///
/// ```text
/// mt 00007ff000000040 Node class rrn final
/// ```
///
/// `UnknownType` comes exactly where no type has the word, and `NoMemory` only where there is no memory for the text.
pub fn dumpmt(alloc: Global, view: &View<'_>, mt: u64) -> Result<Vec<u8>, SosFault>
    ensures text { IfOk result (λ text. (m : Machine) → IsViewOf view.now m → text.items ≡ dumpmt_text m mt) }
    ensures unknown { (m : Machine) → IsViewOf view.now m
        → ((result ≡ Err SosFault.UnknownType) ↔ (has_mt m.types mt ≡ false)) }
    ensures no_object { result ≢ Err SosFault.NoObject }
{
    let Some(t) = view.types.by_mt(mt) else {
        return Err(SosFault::UnknownType);
    };
    let text = text_of(alloc, view.types, t, mt)?;
    Ok(text)
}

// What is told of a type.
fn text_of(alloc: Global, types: &Types, t: TypeId, mt: u64) -> Result<Vec<u8>, AllocError>
    requires { t.0 ≤ length types.now }
    ensures { IfOk result (λ text. text.items
        ≡ line (codes "mt" ∷ hex16 mt ∷ name_of types.now t.0 ∷ defining_words types.now t.0)) }
{
    let mut text = Vec::new(alloc);
    put_word_address(&mut text, b"mt ", mt)?;
    put_words(&mut text, b" ", types.name(t))?;
    put_defining(&mut text, types, t)?;
    text.extend_from_slice(b"\n")?;
    Ok(text)
}

// Puts what stands behind the name of a type where it is defined at the end: nothing for that of free items.
fn put_defining(text: &mut Vec<u8>, types: &Types, t: TypeId) -> Result<(), AllocError>
    requires { t.0 ≤ length types.now }
    ensures { OnOk result (text.new.items ≡ text.old.items ++ each_spaced (defining_words types.now t.0)) }
{
    if t.0 == 0 {
        return Ok(());
    }
    put_shape(text, types.shape(t))?;
    put_final(text, types.finalizer(t))?;
    Ok(())
}

// Puts the words of a shape at the end.
fn put_shape(text: &mut Vec<u8>, shape: Shape<'_>) -> Result<(), AllocError>
    ensures { OnOk result (text.new.items ≡ text.old.items ++ each_spaced (form_words (form_of shape.entry))) }
{
    match shape {
        Shape::Class(pattern) => put_words(text, b" class ", pattern_text(pattern)),
        Shape::StructArray(pattern) => put_words(text, b" structs ", pattern_text(pattern)),
        Shape::RefArray => text.extend_from_slice(b" refs"),
        Shape::ByteArray => text.extend_from_slice(b" bytes"),
    }
}

// Puts the word that says that objects have a finaliser at the end, where they have.
fn put_final(text: &mut Vec<u8>, finalizer: bool) -> Result<(), AllocError>
    ensures { OnOk result (text.new.items ≡ text.old.items ++ each_spaced (final_words finalizer)) }
{
    if finalizer {
        text.extend_from_slice(b" final")?;
    }
    Ok(())
}

// How a pattern is written.
fn pattern_text(pattern: &[u8]) -> &[u8]
    ensures { result.now ≡ pattern_word pattern.now }
{
    if pattern.is_empty() { b"-" } else { pattern }
}
