//! The lines on slots and locals, at a place of a text that has enough bytes behind it. Each reader takes the place
//! behind the verb that its contract names, those of three letters behind the space after it, too. It gives what the
//! line says and where what is behind its feed begins.
ghost use Rattle.std.specs.Prelude.{◌≡◌, ◌≤◌, ◌+◌, ◌∷◌, ◌++◌, IfSome, codes, drop, length};
ghost use Rattle.clr_model.specs.Instructions.{get_slot, set_slot, put_number, read_number, copy_local, clear_local};
ghost use Rattle.clr_model.specs.Instructions.{create_handle, suppress_object, take_ready};
ghost use Rattle.clr_model.specs.LineGrammar.{local_words, IsHandleForm, IsWord};
ghost use Rattle.clr_model.specs.ReplyText.{kind_word};
ghost use Rattle.clr_script.specs.Fronts.{behind, Continues};

use crate::quick::places::{feed_at, local_at, local_here, number_at, text_at};
use clr_types::Kind;

/// Whereto, from which object and from which slot is loaded.
#[inline(always)]
pub fn get_at(text: &[u8], at: usize) -> Option<(u64, u64, u64, usize)>
    requires { at + 48 ≤ length text.now }
    ensures line { IfSome result (λ p. Continues (codes "get") (λ t. get_slot t p.0 p.1 p.2)
        (32 ∷ drop at text.now) (drop p.3 text.now)) }
    ensures near { IfSome result (λ p. p.3 ≤ at + 48) }
{
    let (to, next) = local_here(text, at)?;
    let (from, next) = local_at(text, next)?;
    let (index, next) = number_at(text, next)?;
    let end = feed_at(text, next)?;
    Some((to, from, index, end))
}

/// Into which object and which slot a reference is stored, and which.
#[inline(always)]
pub fn set_at(text: &[u8], at: usize) -> Option<(u64, u64, u64, usize)>
    requires { at + 48 ≤ length text.now }
    ensures line { IfSome result (λ p. Continues (codes "set") (λ t. set_slot t p.0 p.1 p.2)
        (32 ∷ drop at text.now) (drop p.3 text.now)) }
    ensures near { IfSome result (λ p. p.3 ≤ at + 48) }
{
    let (into, next) = local_here(text, at)?;
    let (index, next) = number_at(text, next)?;
    let (stored, next) = local_at(text, next)?;
    let end = feed_at(text, next)?;
    Some((into, index, stored, end))
}

/// Into which object and which slot a number is stored, and which.
#[inline(always)]
pub fn put_at(text: &[u8], at: usize) -> Option<(u64, u64, u64, usize)>
    requires { at + 48 ≤ length text.now }
    ensures line { IfSome result (λ p. Continues (codes "put") (λ t. put_number t p.0 p.1 p.2)
        (32 ∷ drop at text.now) (drop p.3 text.now)) }
    ensures near { IfSome result (λ p. p.3 ≤ at + 48) }
{
    let (into, next) = local_here(text, at)?;
    let (index, next) = number_at(text, next)?;
    let (value, next) = number_at(text, next)?;
    let end = feed_at(text, next)?;
    Some((into, index, value, end))
}

/// From which object and which slot a number is read.
#[inline(always)]
pub fn slot_at(text: &[u8], at: usize) -> Option<(u64, u64, usize)>
    requires { at + 48 ≤ length text.now }
    ensures line { IfSome result (λ p. Continues (codes "read") (λ t. read_number t p.0 p.1)
        (drop at text.now) (drop p.2 text.now)) }
    ensures near { IfSome result (λ p. p.2 ≤ at + 48) }
{
    let (from, next) = local_at(text, at)?;
    let (index, next) = number_at(text, next)?;
    let end = feed_at(text, next)?;
    Some((from, index, end))
}

/// Whereto and from which local is copied.
#[inline(always)]
pub fn copy_at(text: &[u8], at: usize) -> Option<(u64, u64, usize)>
    requires { at + 48 ≤ length text.now }
    ensures line { IfSome result (λ p. Continues (codes "copy") (λ t. copy_local t p.0 p.1)
        (drop at text.now) (drop p.2 text.now)) }
    ensures near { IfSome result (λ p. p.2 ≤ at + 48) }
{
    let (to, next) = local_at(text, at)?;
    let (from, next) = local_at(text, next)?;
    let end = feed_at(text, next)?;
    Some((to, from, end))
}

/// Which local becomes null.
#[inline(always)]
pub fn null_at(text: &[u8], at: usize) -> Option<(u64, usize)>
    requires { at + 48 ≤ length text.now }
    ensures line { IfSome result (λ p. Continues (codes "null") (λ t. clear_local t p.0)
        (drop at text.now) (drop p.1 text.now)) }
    ensures near { IfSome result (λ p. p.1 ≤ at + 48) }
{
    let (local, next) = local_at(text, at)?;
    let end = feed_at(text, next)?;
    Some((local, end))
}

/// Which local takes the next object whose finaliser is due. The place stands behind the first four letters of the
/// verb, as that of the next two.
#[inline(always)]
pub fn finalizer_at(text: &[u8], at: usize) -> Option<(u64, usize)>
    requires { at + 48 ≤ length text.now }
    ensures line { IfSome result (λ p. Continues (codes "fina") (λ t. take_ready t p.0)
        (drop at text.now) (drop p.1 text.now)) }
    ensures near { IfSome result (λ p. p.1 ≤ at + 48) }
{
    let next = text_at(text, at, b"lizer")?;
    let (to, next) = local_at(text, next)?;
    let end = feed_at(text, next)?;
    Some((to, end))
}

/// The object of which local isn't finalised.
#[inline(always)]
pub fn suppress_at(text: &[u8], at: usize) -> Option<(u64, usize)>
    requires { at + 48 ≤ length text.now }
    ensures line { IfSome result (λ p. Continues (codes "supp") (λ t. suppress_object t p.0)
        (drop at text.now) (drop p.1 text.now)) }
    ensures near { IfSome result (λ p. p.1 ≤ at + 48) }
{
    let next = text_at(text, at, b"ress")?;
    let (local, next) = local_at(text, next)?;
    let end = feed_at(text, next)?;
    Some((local, end))
}

// The kind of the word at a place, and where it ends.
#[inline(always)]
fn kind_at(text: &[u8], at: usize) -> Option<(Kind, usize)>
    requires { at + 10 ≤ length text.now }
    ensures read { IfSome result (λ p. drop at text.now ≡ (32 ∷ kind_word p.0) ++ drop p.1 text.now) }
    ensures near { IfSome result (λ p. p.1 ≤ at + 10) }
{
    if let Some(end) = text_at(text, at, b" strong") {
        Some((Kind::Strong, end))
    } else if let Some(end) = text_at(text, at, b" pinned") {
        Some((Kind::Pinned, end))
    } else if let Some(end) = text_at(text, at, b" weaklong") {
        Some((Kind::WeakLong, end))
    } else if let Some(end) = text_at(text, at, b" weak") {
        Some((Kind::Weak, end))
    } else if let Some(end) = text_at(text, at, b" dependent") {
        Some((Kind::Dependent, end))
    } else {
        None
    }
}

// The second local of a handle of this kind, and where what is behind the line feed begins: a dependent one has it, and
// no other.
#[inline(always)]
fn second_at(kind: Kind, text: &[u8], at: usize) -> Option<(Option<u64>, usize)>
    requires { at + 5 ≤ length text.now }
    ensures read { IfSome result (λ p. drop at text.now ≡ behind (local_words p.0) ++ 10 ∷ drop p.1 text.now) }
    ensures form { IfSome result (λ p. IsHandleForm kind p.0) }
    ensures fits { IfSome result (λ p. IfSome p.0 IsWord) }
    ensures near { IfSome result (λ p. p.1 ≤ at + 5) }
{
    if kind == Kind::Dependent {
        let (second, next) = local_at(text, at)?;
        let end = feed_at(text, next)?;
        return Some((Some(second), end));
    }
    let end = feed_at(text, at)?;
    Some((None, end))
}

/// Which kind of handle is made, and on which locals.
#[inline(always)]
pub fn handle_at(text: &[u8], at: usize) -> Option<(Kind, u64, Option<u64>, usize)>
    requires { at + 48 ≤ length text.now }
    ensures line { IfSome result (λ p. Continues (codes "hand") (λ t. create_handle t p.0 p.1 p.2)
        (drop at text.now) (drop p.3 text.now)) }
    ensures form { IfSome result (λ p. IsHandleForm p.0 p.2) }
    ensures near { IfSome result (λ p. p.3 ≤ at + 48) }
{
    let next = text_at(text, at, b"le")?;
    let (kind, next) = kind_at(text, next)?;
    let (local, next) = local_at(text, next)?;
    let (second, end) = second_at(kind, text, next)?;
    Some((kind, local, second, end))
}
