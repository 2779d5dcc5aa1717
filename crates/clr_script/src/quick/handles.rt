//! The lines on handles. Each reader takes the text behind the letters of the verb that its contract names.
ghost use Rattle.std.specs.Prelude.{◌≡◌, ◌∷◌, ◌++◌, ℕ, IfSome, codes};
ghost use Rattle.clr_model.specs.LineGrammar.{local_words, IsHandleForm};
ghost use Rattle.clr_model.specs.ReplyText.{kind_word};
ghost use Rattle.clr_script.specs.Fronts.{behind, SpellsBehind};

use crate::cut::strip;
use crate::quick::digits::{last_handle, last_local, take_local};
use clr_model::Command;
use clr_types::Kind;

// The kind of the next word, and what is behind it.
#[inline]
fn take_kind(text: &[u8]) -> Option<(Kind, &[u8])>
    ensures { IfSome result (λ p. text.now ≡ (32 ∷ kind_word p.0) ++ p.1.now) }
{
    if let Some(rest) = strip(text, b" strong") {
        Some((Kind::Strong, rest))
    } else if let Some(rest) = strip(text, b" pinned") {
        Some((Kind::Pinned, rest))
    } else if let Some(rest) = strip(text, b" weaklong") {
        Some((Kind::WeakLong, rest))
    } else if let Some(rest) = strip(text, b" weak") {
        Some((Kind::Weak, rest))
    } else if let Some(rest) = strip(text, b" dependent") {
        Some((Kind::Dependent, rest))
    } else {
        None
    }
}

// The second local of a handle of this kind: the last word of a dependent one, and nothing of another.
#[inline]
fn last_second(kind: Kind, text: &[u8]) -> Option<Option<u64>>
    ensures { IfSome result (λ second. (text.now ≡ behind (local_words second)) × IsHandleForm kind second) }
{
    if kind == Kind::Dependent {
        return Some(Some(last_local(text)?));
    }
    if text.is_empty() { Some(None) } else { None }
}

/// Which kind of handle is made, and on which locals.
pub fn read_create<'a>(t: u64, text: &'a [u8]) -> Option<Command<'a>>
    ensures { IfSome result (λ command. SpellsBehind t (codes "handle") text.now command) }
{
    let (kind, rest) = take_kind(text)?;
    let (local, rest) = take_local(rest)?;
    let second = last_second(kind, rest)?;
    Some(Command::Handle {
        t,
        kind,
        local,
        second,
    })
}

/// Which handle's target is fetched, and whereto.
#[inline]
pub fn read_fetch<'a>(t: u64, text: &'a [u8]) -> Option<Command<'a>>
    ensures { IfSome result (λ command. SpellsBehind t (codes "fetch") text.now command) }
{
    let (to, rest) = take_local(text)?;
    let h = last_handle(rest)?;
    Some(Command::Fetch { t, to, h })
}

/// Which handle is freed.
#[inline]
pub fn read_free<'a>(t: u64, text: &'a [u8]) -> Option<Command<'a>>
    ensures { IfSome result (λ command. SpellsBehind t (codes "free") text.now command) }
{
    let h = last_handle(text)?;
    Some(Command::Free { t, h })
}
