//! `gcroot`: what keeps an object alive.
ghost use Rattle.std.specs.Prelude.{◌≡◌, ◌≢◌, ℕ, ◌<◌, ◌↔◌, ◌++◌, length, IfOk, OnOk, Err, None};
ghost use Rattle.std.specs.List.{flat_map};
ghost use Rattle.clr_model.specs.Lookups.{object_at as object_of};
ghost use Rattle.clr_model.specs.Machine.{Machine};
ghost use Rattle.clr_types.specs.Rising.{IsIn};
ghost use Rattle.clr_view.specs.View.{IsHeld};
ghost use Rattle.clr_sos.specs.Reaching.{entry_of, IsObjectOf, place_at};
ghost use Rattle.clr_sos.specs.RootTexts.{AreBehind, IsRootOrigin, IsTrail, origin_line, place_line, TellsRoot};
ghost use Rattle.clr_sos.specs.Views.{IsLawfulView, IsViewOf};

use crate::reach::{FoundObject, Origin, reach_to};
use crate::text::{put_address, put_word_number, put_words};
use crate::{SosFault, View};
use clr_generations::object_at;
use clr_view::object_item;
use std::alloc::{AllocError, Global};

/// What `gcroot` shows of the object at the address `a`: a root, and a chain of objects from there to it. No chain from
/// any root to the object has fewer objects.
///
/// ```text
/// root t1 l0
/// 0000000010001008 Node
/// 00000000100010b0 Leaf
/// ```
///
/// The first line has the root: a thread and a local (`root t1 l0`), a strong or pinned handle (`root h7`), or an
/// object of the f-reachable queue, counted from 0 (`root ready 0`). A line for each object of the chain follows, from
/// the root's object to the one that was asked for, with its address in 16 hexadecimal digits and the name of its
/// type. Each leads to the next by a slot, or as the primary of a dependent handle to its second object. Where the
/// roots don't reach the object, the only line is `none`.
///
/// `NoObject` comes exactly where no object stands there, and `NoMemory` only where there is no memory for the search
/// or for the text. The search leaves the heap as it is. It follows what the roots reach once, up to where it has found
/// the object.
pub fn gcroot(alloc: Global, view: &View<'_>, a: u64) -> Result<Vec<u8>, SosFault>
    requires lawful { IsLawfulView view.now }
    ensures text { IfOk result (λ text. (m : Machine) → IsViewOf view.now m → TellsRoot m a text.items) }
    ensures no_object { (m : Machine) → IsViewOf view.now m
        → ((result ≡ Err SosFault.NoObject) ↔ (object_of m.objects a ≡ None)) }
    ensures no_type { result ≢ Err SosFault.UnknownType }
{
    let Some(_) = object_at(view.heap, view.types, view.bricks, a) else {
        return Err(SosFault::NoObject);
    };
    let text = text_of(alloc, view, a)?;
    Ok(text)
}

// What is told of the roots of an object.
fn text_of(alloc: Global, view: &View<'_>, a: u64) -> Result<Vec<u8>, AllocError>
    requires lawful { IsLawfulView view.now }
    requires stands { IsObjectOf view.now a }
    ensures { IfOk result (λ text. (m : Machine) → IsViewOf view.now m → TellsRoot m a text.items) }
{
    let reached = reach_to(alloc, view, a)?;
    let mut text = Vec::new(alloc);
    let Some(last) = reached.find(a) else {
        text.extend_from_slice(b"none\n")?;
        return Ok(text);
    };
    let trail = trail_to(alloc, &reached.entries, last)?;
    put_origin(&mut text, trail.root)?;
    put_places(&mut text, view, &trail.places)?;
    Ok(text)
}

/// A root and the addresses of a chain of objects from there.
#[derive(Drop)]
pub struct Trail {
    pub root: Origin,
    pub places: Vec<u64>,
}

/// The root and the chain by which entry `last` was found.
pub fn trail_to(alloc: Global, entries: &[FoundObject], last: usize) -> Result<Trail, AllocError>
    requires below { last < length entries.now }
    requires back { AreBehind entries.now }
    ensures { IfOk result (λ trail. (i : ℕ) × IsTrail entries.now (place_at entries.now last) i trail.places.items
        × (trail.root ≡ (entry_of entries.now i).origin) × IsRootOrigin trail.root) }
{
    let mut places = Vec::new(alloc);
    let mut i = last;
    places.push(entries[i].place)?;
    while let Origin::Through(before) = entries[i].origin {
        i = before;
        places.push(entries[i].place)?;
    }
    places.reverse();
    Ok(Trail {
        root: entries[i].origin,
        places,
    })
}

/// Puts the line of a root at the end.
pub fn put_origin(text: &mut Vec<u8>, root: Origin) -> Result<(), AllocError>
    ensures { OnOk result (text.new.items ≡ text.old.items ++ origin_line root) }
{
    match root {
        Origin::Local(i) => {
            put_word_number(text, b"root t", (i / 64 + 1) as u64)?;
            put_word_number(text, b" l", (i % 64) as u64)?;
        }
        Origin::Handle(h) => {
            put_word_number(text, b"root h", h)?;
        }
        Origin::Ready(i) => {
            put_word_number(text, b"root ready ", i as u64)?;
        }
        Origin::Through(_) => return Ok(()),
    }
    text.extend_from_slice(b"\n")?;
    Ok(())
}

/// Puts a line for each address of an object at the end.
pub fn put_places(text: &mut Vec<u8>, view: &View<'_>, places: &[u64]) -> Result<(), AllocError>
    requires held { IsHeld view.now.types.now view.now.heap.now }
    requires stand { (x : ℕ) → IsIn x places.now → IsObjectOf view.now x }
    ensures { OnOk result (text.new.items ≡ text.old.items ++ flat_map (place_line view.now) places.now) }
{
    for place in places {
        put_place_line(text, view, *place)?;
    }
    Ok(())
}

/// Puts the line of an object at the end.
pub fn put_place_line(text: &mut Vec<u8>, view: &View<'_>, place: u64) -> Result<(), AllocError>
    requires held { IsHeld view.now.types.now view.now.heap.now }
    requires stands { IsObjectOf view.now place }
    ensures { OnOk result (text.new.items ≡ text.old.items ++ place_line view.now place) }
{
    let item = object_item(view.heap, view.types, place);
    put_address(text, place)?;
    put_words(text, b" ", view.types.name(item.type_id))?;
    text.extend_from_slice(b"\n")?;
    Ok(())
}
