//! `pathto`: how one object leads to another.
ghost use Rattle.std.specs.Prelude.{◌≡◌, ◌≢◌, ◌↔◌, ◌⊎◌, ◌<◌, ◌∷◌, [], ℕ, length, IfOk, Err, None};
ghost use Rattle.clr_model.specs.Looks.{IsPathText};
ghost use Rattle.clr_model.specs.Lookups.{object_at as object_of};
ghost use Rattle.clr_model.specs.Machine.{Machine};
ghost use Rattle.clr_sos.specs.Reaching.{IsObjectOf, IsSound, Leads, place_at};
ghost use Rattle.clr_sos.specs.Views.{IsLawfulView, IsViewOf};
ghost use Rattle.clr_paths.specs.Paths.{IsSearchFor};

use clr_final::Finals;
use clr_generations::object_at;
use clr_sos::{Reached, SosFault, View, put_places, ties_of, trail_to};
use std::alloc::{AllocError, Global};

/// A shortest chain of objects from the one with the address `a` to the one with the address `b`: a line for each, its
/// address in 16 hexadecimal digits and the name of its type. Each leads to the next by a reference in a slot, or as
/// the primary of a dependent handle to its secondary. Where `a` leads to `b` in no way, the only line is `none`.
///
/// `NoObject` comes exactly where no object has one of the addresses, and `NoMemory` only where there is no memory for
/// the search or for the text. The heap stays as it is. The search is breadth first from `a`, and ends where it has
/// found `b`. It takes a bit for each word of the heap's used ranges, and 24 bytes for each object that it finds.
pub fn pathto(alloc: Global, view: &View<'_>, a: u64, b: u64) -> Result<Vec<u8>, SosFault>
    requires lawful { IsLawfulView view.now }
    ensures text { IfOk result (λ text. (m : Machine) → IsViewOf view.now m → IsPathText m a b text.items) }
    ensures no_object { (m : Machine) → IsViewOf view.now m → ((result ≡ Err SosFault.NoObject)
        ↔ ((object_of m.objects a ≡ None) ⊎ (object_of m.objects b ≡ None))) }
    ensures no_type { result ≢ Err SosFault.UnknownType }
{
    let Some(_) = object_at(view.heap, view.types, view.bricks, a) else {
        return Err(SosFault::NoObject);
    };
    let Some(_) = object_at(view.heap, view.types, view.bricks, b) else {
        return Err(SosFault::NoObject);
    };
    let text = text_of(alloc, view, a, b)?;
    Ok(text)
}

// What is told of the way from one object to another.
fn text_of(alloc: Global, view: &View<'_>, a: u64, b: u64) -> Result<Vec<u8>, AllocError>
    requires lawful { IsLawfulView view.now }
    requires from { IsObjectOf view.now a }
    requires to { IsObjectOf view.now b }
    ensures { IfOk result (λ text. (m : Machine) → IsViewOf view.now m → IsPathText m a b text.items) }
{
    let reached = reach_from(alloc, view, a, b)?;
    let mut text = Vec::new(alloc);
    let Some(last) = reached.find(b) else {
        text.extend_from_slice(b"none\n")?;
        return Ok(text);
    };
    let trail = trail_to(alloc, &reached.entries, last)?;
    put_places(&mut text, view, &trail.places)?;
    Ok(text)
}

// What the object at `a` leads to, up to where the one at `b` is found. That is what the only local of another view
// leads to.
fn reach_from(alloc: Global, view: &View<'_>, a: u64, b: u64) -> Result<Reached, AllocError>
    requires sound { IsSound view.now }
    requires from { IsObjectOf view.now a }
    requires to { IsObjectOf view.now b }
    ensures stand { IfOk result (λ r. (i : ℕ) → i < length r.entries.items
        → IsObjectOf view.now (place_at r.entries.items i)) }
    ensures found { IfOk result (λ r. IsSearchFor (Leads view.now) a b r.entries.items) }
{
    let locals = [a];
    let finals = Finals::new(alloc);
    let only = View {
        types: view.types,
        heap: view.heap,
        bricks: view.bricks,
        handles: view.handles,
        finals: &finals,
        locals: &locals,
        limit: view.limit,
        large: view.large,
    };
    reach_from_local(alloc, &only, a, b)
}

// What the object at `a`, a view's only local, leads to, up to where the one at `b` is found.
fn reach_from_local(alloc: Global, view: &View<'_>, a: u64, b: u64) -> Result<Reached, AllocError>
    requires sound { IsSound view.now }
    requires from { IsObjectOf view.now a }
    requires local { view.now.locals.now ≡ a ∷ [] }
    requires to { IsObjectOf view.now b }
    ensures stand { IfOk result (λ r. (i : ℕ) → i < length r.entries.items
        → IsObjectOf view.now (place_at r.entries.items i)) }
    ensures found { IfOk result (λ r. IsSearchFor (Leads view.now) a b r.entries.items) }
{
    let ties = ties_of(alloc, view.handles)?;
    let mut reached = Reached::from_locals(alloc, view)?;
    let mut next = 0;
    while next < reached.entries.len() {
        if reached.has(view.heap, b) {
            return Ok(reached);
        }
        let _ = reached.follow(view, &ties, next)?;
        next += 1;
    }
    Ok(reached)
}
