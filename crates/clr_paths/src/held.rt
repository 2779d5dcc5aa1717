//! `retained`: what is reached through one object alone.
ghost use Rattle.std.specs.Prelude.{◌≡◌, ◌≢◌, ◌↔◌, ◌≤◌, ◌<◌, ℕ, length, IfOk, OnOk, Err, None};
ghost use Rattle.clr_model.specs.Looks.{IsRetainedText};
ghost use Rattle.clr_model.specs.Lookups.{object_at as object_of};
ghost use Rattle.clr_model.specs.Machine.{Machine};
ghost use Rattle.clr_view.specs.SlotValues.{IsObjectAt};
ghost use Rattle.clr_sos.specs.Reaching.{AreTies, HasGrown, IsListed, IsRootOf, IsSearch, IsSound, place_at};
ghost use Rattle.clr_sos.specs.Views.{IsLawfulView, IsViewOf};
ghost use Rattle.clr_paths.specs.Held.{AreFollowedFrom, HasLed, IsAround, IsRetainedSum, IsSumFrom};

use clr_generations::object_at;
use clr_sos::{Reached, SosFault, Tie, View, put_word_address, put_word_number, ties_of};
use clr_types::Item;
use std::alloc::{AllocError, Global};

// How many objects there are, and how many bytes they have together.
#[derive(Clone, Copy)]
struct Sum {
    objects: u64,
    bytes: u64,
}

/// What the object with the address `a` retains: itself and the objects that it dominates, which the roots reach, and
/// would not reach if nothing referred to it. The line tells how many these are, and how many bytes they have
/// together.
///
/// ```text
/// retained 0000000010001060 objects 2 bytes 64
/// ```
///
/// Where the roots don't reach the object there are none. `NoObject` comes exactly where no object has the address,
/// and `NoMemory` only where there is no memory for the search or for the text. The heap stays as it is. One search
/// goes over what the roots reach, and follows the object last: what it finds then is retained by it. It takes a bit
/// for each word of the heap's used ranges, and 24 bytes for each object that it finds.
pub fn retained(alloc: Global, view: &View<'_>, a: u64) -> Result<Vec<u8>, SosFault>
    requires lawful { IsLawfulView view.now }
    ensures text { IfOk result (λ text. (m : Machine) → IsViewOf view.now m → IsRetainedText m a text.items) }
    ensures no_object { (m : Machine) → IsViewOf view.now m
        → ((result ≡ Err SosFault.NoObject) ↔ (object_of m.objects a ≡ None)) }
    ensures no_type { result ≢ Err SosFault.UnknownType }
{
    let Some(_) = object_at(view.heap, view.types, view.bricks, a) else {
        return Err(SosFault::NoObject);
    };
    let text = text_of(alloc, view, a)?;
    Ok(text)
}

// What is told of the object.
fn text_of(alloc: Global, view: &View<'_>, a: u64) -> Result<Vec<u8>, AllocError>
    requires { IsLawfulView view.now }
    ensures { IfOk result (λ text. (m : Machine) → IsViewOf view.now m → IsRetainedText m a text.items) }
{
    let sum = retained_by(alloc, view, a)?;
    let mut text = Vec::new(alloc);
    put_word_address(&mut text, b"retained ", a)?;
    put_word_number(&mut text, b" objects ", sum.objects)?;
    put_word_number(&mut text, b" bytes ", sum.bytes)?;
    text.extend_from_slice(b"\n")?;
    Ok(text)
}

// What the object at an address retains.
fn retained_by(alloc: Global, view: &View<'_>, a: u64) -> Result<Sum, AllocError>
    requires { IsSound view.now }
    ensures { IfOk result (IsRetainedSum view.now a) }
{
    let ties = ties_of(alloc, view.handles)?;
    let mut reached = Reached::from_roots(alloc, view, true)?;
    follow_but(&mut reached, view, &ties, a)?;
    match reached.find(a) {
        None => Ok(Sum {
            objects: 0,
            bytes: 0,
        }),
        Some(i) => follow_last(&mut reached, view, &ties, i),
    }
}

// Follows what the roots refer to, and all that is found then, but the object at an address.
fn follow_but(
    reached: &mut Reached,
    view: &View<'_>,
    ties: &[Tie],
    a: u64,
) -> Result<(), AllocError>
    requires sound { IsSound view.now }
    requires search { IsSearch view.now reached.old.seen.items reached.old.entries.items }
    requires roots { (x : ℕ) → IsListed reached.old.entries.items x ↔ IsRootOf view.now x }
    requires ties { AreTies view.now.handles.now ties.now }
    ensures search { OnOk result (IsSearch view.now reached.new.seen.items reached.new.entries.items) }
    ensures around { OnOk result (IsAround view.now a reached.new.entries.items) }
{
    let mut next = 0;
    while next < reached.entries.len() {
        if reached.entries[next].place != a {
            let _ = follow(reached, view, ties, next)?;
        }
        next += 1;
    }
    Ok(())
}

// Follows entry `i`, which alone was not followed, and all that is found then, and sums up what its object retains:
// that object, and what was found.
fn follow_last(
    reached: &mut Reached,
    view: &View<'_>,
    ties: &[Tie],
    i: usize,
) -> Result<Sum, AllocError>
    requires sound { IsSound view.now }
    requires search { IsSearch view.now reached.old.seen.items reached.old.entries.items }
    requires ties { AreTies view.now.handles.now ties.now }
    requires below { i < length reached.old.entries.items }
    requires around { IsAround view.now (place_at reached.old.entries.items i) reached.old.entries.items }
    ensures { IfOk result (IsRetainedSum view.now (place_at reached.old.entries.items i)) }
{
    let start = reached.entries.len();
    let own = follow(reached, view, ties, i)?;
    let found = follow_from(reached, view, ties, start)?;
    Ok(Sum {
        objects: found.objects + 1,
        bytes: found.bytes + own.size,
    })
}

// Follows the entries from `start` on, and all that is found then, and sums them up.
fn follow_from(
    reached: &mut Reached,
    view: &View<'_>,
    ties: &[Tie],
    start: usize,
) -> Result<Sum, AllocError>
    requires sound { IsSound view.now }
    requires search { IsSearch view.now reached.old.seen.items reached.old.entries.items }
    requires ties { AreTies view.now.handles.now ties.now }
    requires within { start ≤ length reached.old.entries.items }
    ensures search { OnOk result (IsSearch view.now reached.new.seen.items reached.new.entries.items) }
    ensures grown { OnOk result (HasGrown reached.old.entries.items reached.new.entries.items) }
    ensures followed { OnOk result (AreFollowedFrom view.now reached.new.entries.items start) }
    ensures sum { IfOk result (IsSumFrom view.now reached.new.entries.items start) }
{
    let mut bytes = 0;
    let mut next = start;
    while next < reached.entries.len() {
        let item = follow(reached, view, ties, next)?;
        bytes += item.size;
        next += 1;
    }
    Ok(Sum {
        objects: (next - start) as u64,
        bytes,
    })
}

// Adds what entry `i` leads to, whichever others were followed, and answers the item of its object.
#[inline(always)]
fn follow(
    reached: &mut Reached,
    view: &View<'_>,
    ties: &[Tie],
    i: usize,
) -> Result<Item, AllocError>
    requires sound { IsSound view.now }
    requires search { IsSearch view.now reached.old.seen.items reached.old.entries.items }
    requires ties { AreTies view.now.handles.now ties.now }
    requires below { i < length reached.old.entries.items }
    ensures search { OnOk result (IsSearch view.now reached.new.seen.items reached.new.entries.items) }
    ensures led { OnOk result (HasLed view.now reached.old.entries.items i reached.new.entries.items) }
    ensures item { IfOk result
        (IsObjectAt view.now.types.now view.now.heap.now (place_at reached.old.entries.items i)) }
{
    let item = reached.follow_slots(view, i)?;
    reached.follow_ties(view, ties, i)?;
    Ok(item)
}
