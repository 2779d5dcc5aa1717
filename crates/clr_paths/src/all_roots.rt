//! `gcroot -all`: each root that leads to an object.
ghost use Rattle.std.specs.Prelude.{◌≡◌, ◌≢◌, ◌↔◌, ℕ, ◌+◌, ◌<◌, ◌≤◌, ◌++◌, List, length, IfOk, IfSome, IfNone, OnOk};
ghost use Rattle.std.specs.Prelude.{Err, None, ◌∷◌, [], codes, decimal};
ghost use Rattle.std.specs.FinMap as finmap;
ghost use Rattle.std.specs.List.{enumerate_from, flat_map};
ghost use Rattle.clr_model.specs.Looks.{handle_root_at, IsRootsText, local_root_at, ready_root_at};
ghost use Rattle.clr_model.specs.Lookups.{object_at as object_of};
ghost use Rattle.clr_model.specs.Machine.{Machine};
ghost use Rattle.clr_model.specs.Sos.{line};
ghost use Rattle.clr_sos.specs.Reaching.{IsObjectOf, IsSound};
ghost use Rattle.clr_sos.specs.RootTexts.{IsRootOrigin, place_line};
ghost use Rattle.clr_sos.specs.Views.{IsLawfulView, IsViewOf};
ghost use Rattle.clr_paths.specs.AllRoots.{AreMarked, AreWays, count_of, HasFollowed, HasMet, IsWayFrom, mark_of};
ghost use Rattle.clr_paths.specs.AllRoots.{node_at, PutsRoots, root_at, way_at};
ghost use Rattle.clr_paths.specs.Incoming.{AreLinked};
ghost use Rattle.clr_paths.specs.Numbers.{AreNumbers};

use crate::incoming::{Incoming, in_four_bytes};
use crate::numbers::Numbers;
use clr_generations::object_at;
use clr_sos::{Origin, SosFault, View, put_origin, put_place_line, put_word_number};
use std::alloc::{AllocError, Global};

// An object that leads to the one that is asked for: its number, and 1 more than the index of the next one on its way
// there, or 0 at the end.
#[derive(Clone, Copy)]
struct Way {
    number: u32,
    next: u32,
}

// The objects that lead to the one that is asked for, which is the first of them, each behind the next on its way; and
// for each object 1 more than its index among these, or 0.
#[derive(Drop)]
struct Ways {
    found: Vec<Way>,
    at: Vec<u32>,
}

/// Each root that leads to the object with the address `a`: locals, strong and pinned handles, and objects in the
/// f-reachable queue. For each the root's line and a shortest chain from there to the object, as `gcroot` has them. The
/// last line tells how many these are.
///
/// ```text
/// root t1 l0
/// 0000000010001000 P
/// 0000000010001020 P
/// root h0
/// 0000000010001020 P
/// roots 2
/// ```
///
/// `NoObject` comes exactly where no object has the address, and `NoMemory` only where there is no memory for the
/// search or for the text. The heap stays as it is. All objects are gone over once, to list what leads to each. Then
/// one search goes back from the object, breadth first, for all roots.
pub fn gcroots(alloc: Global, view: &View<'_>, a: u64) -> Result<Vec<u8>, SosFault>
    requires lawful { IsLawfulView view.now }
    ensures text { IfOk result (λ text. (m : Machine) → IsViewOf view.now m → IsRootsText m a text.items) }
    ensures no_object { (m : Machine) → IsViewOf view.now m
        → ((result ≡ Err SosFault.NoObject) ↔ (object_of m.objects a ≡ None)) }
    ensures no_type { result ≢ Err SosFault.UnknownType }
{
    let Some(_) = object_at(view.heap, view.types, view.bricks, a) else {
        return Err(SosFault::NoObject);
    };
    let text = text_of(alloc, view, a)?;
    Ok(text)
}

// What is told of the roots.
fn text_of(alloc: Global, view: &View<'_>, a: u64) -> Result<Vec<u8>, AllocError>
    requires lawful { IsLawfulView view.now }
    requires stands { IsObjectOf view.now a }
    ensures { IfOk result (λ text. (m : Machine) → IsViewOf view.now m → IsRootsText m a text.items) }
{
    let numbers = Numbers::of(alloc, view)?;
    let ways = ways_to(alloc, view, &numbers, a)?;
    let mut text = Vec::new(alloc);
    let locals = put_locals(&mut text, view, &numbers, &ways)?;
    let targets = put_targets(&mut text, view, &numbers, &ways)?;
    let ready = put_ready(&mut text, view, &numbers, &ways)?;
    put_count(&mut text, locals + targets + ready)?;
    Ok(text)
}

// Puts the line of how many roots lead to the object at the end.
fn put_count(text: &mut Vec<u8>, count: u64) -> Result<(), AllocError>
    ensures { OnOk result (text.new.items ≡ text.old.items ++ line (codes "roots" ∷ decimal count ∷ [])) }
{
    put_word_number(text, b"roots ", count)?;
    text.extend_from_slice(b"\n")?;
    Ok(())
}

// All that leads to the object at an address.
fn ways_to(alloc: Global, view: &View<'_>, numbers: &Numbers, a: u64) -> Result<Ways, AllocError>
    requires sound { IsSound view.now }
    requires numbers { AreNumbers view.now numbers.now.places.items }
    requires stands { IsObjectOf view.now a }
    ensures ways { IfOk result (AreWays view.now numbers.now.places.items) }
    ensures goal { IfOk result (λ ways. node_at numbers.now.places.items ways 0 ≡ a) }
{
    let incoming = Incoming::of(alloc, view, numbers)?;
    let goal = numbers.number(view.heap.segment_of(a), a);
    let mut ways = Ways::new(alloc, numbers.places.len())?;
    ways.meet(goal, 0)?;
    let mut next = 0;
    while next < ways.found.len() {
        ways.follow(&incoming, next)?;
        next += 1;
    }
    Ok(ways)
}

impl Ways {
    // No entry, among a number of objects.
    fn new(alloc: Global, count: usize) -> Result<Ways, AllocError>
        ensures marks { IfOk result (AreMarked count) }
        ensures empty { IfOk result (λ ways. count_of ways ≡ 0) }
    {
        let at = vec![in alloc; 0u32; count]?;
        Ok(Ways {
            found: Vec::new(alloc),
            at,
        })
    }

    // Adds an object, where it wasn't found before.
    #[inline(always)]
    fn meet(&mut self, number: usize, next: usize) -> Result<(), AllocError>
        requires marks { AreMarked (length self.old.at.items) self.old }
        requires below { number < length self.old.at.items }
        ensures marks { OnOk result (AreMarked (length self.old.at.items) self.new) }
        ensures met { OnOk result (HasMet self.old self.new next) }
        ensures only { OnOk result ((i : ℕ) → count_of self.old ≤ i → i < count_of self.new
            → (way_at self.new i).number ≡ number) }
        ensures found { OnOk result (mark_of self.new number ≢ 0) }
    {
        if self.at[number] != 0 {
            return Ok(());
        }
        let way = Way {
            number: in_four_bytes(number)?,
            next: in_four_bytes(next)?,
        };
        self.found.push(way)?;
        self.at[number] = in_four_bytes(self.found.len())?;
        Ok(())
    }

    // Adds what leads to entry `i`.
    fn follow(&mut self, incoming: &Incoming, i: usize) -> Result<(), AllocError>
        requires linked { AreLinked (length self.old.at.items) incoming.now }
        requires marks { AreMarked (length self.old.at.items) self.old }
        requires below { i < count_of self.old }
        ensures marks { OnOk result (AreMarked (length self.old.at.items) self.new) }
        ensures met { OnOk result (HasMet self.old self.new (i + 1)) }
        ensures followed { OnOk result (HasFollowed incoming.now (way_at self.old i).number self.old self.new) }
    {
        let mut e = incoming.last(self.found[i].number as usize);
        while e > 0 {
            let edge = incoming.edge(e);
            self.meet(edge.from as usize, i + 1)?;
            e = edge.before as usize;
        }
        Ok(())
    }

    // The index of the entry of the object at an address, where it leads to the one that is asked for.
    fn entry(&self, view: &View<'_>, numbers: &Numbers, place: u64) -> Option<usize>
        requires sound { IsSound view.now }
        requires numbers { AreNumbers view.now numbers.now.places.items }
        requires marks { AreMarked (length numbers.now.places.items) self.now }
        requires stands { IsObjectOf view.now place }
        ensures some { IfSome result (λ i. (i < count_of self.now)
            × (node_at numbers.now.places.items self.now i ≡ place)) }
        ensures none { IfNone result ((i : ℕ) → i < count_of self.now
            → node_at numbers.now.places.items self.now i ≢ place) }
    {
        let number = numbers.number(view.heap.segment_of(place), place);
        let mark = self.at[number] as usize;
        if mark == 0 {
            return None;
        }
        Some(mark - 1)
    }
}

// Puts the line of a root and the chain from its object at the end, where there is one, and answers how many roots
// that are.
fn put_way(
    text: &mut Vec<u8>,
    view: &View<'_>,
    numbers: &Numbers,
    ways: &Ways,
    root: Origin,
    place: u64,
) -> Result<u64, AllocError>
    requires sound { IsSound view.now }
    requires numbers { AreNumbers view.now numbers.now.places.items }
    requires ways { AreWays view.now numbers.now.places.items ways.now }
    requires root { IsRootOrigin root }
    requires stands { place ≢ 0 → IsObjectOf view.now place }
    ensures told { IfOk result (λ count. PutsRoots view.now (node_at numbers.now.places.items ways.now 0)
        (λ m. root_at root place) count text.old.items text.new.items) }
    ensures one { IfOk result (λ count. count ≤ 1) }
{
    if place == 0 {
        return Ok(0);
    }
    let Some(entry) = ways.entry(view, numbers, place) else {
        return Ok(0);
    };
    put_origin(text, root)?;
    put_chain(text, view, numbers, ways, entry)?;
    Ok(1)
}

// Puts the lines of the objects from an entry on to the one that is asked for at the end.
fn put_chain(
    text: &mut Vec<u8>,
    view: &View<'_>,
    numbers: &Numbers,
    ways: &Ways,
    entry: usize,
) -> Result<(), AllocError>
    requires sound { IsSound view.now }
    requires numbers { AreNumbers view.now numbers.now.places.items }
    requires ways { AreWays view.now numbers.now.places.items ways.now }
    requires below { entry < count_of ways.now }
    ensures { OnOk result ((places : List ℕ) × IsWayFrom numbers.now.places.items ways.now entry places
        × (text.new.items ≡ text.old.items ++ flat_map (place_line view.now) places)) }
{
    let mut way = ways.found[entry];
    put_place_line(text, view, numbers.places[way.number as usize])?;
    while way.next > 0 {
        way = ways.found[way.next as usize - 1];
        put_place_line(text, view, numbers.places[way.number as usize])?;
    }
    Ok(())
}

// Puts what is told of locals at the end, and answers how many lead to the object.
fn put_locals(
    text: &mut Vec<u8>,
    view: &View<'_>,
    numbers: &Numbers,
    ways: &Ways,
) -> Result<u64, AllocError>
    requires sound { IsSound view.now }
    requires numbers { AreNumbers view.now numbers.now.places.items }
    requires ways { AreWays view.now numbers.now.places.items ways.now }
    ensures { IfOk result (λ count. PutsRoots view.now (node_at numbers.now.places.items ways.now 0)
        (λ m. flat_map local_root_at (enumerate_from 0 m.locals)) count text.old.items text.new.items) }
{
    let mut count = 0;
    for i in 0..view.locals.len() {
        count += put_way(text, view, numbers, ways, Origin::Local(i), view.locals[i])?;
    }
    Ok(count)
}

// Puts what is told of strong and pinned handles at the end, and answers how many lead to the object.
fn put_targets(
    text: &mut Vec<u8>,
    view: &View<'_>,
    numbers: &Numbers,
    ways: &Ways,
) -> Result<u64, AllocError>
    requires sound { IsSound view.now }
    requires numbers { AreNumbers view.now numbers.now.places.items }
    requires ways { AreWays view.now numbers.now.places.items ways.now }
    ensures { IfOk result (λ count. PutsRoots view.now (node_at numbers.now.places.items ways.now 0)
        (λ m. flat_map handle_root_at (finmap.entries m.handles)) count text.old.items text.new.items) }
{
    let mut count = 0;
    let mut from = 0;
    while let Some((number, handle)) = view.handles.next_from(from, 0) {
        if handle.kind.is_root() {
            count += put_way(
                text,
                view,
                numbers,
                ways,
                Origin::Handle(number),
                handle.target,
            )?;
        }
        from = number + 1;
    }
    Ok(count)
}

// Puts what is told of the f-reachable queue at the end, and answers how many of its places lead to the object.
fn put_ready(
    text: &mut Vec<u8>,
    view: &View<'_>,
    numbers: &Numbers,
    ways: &Ways,
) -> Result<u64, AllocError>
    requires sound { IsSound view.now }
    requires numbers { AreNumbers view.now numbers.now.places.items }
    requires ways { AreWays view.now numbers.now.places.items ways.now }
    ensures { IfOk result (λ count. PutsRoots view.now (node_at numbers.now.places.items ways.now 0)
        (λ m. flat_map ready_root_at (enumerate_from 0 m.ready)) count text.old.items text.new.items) }
{
    let ready = view.finals.ready();
    let mut count = 0;
    for i in 0..ready.len() {
        count += put_way(text, view, numbers, ways, Origin::Ready(i), ready[i])?;
    }
    Ok(count)
}
