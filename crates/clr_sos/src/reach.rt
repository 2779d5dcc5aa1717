// What the roots reach: a search beside the heap, breadth first.
ghost use Rattle.std.specs.Prelude.{◌≡◌, ◌≢◌, ℕ, ◌+◌, ◌<◌, false, [], length, IfOk, IfSome, IfNone, OnOk};
ghost use Rattle.clr_types.specs.Descriptors.{offsets_from};
ghost use Rattle.clr_types.specs.Rising.{Tests};
ghost use Rattle.clr_heap.specs.Memories.{HasWord, memory_index};
ghost use Rattle.clr_heap.specs.View.{IsHeap};
ghost use Rattle.clr_model.specs.Machine.{Machine};
ghost use Rattle.clr_model.specs.Reach.{Live, SecondOf};
ghost use Rattle.clr_view.specs.SlotValues.{IsObjectAt};
ghost use Rattle.clr_mark.specs.Markings.{item_references};
ghost use Rattle.clr_mark.specs.Roots.{IsRoot};
ghost use Rattle.clr_mark.specs.Ties.{IsTarget};
ghost use Rattle.clr_sos.specs.BreadthFirst.{AreNearest};
ghost use Rattle.clr_sos.specs.Reaching.{AllCame, AllCameBy, AreTies, HasAdded, HasFollowed, HasGrown, HasRoom};
ghost use Rattle.clr_sos.specs.Reaching.{is_listed, is_seen, IsFollowed, IsItemOf, IsListed, IsObjectOf, IsOrigin};
ghost use Rattle.clr_sos.specs.Reaching.{IsRootOf, IsSearch, IsSound, Leads, place_at, via_at};
ghost use Rattle.clr_sos.specs.RootTexts.{IsLocalOrigin, IsRootOrigin};
ghost use Rattle.clr_sos.specs.Views.{IsViewOf};

use crate::View;
use crate::reach::bits::Bits;
use crate::reach::ties::first_tie;
use clr_heap::{Heap, Item};
use clr_types::ReferenceRun;
use std::alloc::{AllocError, Global};

mod bits;
mod ties;

pub use crate::reach::ties::{Tie, ties_of};

/// What led to an object: a root, or an object that was found before it.
#[derive(Clone, Copy)]
pub enum Origin {
    /// A local, 64 for each thread.
    Local(usize),
    /// A strong or pinned handle, by its number.
    Handle(u64),
    /// An object of the f-reachable queue, by its index.
    Ready(usize),
    /// A slot or a dependent handle of an object that was found, by its index among those.
    Through(usize),
}

/// An object that was found.
#[derive(Clone, Copy)]
pub struct FoundObject {
    pub place: u64,
    pub origin: Origin,
}

/// The objects that roots reach, in the order in which a search breadth first finds them. The search touches no mark of
/// the heap: it has a bit for each word of each segment.
#[derive(Drop)]
pub struct Reached {
    pub(crate) seen: Vec<Bits>,
    pub entries: Vec<FoundObject>,
}

/// What the roots of a view reach. The roots come first: what locals name by threads and numbers, what strong and
/// pinned handles hold by their numbers, and the f-reachable queue. Each slot of what is reached is followed once, and
/// a bit tells whether its object was found before. It takes such a bit for each word of the heap's used ranges, and 24
/// bytes for each object that it finds. Bits are cleared at once. `find` then goes over all that was found.
pub fn reach_all(alloc: Global, view: &View<'_>) -> Result<Reached, AllocError>
    requires sound { IsSound view.now }
    ensures search { IfOk result (λ r. IsSearch view.now r.seen.items r.entries.items) }
    ensures exact { IfOk result (λ r. (m : Machine) → IsViewOf view.now m
        → Tests (is_listed r.entries.items) (Live m)) }
    ensures seen { IfOk result (λ r. (x : ℕ) → IsObjectOf view.now x
        → is_seen view.now.heap.now r.seen.items x ≡ is_listed r.entries.items x) }
{
    let ties = ties_of(alloc, view.handles)?;
    let mut reached = Reached::from_roots(alloc, view, true)?;
    let mut next = 0;
    while next < reached.entries.len() {
        let _ = reached.follow(view, &ties, next)?;
        next += 1;
    }
    Ok(reached)
}

/// The search of `reach_all` up to where the object at the address `a` is found: all that the roots reach where it
/// isn't. What it finds, it finds on a shortest way from the roots. Of a large heap its bits are cleared page by page,
/// as they are set.
pub(crate) fn reach_to(alloc: Global, view: &View<'_>, a: u64) -> Result<Reached, AllocError>
    requires sound { IsSound view.now }
    requires stands { IsObjectOf view.now a }
    ensures search { IfOk result (λ r. IsSearch view.now r.seen.items r.entries.items) }
    ensures exact { IfOk result (λ r. is_listed r.entries.items a ≡ false → (m : Machine) → IsViewOf view.now m
        → Tests (is_listed r.entries.items) (Live m)) }
    ensures nearest { IfOk result (λ r. AreNearest (Leads view.now) (IsRootOf view.now) (place_at r.entries.items)
        (via_at r.entries.items) (length r.entries.items)) }
{
    let ties = ties_of(alloc, view.handles)?;
    let mut reached = Reached::from_roots(alloc, view, false)?;
    let mut next = 0;
    while next < reached.entries.len() {
        if reached.has(view.heap, a) {
            return Ok(reached);
        }
        let _ = reached.follow(view, &ties, next)?;
        next += 1;
    }
    Ok(reached)
}

impl Reached {
    /// What locals refer to, and nothing else yet. Each entry has a root as its origin.
    pub fn from_locals(alloc: Global, view: &View<'_>) -> Result<Reached, AllocError>
        requires { IsSound view.now }
        ensures added { IfOk result (λ r. HasAdded view.now [] r.seen.items r.entries.items
            (IsRoot view.now.locals.now)) }
        ensures came { IfOk result (λ r. AllCameBy [] IsLocalOrigin r.entries.items) }
    {
        let mut reached = Reached::new(alloc, view.heap, false)?;
        reached.add_locals(view)?;
        Ok(reached)
    }

    /// What the roots refer to, and nothing else yet: each entry has a root as its origin. It is told whether all that they
    /// reach is looked for.
    pub fn from_roots(alloc: Global, view: &View<'_>, all: bool) -> Result<Reached, AllocError>
        requires { IsSound view.now }
        ensures search { IfOk result (λ r. IsSearch view.now r.seen.items r.entries.items) }
        ensures roots { IfOk result (λ r. (x : ℕ) → IsRootOf view.now x → IsListed r.entries.items x) }
        ensures came { IfOk result (λ r. AllCameBy [] IsRootOrigin r.entries.items) }
    {
        let mut reached = Reached::new(alloc, view.heap, all)?;
        reached.add_locals(view)?;
        reached.add_targets(view)?;
        reached.add_ready(view)?;
        Ok(reached)
    }

    // Nothing, with room for marks of all objects. It is told whether all that roots reach is looked for.
    fn new(alloc: Global, heap: &Heap, all: bool) -> Result<Reached, AllocError>
        ensures entries { IfOk result (λ r. r.entries.items ≡ []) }
        ensures room { IfOk result (λ r. HasRoom heap.now r.seen.items) }
        ensures clear { IfOk result (λ r. (x : ℕ) → is_seen heap.now r.seen.items x ≡ false) }
    {
        let at_once = clears_at_once(heap, all);
        let mut seen = Vec::new(alloc);
        for k in 0..heap.segments() {
            let segment = heap.info(k);
            let bits = Bits::new(alloc, (segment.end - segment.base) / 8, at_once)?;
            seen.push(bits)?;
        }
        let entries = Vec::new(alloc);
        Ok(Reached { seen, entries })
    }

    /// Whether an object was found.
    pub fn has(&self, heap: &Heap, place: u64) -> bool
        requires heap { IsHeap heap.now }
        requires word { HasWord heap.now.memories place }
        ensures { result ≡ is_seen heap.now self.now.seen.items place }
    {
        let k = heap.segment_of(place);
        let base = heap.info(k).base;
        match self.seen.get(k) {
            Some(bits) => bits.has((place - base) / 8),
            None => false,
        }
    }

    /// The index of the entry with the place.
    pub fn find(&self, place: u64) -> Option<usize>
        ensures some { IfSome result (λ i. (i < length self.now.entries.items)
            × (place_at self.now.entries.items i ≡ place)) }
        ensures none { IfNone result (is_listed self.now.entries.items place ≡ false) }
    {
        for i in 0..self.entries.len() {
            if self.entries[i].place == place {
                return Some(i);
            }
        }
        None
    }

    // Adds an object, where it wasn't found before.
    fn meet(&mut self, view: &View<'_>, place: u64, origin: Origin) -> Result<(), AllocError>
        requires sound { IsSound view.now }
        requires stands { IsObjectOf view.now place }
        requires search { IsSearch view.now self.old.seen.items self.old.entries.items }
        requires origin { IsOrigin view.now self.old.entries.items (length self.old.entries.items) place origin }
        ensures search { OnOk result (IsSearch view.now self.new.seen.items self.new.entries.items) }
        ensures grown { OnOk result (HasGrown self.old.entries.items self.new.entries.items) }
        ensures met { OnOk result (IsListed self.new.entries.items place) }
        ensures came { OnOk result (AllCame self.old.entries.items origin self.new.entries.items) }
    {
        let k = view.heap.segment_of(place);
        self.meet_in(view, k, place, origin)
    }

    // Adds an object of segment `k`, where it wasn't found before.
    #[inline(always)]
    fn meet_in(
        &mut self,
        view: &View<'_>,
        k: usize,
        place: u64,
        origin: Origin,
    ) -> Result<(), AllocError>
        requires sound { IsSound view.now }
        requires stands { IsObjectOf view.now place }
        requires segment { k ≡ memory_index view.now.heap.now.memories place }
        requires search { IsSearch view.now self.old.seen.items self.old.entries.items }
        requires origin { IsOrigin view.now self.old.entries.items (length self.old.entries.items) place origin }
        ensures search { OnOk result (IsSearch view.now self.new.seen.items self.new.entries.items) }
        ensures grown { OnOk result (HasGrown self.old.entries.items self.new.entries.items) }
        ensures met { OnOk result (IsListed self.new.entries.items place) }
        ensures came { OnOk result (AllCame self.old.entries.items origin self.new.entries.items) }
    {
        let number = (place - view.heap.info(k).base) / 8;
        let bits = &mut self.seen[k];
        if !bits.has(number) {
            bits.add(number);
            self.entries.push(FoundObject { place, origin })?;
        }
        Ok(())
    }

    // Adds the object that a slot of entry `i` names, where it isn't null. It is looked for in segment `near` first.
    #[inline(always)]
    fn meet_named(
        &mut self,
        view: &View<'_>,
        near: usize,
        target: u64,
        i: usize,
    ) -> Result<(), AllocError>
        requires sound { IsSound view.now }
        requires search { IsSearch view.now self.old.seen.items self.old.entries.items }
        requires stands { target ≢ 0 → IsObjectOf view.now target }
        requires origin { target ≢ 0
            → IsOrigin view.now self.old.entries.items (length self.old.entries.items) target (Origin.Through i) }
        ensures search { OnOk result (IsSearch view.now self.new.seen.items self.new.entries.items) }
        ensures grown { OnOk result (HasGrown self.old.entries.items self.new.entries.items) }
        ensures met { OnOk result (target ≢ 0 → IsListed self.new.entries.items target) }
        ensures came { OnOk result (AllCame self.old.entries.items (Origin.Through i) self.new.entries.items) }
    {
        if target == 0 {
            return Ok(());
        }
        let k = view.heap.segment_near(near, target);
        self.meet_in(view, k, target, Origin::Through(i))?;
        Ok(())
    }

    // Adds what locals name.
    fn add_locals(&mut self, view: &View<'_>) -> Result<(), AllocError>
        requires sound { IsSound view.now }
        requires search { IsSearch view.now self.old.seen.items self.old.entries.items }
        ensures added { OnOk result (HasAdded view.now self.old.entries.items self.new.seen.items self.new.entries.items
            (IsRoot view.now.locals.now)) }
        ensures came { OnOk result (AllCameBy self.old.entries.items IsLocalOrigin self.new.entries.items) }
    {
        for i in 0..view.locals.len() {
            let place = view.locals[i];
            if place != 0 {
                self.meet(view, place, Origin::Local(i))?;
            }
        }
        Ok(())
    }

    // Adds what strong and pinned handles hold.
    fn add_targets(&mut self, view: &View<'_>) -> Result<(), AllocError>
        requires sound { IsSound view.now }
        requires search { IsSearch view.now self.old.seen.items self.old.entries.items }
        ensures added { OnOk result (HasAdded view.now self.old.entries.items self.new.seen.items self.new.entries.items
            (IsTarget view.now.handles.now)) }
        ensures came { OnOk result (AllCameBy self.old.entries.items IsRootOrigin self.new.entries.items) }
    {
        let mut from = 0;
        while let Some((number, handle)) = view.handles.next_from(from, 0) {
            if handle.kind.is_root() && handle.target != 0 {
                self.meet(view, handle.target, Origin::Handle(number))?;
            }
            from = number + 1;
        }
        Ok(())
    }

    // Adds the f-reachable queue.
    fn add_ready(&mut self, view: &View<'_>) -> Result<(), AllocError>
        requires sound { IsSound view.now }
        requires search { IsSearch view.now self.old.seen.items self.old.entries.items }
        ensures added { OnOk result (HasAdded view.now self.old.entries.items self.new.seen.items self.new.entries.items
            (IsRoot view.now.finals.now.ready)) }
        ensures came { OnOk result (AllCameBy self.old.entries.items IsRootOrigin self.new.entries.items) }
    {
        let ready = view.finals.ready();
        for i in 0..ready.len() {
            let place = ready[i];
            if place != 0 {
                self.meet(view, place, Origin::Ready(i))?;
            }
        }
        Ok(())
    }

    /// Adds what the slots of entry `i` refer to, and what dependent handles tie to it, as found through that entry, and
    /// answers the item of its object.
    #[inline(always)]
    pub fn follow(&mut self, view: &View<'_>, ties: &[Tie], i: usize) -> Result<Item, AllocError>
        requires sound { IsSound view.now }
        requires search { IsSearch view.now self.old.seen.items self.old.entries.items }
        requires ties { AreTies view.now.handles.now ties.now }
        requires below { i < length self.old.entries.items }
        requires followed { IsFollowed view.now self.old.entries.items i }
        ensures search { OnOk result (IsSearch view.now self.new.seen.items self.new.entries.items) }
        ensures grown { OnOk result (HasGrown self.old.entries.items self.new.entries.items) }
        ensures followed { OnOk result (IsFollowed view.now self.new.entries.items (i + 1)) }
        ensures came { OnOk result (AllCame self.old.entries.items (Origin.Through i) self.new.entries.items) }
    {
        let item = self.follow_slots(view, i)?;
        self.follow_ties(view, ties, i)?;
        Ok(item)
    }

    /// Adds what the slots of entry `i` refer to, as found through that entry, and answers the item of its object.
    #[inline(always)]
    pub fn follow_slots(&mut self, view: &View<'_>, i: usize) -> Result<Item, AllocError>
        requires sound { IsSound view.now }
        requires search { IsSearch view.now self.old.seen.items self.old.entries.items }
        requires below { i < length self.old.entries.items }
        ensures added { OnOk result
            (HasFollowed view.now self.old.entries.items i self.new.seen.items self.new.entries.items) }
        ensures came { OnOk result (AllCame self.old.entries.items (Origin.Through i) self.new.entries.items) }
        ensures item { IfOk result
            (IsObjectAt view.now.types.now view.now.heap.now (place_at self.old.entries.items i)) }
    {
        let place = self.entries[i].place;
        let k = view.heap.segment_of(place);
        let item = item_in(view, k, place);
        self.follow_item(view, k, i, item)?;
        Ok(item)
    }

    // Adds what the slots of the item of entry `i` name, which stands in segment `k`.
    #[inline(always)]
    fn follow_item(
        &mut self,
        view: &View<'_>,
        k: usize,
        i: usize,
        item: Item,
    ) -> Result<(), AllocError>
        requires sound { IsSound view.now }
        requires search { IsSearch view.now self.old.seen.items self.old.entries.items }
        requires entry { IsItemOf view.now self.old.entries.items i item }
        requires segment { k ≡ memory_index view.now.heap.now.memories item.place }
        ensures added { OnOk result
            (HasFollowed view.now self.old.entries.items i self.new.seen.items self.new.entries.items) }
        ensures came { OnOk result (AllCame self.old.entries.items (Origin.Through i) self.new.entries.items) }
    {
        match view.types.reference_run(item.type_id, item.len) {
            Some(run) => self.follow_run(view, k, i, item, run),
            None => self.follow_each(view, k, i, item),
        }
    }

    // Adds what the slots of the item of entry `i` name, where they are one run of words.
    #[inline(always)]
    fn follow_run(
        &mut self,
        view: &View<'_>,
        k: usize,
        i: usize,
        item: Item,
        run: ReferenceRun,
    ) -> Result<(), AllocError>
        requires sound { IsSound view.now }
        requires search { IsSearch view.now self.old.seen.items self.old.entries.items }
        requires entry { IsItemOf view.now self.old.entries.items i item }
        requires segment { k ≡ memory_index view.now.heap.now.memories item.place }
        requires run { item_references view.now.types.now item ≡ offsets_from run.offset run.count }
        ensures added { OnOk result
            (HasFollowed view.now self.old.entries.items i self.new.seen.items self.new.entries.items) }
        ensures came { OnOk result (AllCame self.old.entries.items (Origin.Through i) self.new.entries.items) }
    {
        for j in 0..run.count {
            let target = view.heap.word_at(k, item.place + (run.offset + 8 * j));
            self.meet_named(view, k, target, i)?;
        }
        Ok(())
    }

    // Adds what the slots of the item of entry `i` name, slot by slot.
    #[inline(never)]
    fn follow_each(
        &mut self,
        view: &View<'_>,
        k: usize,
        i: usize,
        item: Item,
    ) -> Result<(), AllocError>
        requires sound { IsSound view.now }
        requires search { IsSearch view.now self.old.seen.items self.old.entries.items }
        requires entry { IsItemOf view.now self.old.entries.items i item }
        requires segment { k ≡ memory_index view.now.heap.now.memories item.place }
        ensures added { OnOk result
            (HasFollowed view.now self.old.entries.items i self.new.seen.items self.new.entries.items) }
        ensures came { OnOk result (AllCame self.old.entries.items (Origin.Through i) self.new.entries.items) }
    {
        if view.types.series(item.type_id).is_empty() {
            return Ok(());
        }
        for offset in view.types.slots(item.type_id, item.len) {
            let target = view.heap.word_at(k, item.place + offset);
            self.meet_named(view, k, target, i)?;
        }
        Ok(())
    }

    /// Adds what dependent handles tie to entry `i`.
    pub fn follow_ties(&mut self, view: &View<'_>, ties: &[Tie], i: usize) -> Result<(), AllocError>
        requires sound { IsSound view.now }
        requires search { IsSearch view.now self.old.seen.items self.old.entries.items }
        requires ties { AreTies view.now.handles.now ties.now }
        requires below { i < length self.old.entries.items }
        ensures added { OnOk result (HasAdded view.now self.old.entries.items self.new.seen.items
            self.new.entries.items (SecondOf view.now.handles.now (place_at self.old.entries.items i))) }
        ensures came { OnOk result (AllCame self.old.entries.items (Origin.Through i) self.new.entries.items) }
    {
        let place = self.entries[i].place;
        let start = first_tie(ties, place);
        for j in start..ties.len() {
            let tie = ties[j];
            if tie.primary != place {
                return Ok(());
            }
            self.meet(view, tie.second, Origin::Through(i))?;
        }
        Ok(())
    }
}

// The item of the object at a place, in segment `k`.
#[inline(always)]
fn item_in(view: &View<'_>, k: usize, place: u64) -> Item
    requires sound { IsSound view.now }
    requires stands { IsObjectOf view.now place }
    requires segment { k ≡ memory_index view.now.heap.now.memories place }
    ensures { IsObjectAt view.now.types.now view.now.heap.now place result }
{
    let mt = view.heap.word_at(k, place);
    view.heap.item_of_word(view.types, k, place, mt)
}

// Whether a search clears all its bits at once: one for `all` that is reached, or over a heap of which the used ranges
// are so small that to clear their bits takes a few microseconds. Others look up pages, and cost what they meet.
fn clears_at_once(heap: &Heap, all: bool) -> bool {
    if all {
        return true;
    }
    let mut used = 0_u64;
    for k in 0..heap.segments() {
        let segment = heap.info(k);
        used = used.saturating_add(segment.end.saturating_sub(segment.base));
    }
    used <= SMALL_HEAP
}

// The bytes of a heap whose bits are cleared at once: those take 128 KiB.
const SMALL_HEAP: u64 = 8_388_608;
