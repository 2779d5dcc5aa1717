// What a step does with one object.
ghost use Rattle.std.specs.Prelude.{◌≡◌, ℕ, ◌%◌, ◌<◌, ◌≤◌, true, false, [], length};
ghost use Rattle.std.specs.Prelude.{IfSome, IfNone, ◌≢◌, map};
ghost use Rattle.clr_view.specs.SlotValues.{StandsAt};
ghost use Rattle.clr_view.specs.View.{IsHeld, objects_in};
ghost use Rattle.std.specs.List.{AllByRecursion};
ghost use Rattle.clr_types.specs.Descriptors.{offsets_from};
ghost use Rattle.clr_heap.specs.Memories.{memory_index};
ghost use Rattle.clr_heap.specs.Parts.{item_at};
ghost use Rattle.clr_heap.specs.View.{IsHeap, word_of};
ghost use Rattle.clr_mark.specs.Kinds.{IsRunKind};
ghost use Rattle.clr_mark.specs.Marks.{IsClosed};
ghost use Rattle.clr_mark.specs.Markings.{references_at};
ghost use Rattle.clr_bgmark.specs.Closing.{without_colours};
ghost use Rattle.clr_bgmark.specs.Scanning.{AreObjects, followed, HasScannedOne, HaveWholeObjects};
ghost use Rattle.clr_bgmark.specs.Scanning.{IsCounted, HasLogged, marking_in};
ghost use Rattle.clr_bgmark.specs.Shades.{BackgroundView, IsShade, is_gray};
ghost use Rattle.clr_bgmark.specs.Shades.{IsAt, is_marked, met, met_all, passed, rest_of, slot_logged};

use super::{Background, Colour};
use crate::kind::kind_behind;
use crate::lending::meet_near;
use crate::shades::{find, is_in, meet_in, take_gray};
use clr_heap::Heap;
use clr_mark::RunKind;
use clr_types::{Item, ReferenceRun, Types};

impl Background {
    // Scans the lowest gray object. It answers no where none is gray. `known` is what is known of objects before it,
    // and then of this one, too.
    #[inline(always)]
    pub(super) fn scan_next(&mut self, heap: &Heap, types: &Types, known: &mut RunKind) -> bool
        requires closed { IsClosed types.now heap.now }
        requires known { IsRunKind types.now known.old }
        requires objects { AreObjects types.now heap.now self.old.shades }
        requires whole { HaveWholeObjects types.now heap.now self.old.shades }
        requires counted { IsCounted (objects_in types.now heap.now) self.old }
        ensures rest { rest_of self.new ≡ rest_of self.old }
        ensures objects { AreObjects types.now heap.now self.new.shades }
        ensures whole { HaveWholeObjects types.now heap.now self.new.shades }
        ensures counted { IsCounted (objects_in types.now heap.now) self.new }
        ensures log { HasLogged types.now (objects_in types.now heap.now) self.old.shades self.new.shades }
        ensures scans { result ≡ true
            → HasScannedOne (objects_in types.now heap.now) self.old.shades self.new.shades }
        ensures none { result ≡ false → self.new ≡ self.old }
        ensures empty { result ≡ false
            → (marking_in (objects_in types.now heap.now) self.old.shades).gray ≡ [] }
        ensures known { IsRunKind types.now known.new }
        ensures taken { map without_colours self.new.shades ≡ map without_colours self.old.shades }
    {
        match self.next_gray() {
            Some((near, obj)) => {
                self.scan(heap, types, near, obj, known);
                true
            }
            None => false,
        }
    }

    // The lowest gray object, which is scanned then, and where its segment is looked for first.
    #[inline(always)]
    fn next_gray(&mut self) -> Option<(usize, u64)>
        ensures passed { IfSome result (λ f. self.new ≡ passed self.old f.1) }
        ensures same { IfNone result (self.new ≡ self.old) }
        ensures shades { AllByRecursion IsShade self.old.shades }
        ensures gray { IfSome result (λ f. is_gray self.old.shades f.1 ≡ true) }
        ensures lowest { IfSome result (λ f. (a : ℕ) → is_gray self.old.shades a ≡ true → f.1 ≤ a) }
        ensures aligned { IfSome result (λ f. f.1 % 8 ≡ 0) }
        ensures none { IfNone result ((a : ℕ) → is_gray self.old.shades a ≡ false) }
    {
        take_gray(&mut self.shades, &mut self.pending)
    }

    // Follows what the slots of an object name, which is scanned already and counted as gray, and makes it black. Its
    // segment is looked for at `near` first.
    #[inline(always)]
    fn scan(&mut self, heap: &Heap, types: &Types, near: usize, obj: u64, known: &mut RunKind)
        requires heap { IsHeap heap.now }
        requires held { IsHeld types.now heap.now }
        requires stands { StandsAt types.now heap.now obj }
        requires known { IsRunKind types.now known.old }
        ensures value { (v : BackgroundView) → AllByRecursion IsShade v.shades → is_marked v.shades obj ≡ true
            → self.old ≡ passed v obj → self.new ≡ followed types.now heap.now v obj }
        ensures known { IsRunKind types.now known.new }
    {
        let k = heap.segment_near(near, obj);
        *known = self.meet_object(heap, types, near, k, obj, *known);
        self.gray = self.gray.saturating_sub(1);
    }

    // Follows the references of an object in segment `k`, with no look at the types where it is like those that are
    // known. It answers what is known then.
    #[inline(always)]
    fn meet_object(
        &mut self,
        heap: &Heap,
        types: &Types,
        near: usize,
        k: usize,
        obj: u64,
        known: RunKind,
    ) -> RunKind
        requires heap { IsHeap heap.now }
        requires held { IsHeld types.now heap.now }
        requires stands { StandsAt types.now heap.now obj }
        requires segment { k ≡ memory_index heap.now.memories obj }
        requires known { IsRunKind types.now known }
        ensures met { self.new ≡ met_all (word_of heap.now) self.old obj (references_at types.now heap.now obj) }
        ensures known { IsRunKind types.now result }
    {
        let mt = heap.word_at(k, obj);
        if known.has(mt) {
            self.meet_run(heap, types, near, k, obj, known.run);
            return known;
        }
        let item = heap.item_of_word(types, k, obj, mt);
        self.meet_references(heap, types, near, k, item);
        kind_behind(heap, types, item, mt, known)
    }

    // Follows the references of the object that an item in segment `k` is.
    #[inline(never)]
    pub(super) fn meet_references(
        &mut self,
        heap: &Heap,
        types: &Types,
        near: usize,
        k: usize,
        item: Item,
    )
        requires heap { IsHeap heap.now }
        requires held { IsHeld types.now heap.now }
        requires stands { StandsAt types.now heap.now item.place }
        requires segment { k ≡ memory_index heap.now.memories item.place }
        requires item { item ≡ item_at types.now (word_of heap.now) item.place }
        ensures { self.new
            ≡ met_all (word_of heap.now) self.old item.place (references_at types.now heap.now item.place) }
    {
        match types.reference_run(item.type_id, item.len) {
            Some(run) => self.meet_long_run(heap, types, near, k, item.place, run),
            None => self.meet_each(heap, types, near, k, item),
        }
    }

    // The references of an object are followed, where they are one run.
    #[inline(always)]
    fn meet_run(
        &mut self,
        heap: &Heap,
        types: &Types,
        near: usize,
        k: usize,
        obj: u64,
        run: ReferenceRun,
    )
        requires heap { IsHeap heap.now }
        requires held { IsHeld types.now heap.now }
        requires stands { StandsAt types.now heap.now obj }
        requires segment { k ≡ memory_index heap.now.memories obj }
        requires run { references_at types.now heap.now obj ≡ offsets_from run.offset run.count }
        ensures { self.new ≡ met_all (word_of heap.now) self.old obj (references_at types.now heap.now obj) }
    {
        let _ = types;
        let mut shade = near;
        for i in 0..run.count {
            let slot = obj + run.offset + 8 * i;
            shade = self.meet(shade, heap.word_at(k, slot), slot);
        }
    }

    // The references of a run that may be long, as that of an array, are followed: stretches of references into one
    // segment with its bits lent.
    #[inline(always)]
    fn meet_long_run(
        &mut self,
        heap: &Heap,
        types: &Types,
        near: usize,
        k: usize,
        obj: u64,
        run: ReferenceRun,
    )
        requires heap { IsHeap heap.now }
        requires held { IsHeld types.now heap.now }
        requires stands { StandsAt types.now heap.now obj }
        requires segment { k ≡ memory_index heap.now.memories obj }
        requires run { references_at types.now heap.now obj ≡ offsets_from run.offset run.count }
        ensures { self.new ≡ met_all (word_of heap.now) self.old obj (references_at types.now heap.now obj) }
    {
        let mut shade = near;
        let mut i = self.meet_stretch(heap, types, shade, k, obj, run, 0);
        while i < run.count {
            let slot = obj + run.offset + 8 * i;
            shade = self.meet(shade, heap.word_at(k, slot), slot);
            i = self.meet_stretch(heap, types, shade, k, obj, run, i + 1);
        }
    }

    // References of a run are followed from number `from` on, while their targets were taken in segment `near`. It
    // answers at which one it stopped.
    #[inline(never)]
    fn meet_stretch(
        &mut self,
        heap: &Heap,
        types: &Types,
        near: usize,
        k: usize,
        obj: u64,
        run: ReferenceRun,
        from: u64,
    ) -> u64
        requires heap { IsHeap heap.now }
        requires held { IsHeld types.now heap.now }
        requires stands { StandsAt types.now heap.now obj }
        requires segment { k ≡ memory_index heap.now.memories obj }
        requires run { references_at types.now heap.now obj ≡ offsets_from run.offset run.count }
        requires from { from ≤ run.count }
        ensures low { from ≤ result }
        ensures high { result ≤ run.count }
        ensures met { (first : BackgroundView)
            → self.old ≡ met_all (word_of heap.now) first obj (offsets_from run.offset from)
            → self.new ≡ met_all (word_of heap.now) first obj (offsets_from run.offset result) }
    {
        if near >= self.shades.len() {
            return from;
        }
        self.pending.add(near as u64);
        let (stop, found) = meet_near(&mut self.shades, near, heap, types, k, obj, run, from);
        self.gray = self.gray.saturating_add(found);
        stop
    }

    // The references of any object are followed, one after the other.
    #[inline(never)]
    fn meet_each(&mut self, heap: &Heap, types: &Types, near: usize, k: usize, item: Item)
        requires heap { IsHeap heap.now }
        requires held { IsHeld types.now heap.now }
        requires stands { StandsAt types.now heap.now item.place }
        requires segment { k ≡ memory_index heap.now.memories item.place }
        requires item { item ≡ item_at types.now (word_of heap.now) item.place }
        ensures { self.new
            ≡ met_all (word_of heap.now) self.old item.place (references_at types.now heap.now item.place) }
    {
        let mut shade = near;
        for offset in types.slots(item.type_id, item.len) {
            let slot = item.place + offset;
            shade = self.meet(shade, heap.word_at(k, slot), slot);
        }
    }

    // The slot at an address names `target`: where that is white it becomes gray, and where it wasn't taken the slot's
    // card is logged. The segment of the target is looked for at `near` first. It answers which one it is, a guess for
    // the next target.
    #[inline(always)]
    fn meet(&mut self, near: usize, target: u64, slot: u64) -> usize
        ensures { self.new ≡ met self.old target slot }
    {
        if target == 0 {
            return near;
        }
        if is_in(&self.shades, near, target) {
            self.meet_within(near, target, slot);
            return near;
        }
        self.meet_far(near, target, slot)
    }

    // The slot at an address names `target`, an object that lies in another segment than `near`, most likely: what
    // `meet` does then.
    #[inline(never)]
    fn meet_far(&mut self, near: usize, target: u64, slot: u64) -> usize
        requires object { target ≢ 0 }
        ensures { self.new ≡ met self.old target slot }
    {
        match find(&self.shades, target) {
            Some(k) => {
                self.meet_within(k, target, slot);
                k
            }
            None => {
                self.wrote(slot);
                near
            }
        }
    }

    // The slot at an address names `target`, an object in segment `k`: what `meet` does then.
    #[inline(always)]
    fn meet_within(&mut self, k: usize, target: u64, slot: u64)
        requires within { k < length self.old.shades }
        requires at { IsAt self.old.shades k target }
        requires object { target ≢ 0 }
        ensures { self.new ≡ met self.old target slot }
    {
        match meet_in(&mut self.shades, k, target) {
            Colour::White => {
                self.pending.add(k as u64);
                self.gray = self.gray.saturating_add(1);
            }
            Colour::Outside => self.log_slot(slot),
            Colour::Gray | Colour::Black => {}
        }
    }

    // The slot's card is logged.
    #[inline(never)]
    fn log_slot(&mut self, slot: u64)
        ensures { self.new ≡ slot_logged self.old slot }
    {
        self.wrote(slot);
    }
}
