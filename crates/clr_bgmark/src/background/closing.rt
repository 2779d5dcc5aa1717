// The marking of the last pause by bits alone.
ghost use Rattle.std.specs.Prelude.{◌≡◌, ℕ, ◌^◌, ◌/◌, ◌<◌, ◌≤◌, ◌⊎◌, ◌↔◌, [], true, length, map, IfSome, IfNone};
ghost use Rattle.std.specs.Prelude.{Some};
ghost use Rattle.std.specs.FinMap as finmap;
ghost use Rattle.clr_types.specs.declared.handle.Handle.{Handle as Row};
ghost use Rattle.std.specs.List.{AllByRecursion};
ghost use Rattle.clr_types.specs.Rising.{IsIn};
ghost use Rattle.clr_heap.specs.View.{IsHeap, word_of};
ghost use Rattle.clr_model.specs.Reach.{Reach};
ghost use Rattle.clr_view.specs.SlotValues.{StandsAt};
ghost use Rattle.clr_view.specs.View.{IsHeld, objects_in};
ghost use Rattle.clr_view.specs.World.{HandlesStand};
ghost use Rattle.clr_mark.specs.Marks.{IsClosed};
ghost use Rattle.clr_mark.specs.Markings.{references_at};
ghost use Rattle.clr_mark.specs.Roots as roots;
ghost use Rattle.clr_mark.specs.Ties.{IsStart, Joins};
ghost use Rattle.clr_bgmark.specs.Closing.{AreNullOrFound, HasFollowedBlack, HasFoundMore, HaveFoundTargets};
ghost use Rattle.clr_bgmark.specs.Closing.{IsAllFound, IsAtWork, IsBlackFound, IsDueFound, IsNullOrFound};
ghost use Rattle.clr_bgmark.specs.Closing.{LeadsNoFurther, NamesFound};
ghost use Rattle.clr_bgmark.specs.Closing.{without_colours};
ghost use Rattle.clr_bgmark.specs.LastPause.{LogHolds};
ghost use Rattle.clr_bgmark.specs.Pauses.{IsBehind, IsFound, IsNextFound, Passes, roots_grayed, targets_grayed};
ghost use Rattle.clr_bgmark.specs.Scanning.{AreObjects, HaveWholeObjects, IsCounted, marking_in};
ghost use Rattle.clr_bgmark.specs.Shades.{IsShade, met_all};
ghost use Rattle.clr_bgmark.specs.declared.shade.Search.TheVariants.{Logged};

use super::{Background, Colour};
use crate::last_pause::{Spot, next_found};
use crate::shade::Search;
use clr_handles::Handles;
use clr_heap::Heap;
use clr_mark::RunKind;
use clr_types::{Handle, Types};

impl Background {
    /// Goes on with the marking by bits alone, as far as it leads without a look at what wasn't taken: from locals, the
    /// f-reachable queue and strong and pinned handles, and from what is gray, or black on a logged card. It answers
    /// yes only where all is found then that the last pause keeps, and what any handle and any finalisation entry
    /// names, too: so there is nothing to be cleared or woken. It answers no only where something isn't found that a
    /// local, the f-reachable queue, a finalisation entry, a handle or a slot of a found object names; all that roots
    /// and such slots name of what was taken is found then, too.
    ///
    /// It marks nothing in the heap, and takes no memory.
    pub fn close(
        &mut self,
        heap: &Heap,
        types: &Types,
        handles: &Handles,
        locals: &[u64],
        ready: &[u64],
        entries: &[u64],
    ) -> bool
        requires closed { IsClosed types.now heap.now }
        requires objects { AreObjects types.now heap.now self.old.shades }
        requires whole { HaveWholeObjects types.now heap.now self.old.shades }
        requires counted { IsCounted (objects_in types.now heap.now) self.old }
        requires handles { HandlesStand types.now heap.now handles.now }
        requires locals { roots.AreObjects types.now heap.now locals.now }
        requires ready { roots.AreObjects types.now heap.now ready.now }
        requires log { LogHolds types.now (objects_in types.now heap.now) self.old.shades }
        ensures others { self.new ≡ record self.old { shades = self.new.shades; gray = self.new.gray } }
        ensures objects { AreObjects types.now heap.now self.new.shades }
        ensures log { LogHolds types.now (objects_in types.now heap.now) self.new.shades }
        ensures taken { map without_colours self.new.shades ≡ map without_colours self.old.shades }
        ensures kept { (x : ℕ) → IsFound self.old.shades x → IsFound self.new.shades x }
        ensures reached { (x : ℕ) → IsFound self.new.shades x → Reach (Joins types.now heap.now handles.now)
            (λ y. IsStart handles.now locals.now ready.now y ⊎ IsFound self.old.shades y) x }
        ensures all { result ≡ true → (x : ℕ) → Reach (Joins types.now heap.now handles.now)
            (λ y. IsStart handles.now locals.now ready.now y ⊎ IsFound self.old.shades y) x
            → IsFound self.new.shades x }
        ensures targets { result ≡ true → HaveFoundTargets handles.now self.new.shades }
        ensures entries { result ≡ true → (x : ℕ) → IsIn x entries.now → 0 < x → IsFound self.new.shades x }
        ensures further { LeadsNoFurther types.now heap.now (IsStart handles.now locals.now ready.now)
            self.new.shades }
        ensures exact { IsAllFound types.now heap.now handles.now locals.now ready.now entries.now self.new.shades
            → result ≡ true }
    {
        self.find_more(heap, types, handles, locals, ready);
        self.is_all_found(heap, types, handles, locals, ready, entries)
    }

    // Grays what is white of where the last pause starts, and follows that and what is due. No object is gray then.
    fn find_more(
        &mut self,
        heap: &Heap,
        types: &Types,
        handles: &Handles,
        locals: &[u64],
        ready: &[u64],
    )
        requires closed { IsClosed types.now heap.now }
        requires work { IsAtWork types.now heap.now self.old }
        requires handles { HandlesStand types.now heap.now handles.now }
        requires locals { roots.AreObjects types.now heap.now locals.now }
        requires ready { roots.AreObjects types.now heap.now ready.now }
        ensures work { IsAtWork types.now heap.now self.new }
        ensures more { HasFoundMore types.now heap.now (IsStart handles.now locals.now ready.now) self.old self.new }
        ensures further { LeadsNoFurther types.now heap.now (IsStart handles.now locals.now ready.now)
            self.new.shades }
        ensures none { (marking_in (objects_in types.now heap.now) self.new.shades).gray ≡ [] }
    {
        self.gray_start(handles, locals, ready);
        self.meet_due(heap, types);
        self.scan_all(heap, types);
    }

    // White roots, and white targets of strong and pinned handles, become gray.
    fn gray_start(&mut self, handles: &Handles, locals: &[u64], ready: &[u64])
        ensures grayed { self.new ≡ targets_grayed handles.now 65536
            (roots_grayed ready.now (length ready.now) (roots_grayed locals.now (length locals.now) self.old)) }
        ensures below { (h : ℕ) (row : Row) → finmap.get handles.now h ≡ Some row → h < 65536 }
        ensures shades { AllByRecursion IsShade self.old.shades }
    {
        let _ = &self.shades;
        self.gray_roots(locals);
        self.gray_roots(ready);
        self.gray_targets(handles);
    }

    // Follows what the slots of found objects name over which the search for logged cards doesn't pass.
    fn meet_due(&mut self, heap: &Heap, types: &Types)
        requires closed { IsClosed types.now heap.now }
        requires work { IsAtWork types.now heap.now self.old }
        ensures work { IsAtWork types.now heap.now self.new }
        ensures more { HasFoundMore types.now heap.now (λ y. ⊥) self.old self.new }
        ensures black { HasFollowedBlack types.now heap.now self.new.shades }
    {
        let mut spot = Spot { k: 0, from: 0 };
        while let Some((near, obj)) = self.next_due(spot) {
            spot = Spot {
                k: near,
                from: obj + 8,
            };
            self.meet_at(heap, types, near, obj);
        }
    }

    // The next found place from a spot on, such that the search for logged cards doesn't pass over it, with the number
    // of its segment.
    fn next_due(&self, spot: Spot) -> Option<(usize, u64)>
        ensures found { IfSome result (λ f. IsNextFound Logged self.now.shades spot.k spot.from f.0 f.1) }
        ensures within { IfSome result (λ f. f.0 < length self.now.shades) }
        ensures low { IfSome result (λ f. f.1 < 2 ^ 63) }
        ensures further { IfSome result (λ f. (spot.k < f.0) ⊎ ((spot.k ≡ f.0) × (spot.from / 8 ≤ f.1 / 8))) }
        ensures none { IfNone result ((a : ℕ) → IsFound self.now.shades a
            → IsBehind self.now.shades spot.k spot.from a ⊎ Passes Logged self.now.shades a) }
        ensures shades { AllByRecursion IsShade self.now.shades }
    {
        next_found(&self.shades, Search::Logged, spot)
    }

    // Follows what the slots of an object name. Its segment is looked for at `near` first.
    fn meet_at(&mut self, heap: &Heap, types: &Types, near: usize, obj: u64)
        requires heap { IsHeap heap.now }
        requires held { IsHeld types.now heap.now }
        requires stands { StandsAt types.now heap.now obj }
        ensures { self.new ≡ met_all (word_of heap.now) self.old obj (references_at types.now heap.now obj) }
    {
        let k = heap.segment_near(near, obj);
        let item = heap.item_of_word(types, k, obj, heap.word_at(k, obj));
        self.meet_references(heap, types, near, k, item);
    }

    // Scans all gray objects.
    fn scan_all(&mut self, heap: &Heap, types: &Types)
        requires closed { IsClosed types.now heap.now }
        requires work { IsAtWork types.now heap.now self.old }
        requires black { HasFollowedBlack types.now heap.now self.old.shades }
        ensures work { IsAtWork types.now heap.now self.new }
        ensures more { HasFoundMore types.now heap.now (λ y. ⊥) self.old self.new }
        ensures black { HasFollowedBlack types.now heap.now self.new.shades }
        ensures none { (marking_in (objects_in types.now heap.now) self.new.shades).gray ≡ [] }
    {
        let mut known = RunKind::none();
        while self.scan_next(heap, types, &mut known) {}
    }

    // Whether all is found that these lists and the handles name, and what is due.
    fn is_all_found(
        &self,
        heap: &Heap,
        types: &Types,
        handles: &Handles,
        locals: &[u64],
        ready: &[u64],
        entries: &[u64],
    ) -> bool
        requires closed { IsClosed types.now heap.now }
        requires objects { AreObjects types.now heap.now self.now.shades }
        requires log { LogHolds types.now (objects_in types.now heap.now) self.now.shades }
        requires none { (marking_in (objects_in types.now heap.now) self.now.shades).gray ≡ [] }
        ensures { result ≡ true
            ↔ IsAllFound types.now heap.now handles.now locals.now ready.now entries.now self.now.shades }
    {
        self.are_found(locals)
            && self.are_found(ready)
            && self.are_found(entries)
            && self.are_targets_found(handles)
            && self.is_due_found(heap, types)
    }

    // Whether all of these are null or found.
    fn are_found(&self, places: &[u64]) -> bool
        requires black { IsBlackFound self.now.shades }
        ensures { result ≡ true ↔ AreNullOrFound self.now.shades places.now }
    {
        for &place in places {
            if !self.is_null_or_found(place) {
                return false;
            }
        }
        true
    }

    // Whether what any handle names is null or found.
    fn are_targets_found(&self, handles: &Handles) -> bool
        requires black { IsBlackFound self.now.shades }
        ensures { result ≡ true ↔ HaveFoundTargets handles.now self.now.shades }
    {
        let mut from = 0;
        while let Some((h, handle)) = handles.next_from(from, 0) {
            if !self.has_found(&handle) {
                return false;
            }
            from = h + 1;
        }
        true
    }

    // Whether what the handle names is null or found.
    fn has_found(&self, handle: &Handle) -> bool
        requires black { IsBlackFound self.now.shades }
        ensures { result ≡ true
            ↔ (IsNullOrFound self.now.shades handle.now.target
            × IsNullOrFound self.now.shades handle.now.second) }
    {
        self.is_null_or_found(handle.target) && self.is_null_or_found(handle.second)
    }

    // Whether all is found that the slots of found objects name over which the search for logged cards doesn't pass.
    fn is_due_found(&self, heap: &Heap, types: &Types) -> bool
        requires closed { IsClosed types.now heap.now }
        requires objects { AreObjects types.now heap.now self.now.shades }
        requires log { LogHolds types.now (objects_in types.now heap.now) self.now.shades }
        requires none { (marking_in (objects_in types.now heap.now) self.now.shades).gray ≡ [] }
        ensures { result ≡ true ↔ IsDueFound types.now heap.now self.now.shades }
    {
        let mut spot = Spot { k: 0, from: 0 };
        while let Some((near, obj)) = self.next_due(spot) {
            if !self.names_found(heap, types, near, obj) {
                return false;
            }
            spot = Spot {
                k: near,
                from: obj + 8,
            };
        }
        true
    }

    // Whether all is found that the slots of an object name. Its segment is looked for at `near` first.
    fn names_found(&self, heap: &Heap, types: &Types, near: usize, obj: u64) -> bool
        requires heap { IsHeap heap.now }
        requires held { IsHeld types.now heap.now }
        requires stands { StandsAt types.now heap.now obj }
        requires black { IsBlackFound self.now.shades }
        ensures { result ≡ true ↔ NamesFound types.now heap.now self.now.shades obj }
    {
        let k = heap.segment_near(near, obj);
        let item = heap.item_of_word(types, k, obj, heap.word_at(k, obj));
        for offset in types.slots(item.type_id, item.len) {
            if !self.is_null_or_found(heap.word_at(k, obj + offset)) {
                return false;
            }
        }
        true
    }

    // Whether a place is null, or gray or black.
    fn is_null_or_found(&self, place: u64) -> bool
        requires black { IsBlackFound self.now.shades }
        ensures { result ≡ true ↔ IsNullOrFound self.now.shades place }
    {
        if place == 0 {
            return true;
        }
        match self.colour(place) {
            Colour::Gray | Colour::Black => place % 8 == 0,
            Colour::White | Colour::Outside => false,
        }
    }
}
