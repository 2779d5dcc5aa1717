// Following chains: objects of one kind with one reference each, of which each names the next. The next one is marked
// and followed at once, so it never waits.
ghost use Rattle.std.specs.Prelude.{◌≡◌, ◌≢◌, ℕ, ◌+◌, ◌<◌, true, false, []};
ghost use Rattle.clr_types.specs.Rising.{IsIn};
ghost use Rattle.clr_types.specs.Descriptors.{offsets_from};
ghost use Rattle.clr_heap.specs.Memories.{memory_index};
ghost use Rattle.clr_heap.specs.Parts.{unmarked};
ghost use Rattle.clr_heap.specs.View.{word_of};
ghost use Rattle.clr_model.specs.Reach.{SlotNames};
ghost use Rattle.clr_view.specs.View.{objects_in};
ghost use Rattle.clr_view.specs.Marks.{has_mark, Marked};
ghost use Rattle.clr_mark.specs.Kinds.{IsRunKind};
ghost use Rattle.clr_mark.specs.Marks.{is_condemned_place, IsClosed, LeadsTo};
ghost use Rattle.clr_mark.specs.Markings.{HasGrayed, HasMet, IsMet, references_at, unmarked_count, with_target};

use super::{Marker, RunKind};
use clr_heap::Heap;
use clr_types::{ReferenceRun, Types, mark};

// What the last object of a chain names, null where nothing more is to be followed, and a guess of its segment.
#[derive(Clone, Copy)]
struct Link {
    near: usize,
    target: u64,
}

impl Marker {
    // Marks what the slots of the object at `obj` name, and where it is of the kind that is `known`, with one
    // reference, what objects of this kind name in a chain behind it. It answers what is known then.
    #[inline(always)]
    pub(super) fn follow_on(
        &mut self,
        heap: &mut Heap,
        types: &Types,
        obj: u64,
        known: RunKind,
    ) -> RunKind
        requires closed { IsClosed types.now heap.old }
        requires marked { Marked types.now heap.old obj }
        requires stacked { (x : ℕ) → IsIn x self.old.stack → Marked types.now heap.old x }
        requires known { IsRunKind types.now known }
        ensures grayed { HasGrayed types.now heap.old heap.new self.old self.new }
        ensures followed { (y : ℕ) → LeadsTo types.now heap.old self.old.oldest obj y → Marked types.now heap.new y }
        ensures known { IsRunKind types.now result }
    {
        let k = heap.segment_of(obj);
        let mt = mark::unmarked(heap.word_at(k, obj));
        if mt != known.mt || known.run.count != 1 {
            return self.follow(heap, types, k, obj, mt, known);
        }
        self.follow_chain(heap, types, k, obj, known);
        known
    }

    // Marks what the one slot of the object at `obj` in segment `k`, which is of the kind that is `known`, names, and
    // what objects of this kind name in a chain behind it.
    #[inline(always)]
    fn follow_chain(&mut self, heap: &mut Heap, types: &Types, k: usize, obj: u64, known: RunKind)
        requires closed { IsClosed types.now heap.old }
        requires marked { Marked types.now heap.old obj }
        requires segment { k ≡ memory_index heap.old.memories obj }
        requires word { unmarked (word_of heap.old obj) ≡ known.mt }
        requires known { IsRunKind types.now known }
        requires single { known.run.count ≡ 1 }
        ensures grayed { HasGrayed types.now heap.old heap.new self.old self.new }
        ensures followed { (y : ℕ) → LeadsTo types.now heap.old self.old.oldest obj y → Marked types.now heap.new y }
    {
        let mut link = Link {
            near: k,
            target: only_reference(heap, types, k, obj, known.run),
        };
        while link.target != 0 {
            link = self.mark_link(heap, types, link, known);
        }
    }

    // Marks the object that a link names, where it is condemned. Where it is new and of the kind that is `known`, the
    // link that it answers holds what that object names, and the object waits only where it isn't.
    #[inline(always)]
    fn mark_link(&mut self, heap: &mut Heap, types: &Types, link: Link, known: RunKind) -> Link
        requires closed { IsClosed types.now heap.old }
        requires named { IsMet types.now heap.old link.target }
        requires known { IsRunKind types.now known }
        requires single { known.run.count ≡ 1 }
        requires bare { has_mark known.mt ≡ false }
        ensures met { HasMet types.now heap.old heap.new self.old self.new [] (with_target [] result.target) }
        ensures marked { is_condemned_place heap.old self.old.oldest link.target ≡ true
            → Marked types.now heap.new link.target }
        ensures stack { result.target ≢ 0 → self.new ≡ self.old }
        ensures fewer { result.target ≢ 0 → unmarked_count types.now heap.new < unmarked_count types.now heap.old }
    {
        if !self.is_condemned(heap, link.target) {
            return Link {
                near: link.near,
                target: 0,
            };
        }
        let k = heap.segment_near(link.near, link.target);
        let word = heap.word_at(k, link.target);
        if word != known.mt {
            self.mark_chosen(heap, k, link.target);
            return Link { near: k, target: 0 };
        }
        heap.set_word_at(k, link.target, word + 1);
        Link {
            near: k,
            target: only_reference(heap, types, k, link.target, known.run),
        }
    }
}

// What the object at `obj`, in segment `k`, names, where its references are a run of one: null where that is.
#[inline(always)]
fn only_reference(heap: &Heap, types: &Types, k: usize, obj: u64, run: ReferenceRun) -> u64
    requires closed { IsClosed types.now heap.now }
    requires marked { Marked types.now heap.now obj }
    requires segment { k ≡ memory_index heap.now.memories obj }
    requires run { references_at types.now heap.now obj ≡ offsets_from run.offset run.count }
    requires single { run.count ≡ 1 }
    ensures only { (y : ℕ) → IsIn y (with_target [] result) → SlotNames (objects_in types.now heap.now) obj y }
    ensures all { (y : ℕ) → SlotNames (objects_in types.now heap.now) obj y → IsIn y (with_target [] result) }
{
    let _ = types;
    heap.word_at(k, obj + run.offset)
}
