// The references of objects that are like one before: most objects that are followed in a row are of few types.
ghost use Rattle.std.specs.Prelude.{◌≡◌, ℕ, List, true};
ghost use Rattle.clr_types.specs.Rising.{IsIn};
ghost use Rattle.clr_types.specs.Types.{TypeRow};
ghost use Rattle.clr_heap.specs.Memories.{memory_index};
ghost use Rattle.clr_heap.specs.Parts.{unmarked};
ghost use Rattle.clr_heap.specs.View.{word_of};
ghost use Rattle.clr_view.specs.Marks.{Marked};
ghost use Rattle.clr_mark.specs.Kinds.{IsRunKind};
ghost use Rattle.clr_mark.specs.Marks.{IsClosed, LeadsTo};
ghost use Rattle.clr_mark.specs.Markings.{HasGrayed};

use super::Marker;
use super::scan::{head_at, is_leaf};
use super::wide::FEW_SLOTS;
use clr_heap::Heap;
use clr_types::{ReferenceRun, Types, mark};

/// What is known of the objects of one type without a length, marked or not, whose references are one run.
#[derive(Clone, Copy)]
pub struct RunKind {
    /// Their method table word without a mark. An odd one is no object's: then nothing is known.
    pub mt: u64,
    /// Where their references stand.
    pub run: ReferenceRun,
}

impl RunKind {
    /// Nothing is known.
    #[inline(always)]
    pub fn none() -> RunKind
        ensures { (rows : List TypeRow) → IsRunKind rows result }
    {
        RunKind {
            mt: 1,
            run: ReferenceRun {
                offset: 0,
                count: 0,
            },
        }
    }

    /// Whether an object whose method table word is `mt`, marked or not, is of this kind.
    #[inline(always)]
    pub fn has(&self, mt: u64) -> bool
        ensures { result ≡ true → unmarked mt ≡ self.now.mt }
    {
        mark::unmarked(mt) == self.mt
    }
}

impl Marker {
    // Marks what the slots of the object at `obj`, in segment `k`, name. `mt` is its method table word without a mark,
    // and `known` is what is known of objects before it. It answers what is known then. Many objects are of a type
    // without references, as strings are: of these it reads that word alone.
    #[inline(always)]
    pub(super) fn follow(
        &mut self,
        heap: &mut Heap,
        types: &Types,
        k: usize,
        obj: u64,
        mt: u64,
        known: RunKind,
    ) -> RunKind
        requires closed { IsClosed types.now heap.old }
        requires marked { Marked types.now heap.old obj }
        requires stacked { (x : ℕ) → IsIn x self.old.stack → Marked types.now heap.old x }
        requires segment { k ≡ memory_index heap.old.memories obj }
        requires word { mt ≡ unmarked (word_of heap.old obj) }
        requires known { IsRunKind types.now known }
        ensures grayed { HasGrayed types.now heap.old heap.new self.old self.new }
        ensures followed { (y : ℕ) → LeadsTo types.now heap.old self.old.oldest obj y → Marked types.now heap.new y }
        ensures known { IsRunKind types.now result }
    {
        if mt == known.mt {
            self.scan_run(heap, types, k, obj, known.run);
            return known;
        }
        if is_leaf(heap, types, k, obj) {
            return known;
        }
        let found = kind_behind(heap, types, k, obj, mt, known);
        self.scan_object_in(heap, types, k, obj);
        found
    }
}

// What is known behind the object at `obj`, in segment `k`, whose method table word is `mt` without a mark. It looks
// nothing up where that is of the kind that was known.
#[inline(always)]
pub(super) fn kind_like(
    heap: &Heap,
    types: &Types,
    k: usize,
    obj: u64,
    mt: u64,
    known: RunKind,
) -> RunKind
    requires closed { IsClosed types.now heap.now }
    requires marked { Marked types.now heap.now obj }
    requires segment { k ≡ memory_index heap.now.memories obj }
    requires word { mt ≡ unmarked (word_of heap.now obj) }
    requires known { IsRunKind types.now known }
    ensures { IsRunKind types.now result }
{
    if mt == known.mt {
        known
    } else {
        kind_behind(heap, types, k, obj, mt, known)
    }
}

// What is known behind the object at `obj`, in segment `k`, whose method table word is `mt` without a mark: its kind,
// where it is of one, else what was known.
#[inline(always)]
fn kind_behind(heap: &Heap, types: &Types, k: usize, obj: u64, mt: u64, known: RunKind) -> RunKind
    requires closed { IsClosed types.now heap.now }
    requires marked { Marked types.now heap.now obj }
    requires segment { k ≡ memory_index heap.now.memories obj }
    requires word { mt ≡ unmarked (word_of heap.now obj) }
    requires known { IsRunKind types.now known }
    ensures { IsRunKind types.now result }
{
    let (type_id, _) = head_at(heap, types, k, obj);
    if types.has_length(type_id) {
        return known;
    }
    match types.reference_run(type_id, 0) {
        Some(run) if run.count <= FEW_SLOTS => RunKind { mt, run },
        _ => known,
    }
}
