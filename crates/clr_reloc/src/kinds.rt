// Objects that are like one before: most of those that stand side by side are of few types.
ghost use Rattle.std.specs.Prelude.{◌≡◌, ℕ, ◌≤◌, List, length};
ghost use Rattle.clr_types.specs.Types.{TypeRow};
ghost use Rattle.clr_heap.specs.Parts.{item_at};
ghost use Rattle.clr_reloc.specs.RunKinds.{IsRunKind};

use crate::words::MANY;
use clr_heap::{Item, ObjectKind};
use clr_types::{ReferenceRun, Types, mark};

// What is known of the objects of one type without a length, whose references are one run of few.
#[derive(Clone, Copy)]
pub struct RunKind {
    pub object: ObjectKind,
    pub run: ReferenceRun,
}

impl RunKind {
    // Nothing is known: a word without its mark isn't odd.
    pub(crate) fn none() -> RunKind
        ensures { (rows : List TypeRow) → IsRunKind rows result }
    {
        RunKind {
            object: ObjectKind { mt: 1, size: 0 },
            run: ReferenceRun {
                offset: 0,
                count: 0,
            },
        }
    }
}

// What is known behind an item with the method table word `mt`: its kind, where it is of one, else what was known.
#[inline]
pub(crate) fn kind_behind(types: &Types, found: Item, mt: u64, known: RunKind) -> RunKind
    requires number { found.type_id.0 ≤ length types.now }
    requires item { (word : ℕ → ℕ) × (a : ℕ) × (found ≡ item_at types.now word a) × (mt ≡ word a) }
    requires known { IsRunKind types.now known }
    ensures { IsRunKind types.now result }
{
    if found.type_id.0 == 0 || types.has_length(found.type_id) {
        return known;
    }
    match types.reference_run(found.type_id, 0) {
        Some(run) if run.count < MANY => {
            let object = ObjectKind {
                mt: mark::unmarked(mt),
                size: found.size,
            };
            RunKind { object, run }
        }
        _ => known,
    }
}
