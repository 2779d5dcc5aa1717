// The plugs of a part of a segment, one after the other.
ghost use Rattle.std.specs.Prelude.{◌≡◌, ℕ, ◌+◌, ◌-◌, ◌<◌, ◌≤◌, List, [], ◌∷◌, MatchOption, IfSome, length};
ghost use Rattle.clr_types.specs.Types.{TypeRow};
ghost use Rattle.clr_model.specs.Compaction.{plug_end};
ghost use Rattle.clr_heap.specs.ObjectKinds.{IsObjectKind};
ghost use Rattle.clr_heap.specs.View.{segment_at};
ghost use Rattle.clr_plan.specs.Counts.{HasCounted, IsAtMost, no_counts};
ghost use Rattle.clr_plan.specs.Scans.{CanScan, plugs_between};
ghost use Rattle.clr_plan.specs.Runs.{HasNext, HasRun, IsPassing, IsRun};

use crate::counts::Counts;
use crate::look::look;
use crate::plug::Plug;
use clr_heap::{Heap, ObjectKind};
use clr_types::{Types, mark};

/// What a walk over a part knows of the last kind of object, and how many objects it has met.
#[derive(Clone, Copy)]
pub struct Walk {
    pub known: ObjectKind,
    pub counts: Counts,
}

impl Walk {
    /// A walk that has met nothing.
    pub fn new() -> Walk
        ensures known { (rows : List TypeRow) → IsObjectKind rows result.known }
        ensures counts { result.counts ≡ no_counts }
    {
        Walk {
            known: ObjectKind::none(),
            counts: Counts::none(),
        }
    }
}

/// A plug, and a place behind it from which the next one is to be looked for.
#[derive(Clone, Copy)]
pub struct NextPlug {
    pub plug: Plug,
    pub next: u64,
}

/// The first plug of segment `k` from `from` to `end`, where there is one: the longest run of marked objects side by
/// side, from the first one on, of one generation and one pinned state. It reads nothing below `from` but that item's
/// header. What the walk knows helps it, and the walk counts what is met: up to the place behind the plug, or all.
pub fn next_plug(
    heap: &Heap,
    types: &Types,
    k: usize,
    from: u64,
    end: u64,
    walk: &mut Walk,
) -> Option<NextPlug>
    requires in_range { k < length heap.now.segments }
    requires scan { CanScan types.now heap.now k from end }
    requires counted { IsAtMost walk.old.counts from }
    requires known { IsObjectKind types.now walk.old.known }
    ensures plugs { MatchOption result (plugs_between types.now heap.now k from end ≡ [])
        (HasNext types.now heap.now k from end) }
    ensures behind { IfSome result (λ f. plug_end f.plug ≤ f.next) }
    ensures counted { MatchOption result
        (HasCounted types.now heap.now k end from walk.old.counts end walk.new.counts)
        (λ f. HasCounted types.now heap.now k end from walk.old.counts f.next walk.new.counts) }
    ensures known { IsObjectKind types.now walk.new.known }
{
    let base = heap.info(k).base;
    let mut place = from;
    while place < end {
        let seen = look(heap, types, k, base, place, &mut walk.known);
        if let Some(plug) = seen.kept {
            walk.counts = walk.counts.with_kept();
            return Some(whole_run(heap, types, k, base, plug, end, walk));
        }
        walk.counts = walk.counts.with_other(seen.is_object);
        place = over_dead(heap, k, place + seen.size, end, walk);
    }
    None
}

// Goes on from `from` over the unmarked objects of the known kind that stand there side by side, and counts them. It
// answers where they end.
fn over_dead(heap: &Heap, k: usize, from: u64, end: u64, walk: &mut Walk) -> u64
    requires scan { (rows : List TypeRow) × CanScan rows heap.now k from end × IsObjectKind rows walk.old.known }
    requires counted { IsAtMost walk.old.counts from }
    ensures passed { (rows : List TypeRow) → CanScan rows heap.now k from end → IsObjectKind rows walk.old.known
        → IsPassing rows heap.now k from end result
        × HasCounted rows heap.now k end from walk.old.counts result walk.new.counts }
    ensures known { walk.new.known ≡ walk.old.known }
{
    let kind = walk.known;
    let mut counts = walk.counts;
    let mut place = from;
    while place < end {
        let mt = heap.word_at(k, place);
        if mark::is_marked(mt) {
            break;
        }
        let Some(size) = kind.size_with(mt) else {
            break;
        };
        counts = counts.with_other(true);
        place += size;
    }
    walk.counts = counts;
    place
}

// The run that begins with a plug, as far as it goes.
fn whole_run(
    heap: &Heap,
    types: &Types,
    k: usize,
    base: u64,
    plug: Plug,
    end: u64,
    walk: &mut Walk,
) -> NextPlug
    requires base { base ≡ (segment_at heap.now k).base }
    requires run { IsRun types.now heap.now k end plug }
    requires counted { IsAtMost walk.old.counts (plug_end plug) }
    requires known { IsObjectKind types.now walk.old.known }
    ensures next { HasRun types.now heap.now k end plug result }
    ensures behind { plug_end result.plug ≤ result.next }
    ensures counted { HasCounted types.now heap.now k end (plug_end plug) walk.old.counts result.next walk.new.counts }
    ensures known { IsObjectKind types.now walk.new.known }
{
    let mut run = plug;
    while run.end() < end {
        let seen = look(heap, types, k, base, run.end(), &mut walk.known);
        match seen.kept {
            Some(other) => {
                if !run.is_alike(other) {
                    return NextPlug {
                        plug: run,
                        next: run.end(),
                    };
                }
                walk.counts = walk.counts.with_kept();
                run = run.joined(other);
            }
            None => {
                walk.counts = walk.counts.with_other(seen.is_object);
                return NextPlug {
                    plug: run,
                    next: run.end() + seen.size,
                };
            }
        }
    }
    NextPlug {
        plug: run,
        next: run.end(),
    }
}
