// References and locals, judged in a window.
ghost use Rattle.std.specs.Prelude.{◌≡◌, ◌<◌, length, not, if◌then◌else◌};
ghost use Rattle.std.specs.List.{list_all};
ghost use Rattle.clr_types.specs.ReferenceRuns.{SpellsReferences};
ghost use Rattle.clr_types.specs.Rising.{IsIn};
ghost use Rattle.clr_types.specs.Types.{form_at};
ghost use Rattle.clr_heap.specs.View.{heap_items, listing};
ghost use Rattle.clr_sos.specs.Faults.{addresses, item_addresses, lower};
ghost use Rattle.clr_sos.specs.Windows.{CanJudge, is_bad_by, lowest_bad};

use crate::verify::starts::is_marked;
use crate::verify::windows::{Window, is_judged};
use clr_heap::{Heap, Item};
use clr_types::{ReferenceRun, Types};

// What names are judged by: a heap and its types, and the bits of a window, which tell where objects stand.
#[derive(Clone, Copy)]
pub struct Judge<'a> {
    pub heap: &'a Heap,
    pub types: &'a Types,
    pub window: Window,
    pub bits: &'a [u64],
}

// The lowest of an address and of those of the bad references of the heap, in a window.
#[inline(always)]
pub fn judge_heap(judge: &Judge<'_>, low: Option<u64>) -> Option<u64>
    requires { CanJudge judge.now }
    ensures { result ≡ lowest_bad judge.now low
        (addresses judge.now.types.now (heap_items judge.now.types.now judge.now.heap.now)) }
{
    let mut low = low;
    for k in 0..judge.heap.segments() {
        low = judge_segment(judge, k, low);
    }
    low
}

// The lowest of an address and of those of the bad references of a segment, in a window.
#[inline(always)]
fn judge_segment(judge: &Judge<'_>, k: usize, low: Option<u64>) -> Option<u64>
    requires in_range { k < length judge.now.heap.now.segments }
    requires judging { CanJudge judge.now }
    ensures { result ≡ lowest_bad judge.now low
        (addresses judge.now.types.now (listing judge.now.types.now judge.now.heap.now k)) }
{
    let mut low = low;
    for item in judge.heap.walk(judge.types, k) {
        low = judge_item(judge, k, item, low);
    }
    low
}

// The lowest of an address and of those of the bad references of an item, in a window.
#[inline(always)]
fn judge_item(judge: &Judge<'_>, k: usize, item: Item, low: Option<u64>) -> Option<u64>
    requires in_range { k < length judge.now.heap.now.segments }
    requires judging { CanJudge judge.now }
    requires listed { IsIn item (listing judge.now.types.now judge.now.heap.now k) }
    ensures { result ≡ lowest_bad judge.now low (item_addresses judge.now.types.now item) }
{
    match judge.types.reference_run(item.type_id, item.len) {
        Some(run) => judge_run(judge, k, item, run, low),
        None => judge_slots(judge, k, item, low),
    }
}

// The lowest of an address and of those of the bad references of an item, where these are one run of words.
#[inline]
fn judge_run(
    judge: &Judge<'_>,
    k: usize,
    item: Item,
    run: ReferenceRun,
    low: Option<u64>,
) -> Option<u64>
    requires in_range { k < length judge.now.heap.now.segments }
    requires judging { CanJudge judge.now }
    requires listed { IsIn item (listing judge.now.types.now judge.now.heap.now k) }
    requires run { SpellsReferences (form_at judge.now.types.now item.type_id.0) item.len run }
    ensures { result ≡ lowest_bad judge.now low (item_addresses judge.now.types.now item) }
{
    let mut low = low;
    for i in 0..run.count {
        let a = item.place + (run.offset + 8 * i);
        low = lower_if(is_bad(judge, judge.heap.word_at(k, a)), low, a);
    }
    low
}

// The lowest of an address and of those of the bad references of an item, slot by slot.
fn judge_slots(judge: &Judge<'_>, k: usize, item: Item, low: Option<u64>) -> Option<u64>
    requires in_range { k < length judge.now.heap.now.segments }
    requires judging { CanJudge judge.now }
    requires listed { IsIn item (listing judge.now.types.now judge.now.heap.now k) }
    ensures { result ≡ lowest_bad judge.now low (item_addresses judge.now.types.now item) }
{
    let mut low = low;
    for offset in judge.types.slots(item.type_id, item.len) {
        let a = item.place + offset;
        low = lower_if(is_bad(judge, judge.heap.word_at(k, a)), low, a);
    }
    low
}

// The lower of two addresses where the second counts. The first may be missing.
#[inline]
fn lower_if(counts: bool, low: Option<u64>, a: u64) -> Option<u64>
    ensures { result ≡ (if counts then lower low a else low) }
{
    if !counts {
        return low;
    }
    match low {
        None => Some(a),
        Some(b) => Some(b.min(a)),
    }
}

// Whether a name is judged in a window, isn't null and has no bit.
#[inline]
pub fn is_bad(judge: &Judge<'_>, name: u64) -> bool
    ensures { result ≡ is_bad_by judge.now.window judge.now.bits.now name }
{
    name != 0 && is_judged(judge.window, name) && !is_marked(judge.window, judge.bits, name)
}

// Whether no local is bad, of those that are judged in a window.
pub fn are_good(judge: &Judge<'_>, locals: &[u64]) -> bool
    ensures { result ≡ list_all (λ name. not (is_bad_by judge.now.window judge.now.bits.now name)) locals.now }
{
    for name in locals {
        if is_bad(judge, *name) {
            return false;
        }
    }
    true
}
