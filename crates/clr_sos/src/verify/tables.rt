// Handles and the finalization queue, judged in a window.
ghost use Rattle.std.specs.Prelude.{◌≡◌, ◌↔◌, ◌&&◌, true, false};
ghost use Rattle.clr_heap.specs.View.{heap_items};
ghost use Rattle.clr_sos.specs.JudgedTables.{are_final_in, is_final, is_unfinal_in, NamesNone};
ghost use Rattle.clr_sos.specs.Windows.{CanJudge, in_window, is_bad_in};

use crate::verify::references::{Judge, is_bad};
use crate::verify::starts::is_marked;
use crate::verify::windows::is_judged;
use clr_final::Finals;
use clr_handles::Handles;
use clr_types::Handle;

// Whether no handle names what is bad, of what is judged in a window.
pub fn are_handles_good(judge: &Judge<'_>, handles: &Handles) -> bool
    requires { CanJudge judge.now }
    ensures { (result ≡ true) ↔ NamesNone handles.now
        (is_bad_in (heap_items judge.now.types.now judge.now.heap.now) judge.now.window) }
{
    let mut from = 0;
    while let Some((number, handle)) = handles.next_from(from, 0) {
        if !is_good_handle(judge, &handle) {
            return false;
        }
        from = number + 1;
    }
    true
}

// Whether neither the target nor the second of a handle is bad, where it is judged in a window.
#[inline]
fn is_good_handle(judge: &Judge<'_>, handle: &Handle) -> bool
    requires { CanJudge judge.now }
    ensures { (result ≡ true)
        ↔ ((is_bad_in (heap_items judge.now.types.now judge.now.heap.now) judge.now.window handle.now.target ≡ false)
        × (is_bad_in (heap_items judge.now.types.now judge.now.heap.now) judge.now.window handle.now.second ≡ false)) }
{
    let target = is_bad(judge, handle.target);
    let second = is_bad(judge, handle.second);
    !target && !second
}

// Whether at each address of the finalization queue that is judged in a window an object stands whose type has a
// finalizer, and at each f-reachable one.
pub fn are_queues_final(judge: &Judge<'_>, finals: &Finals) -> bool
    requires { CanJudge judge.now }
    ensures { result ≡ (are_final_in judge.now.types.now (heap_items judge.now.types.now judge.now.heap.now)
        judge.now.window finals.now.entries
        && are_final_in judge.now.types.now (heap_items judge.now.types.now judge.now.heap.now)
        judge.now.window finals.now.ready) }
{
    let entries = are_final(judge, finals.entries());
    let ready = are_final(judge, finals.ready());
    entries && ready
}

// Whether at each of the places that are judged in a window an object stands whose type has a finalizer.
fn are_final(judge: &Judge<'_>, places: &[u64]) -> bool
    requires { CanJudge judge.now }
    ensures { result ≡ are_final_in judge.now.types.now (heap_items judge.now.types.now judge.now.heap.now)
        judge.now.window places.now }
{
    for place in places {
        if is_unfinal(judge, *place) {
            return false;
        }
    }
    true
}

// Whether a place is judged in a window, and no object stands there whose type has a finalizer.
#[inline]
fn is_unfinal(judge: &Judge<'_>, place: u64) -> bool
    requires { CanJudge judge.now }
    ensures { result ≡ is_unfinal_in judge.now.types.now
        (heap_items judge.now.types.now judge.now.heap.now) judge.now.window place }
{
    is_judged(judge.window, place) && !has_finalizer(judge, place)
}

// Whether an object stands at a place that is judged in a window, and its type has a finalizer.
#[inline]
fn has_finalizer(judge: &Judge<'_>, place: u64) -> bool
    requires judging { CanJudge judge.now }
    requires judged { in_window judge.now.window place ≡ true }
    ensures { result ≡ is_final judge.now.types.now (heap_items judge.now.types.now judge.now.heap.now) place }
{
    if !is_marked(judge.window, judge.bits, place) {
        return false;
    }
    let item = judge.heap.item(judge.types, place);
    judge.types.finalizer(item.type_id)
}
