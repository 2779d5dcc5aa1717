// The second pass: what all names of a view refer to, judged by bits, a window of addresses at a time.
ghost use Rattle.std.specs.Prelude.{◌≡◌, ◌<◌, ◌&&◌, length};
ghost use Rattle.clr_heap.specs.View.{AreWalkable, IsHeap};
ghost use Rattle.clr_sos.specs.JudgedTables.{AreJudged, HasJudged};
ghost use Rattle.clr_sos.specs.Windows.{IsJudging};

use crate::verify::references::{Judge, are_good, judge_heap};
use crate::verify::starts::mark_starts;
use crate::verify::tables::{are_handles_good, are_queues_final};
use crate::verify::windows::{Window, window_from};
use crate::view::View;

// What was found of the names that were judged: the lowest address of a bad reference, and whether all locals are good,
// all that handles name, and all that the queues name.
#[derive(Clone, Copy)]
pub struct Names {
    pub low: Option<u64>,
    pub locals: bool,
    pub handles: bool,
    pub finals: bool,
}

// Judges all names of a view, window by window. The bits are room to work in, one for each word of a window.
#[inline(always)]
pub fn judge_names(view: &View<'_>, bits: &mut [u64]) -> Names
    requires heap { IsHeap view.now.heap.now }
    requires walkable { AreWalkable view.now.types.now view.now.heap.now }
    requires some { 0 < length bits.old }
    ensures { AreJudged view.now result }
{
    let mut names = Names {
        low: None,
        locals: true,
        handles: true,
        finals: true,
    };
    let mut from = 0;
    let mut more = true;
    while more {
        let window = window_from(view.heap, from, bits.len());
        mark_starts(view.heap, view.types, window, bits);
        names = judge_window(view, window, bits, names);
        more = !window.last;
        from = window.end;
    }
    names
}

// Judges the names of a view in a window by its bits. `before` is what was found in others.
#[inline(always)]
fn judge_window(view: &View<'_>, window: Window, bits: &[u64], before: Names) -> Names
    requires { IsJudging view.now.types.now view.now.heap.now window bits.now }
    ensures { HasJudged view.now window before result }
{
    let judge = Judge {
        heap: view.heap,
        types: view.types,
        window,
        bits,
    };
    let low = judge_heap(&judge, before.low);
    let locals = are_good(&judge, view.locals);
    let handles = are_handles_good(&judge, view.handles);
    let finals = are_queues_final(&judge, view.finals);
    let found = Names {
        low,
        locals,
        handles,
        finals,
    };
    together(before, found)
}

// What was found before and in a window, which has the lowest address of both.
#[inline]
fn together(before: Names, found: Names) -> Names
    ensures low { result.low ≡ found.low }
    ensures locals { result.locals ≡ (before.locals && found.locals) }
    ensures handles { result.handles ≡ (before.handles && found.handles) }
    ensures finals { result.finals ≡ (before.finals && found.finals) }
{
    Names {
        low: found.low,
        locals: before.locals && found.locals,
        handles: before.handles && found.handles,
        finals: before.finals && found.finals,
    }
}
