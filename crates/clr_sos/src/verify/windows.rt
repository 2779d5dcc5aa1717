// Windows over the places of the heap, each as wide as there are bits.
ghost use Rattle.std.specs.Prelude.{◌≡◌, ℕ, ◌+◌, ◌*◌, ◌/◌, ◌%◌, ◌<◌, ◌≤◌, ◌^◌, length, false};
ghost use Rattle.clr_sos.specs.Windows.{in_window, IsCovered};

use clr_heap::Heap;

// A window in which names are judged: those from `from` on, below `end` or, in the last window, all. The bits tell of
// the places from `start` on.
#[derive(Clone, Copy)]
pub struct Window {
    pub from: u64,
    pub start: u64,
    pub end: u64,
    pub last: bool,
}

// Whether a name is judged in this window.
#[inline]
pub fn is_judged(window: Window, name: u64) -> bool
    ensures { result ≡ in_window window name }
{
    name >= window.from && (window.last || name < window.end)
}

// The window from a place on, with so many times 64 bits. It begins at the first place of a segment that has one, so
// that an empty segment needs no window.
pub fn window_from(heap: &Heap, from: u64, count: usize) -> Window
    requires some { 0 < count }
    requires small { from ≤ 2 ^ 63 }
    requires aligned { from % 8 ≡ 0 }
    ensures from { result.from ≡ from }
    ensures further { result.last ≡ false → from < result.end }
    ensures small { result.last ≡ false → result.end ≤ 2 ^ 63 }
    ensures start { result.start % 8 ≡ 0 }
    ensures end { result.last ≡ false → result.end % 8 ≡ 0 }
    ensures covered { IsCovered heap.now result count }
{
    let mut start = u64::MAX - 7;
    let mut top = 0;
    for k in 0..heap.segments() {
        let segment = heap.info(k);
        let low = from.max(segment.first_place());
        if low < segment.end {
            start = start.min(low);
            top = top.max(segment.end);
        }
    }
    let room = top.saturating_sub(start);
    let last = room / 512 < count as u64;
    let end = if last { 0 } else { start + 512 * count as u64 };
    Window {
        from,
        start,
        end,
        last,
    }
}
