//! The offsets of references, read from runs.

ghost use Rattle.std.specs.Prelude.{◌≡◌, ◌+◌, ◌*◌, ◌<◌, ◌≤◌, ◌/◌, [], IfSome, IfNone};
ghost use Rattle.std.specs.List.{AllByRecursion, flat_map};
ghost use Rattle.clr_types.specs.Descriptors.{repeated, run_bytes, run_offsets};
ghost use Rattle.clr_types.specs.Cursors.{IsCursor, IsInRange, offsets_left};

use crate::Series;
use std::marker::Model;

// Where an iterator stands: `left` slots from the offset `place` on in the run that is open, then the `runs` of the
// element
// that is open, which begins `shift` bytes after the first, then the whole `series` in each of so many further
// `elements`,
// `stride` bytes apart. Runs are less by objects of `size` bytes.
#[derive(Clone, Copy)]
struct Cursor<'a> {
    series: &'a [Series],
    size: u64,
    stride: u64,
    elements: u64,
    shift: u64,
    runs: &'a [Series],
    place: u64,
    left: u64,
}

/// The offsets of the references of an object, by rising offset.
#[derive(Drop)]
pub struct Slots<'a> {
    cursor: Cursor<'a>,
}

impl<'a> Model for Slots<'a> {
    ghost use Rattle.std.specs.Prelude.{List, ℕ};

    ghost Value = { List ℕ };

    ghost use Rattle.clr_types.specs.Cursors.{IsCursor, offsets_left};

    ghost view = { λ slots. offsets_left slots.cursor };

    ghost invariant = { λ slots. IsCursor slots.cursor };
}

impl<'a> Slots<'a> {
    /// No offsets.
    pub(crate) fn none() -> Slots<'a>
        ensures { result ≡ [] }
    {
        Slots::new(&[], 0, 0, 0)
    }

    /// The offsets that series spell in each of so many elements, which are `stride` bytes apart.
    pub(crate) fn new(series: &'a [Series], size: u64, stride: u64, elements: u64) -> Slots<'a>
        requires runs { AllByRecursion (IsInRange size) series.now }
        requires near { stride * elements ≤ 1073741824 }
        ensures { result ≡ flat_map (run_offsets size) (repeated 0 stride elements series.entry.now) }
    {
        let empty = Cursor {
            series,
            size,
            stride,
            elements,
            shift: 0,
            runs: &[],
            place: 0,
            left: 0,
        };
        let cursor = if elements == 0 {
            empty
        } else {
            Cursor {
                elements: elements - 1,
                runs: series,
                ..empty
            }
        };
        Slots { cursor }
    }
}

impl<'a> Iterator for Slots<'a> {
    ghost use Rattle.std.specs.Iterator.{item_count, YieldsFirst};

    type Item = u64;

    ghost next_gives = { YieldsFirst (λ offsets. offsets) };

    ghost remaining = { item_count (λ offsets. offsets) };

    #[inline]
    fn next(&mut self) -> Option<u64> {
        let cursor = with_open_run(self.cursor)?;
        let offset = cursor.place;
        self.cursor = Cursor {
            place: offset + 8,
            left: cursor.left - 1,
            ..cursor
        };
        Some(offset)
    }
}

// The cursor with a slot left in its open run: it opens the next run where there is none.
#[inline]
fn with_open_run(cursor: Cursor<'_>) -> Option<Cursor<'_>>
    requires { IsCursor cursor }
    ensures none { IfNone result (offsets_left cursor.entry ≡ []) }
    ensures some { IfSome result (λ opened. 0 < opened.left) }
    ensures same { IfSome result (λ opened. offsets_left opened ≡ offsets_left cursor.entry) }
    ensures stands { IfSome result IsCursor }
{
    if cursor.left > 0 {
        Some(cursor)
    } else {
        at_next_run(cursor)
    }
}

// Opens the next run.
fn at_next_run(cursor: Cursor<'_>) -> Option<Cursor<'_>>
    requires cursor { IsCursor cursor }
    requires closed { cursor.left ≡ 0 }
    ensures none { IfNone result (offsets_left cursor.entry ≡ []) }
    ensures some { IfSome result (λ opened. 0 < opened.left) }
    ensures same { IfSome result (λ opened. offsets_left opened ≡ offsets_left cursor.entry) }
    ensures stands { IfSome result IsCursor }
{
    let at_run = if cursor.runs.is_empty() {
        at_next_element(cursor)?
    } else {
        cursor
    };
    let (run, runs) = at_run.runs.split_first()?;
    Some(Cursor {
        runs,
        place: at_run.shift + run.start,
        left: run_slots(*run, at_run.size),
        ..at_run
    })
}

// Goes on to the first run of the next element.
fn at_next_element(cursor: Cursor<'_>) -> Option<Cursor<'_>>
    requires cursor { IsCursor cursor }
    requires closed { cursor.left ≡ 0 }
    requires read { cursor.runs.now ≡ [] }
    ensures none { IfNone result (offsets_left cursor.entry ≡ []) }
    ensures closed { IfSome result (λ next. next.left ≡ 0) }
    ensures same { IfSome result (λ next. offsets_left next ≡ offsets_left cursor.entry) }
    ensures stands { IfSome result IsCursor }
    // There is an element with no runs only where no element has any.
    ensures empty { IfSome result (λ next. next.runs.now ≡ [] → offsets_left next ≡ []) }
{
    if cursor.elements == 0 {
        return None;
    }
    Some(Cursor {
        elements: cursor.elements - 1,
        shift: cursor.shift + cursor.stride,
        runs: cursor.series,
        ..cursor
    })
}

/// The slots of a run, in objects of `size` bytes.
#[inline]
pub(crate) fn run_slots(run: Series, size: u64) -> u64
    requires { IsInRange size run }
    ensures { result ≡ run_bytes run.run_less_size size / 8 }
{
    let bytes = if run.run_less_size < 0 {
        size - run.run_less_size.unsigned_abs()
    } else {
        size + run.run_less_size.unsigned_abs()
    };
    bytes / 8
}
