// The header bits of pinned objects.
ghost use Rattle.std.specs.Prelude.{◌≡◌, ◌-◌, ◌<◌, ◌≤◌, ℕ, MatchBool, Some, true};
ghost use Rattle.std.specs.FinMap as finmap;
ghost use Rattle.clr_types.specs.declared.handle.Handle.{Handle as Row};
ghost use Rattle.clr_heap.specs.View.{IsHeap, stored, word_of};
ghost use Rattle.clr_view.specs.SlotValues.{StandsAt};
ghost use Rattle.clr_view.specs.View.{IsHeld};
ghost use Rattle.clr_survivors.specs.Pins.{HasPins, pinned_header, pins_from, PinsStand};

use clr_handles::{Handles, MOST_HANDLES};
use clr_heap::Heap;
use clr_types::{Handle, Kind, Types, header};

/// Says in the headers of all targets of pinned handles, as far as they stand at `low` or above it, whether they are
/// pinned. Null pins nothing. All else stays.
///
/// The targets of pinned handles are objects of the heap.
pub fn set_pins(heap: &mut Heap, types: &Types, handles: &Handles, low: u64, on: bool)
    requires held { IsHeld types.now heap.old }
    requires stand { PinsStand types.now heap.old handles.now }
    ensures pins { HasPins types.now heap.old heap.new handles.now low 65536 on }
    ensures below { (h : ℕ) (row : Row) → finmap.get handles.now h ≡ Some row → h < 65536 }
{
    handles.lawful();
    if !handles.has_kind(Kind::Pinned) {
        return;
    }
    // By falling numbers, which most often are falling places: the walks before this and behind it go up, so the caches
    // hold what it begins with, and then what the next walk begins with.
    let near = heap.ephemeral();
    let mut before = MOST_HANDLES as u64;
    while let Some((number, handle)) = handles.previous_below(before, low) {
        set_pin_of(heap, types, near, handle, low, on);
        before = number;
    }
}

// Says it in the header of the object that a handle pins, where it pins one at `low` or above it. `near` guesses its
// segment.
fn set_pin_of(heap: &mut Heap, types: &Types, near: usize, handle: Handle, low: u64, on: bool)
    requires heap { IsHeap heap.old }
    requires held { IsHeld types.now heap.old }
    requires stands { pins_from low handle ≡ true → StandsAt types.now heap.old handle.target }
    ensures { MatchBool (pins_from low handle)
        (heap.new ≡ stored heap.old (handle.target - 8) (pinned_header on (word_of heap.old (handle.target - 8))))
        (heap.new ≡ heap.old) }
{
    if handle.kind.is_pinned() && handle.target != 0 && low <= handle.target {
        set_pin(heap, types, near, handle.target, on);
    }
}

// Says in the header of the object at a place whether it is pinned. `near` guesses its segment.
fn set_pin(heap: &mut Heap, types: &Types, near: usize, place: u64, on: bool)
    requires heap { IsHeap heap.old }
    requires held { IsHeld types.now heap.old }
    requires stands { StandsAt types.now heap.old place }
    ensures { heap.new ≡ stored heap.old (place - 8) (pinned_header on (word_of heap.old (place - 8))) }
{
    let k = heap.segment_near(near, place - 8);
    let word = heap.word_at(k, place - 8);
    heap.set_word_at(k, place - 8, header::with_pinned(word, on));
}
