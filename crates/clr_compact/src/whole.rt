// One plug goes where it goes, with the words that were saved at its end.
ghost use Rattle.std.specs.Prelude.{◌≡◌, ℕ, ◌+◌, ◌-◌, ◌%◌, ◌<◌, ◌≤◌, ◌^◌, ◌⊎◌, IfNone, IfSome};
ghost use Rattle.clr_heap.specs.View.{IsHeap, SameShape, word_of};
ghost use Rattle.clr_pinq.specs.Queue.{IsPlain, logical};
ghost use Rattle.clr_plugs.specs.Info.{HasInfo};
ghost use Rattle.clr_compact.specs.Slides.{CanLand};
ghost use Rattle.clr_compact.specs.Landings.{EndsUnderInfo, HasLandedWhole, three_before};

use crate::sliding::slide_plug;
use clr_heap::Heap;
use clr_moves::PlugMove;
use clr_pinq::{PinQueue, Saved};

// Moves one plug to where it goes, with the words that were saved at its end, and makes a free item of what is left
// between `top` and that place. Above the place where the plug ends then the heap stays as it is. `near` guesses the
// entry of the queue at its end; the better guess is answered.
#[inline]
pub(crate) fn land_plug(
    heap: &mut Heap,
    pins: &PinQueue,
    near: usize,
    top: u64,
    plug: PlugMove,
) -> usize
    requires heap { IsHeap heap.old }
    requires can { CanLand heap.old plug top }
    requires end { EndsUnderInfo pins.now.entries plug }
    requires fits { plug.start + plug.size < 2 ^ 64 }
    ensures shape { SameShape heap.old heap.new }
    ensures words { HasLandedWhole plug top (logical pins.now.entries (word_of heap.old)) (word_of heap.old)
        (word_of heap.new) }
{
    let end = plug.start() + plug.size();
    let near = pins.near(near, end - 32);
    match saved_before(heap, pins, near, end) {
        Some(saved) => {
            slide_plug(heap, top, plug);
            put_before(heap, plug.to() + plug.size(), saved);
        }
        None => slide_plug(heap, top, plug),
    }
    near
}

// The three words that end 8 bytes before a place, as they were saved: `None` where none of them was. Most often they
// are those at the end of the guessed entry.
#[inline]
fn saved_before(heap: &Heap, pins: &PinQueue, near: usize, place: u64) -> Option<Saved>
    requires heap { IsHeap heap.now }
    requires info { HasInfo heap.now place }
    ensures some { IfSome result (λ saved. saved ≡ three_before pins.now.entries (word_of heap.now) place) }
    ensures none { IfNone result (IsPlain pins.now.entries (place - 32) (place - 8)) }
{
    let saved = pins.saved_from(near, place - 32);
    if saved.is_some() {
        return saved;
    }
    if pins.next_saved(near, place - 32) < place - 8 {
        return Some(words_before(heap, pins, near, place));
    }
    None
}

// The three words that end 8 bytes before a place, as they were saved.
pub(crate) fn words_before(heap: &Heap, pins: &PinQueue, near: usize, place: u64) -> Saved
    requires heap { IsHeap heap.now }
    requires info { HasInfo heap.now place }
    ensures { result ≡ three_before pins.now.entries (word_of heap.now) place }
{
    Saved {
        at: place - 32,
        w0: pins.logical_word(heap, near, place - 32),
        w1: pins.logical_word(heap, near, place - 24),
        w2: pins.logical_word(heap, near, place - 16),
    }
}

// Writes three words so that they end 8 bytes before a place.
pub(crate) fn put_before(heap: &mut Heap, place: u64, words: Saved)
    requires heap { IsHeap heap.old }
    requires info { HasInfo heap.old place }
    ensures first { word_of heap.new (place - 32) ≡ words.w0 }
    ensures second { word_of heap.new (place - 24) ≡ words.w1 }
    ensures third { word_of heap.new (place - 16) ≡ words.w2 }
    ensures others { (b : ℕ) → b % 8 ≡ 0 → (b + 32 < place) ⊎ (place ≤ b + 8)
        → word_of heap.new b ≡ word_of heap.old b }
    ensures shape { SameShape heap.old heap.new }
{
    let k = heap.segment_of(place - 32);
    heap.set_word_at(k, place - 32, words.w0);
    heap.set_word_at(k, place - 24, words.w1);
    heap.set_word_at(k, place - 16, words.w2);
}
