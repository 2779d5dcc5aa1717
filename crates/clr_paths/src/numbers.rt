// The objects of a heap, numbered by rising address.
ghost use Rattle.std.specs.Prelude.{◌≡◌, ◌<◌, ℕ, length, filter, map, IfOk};
ghost use Rattle.clr_types.specs.Rising.{IsIn, IsRisingBy};
ghost use Rattle.clr_heap.specs.Memories.{HasWord};
ghost use Rattle.clr_heap.specs.View.{heap_items};
ghost use Rattle.clr_view.specs.View.{is_object};
ghost use Rattle.clr_sos.specs.Reaching.{IsSound};
ghost use Rattle.clr_paths.specs.Numbers.{AreNumbers, place_of};
ghost use Rattle.clr_types.specs.declared.item.Item.{Item as Row};

use clr_heap::Heap;
use clr_sos::{View, items_of};
use std::alloc::{AllocError, Global};

/// How many bytes a window has. At most six objects begin in one.
const WINDOW: u64 = 128;

// The windows of a segment: where the first one begins, and for each a guess of the number of the first object that
// begins in it.
#[derive(Drop)]
struct Windows {
    base: u64,
    guesses: Vec<u32>,
}

/// The objects of a heap, numbered by rising address, and guesses of these numbers by windows of each segment.
#[derive(Drop)]
pub(crate) struct Numbers {
    pub(crate) places: Vec<u64>,
    windows: Vec<Windows>,
}

impl Numbers {
    /// The objects of a view's heap.
    pub(crate) fn of(alloc: Global, view: &View<'_>) -> Result<Numbers, AllocError>
        requires { IsSound view.now }
        ensures { IfOk result (λ numbers. AreNumbers view.now numbers.places.items) }
    {
        let places = places_of(alloc, view)?;
        let mut windows = windows_of(alloc, view.heap)?;
        set_guesses(&mut windows, view.heap, &places);
        Ok(Numbers { places, windows })
    }

    /// The number of the object at an address. It is guessed by the windows of segment `k` first.
    #[inline(always)]
    pub(crate) fn number(&self, k: usize, place: u64) -> usize
        requires rise { IsRisingBy (λ n. n) self.now.places.items }
        requires listed { IsIn place self.now.places.items }
        ensures below { result < length self.now.places.items }
        ensures is { place_of self.now.places.items result ≡ place }
    {
        let from = self.guess(k, place);
        for i in from..from.saturating_add(6) {
            if i >= self.places.len() {
                break;
            }
            if self.places[i] == place {
                return i;
            }
        }
        self.search(place)
    }

    // A number that may be that of the first object in the window of an address.
    #[inline(always)]
    fn guess(&self, k: usize, place: u64) -> usize {
        match self.windows.get(k) {
            Some(windows) => windows.guess(place),
            None => 0,
        }
    }

    // The number of the object at an address, by halves: where the guess was wrong.
    #[cold]
    fn search(&self, place: u64) -> usize
        requires rise { IsRisingBy (λ n. n) self.now.places.items }
        requires listed { IsIn place self.now.places.items }
        ensures below { result < length self.now.places.items }
        ensures is { place_of self.now.places.items result ≡ place }
    {
        self.places.partition_point(|found| *found < place)
    }
}

impl Windows {
    // The guess for the window of an address.
    #[inline(always)]
    fn guess(&self, place: u64) -> usize {
        let window = place.wrapping_sub(self.base) / WINDOW;
        match self.guesses.get(window as usize) {
            Some(guess) => *guess as usize,
            None => 0,
        }
    }

    // Takes a number as the guess for the window of an address.
    fn set(&mut self, place: u64, number: usize) {
        let window = place.wrapping_sub(self.base) / WINDOW;
        if let Some(guess) = self.guesses.get_mut(window as usize) {
            *guess = (number % 0x1_0000_0000) as u32;
        }
    }
}

// The addresses of the objects of a view's heap.
fn places_of(alloc: Global, view: &View<'_>) -> Result<Vec<u64>, AllocError>
    requires { IsSound view.now }
    ensures { IfOk result (λ places. places.items
        ≡ map (λ (i : Row). i.place) (filter is_object (heap_items view.now.types.now view.now.heap.now))) }
{
    let mut places = Vec::new(alloc);
    for item in items_of(view.types, view.heap) {
        if item.type_id.0 == 0 {
            continue;
        }
        places.push(item.place)?;
    }
    Ok(places)
}

// The windows of each segment, with no guess yet.
fn windows_of(alloc: Global, heap: &Heap) -> Result<Vec<Windows>, AllocError> {
    let mut windows = Vec::new(alloc);
    for k in 0..heap.segments() {
        let segment = heap.info(k);
        let count = segment.end.saturating_sub(segment.base) / WINDOW + 1;
        let guesses = vec![in alloc; 0u32; count as usize]?;
        windows.push(Windows {
            base: segment.base,
            guesses,
        })?;
    }
    Ok(windows)
}

// Takes the number of each object as the guess for its window, by falling numbers: so the first in a window stays.
fn set_guesses(windows: &mut Vec<Windows>, heap: &Heap, places: &[u64])
    requires { (x : ℕ) → IsIn x places.now → HasWord heap.now.memories x }
{
    let mut near = 0;
    let mut i = places.len();
    while i > 0 {
        i -= 1;
        near = heap.segment_near(near, places[i]);
        if let Some(segment) = windows.get_mut(near) {
            segment.set(places[i], i);
        }
    }
}
