// Places in order, and how high they are.
ghost use Rattle.std.specs.Prelude.{◌≡◌, ℕ, ◌+◌, ◌*◌, ◌<◌, ◌≤◌, ◌++◌, ◌∷◌, [], drop, length, OnOk, slice_index};
ghost use Rattle.std.specs.Prelude.{slice_set, take, vec_capacity, vec_len};
ghost use Rattle.clr_final.specs.Places.{ArePeaks};

use crate::NoMemory;
use std::alloc::Global;
use std::marker::Model;

// How many places a chunk has.
const CHUNK: usize = 64;

/// A list of places. Of the first chunks of 64, as far as they are known, it keeps how high the places are up to the
/// chunk's end, so that what follows the older places is found at once.
#[derive(Drop)]
pub(crate) struct Places {
    items: Vec<u64>,
    peaks: Vec<u64>,
}

impl Model for Places {
    ghost use Rattle.std.specs.Prelude.{vec_capacity};
    ghost use Rattle.clr_final.specs.Places.{PlaceList, ArePeaks};

    ghost Value = { PlaceList };

    ghost view = { λ p. record { items = p.items.items; capacity = vec_capacity p.items } };

    ghost invariant = { λ p. ArePeaks p.items.items p.peaks.items };
}

impl Places {
    /// No places. Takes no memory.
    pub(crate) fn new(alloc: Global) -> Places
        ensures { result ≡ record { items = []; capacity = 0 } }
    {
        Places {
            items: Vec::new(alloc),
            peaks: Vec::new(alloc),
        }
    }

    /// How many places there are.
    pub(crate) fn len(&self) -> usize
        ensures { result ≡ length self.now.items }
    {
        self.items.len()
    }

    /// For how many there is room in all.
    pub(crate) fn capacity(&self) -> usize
        ensures { result ≡ self.now.capacity }
    {
        self.items.capacity()
    }

    /// How many more there is room for.
    pub(crate) fn room(&self) -> usize
        ensures { length self.now.items + result ≡ self.now.capacity }
    {
        self.items.capacity() - self.items.len()
    }

    /// The places.
    pub(crate) fn as_slice(&self) -> &[u64]
        ensures { result.now ≡ self.now.items }
    {
        self.items.as_slice()
    }

    /// The place at an index.
    pub(crate) fn get(&self, i: usize) -> u64
        requires { i < length self.now.items }
        ensures { result ≡ slice_index self.now.items i }
    {
        self.items[i]
    }

    /// Makes room for `n` more. The places stay, and there never is less room.
    pub(crate) fn reserve(&mut self, n: usize) -> Result<(), NoMemory>
        ensures ok { OnOk result (length self.new.items + n ≤ self.new.capacity) }
        ensures items { self.new.items ≡ self.old.items }
        ensures capacity { self.old.capacity ≤ self.new.capacity }
    {
        self.items.reserve(n)?;
        let chunks = self.items.capacity() / CHUNK;
        if self.peaks.len() < chunks {
            let _ = self.peaks.reserve(chunks - self.peaks.len());
        }
        Ok(())
    }

    /// Appends a place.
    pub(crate) fn push(&mut self, place: u64)
        requires { length self.old.items < self.old.capacity }
        ensures { self.new ≡ record self.old { items = self.old.items ++ place ∷ [] } }
    {
        self.items.push_reserved(place);
    }

    /// Puts in places, where there are none.
    pub(crate) fn fill(&mut self, places: &[u64])
        requires none { self.old.items ≡ [] }
        requires room { length places.now ≤ self.old.capacity }
        ensures { self.new ≡ record self.old { items = places.now } }
    {
        for place in places {
            self.push(*place);
        }
    }

    /// Changes the place at an index. What stands there already isn't written, so what is known stays known.
    pub(crate) fn set(&mut self, i: usize, place: u64)
        requires { i < length self.old.items }
        ensures { self.new ≡ record self.old { items = slice_set self.old.items i place } }
    {
        if self.items[i] == place {
            return;
        }
        self.peaks.truncate(i / CHUNK);
        self.items[i] = place;
    }

    /// Drops the places from an index on.
    pub(crate) fn truncate(&mut self, n: usize)
        ensures { self.new ≡ record self.old { items = take n self.old.items } }
    {
        self.peaks.truncate(n / CHUNK);
        self.items.truncate(n);
    }

    /// How many places at the front are known to lie below `low`.
    pub(crate) fn settled(&self, low: u64) -> usize
        ensures within { result ≤ length self.now.items }
        ensures below { (i : ℕ) → i < result → slice_index self.now.items i < low }
    {
        let mut chunks = self.peaks.len();
        while chunks > 0 && self.peaks[chunks - 1] >= low {
            chunks -= 1;
        }
        CHUNK * chunks
    }

    /// Looks how high the chunks are that aren't known yet. Takes no memory, and leaves those unknown for which there
    /// is no room.
    pub(crate) fn settle(&mut self)
        ensures { self.new ≡ self.old }
    {
        while self.peaks.len() < self.items.len() / CHUNK
            && self.peaks.len() < self.peaks.capacity()
        {
            settle_chunk(&self.items, &mut self.peaks);
        }
    }

    /// Drops the first places.
    pub(crate) fn remove_front(&mut self, n: usize)
        requires { n ≤ length self.old.items }
        ensures { self.new ≡ record self.old { items = drop n self.old.items } }
    {
        self.peaks.clear();
        drop_front(&mut self.items, n);
    }
}

// Adds the peak of the next chunk.
fn settle_chunk(items: &[u64], peaks: &mut Vec<u64>)
    requires peaks { ArePeaks items.now peaks.old.items }
    requires chunk { 64 * length peaks.old.items + 64 ≤ length items.now }
    requires room { vec_len peaks.old < vec_capacity peaks.old }
    ensures peaks { ArePeaks items.now peaks.new.items }
    ensures one_more { vec_len peaks.new ≡ vec_len peaks.old + 1 }
    ensures capacity { vec_capacity peaks.new ≡ vec_capacity peaks.old }
{
    let first = CHUNK * peaks.len();
    let below = peaks.last().copied().unwrap_or(0);
    let peak = highest(&items[first..first + CHUNK], below);
    peaks.push_reserved(peak);
}

// Moves the items down over the first `n`.
fn drop_front(items: &mut Vec<u64>, n: usize)
    requires { n ≤ length items.old.items }
    ensures items { items.new.items ≡ drop n items.old.items }
    ensures capacity { vec_capacity items.new ≡ vec_capacity items.old }
{
    let left = items.len() - n;
    for i in 0..left {
        items[i] = items[n + i];
    }
    items.truncate(left);
}

// The greatest of some places and one more.
fn highest(places: &[u64], place: u64) -> u64
    ensures first { place ≤ result }
    ensures each { (i : ℕ) → i < length places.now → slice_index places.now i ≤ result }
{
    let mut greatest = place;
    for p in places {
        if greatest < *p {
            greatest = *p;
        }
    }
    greatest
}
