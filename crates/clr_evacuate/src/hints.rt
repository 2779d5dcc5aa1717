// Where searches for older free items may begin: what earlier ones found.
ghost use Rattle.std.specs.Prelude.{◌≡◌, ◌-◌, ◌<◌, ◌≤◌, ◌^◌, List, MatchOption};
ghost use Rattle.clr_types.specs.Types.{TypeRow};
ghost use Rattle.clr_heap.specs.View.{HeapView, IsHeap, no_rests};
ghost use Rattle.clr_model.specs.Fitting.{lowest_item, older_items};
ghost use Rattle.clr_view.specs.View.{IsHeld, layout_in};
ghost use Rattle.clr_evacuate.specs.Hints.{AreHints, IsStartFor};

use crate::searching::find_item;
use clr_heap::Heap;
use clr_types::{Span, Types};

// A place below which no older item has room for a size.
#[derive(Clone, Copy)]
struct Hint {
    size: u64,
    place: u64,
}

// The number of the hint behind the usual ones: it tells of all sizes that are greater by 24 or more, too, and is that
// of the least size for which no room was found at all.
const NO_ROOM: usize = 128;

// Places below which older items have no room, each for one size, and where a search may begin. They stay right while
// plugs go into items. Beside them stands the greatest size that had room where one between others was tried.
#[derive(Drop)]
pub(crate) struct Hints {
    hints: [Hint; 129],
    with_room: u64,
}

impl Hints {
    // Nothing is known yet.
    pub(crate) fn new() -> Hints
        ensures { (rows : List TypeRow) (h : HeapView) → AreHints rows h result.hints }
    {
        Hints {
            hints: [Hint { size: 0, place: 0 }; 129],
            with_room: 0,
        }
    }

    // A place below which no older item has room for a size.
    fn start_for(&self, size: u64) -> u64
        ensures { (rows : List TypeRow) (h : HeapView) → AreHints rows h self.now.hints
            → IsStartFor rows h size result }
    {
        let hint = self.hints[(size / 8 % 128) as usize];
        if hint.size == size {
            return hint.place;
        }
        // what has no room for a size has none for one that is greater by 24 or more
        let less = self.hints[NO_ROOM];
        if size.saturating_sub(less.size) >= 24 {
            less.place
        } else {
            0
        }
    }

    // Keeps such a place, where another size may have been kept before.
    fn learn(&mut self, size: u64, place: u64)
        ensures { (rows : List TypeRow) (h : HeapView) → AreHints rows h self.old.hints
            → IsStartFor rows h size place → AreHints rows h self.new.hints }
    {
        self.hints[(size / 8 % 128) as usize] = Hint { size, place };
    }

    // Keeps for a size that it has no room at all, and so for all that are greater by 24 or more.
    fn learn_none(&mut self, size: u64)
        ensures { (rows : List TypeRow) (h : HeapView) → AreHints rows h self.old.hints
            → IsStartFor rows h size (2 ^ 64 - 1) → AreHints rows h self.new.hints }
    {
        self.hints[NO_ROOM] = Hint {
            size,
            place: u64::MAX,
        };
    }

    // Halfway from the greatest size that had room to one that has none.
    fn halfway(&self, size: u64) -> u64
        ensures { result ≤ size }
    {
        let low = if self.with_room < size {
            self.with_room
        } else {
            0
        };
        low + (size - low) / 16 * 8
    }

    // Looks for the least size that has no room, where a size has none: it tries the one halfway to a size that has. So
    // few searches over all older items tell of all sizes that have no room. The first such size may be the only one,
    // and is only kept.
    fn narrow(&mut self, heap: &Heap, types: &Types, size: u64)
        requires held { IsHeld types.now heap.now }
        requires no_contexts { heap.now.rests ≡ no_rests }
        requires order { heap.now.start1 ≤ heap.now.start0 }
        requires small { size < 2 ^ 62 }
        requires none { IsStartFor types.now heap.now size (2 ^ 64 - 1) }
        requires hints { AreHints types.now heap.now self.old.hints }
        ensures { AreHints types.now heap.now self.new.hints }
    {
        if self.hints[NO_ROOM].place == 0 {
            self.learn_none(size);
            return;
        }
        let half = self.halfway(size);
        let from = self.start_for(half);
        match find_item(heap, types, half, from) {
            None => self.learn_none(half),
            Some(_) => {
                self.with_room = half;
                self.learn_none(size);
            }
        }
    }

    // Keeps what a search for a size found, which it answers, where the place at which it began didn't tell it before.
    fn learn_found(
        &mut self,
        heap: &Heap,
        types: &Types,
        size: u64,
        from: u64,
        found: Option<Span>,
    ) -> Option<Span>
        requires held { IsHeld types.now heap.now }
        requires no_contexts { heap.now.rests ≡ no_rests }
        requires order { heap.now.start1 ≤ heap.now.start0 }
        requires small { size < 2 ^ 62 }
        requires found { MatchOption found (IsStartFor types.now heap.now size (2 ^ 64 - 1))
            (λ i. IsStartFor types.now heap.now size i.place) }
        requires hints { AreHints types.now heap.now self.old.hints }
        ensures same { result ≡ found }
        ensures hints { AreHints types.now heap.now self.new.hints }
    {
        if from == u64::MAX {
            return found;
        }
        match found {
            Some(item) => self.learn(size, item.place()),
            None => {
                self.learn(size, u64::MAX);
                self.narrow(heap, types, size);
            }
        }
        found
    }
}

// The lowest free item of generation 2 of the small heap in which a size fits: `None` where it fits in none. The
// search begins where an earlier one ended, if that is known.
pub(crate) fn find_lowest(heap: &Heap, types: &Types, hints: &mut Hints, size: u64) -> Option<Span>
    requires held { IsHeld types.now heap.now }
    requires no_contexts { heap.now.rests ≡ no_rests }
    requires order { heap.now.start1 ≤ heap.now.start0 }
    requires small { size < 2 ^ 62 }
    requires hints { AreHints types.now heap.now hints.old.hints }
    ensures heap { IsHeap heap.now }
    ensures lowest { result ≡ lowest_item size (older_items (layout_in types.now heap.now)) }
    ensures hints { AreHints types.now heap.now hints.new.hints }
{
    let from = hints.start_for(size);
    let found = find_item(heap, types, size, from);
    hints.learn_found(heap, types, size, from, found)
}
