//! The second pass over the queues: what is to be finalised, and what waits for its finaliser.
ghost use Rattle.std.specs.Prelude.{◌≡◌, ◌+◌, ◌*◌, ◌<◌, ◌^◌, length};
ghost use Rattle.clr_format.specs.NameTests as tests;
ghost use Rattle.clr_format.specs.NameTests.{final_tests, first_failed, tests_of};
ghost use Rattle.clr_load.specs.SeenItems.{IsSeen, items_seen};

use crate::seen::Seen;

// Whether a place is that of an object whose type has a finaliser.
fn is_final_object(seen: &Seen<'_>, place: u64) -> bool
    requires { IsSeen seen.now }
    ensures { result ≡ tests.is_final_object seen.now.types.now (tests.object_at (items_seen seen.now) place) }
{
    match seen.object_at(place) {
        None => false,
        Some(item) => seen.types.finalizer(item.type_id),
    }
}

/// The offset of the first of the words from an offset on that isn't the place of an object whose type has a finaliser.
pub fn finals_fault(seen: &Seen<'_>, places: &[u64], o: usize) -> Option<usize>
    requires seen { IsSeen seen.now }
    requires room { o + 8 * length places.now < 2 ^ 64 }
    ensures { result ≡ first_failed (tests_of 8 (final_tests seen.now.types.now (items_seen seen.now)) o places.now) }
{
    for i in 0..places.len() {
        if !is_final_object(seen, places[i]) {
            return Some(o + 8 * i);
        }
    }
    None
}
