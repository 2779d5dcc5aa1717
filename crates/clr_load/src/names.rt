//! The second pass over an image: what its words name.
ghost use Rattle.std.specs.Prelude.{◌≡◌, ℕ, ◌+◌, ◌*◌, ◌<◌, ◌≤◌, ◌^◌, IfSome, length, List, map, option_map};
ghost use Rattle.clr_types.specs.declared.item.Item.{Item};
ghost use Rattle.clr_sos.specs.Faults as faults;
ghost use Rattle.clr_load.specs.KnownStarts.{AreStarts};
ghost use Rattle.clr_format.specs.NameTests.{first_failed, handle_tests, name_tests, test_from, tests_of};

use crate::starts::Starts;
use clr_types::Handle;

// Whether a word is null or the place of an object.
#[inline]
pub fn is_name(starts: &Starts, place: u64) -> bool
    ensures { (items : List Item) → AreStarts starts.now items → result ≡ faults.is_name items place }
{
    place == 0 || starts.has(place)
}

/// The offset of the first of the words from an offset on that is neither null nor the place of an object.
pub fn names_fault(starts: &Starts, names: &[u64], o: usize) -> Option<usize>
    requires { o + 8 * length names.now < 2 ^ 64 }
    ensures { (items : List Item) → AreStarts starts.now items
        → result ≡ first_failed (tests_of 8 (name_tests items) o names.now) }
{
    for i in 0..names.len() {
        if !is_name(starts, names[i]) {
            return Some(o + 8 * i);
        }
    }
    None
}

// How far the first of the two words of a handle that is neither null nor the place of an object stands from its front.
#[inline]
fn bad_part(starts: &Starts, handle: &Handle) -> Option<usize>
    ensures near { IfSome result (λ d. d ≤ 24) }
    ensures part { (items : List Item) → AreStarts starts.now items → (h q : ℕ)
        → option_map (λ d. q + d) result ≡ first_failed (map (test_from q) (handle_tests items (h, handle.now))) }
{
    if !is_name(starts, handle.target) {
        Some(16)
    } else if !is_name(starts, handle.second) {
        Some(24)
    } else {
        None
    }
}

/// The offset of the first target or second of handles that is neither null nor the place of an object.
pub fn handles_fault(starts: &Starts, handles: &[(u64, Handle)], o: usize) -> Option<usize>
    requires { o + 32 * length handles.now < 2 ^ 64 }
    ensures { (items : List Item) → AreStarts starts.now items
        → result ≡ first_failed (tests_of 32 (handle_tests items) o handles.now) }
{
    for i in 0..handles.len() {
        if let Some(d) = bad_part(starts, &handles[i].1) {
            return Some(o + 32 * i + d);
        }
    }
    None
}
