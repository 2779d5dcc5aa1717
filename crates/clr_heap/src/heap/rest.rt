// Searches in the rests of contexts.
ghost use Rattle.std.specs.Prelude.{◌≡◌, ℕ, ◌-◌, ◌<◌, ◌^◌, IsSome, None};
ghost use Rattle.clr_heap.specs.Parts.{hole_from};

use clr_types::Span;

/// The end of the first of the ranges that starts at `p`.
pub fn hole_end_in(rests: &Vec<Option<Span>>, p: u64) -> Option<u64>
    ensures { result ≡ hole_from rests.now.items p }
{
    for slot in rests {
        if let Some(rest) = slot {
            if rest.place() == p {
                return Some(rest.end());
            }
        }
    }
    None
}

/// Where the next of the ranges that starts above `p` starts: `u64::MAX` where none does.
pub fn next_hole_in(rests: &Vec<Option<Span>>, p: u64) -> u64
    ensures none_before { (q : ℕ) → p < q → q < result → hole_from rests.now.items q ≡ None }
    ensures ahead { p < 2 ^ 64 - 1 → p < result }
    ensures starts { result < 2 ^ 64 - 1 → IsSome (hole_from rests.now.items result) }
{
    let mut next = u64::MAX;
    for slot in rests {
        if let Some(rest) = slot {
            if p < rest.place() && rest.place() < next {
                next = rest.place();
            }
        }
    }
    next
}
