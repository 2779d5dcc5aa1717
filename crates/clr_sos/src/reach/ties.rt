// Dependent handles, by their primaries.
ghost use Rattle.std.specs.Prelude.{ℕ, ◌<◌, ◌≤◌, length, get_or, IfOk};
ghost use Rattle.std.specs.List.Sorted.{IsNonDecreasingBy};
ghost use Rattle.clr_sos.specs.Reaching.{AreTies, ListsTies};
ghost use Rattle.clr_sos.specs.declared.reach.ties.Tie.{Tie as Row};

use clr_handles::Handles;
use std::alloc::{AllocError, Global};

/// What a dependent handle ties: the place of its second object to that of its primary.
#[derive(Clone, Copy)]
pub struct Tie {
    pub primary: u64,
    pub second: u64,
}

/// The second objects of all dependent handles, by rising places of their primaries.
pub fn ties_of(alloc: Global, handles: &Handles) -> Result<Vec<Tie>, AllocError>
    ensures { IfOk result (λ ties. AreTies handles.now ties.items) }
{
    let mut ties = list_ties(alloc, handles)?;
    ties.sort_by_key(|tie| tie.primary)?;
    Ok(ties)
}

// The second objects of all dependent handles, by the numbers of the handles.
fn list_ties(alloc: Global, handles: &Handles) -> Result<Vec<Tie>, AllocError>
    ensures { IfOk result (λ ties. ListsTies handles.now ties.items) }
{
    let mut ties = Vec::new(alloc);
    let mut from = 0;
    while let Some((number, handle)) = handles.next_from(from, 0) {
        if handle.kind.is_dependent() && handle.second != 0 {
            ties.push(Tie {
                primary: handle.target,
                second: handle.second,
            })?;
        }
        from = number + 1;
    }
    Ok(ties)
}

/// The index of the first tie to `primary` or to a higher place.
pub(crate) fn first_tie(ties: &[Tie], primary: u64) -> usize
    requires { IsNonDecreasingBy (λ (t : Row). t.primary) ties.now }
    ensures within { result ≤ length ties.now }
    ensures below { (i : ℕ) (d : Row) → i < result → (get_or ties.now i d).primary < primary }
    ensures above { (i : ℕ) (d : Row) → result ≤ i → i < length ties.now → primary ≤ (get_or ties.now i d).primary }
{
    ties.partition_point(|tie| tie.primary < primary)
}
