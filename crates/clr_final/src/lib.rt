//! The finalisation queue: which objects are to be finalised once they die, and which wait for their finaliser.
//!
//! [`Finals`] holds both as places in order: the entries, and the f-reachable queue behind which a collection puts the
//! entries that it wakes. Room for that is made before an entry is registered, so a collection takes no memory.
//!
//! Of the entries it keeps how high their places are up to the end of each chunk of 64, as far as that is known. So a
//! young collection passes over the entries of old objects, most of which stand in front.
#![tactic(auto)]

ghost use Rattle.clr_final.specs.Laws.{MovingLaw, JudgingLaw};

pub use crate::finals::Finals;
pub use crate::verdict::Verdict;
pub use clr_mem::NoMemory;

mod finals;
mod judging;
mod moving;
mod places;
mod verdict;

/// Where a function tells the verdicts, judging is two filters of the entries. Where a function tells where places have
/// moved, relocation is its map.
pub fn changes_are_filters_and_maps()
    ensures sorting { JudgingLaw }
    ensures moving { MovingLaw }
{}
