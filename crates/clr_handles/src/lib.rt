//! The table of handles: references to objects that stand outside the heap.
//!
//! Each handle in use has a number below 65,536, by which contracts see the table as a finite map. [`Handles`] makes
//! handles and frees them, clears those whose objects a collection doesn't keep, lets them follow objects that move,
//! and goes over them in both directions.
//!
//! Of each chunk of 64 numbers the table keeps a bound on how high the places are that its handles name. So the calls
//! that take a bound `low` pass over the chunks that are known to name nothing from there on, and the handles of old
//! objects cost a young collection next to nothing. It also counts the handles of each kind, so that no pass is made
//! for a kind of which there is none.
#![tactic(auto)]

ghost use Rattle.clr_handles.specs.Laws.{ClearingLaw, RelocationLaw};

pub use crate::fault::{CreateFault, NoHandle};
pub use crate::handles::Handles;
pub use crate::numbering::MOST_HANDLES;
pub use clr_mem::NoMemory;
pub use clr_types::{Handle, Kind};

mod clearing;
mod fault;
mod handles;
mod kinds;
mod moving;
mod naming;
mod numbering;
mod rows;
mod tops;

/// Where a test tells what is kept, clearing is the test at each handle. Where a function tells where places have
/// moved, relocation is the function at each handle.
pub fn changes_are_maps()
    ensures clearing { ClearingLaw }
    ensures relocation { RelocationLaw }
{}
