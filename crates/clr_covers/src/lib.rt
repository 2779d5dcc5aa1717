//! A value for each unit of some stretches of memory, as cards and bricks have them. The stretches come and go.
//!
//! A unit is told by its number: how many bytes it stands for is up to the caller. A look-up begins with a guess of the
//! stretch, so that a caller that works in one place pays for no search.
#![tactic(auto)]

mod covers;

pub use crate::covers::Covers;
pub use clr_mem::NoMemory;
