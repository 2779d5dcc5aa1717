//! Compacts the small heap or large segments by their plan: what survives goes down to where it is to stand, and what
//! is left between is free.
//!
//! The plan is read plug by plug from the information that stands before the plugs, in two lines, of those that go and
//! of those that stay. So plugs are placed by rising destination, and what lies above is read before it is written
//! over.
#![tactic(auto)]

pub use crate::compacting::compact;
pub use crate::large::slide_large;
pub use crate::slides::Slides;

mod before;
mod compacting;
mod entering;
mod fronts;
mod large;
mod next_plugs;
mod part_bricks;
mod slide_plan;
mod slides;
mod sliding;
mod whole;
