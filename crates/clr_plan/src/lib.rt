//! Plans a compaction of generations, and a slide of the large segments: where each plug goes, and where the
//! generations begin afterwards.
//!
//! The plan stands in the heap: before each plug how far it goes, and trees of the plugs of each brick. Words of live
//! objects under it are saved in a queue. `clr_moves` reads it.
#![tactic(auto)]

pub use crate::counts::Counts;
pub use crate::large::plan_large;
pub use crate::planning::plan;

mod counts;
mod heaps;
mod kinds;
mod large;
mod look;
mod parts;
mod pin;
mod planning;
mod plug;
mod pointer;
mod raise;
mod scan;
mod way;
mod whole_parts;
mod write;
