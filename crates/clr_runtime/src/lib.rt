//! The core that a script drives: one call for each line, each of them a step of the machine.
#![tactic(auto)]

pub use crate::runtime::Runtime;
pub use crate::standing::Standing;
pub use clr_bgmark::Progress;
pub use clr_mark::NoMemory;
pub use clr_options::Options;

mod background;
mod births;
mod checks;
mod collections;
mod finalizers;
mod handles;
mod large;
mod opening;
mod parts;
mod pinned;
mod pinned_births;
mod rooms;
mod runtime;
mod sealing;
mod segments;
mod sliding;
mod slots;
mod standing;
mod steps;
mod sums;
mod suspending;
