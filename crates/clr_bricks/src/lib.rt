//! Bricks: an entry for each 4,096 bytes of what is covered, which names an offset in the brick or leads some bricks
//! back.
//!
//! They find what starts at or below an address without a walk from the segment's start.
#![tactic(auto)]

mod bricks;
mod leading;
mod search;

pub use crate::bricks::Bricks;
pub use crate::leading::hop;
pub use clr_mem::NoMemory;
