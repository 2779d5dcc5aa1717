//! Addresses in units of a fixed size, numbers as text, and a count of steps for contracts.
//!
//! Nothing here allocates.
#![tactic(auto)]

mod grid;
mod read;
mod steps;
mod write;

pub use grid::{Grid, round8};
pub use read::{NumFault, read_dec, read_hex};
pub use steps::Steps;
pub use write::{put_dec, put_hex16};
