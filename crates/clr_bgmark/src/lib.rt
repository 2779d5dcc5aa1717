//! Background marking: the colours of the objects that a background collection took, and the log of what black ones
//! may name besides.
#![tactic(auto)]

mod background;
mod bits;
mod first_pause;
mod front;
mod kind;
mod last_pause;
mod lending;
mod part;
mod pending;
mod shade;
mod shades;

pub use crate::background::{Background, Colour, Progress};
pub use clr_mem::NoMemory;
