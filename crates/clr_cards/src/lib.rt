//! Cards: a byte for each 2,048 bytes of what is covered, which tells whether a reference to a younger object may stand
//! there.
//!
//! A store sets the card of its slot by one look-up and one byte. A young collection asks for the stretches whose cards
//! are set, and passes over clear cards eight at a time.
#![tactic(auto)]

mod cards;
mod runs;

pub use crate::cards::{CARD, Cards};
pub use crate::runs::Runs;
pub use clr_mem::NoMemory;
