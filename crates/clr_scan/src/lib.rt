//! Marks what a collection of any generation reaches: from roots, and from what older objects name, which set cards
//! tell.
#![tactic(auto)]

pub use crate::cards::scan_cards;
pub use crate::marking::mark_from;

mod cards;
mod entries;
mod marking;
mod slots;
mod stretches;
mod together;
