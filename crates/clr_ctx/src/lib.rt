//! Allocation contexts: ranges of generation 0 that one thread fills with objects from the front.
#![tactic(auto)]

pub use crate::ranges::open_whole;
pub use crate::young_items::YoungItems;

mod ranges;
mod rooms;
mod young_items;
