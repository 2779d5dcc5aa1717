//! Lists of free items by rising place: made by a walk, searched, and kept up.
#![tactic(auto)]

pub use crate::items::{FreeItems, first_in, fits_in, insert_item, take_front};
pub use crate::listing::list_free;
pub use crate::searching::first_free;

mod items;
mod listing;
mod rows;
mod searching;
mod stretches;
