//! The segments beside the small heap, large and pinned ones: where an object goes in those of a kind, its birth there,
//! and new ones.
#![tactic(auto)]

pub use crate::acquiring::acquire_of_kind;
pub use crate::items::KindItems;

mod acquiring;
mod births;
mod items;
mod listing;
mod places;
