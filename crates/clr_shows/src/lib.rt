//! Lines that look at types, at generations and at what stands near an address.
#![tactic(auto)]

pub use crate::kinds::{handle_counts, handles_of_kind};
pub use crate::near::listnearobj;
pub use crate::stats::gcheapstat;
pub use crate::types::dumpmt;
pub use crate::younger::ephrefs;

mod kinds;
mod near;
mod stats;
mod types;
mod younger;
