//! Images of a heap: saved, loaded, shown and migrated.
//!
//! An image is the bytes of a heap and of all that names its objects from outside. [`save`] writes one, [`load`] reads
//! bytes that nobody trusts, [`inspect_to`] writes what the commands show of one, which [`inspect`] gives as a text,
//! and [`migrate`] makes an image of the second version of one of the first.
#![tactic(auto)]

pub use crate::inspecting::{Written, inspect, inspect_to};
pub use crate::migrating::migrate;
pub use clr_fields::LoadFault;
pub use clr_format::Step;
pub use clr_load::{Image, load};
pub use clr_save::{Snapshot, save};

mod grown;
mod inspecting;
mod laws;
mod migrating;
