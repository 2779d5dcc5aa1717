//! Plugs: runs of adjacent survivors that a compaction moves together.
//!
//! The 24 bytes that end 8 bytes before a plug tell the unused bytes before it, how far it goes, and its children in
//! the tree of its brick. A brick's entry names the root of that tree, or leads back to the nearest brick that has one.
//! A [`PlanWriter`] writes all of it by rising place, [`find_plug`] finds the plug at an address, and a [`PlugCursor`]
//! goes over the plugs of a part.
#![tactic(auto)]

pub use crate::builder::TreeBuilder;
pub use crate::cursor::PlugCursor;
pub use crate::plug_search::PlugSearch;
pub use crate::search::{NearestPlug, find_plug};
pub use crate::words::{PlugInfo, info, put_info};
pub use crate::writer::PlanWriter;

mod builder;
mod cursor;
mod forests;
mod offsets;
mod plug_search;
mod search;
mod words;
mod writer;
