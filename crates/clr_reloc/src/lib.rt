//! Relocates references between the plan of a compaction and the compaction itself: each reference of what a collection
//! leaves becomes the place where its target goes.
#![tactic(auto)]

pub use crate::relocating::relocate;

mod ages;
mod ahead;
mod cards;
mod clearing;
mod entries;
mod items;
mod kinds;
mod objects;
mod plain;
mod relocating;
mod relocation;
mod resting;
mod stretches;
mod words;
