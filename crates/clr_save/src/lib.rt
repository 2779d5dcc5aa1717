//! Images are written: the exact bytes, and the laws that they are read back.
#![tactic(auto)]

pub use crate::put::{put_words, put_zeros};
pub use crate::snapshot::Snapshot;
pub use crate::writing::save;

mod laws;
mod put;
mod put_memory;
mod put_segments;
mod put_tables;
mod put_types;
mod snapshot;
mod writing;
