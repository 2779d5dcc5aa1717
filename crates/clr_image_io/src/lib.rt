//! Commands that look at an image: it is read from a source, and what is made of it is written to a sink.
#![tactic(auto)]

mod reading;
mod showing;

pub use reading::{IMAGE_LIMIT, read_image};
pub use showing::{inspect_source, migrate_source, write_fault, write_unfit};
