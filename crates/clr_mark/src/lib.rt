//! Marks the objects that are reached, with a stack of a fixed capacity, or all objects of large segments.
#![tactic(auto)]

pub use crate::large::mark_large;
pub use crate::marker::{Marker, RunKind, Targets, are_marked};
pub use clr_mem::NoMemory;

mod large;
mod marker;
mod roots;
