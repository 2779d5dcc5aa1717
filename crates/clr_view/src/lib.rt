//! The objects, free items and layout of a machine, read off the words of a heap.
#![tactic(auto)]

pub use crate::births::allocate;
pub use crate::flags::{is_final, is_suppressed, set_suppressed};
pub use crate::slot_values::{object_item, set_slot_value, slot_value};

mod births;
mod flags;
mod slot_values;
