//! Moves what survives a compacting collection, and all that names it, and slides the large heap.
//!
//! Between marking and the end of a collection that compacts: pinned objects are marked in their headers, the plan is
//! written, references, locals, handles and queues are relocated, plugs slide, and large segments are swept. A slide of
//! the large heap goes the same way over large segments alone, of which all objects stay.
#![tactic(auto)]

pub use crate::large::slide_large_heap;
pub use crate::moving::move_survivors;
pub use crate::pins::set_pins;
pub use crate::roots::Roots;

mod condemned;
mod large;
mod moving;
mod pins;
mod roots;
