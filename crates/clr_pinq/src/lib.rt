//! Words of live neighbours that plug information overwrites, saved in a queue, and the heap as it reads with them.
//!
//! A plug that abuts a live object writes its information over the last words of that object. A [`PinQueue`] keeps what
//! stood there. With it every word of the heap has a logical value: the saved one where one is saved, and else the word
//! that stands there.
#![tactic(auto)]

pub use crate::entry::{PinEntry, Saved};
pub use crate::queue::PinQueue;
pub use clr_mem::NoMemory;

mod entry;
mod queue;
