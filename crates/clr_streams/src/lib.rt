//! Where the bytes of a command come from and where they go, and how a command ends.
#![tactic(auto)]

mod adapter;
mod buffer;
mod memory;
mod plain;
mod reading;
mod sink;
mod source;
mod status;

pub use adapter::{ReadAdapter, WriteAdapter};
pub use buffer::{make_buffer, push_all, write_behind};
pub use clr_mem::NoMemory;
pub use memory::{MemorySink, MemorySource};
pub use plain::{PlainSink, PlainSource};
pub use reading::read_all;
pub use sink::{Sink, write_all};
pub use source::Source;
pub use status::Status;

/// A read or a write that failed.
#[derive(Clone, Copy, Debug, PartialEq, Eq)]
pub struct Failed;
