//! A command from its arguments to its bytes.
#![tactic(auto)]

mod command;
mod making;
mod opening;

pub use clr_args::Arguments;
pub use clr_image_io::IMAGE_LIMIT;
pub use clr_runtime::{NoMemory, Runtime};
pub use clr_session::SCRIPT_LIMIT;
pub use clr_streams::{
    Failed, MemorySink, MemorySource, PlainSink, PlainSource, ReadAdapter, Sink, Source, Status,
    WriteAdapter,
};
pub use command::run;
