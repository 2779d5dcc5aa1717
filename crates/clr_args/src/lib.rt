//! The arguments of the command line: which command they say, with which options.
#![tactic(auto)]

mod arguments;
mod budgets;
mod command_line;
pub mod laws;
mod no_memory;
mod options;
mod parser;

pub use arguments::Arguments;
pub use budgets::Budgets;
pub use command_line::CommandLine;
pub use no_memory::NoMemory;
