//! Runs of lines over sources and sinks: a script, or lines that are made of drawn numbers.
#![tactic(auto)]

mod outcome;
mod pending;
mod script;
mod session;
mod soaking;

pub use script::{SCRIPT_LIMIT, run_over, run_source};
pub use soaking::soak;
