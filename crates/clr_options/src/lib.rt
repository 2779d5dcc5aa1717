//! What a script runs with: sizes and budgets in bytes, and a percentage.
#![tactic(auto)]

pub use crate::options::{GIBIBYTE, Options};

mod options;
