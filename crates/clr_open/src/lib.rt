//! Going on from an image: a runtime that stands for the state that an image says.
#![tactic(auto)]

pub use crate::budgets::Budgets;
pub use crate::opening::{OpenFault, open};

mod begun;
mod budgets;
mod fit;
mod opening;
