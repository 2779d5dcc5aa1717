//! Tests of the lowest crates by their public calls.
//!
//! They stand in a crate of their own because a crate with tests is proved twice, and all stands on these crates.
#![tactic(auto)]

#[cfg(test)]
mod bricks;
#[cfg(test)]
mod cards;
#[cfg(test)]
mod memory;
#[cfg(test)]
mod numbers;
#[cfg(test)]
mod types;
