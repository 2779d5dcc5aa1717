//! Tests of sources and sinks by their public calls.
//!
//! They stand in a crate of their own because a crate with tests is proved twice.
#![tactic(auto)]

#[cfg(test)]
mod adapters;
#[cfg(test)]
mod memory;
