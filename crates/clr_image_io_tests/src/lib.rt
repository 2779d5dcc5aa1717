//! Tests of the commands that look at an image, over sources and sinks in memory.
//!
//! They stand in a crate of their own because a crate with tests is proved twice.
#![tactic(auto)]

#[cfg(test)]
mod images;
#[cfg(test)]
mod trials;
