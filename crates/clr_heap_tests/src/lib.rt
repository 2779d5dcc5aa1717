//! Tests of heaps by their public calls: items, objects, marks, plugs, saved words and contexts.
//!
//! They stand in a crate of their own because a crate with tests is proved twice, and all stands on these crates.
#![tactic(auto)]

#[cfg(test)]
mod contexts;
#[cfg(test)]
mod heaps;
#[cfg(test)]
mod marks;
#[cfg(test)]
mod objects;
#[cfg(test)]
mod plugs;
#[cfg(test)]
mod saved;
