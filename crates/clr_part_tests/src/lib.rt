//! Tests of the lower crates by their public calls.
//!
//! They stand in a crate of their own because a crate with tests is proved twice, and these crates take minutes.
#![tactic(auto)]

#[cfg(test)]
mod finals;
#[cfg(test)]
mod handles;
#[cfg(test)]
mod made;
#[cfg(test)]
mod script;
