//! Tests of clr_sos on states in which something is wrong.
//!
//! They stand in a crate of their own because a crate with tests is proved twice, and clr_sos takes minutes.
#![tactic(auto)]

#[cfg(test)]
mod faults;
#[cfg(test)]
mod tables;
