//! Tests of the runtime by its public calls.
//!
//! They stand in a crate of their own because a crate with tests is proved twice, and clr_runtime takes minutes. What a
//! script and its replies can tell is tested by the scripts in `tests/` at the top of the repository.
#![tactic(auto)]

#[cfg(test)]
mod runtimes;
