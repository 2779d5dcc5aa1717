//! Tests of whole runs of scripts, by their public calls.
//!
//! They stand in a crate of their own because a crate with tests is proved twice. What a script and its replies can
//! tell is tested by the scripts in `tests/` at the top of the repository, and what needs no script in
//! clr_streams_tests and clr_image_io_tests.
#![tactic(auto)]

#[cfg(test)]
mod runs;
