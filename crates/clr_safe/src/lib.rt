//! Safe points: what each thread has begun and not finished, and which thread holds all others.
#![tactic(auto)]

pub use crate::begun::Begun;
pub use crate::safe::Safe;

mod begun;
mod safe;
