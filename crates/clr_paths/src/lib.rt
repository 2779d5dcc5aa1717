//! How objects lead to each other, and what hangs on one.
#![tactic(auto)]

pub use crate::all_roots::gcroots;
pub use crate::held::retained;
pub use crate::path::pathto;

mod all_roots;
mod held;
mod incoming;
mod numbers;
mod path;
