//! What a line of a script does: it is read, its command is one call of the runtime or one command over what that
//! shows, and its outcome is told.
#![tactic(auto)]

mod background;
mod begun;
pub mod execute;
mod front;
mod handles;
mod heap;
mod looks;
mod outcome;
mod slots;
mod threads;

pub use begun::begun_steps;
pub use front::{Answered, answer_front};
pub use looks::obey_look;
pub use outcome::Outcome;
