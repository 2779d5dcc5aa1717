//! Carries survivors of generation 1 into free items of generation 2, and lets all that names them name them there.
//!
//! Where an object stood a free item stands afterwards, whose header says where it went: it holds a forward. All
//! references are forwarded by one walk over the heap, and then the forwards are taken away.
#![tactic(auto)]

pub use crate::moving::fit_and_move;

mod carrying;
mod clearing;
mod entering;
mod evacuating;
mod fitting;
mod fittings;
mod forwarding;
mod hints;
mod leaving;
mod moving;
mod plugs;
mod roots;
mod searching;
mod slots;
