//! What cards and bricks tell of objects of different generations: their laws, and what keeps them.
//!
//! Cards tell a young collection which older objects name younger ones, and bricks where a walk over old objects can
//! begin. The write barrier, births and what is done before a sweep see to both.
#![tactic(auto)]

mod acquiring;
mod all_bricks;
mod barrier;
mod births;
mod covering;
mod finding;
mod old_births;
mod renewing;
mod space;
mod standing;

pub use crate::acquiring::acquire;
pub use crate::all_bricks::renew_all_bricks;
pub use crate::barrier::set_reference;
pub use crate::births::allocate;
pub use crate::covering::cover_segments;
pub use crate::finding::{object_at, segment_with, walk_start};
pub use crate::old_births::enter_old_newborn;
pub use crate::renewing::{renew_aged_bricks, renew_bricks};
pub use crate::space::Space;
pub use crate::standing::cover_standing;
