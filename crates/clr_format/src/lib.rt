//! The format of images: which bytes are one, where the first fault of others stands, and what an image says.
#![tactic(auto)]

pub use crate::head::Head;
pub use crate::laws::{bytes_are_read_in_one_way, new_images_are_of_the_second_version};
pub use clr_sos::Step;

mod head;
mod laws;
