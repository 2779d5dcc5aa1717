//! Images are read: all that bytes say, or the offset of their first fault.
#![tactic(auto)]

pub use crate::image::Image;
pub use crate::loading::load;

mod body;
mod cells;
mod finals;
mod image;
mod items;
mod loading;
mod names;
mod parts;
mod references;
mod rest;
mod restoring;
mod seen;
mod segments;
mod starts;
mod steps;
mod tables;
mod whole;
