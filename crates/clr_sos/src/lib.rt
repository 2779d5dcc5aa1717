//! The commands that show the heap, each a text by definition.
#![tactic(auto)]

pub use crate::buffered::{flush, write_buffered, write_dumpheap, write_finalizequeue};
pub use crate::fault::SosFault;
pub use crate::handles::{gchandles, kind_text, put_count, put_handle};
pub use crate::heap_items::{HeapItems, items_of};
pub use crate::listing::dumpheap;
pub use crate::listing_lines::put_item;
pub use crate::object_text::{dumparray, dumpobj};
pub use crate::queues::finalizequeue;
pub use crate::reach::{FoundObject, Origin, Reached, Tie, reach_all, ties_of};
pub use crate::roots::{Trail, gcroot, put_origin, put_place_line, put_places, trail_to};
pub use crate::segments::eeheap;
pub use crate::state::State;
pub use crate::step::Step;
pub use crate::text::{
    put_address, put_number, put_place, put_word_address, put_word_number, put_words,
};
pub use crate::verify::{
    clean_states_are_lawful, faultless_heaps_are_held, have_front, is_front, is_reference_slot,
    verifyheap, verifyheap_at_once, verifyheap_with_room,
};
pub use crate::view::View;
pub use crate::whereabouts::gcwhere;

mod buffered;
mod fault;
mod handles;
mod heap_items;
mod line_ends;
mod listing;
mod listing_counts;
mod listing_lines;
mod listing_text;
mod object_text;
mod places;
mod queues;
mod reach;
mod roots;
mod segments;
mod state;
mod step;
mod text;
mod verify;
mod view;
mod wanted;
mod whereabouts;
