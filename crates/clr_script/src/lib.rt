//! The lines of a script: read into commands, and answered in text.
#![tactic(auto)]

mod arguments;
mod cut;
mod fields;
mod looks;
mod made;
mod options;
mod quick;
mod reader;
mod reply;
mod shapes;
mod table;
mod threads;

pub use made::Made;
pub use quick::{
    NewLine, copy_at, finalizer_at, four_bytes, get_at, handle_at, length_at, local_here, name_at,
    null_at, put_at, read_new, read_quick, set_at, slot_at, suppress_at, take_thread, thread_at,
};
pub use reader::{LONGEST, read_line};
pub use reply::{put_done, put_handle, put_number, put_place, put_refusal, put_reply};
