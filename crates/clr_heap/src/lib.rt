//! A heap of segments whose words hold objects and free items.
#![tactic(auto)]

pub use crate::heap::{AcquireFault, Heap, HeapDraft, SegmentHead};
pub use crate::kinds::ObjectKind;
pub use crate::laws::words_spell_one_list;
pub use crate::memory::load_memory;
pub use crate::walk::Walk;
pub use clr_types::{Item, SegInfo, SegKind};

mod heap;
mod items;
mod kinds;
mod laws;
mod memory;
mod walk;
