//! Types of objects and the words that every layer shares: method tables, shapes and slots, segments and the items in
//! them.
#![tactic(auto)]

ghost use Rattle.std.specs.Prelude.{◌≡◌};
ghost use Rattle.clr_types.specs.Laws.{RisingListsLaw};
ghost use Rattle.clr_types.specs.Descriptors.{SeriesLaw, RisingOffsetsLaw, InsideLaw, LongestRunsLaw};

pub mod descriptors;
pub mod fault;
mod guesses;
pub mod handle;
pub mod header;
pub mod item;
pub mod mark;
mod method_table;
mod names;
pub mod segment;
pub mod shape;
pub mod slots;
pub mod span;
pub mod table;

pub use descriptors::{ReferenceRun, Series};
pub use fault::{DefineFault, NoMemory};
pub use handle::{Handle, Kind};
pub use item::Item;
pub use segment::{FIRST_OFFSET, SegInfo, SegKind};
pub use shape::{Shape, Slot};
pub use slots::Slots;
pub use span::Span;
pub use table::Types;

/// The number of a type, by which its method table word is found. `Free`, the type of unused space, is 0.
#[derive(Clone, Copy, Debug, PartialEq, Eq)]
pub struct TypeId(pub u32);

impl TypeId {
    /// The type of unused space.
    pub const FREE: TypeId = TypeId(0);
}

/// The method table word of unused space, without a mark.
pub const FREE_MT: u64 = 0x0000_7ff0_0000_0000;

/// Two lists of numbers that rise and have the same members are one list.
pub fn rising_lists_agree()
    ensures { RisingListsLaw }
{}

/// The series of a form spell the offsets of the references of its objects, which rise and lie inside the object, and
/// no run of references could be longer.
pub fn series_spell_references()
    ensures spelled { SeriesLaw }
    ensures rising { RisingOffsetsLaw }
    ensures inside { InsideLaw }
    ensures longest { LongestRunsLaw }
{}
