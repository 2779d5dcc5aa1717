//! The machine that a script drives: its commands, its replies, and the definitions of what each line does.
#![tactic(auto)]

ghost use Rattle.std.specs.Prelude.{◌≡◌};
ghost use Rattle.clr_model.specs.Refusals.{number_of_refusal};

pub mod command;
pub mod laws;
pub mod look;

pub use command::{Command, Filter};
pub use look::Look;

/// How a collection is to leave the small heap.
#[derive(Clone, Copy, Debug, PartialEq, Eq)]
pub enum How {
    /// As the measures of the collection decide.
    Decide,
    /// By compaction.
    Compact,
    /// By sweeping.
    Sweep,
    /// By compaction of generation 1, whose survivors go first into free items of generation 2.
    Fit,
}

/// How `dumpheap` shows what passes.
#[derive(Clone, Copy, Debug, PartialEq, Eq)]
pub enum Mode {
    /// A line for each item, and the totals.
    Full,
    /// A line for each type, by bytes.
    Stat,
    /// The addresses alone.
    Short,
}

/// Which objects pass `dumpheap`.
#[derive(Clone, Copy, Debug, PartialEq, Eq)]
pub enum Life {
    /// Each item.
    Any,
    /// Those that a full collection would keep.
    Live,
    /// Those that a full collection would free.
    Dead,
}

/// What a collection answers.
#[derive(Clone, Copy, Debug, PartialEq, Eq)]
pub struct Collected {
    /// The generation that was condemned, with all younger ones.
    pub generation: u8,
    /// Whether the small heap was compacted, and not swept.
    pub compacted: bool,
    /// Whether survivors went into older free items first.
    pub fitted: bool,
    /// Whether it was the last pause of a background collection.
    pub background: bool,
    /// How many condemned objects were kept.
    pub kept: u64,
    /// How many condemned objects were freed.
    pub freed: u64,
    /// Bytes that were promoted to generation 1.
    pub promoted1: u64,
    /// Bytes that were promoted to generation 2.
    pub promoted2: u64,
}

/// Where an object stands. The kind is 0 small, 1 ephemeral, 2 large, 3 pinned.
#[derive(Clone, Copy, Debug, PartialEq, Eq)]
pub struct Where {
    pub generation: u8,
    pub kind: u8,
    pub base: u64,
    pub size: u64,
}

/// The answer of a line that isn't refused, apart from the texts of several lines.
#[derive(Clone, Copy, Debug, PartialEq, Eq)]
pub enum Reply {
    /// It is done.
    Done,
    /// The place of an object, or 0 for null.
    Place(u64),
    /// The number that a slot holds.
    Number(u64),
    /// The method table word of a type.
    Mt(u64),
    /// The number of a handle.
    HandleNumber(u64),
    /// What a collection did.
    Collected(Collected),
    /// Where an object stands.
    Where(Where),
    /// The heap was verified and is as it should be.
    Clean,
    /// How many objects, of how many bytes, the slots of the object at this place reach, itself among them.
    Size {
        place: u64,
        objects: u64,
        bytes: u64,
    },
    /// How many gray objects a step of the background marking scanned, and how many are left.
    Scanned {
        scanned: u64,
        gray: u64,
    },
}

/// Why a line is refused.
#[derive(Clone, Copy, Debug, PartialEq, Eq)]
pub enum Refusal {
    /// The line has more bytes than a line may have.
    TooLong,
    /// The line spells no command that is built.
    Syntax,
    /// Threads are numbered from 1 to 16.
    UnknownThread,
    /// This other thread holds the others suspended.
    Blocked(u32),
    /// The thread has begun a store or a birth and not finished it.
    MidStep,
    /// The thread has begun nothing that it could finish.
    NotMidStep,
    /// No type has this name.
    UnknownType,
    /// A type has this name already, or unused space has it.
    DuplicateType,
    /// The pattern is not one of a type, or the length does not suit the type.
    BadShape,
    /// A script may define 1,000 types.
    TooManyTypes,
    /// Locals are numbered from 0 to 63.
    NoSlot,
    /// The local is null.
    Null,
    /// The object has no slot of this number.
    Index,
    /// The slot holds a number.
    NotReference,
    /// The slot holds a reference.
    IsReference,
    /// No handle with this number is in use.
    NoHandle,
    /// The handle is of a kind that has no secondary.
    HandleKind,
    /// So many handles can't be in use.
    TooManyHandles,
    /// The object would have more bytes than it may have.
    TooBig,
    /// The birth needs a collection, and this thread is in the middle of a step.
    Wait(u32),
    /// There is no room, and the limit allows no segment more.
    Oom,
    /// No object stands at this address.
    NoObject,
    /// No object waits for its finaliser.
    Empty,
    /// Memory for the runtime's own lists is wanting.
    NoMemory,
    /// A pinned object is an array without references.
    HasReferences,
    /// A background collection runs already.
    BackgroundRunning,
    /// No background collection runs.
    NoBackground,
}

impl Refusal {
    /// The number of the check that refuses.
    pub fn number(&self) -> u8
        ensures { result ≡ number_of_refusal self.now }
    {
        match self {
            Refusal::TooLong => 1,
            Refusal::Syntax => 2,
            Refusal::UnknownThread => 3,
            Refusal::Blocked(_) => 4,
            Refusal::MidStep => 5,
            Refusal::NotMidStep => 6,
            Refusal::UnknownType => 7,
            Refusal::DuplicateType => 8,
            Refusal::BadShape => 9,
            Refusal::TooManyTypes => 10,
            Refusal::NoSlot => 11,
            Refusal::Null => 12,
            Refusal::Index => 13,
            Refusal::NotReference => 14,
            Refusal::IsReference => 14,
            Refusal::NoHandle => 15,
            Refusal::HandleKind => 16,
            Refusal::TooManyHandles => 17,
            Refusal::TooBig => 18,
            Refusal::Wait(_) => 19,
            Refusal::Oom => 20,
            Refusal::NoObject => 21,
            Refusal::Empty => 22,
            Refusal::NoMemory => 23,
            Refusal::HasReferences => 24,
            Refusal::BackgroundRunning => 25,
            Refusal::NoBackground => 26,
        }
    }
}
