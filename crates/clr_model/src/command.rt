//! The commands of a script, one for each form of line.
use crate::{How, Life, Look, Mode};
use clr_types::{Kind, Shape};

/// The options of `dumpheap`. With no least size `min` is 0, with no greatest `max` is the greatest number.
#[derive(Clone, Copy, Debug)]
pub struct Filter<'a> {
    pub mode: Mode,
    pub life: Life,
    pub mt: Option<u64>,
    pub name: Option<&'a [u8]>,
    pub min: u64,
    pub max: u64,
    /// The generation in which an item has to stand.
    pub generation: Option<u8>,
    /// The base of the segment in which an item has to stand.
    pub segment: Option<u64>,
}

/// A line that was read.
#[derive(Clone, Copy, Debug)]
pub enum Command<'a> {
    Define {
        name: &'a [u8],
        shape: Shape<'a>,
        finalizer: bool,
    },
    New {
        t: u64,
        local: u64,
        name: &'a [u8],
        len: Option<u64>,
    },
    Get {
        t: u64,
        to: u64,
        from: u64,
        index: u64,
    },
    Set {
        t: u64,
        into: u64,
        index: u64,
        from: u64,
    },
    Put {
        t: u64,
        into: u64,
        index: u64,
        value: u64,
    },
    Read {
        t: u64,
        from: u64,
        index: u64,
    },
    Copy {
        t: u64,
        to: u64,
        from: u64,
    },
    Clear {
        t: u64,
        local: u64,
    },
    Suppress {
        t: u64,
        local: u64,
    },
    Reregister {
        t: u64,
        local: u64,
    },
    Collect {
        t: u64,
        g: u8,
        how: How,
    },
    Suspend {
        t: u64,
    },
    Resume {
        t: u64,
    },
    BeginSet {
        t: u64,
        into: u64,
        index: u64,
        from: u64,
    },
    BeginNew {
        t: u64,
        local: u64,
        name: &'a [u8],
        len: Option<u64>,
    },
    Step {
        t: u64,
    },
    Handle {
        t: u64,
        kind: Kind,
        local: u64,
        second: Option<u64>,
    },
    Fetch {
        t: u64,
        to: u64,
        h: u64,
    },
    Second {
        t: u64,
        to: u64,
        h: u64,
    },
    Free {
        t: u64,
        h: u64,
    },
    Finalizer {
        t: u64,
        to: u64,
    },
    CompactLarge {
        t: u64,
    },
    NewPinned {
        t: u64,
        local: u64,
        name: &'a [u8],
        len: u64,
    },
    BackgroundBegin {
        t: u64,
    },
    BackgroundStep {
        n: u64,
    },
    BackgroundEnd {
        t: u64,
    },
    DumpHeap {
        filter: Filter<'a>,
    },
    DumpObj {
        a: u64,
    },
    GcRoot {
        a: u64,
    },
    EeHeap,
    VerifyHeap,
    GcHandles,
    FinalizeQueue,
    GcWhere {
        a: u64,
    },
    ObjSize {
        a: u64,
    },
    Look {
        look: Look,
    },
}
