//! Lines that look at the heap and change nothing, beside those that have a command of their own.
use clr_types::Kind;

/// A line that looks, with what it asks for: objects by their addresses, types by their method tables.
#[derive(Clone, Copy, Debug, PartialEq, Eq)]
pub enum Look {
    /// The slots of an object from `start` on, at most `length` of them: from 0 on and all where nothing is said.
    DumpArray {
        start: Option<u64>,
        length: Option<u64>,
        a: u64,
    },
    /// The type with a method table.
    DumpMt {
        mt: u64,
    },
    /// Each root from which references lead to an object.
    GcRoots {
        a: u64,
    },
    /// A shortest chain of references from one object to another.
    PathTo {
        a: u64,
        b: u64,
    },
    /// The retained size of an object: of the live objects, those that would be garbage without it.
    Retained {
        a: u64,
    },
    /// What each generation and the large and pinned segments hold, and, where it is asked for, how much of that is
    /// dead.
    GcHeapStat {
        unrooted: bool,
    },
    /// The object or free item at an address, and those before and after it.
    ListNearObj {
        a: u64,
    },
    /// The slots that refer to objects of younger generations.
    EphRefs,
    /// How many handles of each kind there are.
    HandleStat,
    /// The handles of a kind.
    HandlesOf {
        kind: Kind,
    },
}
