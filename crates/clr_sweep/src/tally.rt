//! What a sweep counts.

/// How many objects a sweep kept and how many it freed, and the bytes of the objects that it promoted: from generation
/// 0 to 1, and from 1 to 2.
#[derive(Clone, Copy, Debug, PartialEq, Eq)]
pub struct Tally {
    /// Objects that were marked.
    pub kept: u64,
    /// Objects that weren't.
    pub freed: u64,
    /// Bytes that went from generation 0 to generation 1.
    pub promoted1: u64,
    /// Bytes that went from generation 1 to generation 2.
    pub promoted2: u64,
}

impl Tally {
    // What is counted before anything is.
    pub(crate) const NONE: Tally = Tally {
        kept: 0,
        freed: 0,
        promoted1: 0,
        promoted2: 0,
    };
}
