//! What an image doesn't say.

/// The five budgets that an image doesn't say.
#[derive(Clone, Copy, Debug, PartialEq, Eq)]
pub struct Budgets {
    /// The bytes of small objects after which an allocation collects.
    pub b0: u64,
    /// The promoted bytes after which such a collection condemns generation 1, too.
    pub b1: u64,
    /// The bytes promoted to generation 2 after which it is a full one.
    pub b2: u64,
    /// The bytes of large objects after which an allocation of one collects.
    pub bl: u64,
    /// The percentage of free space from which a collection that decides compacts.
    pub compact: u64,
}
