//! What stands before the types of an image.

/// What stands before the types of an image.
#[derive(Clone, Copy, Debug, PartialEq, Eq)]
pub struct Head {
    /// How many bytes the segments may reserve together.
    pub limit: u64,
    /// The least size of a large object, in bytes.
    pub large: u64,
    /// Whether the next collection of all generations compacts large segments.
    pub compact_large: bool,
    /// Whether the image is of the first version, where the two above are 85,000 and `false`.
    pub first: bool,
}
