//! Shapes of types.

/// What the objects of a type hold. A pattern has a byte `r` for each reference and `n` for each number.
#[derive(Clone, Copy, Debug)]
pub enum Shape<'a> {
    /// An object with one slot for each byte of the pattern.
    Class(&'a [u8]),
    /// An array of references.
    RefArray,
    /// An array of bytes.
    ByteArray,
    /// An array whose elements have one slot for each byte of the pattern.
    StructArray(&'a [u8]),
}

/// One slot of an object: its distance from the object's place in bytes, and whether it holds a reference.
#[derive(Clone, Copy, Debug, PartialEq, Eq)]
pub struct Slot {
    pub offset: u64,
    pub reference: bool,
}
