//! Items of a walk over the heap.

use crate::TypeId;

/// An object or a free item: its place, its size in bytes, its type, and its length where it is an array.
///
/// The place is the address of the method table word. A class has length 0. A free item has the type `Free`, and its
/// length is its size less 24.
#[derive(Clone, Copy, Debug, PartialEq, Eq)]
pub struct Item {
    pub place: u64,
    pub size: u64,
    pub type_id: TypeId,
    pub len: u64,
}
