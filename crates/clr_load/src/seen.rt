//! The objects of a heap that was read, by their places.
ghost use Rattle.std.specs.Prelude.{◌≡◌, ◌≤◌, IfSome, length};
ghost use Rattle.clr_types.specs.Types.{form_at, size_of};
ghost use Rattle.clr_format.specs.NameTests as tests;
ghost use Rattle.clr_load.specs.SeenItems.{IsSeen, items_seen};

use crate::starts::Starts;
use clr_heap::Heap;
use clr_types::{Item, Types};
use clr_view::object_item;

/// A heap with its types, and where its objects start.
#[derive(Clone, Copy)]
pub struct Seen<'a> {
    pub types: &'a Types,
    pub heap: &'a Heap,
    pub starts: &'a Starts,
}

impl<'a> Seen<'a> {
    /// The object at a place, `None` where none stands there.
    pub fn object_at(&self, place: u64) -> Option<Item>
        requires { IsSeen self.now }
        ensures object { result ≡ tests.object_at (items_seen self.now) place }
        ensures known { IfSome result (λ i. i.type_id.0 ≤ length self.now.types.now) }
        ensures small { IfSome result (λ i. size_of (form_at self.now.types.now i.type_id.0) i.len ≤ 1073741824) }
    {
        if self.starts.has(place) {
            Some(object_item(self.heap, self.types, place))
        } else {
            None
        }
    }
}
