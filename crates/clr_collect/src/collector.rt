//! What collections work with beside the heap.
use clr_compact::Slides;
use clr_ctx::YoungItems;
use clr_mark::Marker;
use clr_pinq::PinQueue;

/// What collections work with beside the heap, and what is kept of it between them. Contracts see the value of each.
#[derive(Drop)]
pub struct CollectorState {
    pub marker: Marker,
    /// The index of young free items, of which contexts are made.
    pub young: YoungItems,
    /// The queue of saved words. It is empty between two collections.
    pub pins: PinQueue,
    pub slides: Slides,
    /// Whether the next full collection slides the large heap.
    pub compacts_large: bool,
}
