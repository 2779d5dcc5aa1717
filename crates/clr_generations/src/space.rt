//! The heap with the tables beside it.
use clr_bricks::Bricks;
use clr_cards::Cards;
use clr_heap::Heap;

/// The heap with its cards and bricks. Contracts see the value of each; what holds of them between two lines is
/// `IsTidy`.
#[derive(Drop)]
pub struct Space {
    pub heap: Heap,
    pub cards: Cards,
    pub bricks: Bricks,
}
