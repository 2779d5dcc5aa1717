// Places side by side that go equally far.

/// Places side by side that all go equally far down: those from `low` on below `stop`.
#[derive(Clone, Copy)]
pub struct Stretch {
    /// The first of them.
    pub low: u64,
    /// Where they end.
    pub stop: u64,
    /// How many bytes they go down.
    pub down: u64,
}

impl Stretch {
    /// No places.
    pub const NONE: Stretch = Stretch {
        low: 0,
        stop: 0,
        down: 0,
    };
}
