//! Guesses at a name's number.

/// For each slot of names, the number of the last one that was kept there, or 0. A guess may be wrong, and whoever
/// takes it compares the names.
#[derive(Drop)]
pub(crate) struct Guesses {
    numbers: [usize; 256],
}

impl Guesses {
    /// No name.
    pub(crate) fn new() -> Guesses {
        Guesses { numbers: [0; 256] }
    }

    /// The number that a name may have.
    #[inline(always)]
    pub(crate) fn of(&self, name: &[u8]) -> usize {
        self.numbers[usize::from(slot(name))]
    }

    /// Keeps a name's number in its slot.
    pub(crate) fn keep(&mut self, name: &[u8], number: usize) {
        self.numbers[usize::from(slot(name))] = number;
    }
}

// The slot of a name, by its first byte, its middle one and its last.
#[inline(always)]
fn slot(name: &[u8]) -> u8 {
    if name.is_empty() {
        return 0;
    }
    let first = name[0];
    let middle = name[name.len() / 2];
    let last = name[name.len() - 1];
    first
        .wrapping_add(middle.wrapping_mul(31))
        .wrapping_add(last.wrapping_mul(7))
}
