// What becomes of an entry.

/// What a collection finds of an entry's object.
#[derive(Clone, Copy, Debug, PartialEq, Eq)]
pub enum Verdict {
    /// It is alive without finalisation, or stays for now: so does the entry.
    Alive,
    /// It is dead: it waits for its finaliser.
    Woken,
    /// It is dead, and is not to be finalised: the entry goes.
    Dropped,
}
