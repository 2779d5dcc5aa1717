//! Handles: references to objects that stand outside the heap.
ghost use Rattle.std.specs.Prelude.{◌≡◌};
ghost use Rattle.clr_types.specs.Kinds.{is_dependent, is_pinned_kind, is_root_kind};

/// The kinds of handles.
#[derive(Clone, Copy, Debug, PartialEq, Eq)]
pub enum Kind {
    /// Its target stays.
    Strong,
    /// Its target stays, and stays where it is.
    Pinned,
    /// A short weak handle: it loses its target where only finalisation would still reach it.
    Weak,
    /// A long weak handle: it keeps its target until that goes.
    WeakLong,
    /// Its second object stays where its target does.
    Dependent,
}

impl Kind {
    /// Whether a handle of this kind is a root of a collection: its target stays.
    pub fn is_root(self) -> bool
        ensures { result ≡ is_root_kind self }
    {
        matches!(self, Kind::Strong | Kind::Pinned)
    }

    /// Whether a handle of this kind keeps its target where it is.
    pub fn is_pinned(self) -> bool
        ensures { result ≡ is_pinned_kind self }
    {
        matches!(self, Kind::Pinned)
    }

    /// Whether a handle of this kind has a second object, which stays where its target does.
    pub fn is_dependent(self) -> bool
        ensures { result ≡ is_dependent self }
    {
        matches!(self, Kind::Dependent)
    }
}

/// A handle. `target` and `second` are places of objects, 0 for null. `target` of a dependent handle is its primary,
/// and `second` its secondary; the other kinds have no second.
#[derive(Clone, Copy, Debug, PartialEq, Eq)]
pub struct Handle {
    pub kind: Kind,
    pub target: u64,
    pub second: u64,
}
