// What a plan counts.
ghost use Rattle.std.specs.Prelude.{◌≡◌, ℕ, ◌+◌, ◌<◌, ◌^◌, if◌then◌else◌};
ghost use Rattle.clr_plan.specs.Counts.{no_counts, plus};

/// How many objects of the parts of a plan are marked, and how many aren't.
#[derive(Clone, Copy, Debug, PartialEq, Eq)]
pub struct Counts {
    /// Objects that are marked.
    pub kept: u64,
    /// Objects that aren't.
    pub freed: u64,
}

impl Counts {
    /// What is counted before anything is.
    pub fn none() -> Counts
        ensures { result ≡ no_counts }
    {
        Counts { kept: 0, freed: 0 }
    }

    /// Both counts together.
    pub fn plus(self, other: Counts) -> Counts
        requires kept { self.kept + other.kept < 2 ^ 64 }
        requires freed { self.freed + other.freed < 2 ^ 64 }
        ensures { result ≡ plus self other }
    {
        Counts {
            kept: self.kept + other.kept,
            freed: self.freed + other.freed,
        }
    }

    // The counts with a marked object more.
    #[inline(always)]
    pub(crate) fn with_kept(self) -> Counts
        requires { self.kept + 1 < 2 ^ 64 }
        ensures { result ≡ record self { kept = self.kept + 1 } }
    {
        Counts {
            kept: self.kept + 1,
            ..self
        }
    }

    // The counts with another item more, which may be an object.
    #[inline(always)]
    pub(crate) fn with_other(self, is_object: bool) -> Counts
        requires { self.freed + 1 < 2 ^ 64 }
        ensures { result ≡ record self { freed = self.freed + (if is_object then 1 else 0) } }
    {
        Counts {
            freed: self.freed + if is_object { 1 } else { 0 },
            ..self
        }
    }
}
