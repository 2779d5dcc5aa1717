//! What a script runs with.
ghost use Rattle.std.specs.Prelude.{◌≡◌, ◌↔◌, IsTrue};
ghost use Rattle.clr_model.specs.Lawful.{AreLawfulOptions};
ghost use Rattle.clr_model.specs.Run.{defaults};
ghost use Rattle.clr_options.specs.Options.{options_of};

/// The most bytes that a limit or a budget may have.
pub const GIBIBYTE: u64 = 1_073_741_824;

/// What a script runs with: sizes and budgets in bytes, and a percentage.
#[derive(Clone, Copy, Debug, PartialEq, Eq)]
pub struct Options {
    /// The bytes that all segments may reserve together.
    pub limit: u64,
    /// The bytes that a segment reserves.
    pub segment: u64,
    /// The bytes of small objects after which an allocation collects.
    pub b0: u64,
    /// The promoted bytes after which such a collection condemns generation 1, too.
    pub b1: u64,
    /// The bytes promoted to generation 2 after which it is a full one.
    pub b2: u64,
    /// The bytes of large objects after which an allocation of one collects.
    pub bl: u64,
    /// The percentage of free space from which a collection that decides compacts.
    pub compact: u64,
    /// The bytes of an object from which on it is a large one.
    pub large: u64,
}

impl Options {
    /// What a script runs with where the command line says nothing.
    pub fn defaults() -> Options
        ensures { options_of result ≡ defaults }
    {
        Options {
            limit: 268_435_456,
            segment: 16_777_216,
            b0: 262_144,
            b1: 1_048_576,
            b2: 4_194_304,
            bl: 4_194_304,
            compact: 50,
            large: 85_000,
        }
    }

    /// Whether a script may run with these: a segment has 256 KiB to 64 MiB in whole pages, the limit takes two of
    /// them and is at most 1 GiB, as is each budget, the percentage is at most 100, and large objects begin at 85,000
    /// bytes or more, and at a page less than a segment at most.
    pub fn is_lawful(&self) -> bool
        ensures { IsTrue result ↔ AreLawfulOptions (options_of self.now) }
    {
        262_144 <= self.segment
            && self.segment <= 67_108_864
            && self.segment % 4096 == 0
            && 2 * self.segment <= self.limit
            && self.limit <= GIBIBYTE
            && self.b0 <= GIBIBYTE
            && self.b1 <= GIBIBYTE
            && self.b2 <= GIBIBYTE
            && self.bl <= GIBIBYTE
            && self.compact <= 100
            && 85_000 <= self.large
            && self.large <= self.segment - 4096
    }
}
