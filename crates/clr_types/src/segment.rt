//! Segments of the heap.
ghost use Rattle.std.specs.Prelude.{◌≡◌, ◌+◌, ◌<◌, ◌^◌};
ghost use Rattle.clr_types.specs.Segments as segments;

/// How far the first place of a segment stands above its base, in bytes.
pub const FIRST_OFFSET: u64 = 0x1000;

/// What a segment is for.
#[derive(Clone, Copy, Debug, PartialEq, Eq)]
pub enum SegKind {
    /// Small objects that have grown old: all of it is generation 2.
    Small,
    /// The one segment in which small objects are born, with the boundaries of the generations.
    Ephemeral,
    /// Large objects: all of it is generation 2.
    Large,
    /// Arrays without references that never move: all of it is generation 2.
    Pinned,
}

/// A segment: `reserved` bytes from the address `base` on, in use up to the place `end`.
///
/// Its first place is 4,096 bytes above its base. `base` and `end` are addresses, `reserved` is a count of bytes.
#[derive(Clone, Copy, Debug, PartialEq, Eq)]
pub struct SegInfo {
    pub base: u64,
    pub reserved: u64,
    pub kind: SegKind,
    pub end: u64,
}

impl SegInfo {
    /// A segment with nothing in it, which reserves `size` bytes.
    pub fn empty(kind: SegKind, base: u64, size: u64) -> SegInfo
        requires { base + 4096 < 2 ^ 64 }
        ensures { result ≡ segments.opening_segment base kind size }
    {
        SegInfo {
            base,
            reserved: size,
            kind,
            end: base + FIRST_OFFSET,
        }
    }

    /// The place of an object that stands at the segment's front.
    #[inline]
    pub fn first_place(&self) -> u64
        requires { self.now.base + 4096 < 2 ^ 64 }
        ensures { result ≡ segments.first_place self.now }
    {
        self.base + FIRST_OFFSET
    }

    /// This segment as a small one, where it was ephemeral.
    pub fn sealed(self) -> SegInfo
        ensures { result ≡ segments.sealed_segment self }
    {
        let kind = match self.kind {
            SegKind::Small | SegKind::Ephemeral => SegKind::Small,
            SegKind::Large => SegKind::Large,
            SegKind::Pinned => SegKind::Pinned,
        };
        SegInfo { kind, ..self }
    }
}
