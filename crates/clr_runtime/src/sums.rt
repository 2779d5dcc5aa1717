//! The bytes that budgets are compared with.
ghost use Rattle.std.specs.Prelude.{◌≡◌, ◌+◌, ◌<◌, ◌≢◌, ◌^◌};
ghost use Rattle.clr_runtime.specs.RuntimeView.{collected_sums, sums_of};

/// Bytes of small objects that were born since the last collection, of large ones since the last full one, and bytes
/// that collections promoted to generation 1 and to generation 2.
#[derive(Clone, Copy)]
pub struct Sums {
    pub spent0: u64,
    pub spent_large: u64,
    pub promoted1: u64,
    pub promoted2: u64,
}

impl Sums {
    /// Nothing was born.
    pub const NONE: Sums = Sums {
        spent0: 0,
        spent_large: 0,
        promoted1: 0,
        promoted2: 0,
    };

    /// The sums after a collection of generation `g` that promoted so many bytes to generations 1 and 2. A sum begins
    /// anew where the collection is one since which it counts.
    pub fn collected(self, g: u8, promoted1: u64, promoted2: u64) -> Sums
        requires first { g ≡ 0 → self.promoted1 + promoted1 < 2 ^ 64 }
        requires second { g ≢ 2 → self.promoted2 + promoted2 < 2 ^ 64 }
        ensures { sums_of result ≡ collected_sums (sums_of self) g promoted1 promoted2 }
    {
        Sums {
            spent0: 0,
            spent_large: if g == 2 { 0 } else { self.spent_large },
            promoted1: if g == 0 {
                self.promoted1 + promoted1
            } else {
                promoted1
            },
            promoted2: if g == 2 {
                promoted2
            } else {
                self.promoted2 + promoted2
            },
        }
    }
}
