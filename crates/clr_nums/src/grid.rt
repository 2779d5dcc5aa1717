//! Arithmetic of addresses.
ghost use Rattle.std.specs.Prelude.{◌≡◌, ℕ, ◌+◌, ◌-◌, ◌*◌, ◌/◌, ◌%◌, ◌<◌, ◌≤◌, ◌^◌, ◌↔◌, IfSome, IsNone};
ghost use Rattle.clr_nums.specs.Numbers.{IsInUnit, MeetsUnit};

/// Addresses in bytes, counted in units of `UNIT` bytes: unit i is `[i * UNIT, i * UNIT + UNIT)`.
pub struct Grid<const UNIT: u64>;

impl<const UNIT: u64> Grid<UNIT> {
    /// The index of the unit in which an address lies.
    pub fn index(addr: u64) -> u64
        requires { 1 ≤ UNIT }
        ensures value { result ≡ addr / UNIT }
        ensures exact { (i : ℕ) → (result ≡ i) ↔ IsInUnit UNIT i addr }
    {
        addr / UNIT
    }

    /// The first address of the unit of index `i`.
    pub fn first(i: u64) -> u64
        requires positive { 1 ≤ UNIT }
        requires fits { i * UNIT < 2 ^ 64 }
        ensures { result ≡ i * UNIT }
    {
        i * UNIT
    }

    /// The units that have an address in `[lo, hi)`: the first one's index, and one past the last one's.
    pub fn cover(lo: u64, hi: u64) -> (u64, u64)
        requires positive { 1 ≤ UNIT }
        requires some { lo < hi }
        ensures first { result.0 ≡ lo / UNIT }
        ensures past_last { result.1 ≡ (hi - 1) / UNIT + 1 }
        ensures exact { (i : ℕ) → ((result.0 ≤ i) × (i < result.1)) ↔ MeetsUnit UNIT i lo hi }
    {
        (Self::index(lo), Self::index(hi - 1) + 1)
    }
}

/// The least multiple of 8 that is not below `n`, and `None` where that exceeds a `u64`.
pub fn round8(n: u64) -> Option<u64>
    ensures none { IsNone result ↔ (2 ^ 64 - 8 < n) }
    ensures multiple { IfSome result (λ m. m % 8 ≡ 0) }
    ensures not_below { IfSome result (λ m. n ≤ m) }
    ensures least { IfSome result (λ m. m < n + 8) }
{
    Some(n.checked_add(7)? / 8 * 8)
}
