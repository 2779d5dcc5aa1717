// Where marked objects wait that found no room on the mark stack.
ghost use Rattle.std.specs.Prelude.{◌≡◌, ◌<◌, ◌++◌, ◌∷◌, [], length, replicate, IfOk, IfSome, IfNone};
ghost use Rattle.clr_mark.specs.Overflow as overflow;

use std::alloc::{AllocError, Global};
use std::marker::Model;

/// So many windows have a range of their own.
const WINDOWS: usize = 4096;

/// So many bytes has a window.
const WINDOW: u64 = 65_536;

/// Ranges of addresses. Each lies in a window of 64 KiB, and addresses that are 256 MiB apart share one: then a range
/// reaches from window to window. Clauses see the list of ranges, the lowest and the highest address of each.
#[derive(Drop)]
pub struct OverflowRanges {
    ranges: Vec<(u64, u64)>,
    // For each window one more than the number of its range, and 0 where it has none.
    numbers: Vec<u16>,
}

impl Model for OverflowRanges {
    ghost use Rattle.std.specs.Prelude.{ℕ, List, vec_capacity};
    ghost use Rattle.clr_mark.specs.Overflow.{AreNumbered};

    ghost Value = { List (ℕ × ℕ) };

    ghost view = { λ r. r.ranges.items };

    ghost invariant = { λ r. AreNumbered r.ranges.items r.numbers.items (vec_capacity r.ranges) };
}

impl OverflowRanges {
    /// No ranges. This is the only call that takes memory.
    pub fn new(alloc: Global) -> Result<OverflowRanges, AllocError>
        ensures { IfOk result (λ ranges. ranges ≡ []) }
    {
        let ranges = Vec::with_capacity(alloc, WINDOWS)?;
        let numbers = no_numbers(alloc, WINDOWS)?;
        Ok(OverflowRanges { ranges, numbers })
    }

    /// Puts an address into the range of its window, or begins one with it.
    pub fn widen(&mut self, address: u64)
        ensures { self.new ≡ overflow.widened self.old address }
    {
        let window = window_of(address);
        let number = usize::from(self.numbers[window]);
        if number == 0 {
            self.ranges.push_reserved((address, address));
            self.numbers[window] = self.ranges.len() as u16;
            return;
        }
        let (low, high) = self.ranges[number - 1];
        self.ranges[number - 1] = (low.min(address), high.max(address));
    }

    /// Takes the last range away.
    pub fn take(&mut self) -> Option<(u64, u64)>
        ensures some { IfSome result (λ range. self.old ≡ self.new ++ range ∷ []) }
        ensures none { IfNone result (self.old ≡ []) }
        ensures empty { IfNone result (self.new ≡ []) }
    {
        let range = self.ranges.pop()?;
        self.numbers[window_of(range.0)] = 0;
        Some(range)
    }

    /// Takes all ranges away.
    pub fn clear(&mut self)
        ensures { self.new ≡ [] }
    {
        while !self.ranges.is_empty() {
            let _ = self.take();
        }
    }
}

// So many windows without a range.
fn no_numbers(alloc: Global, count: usize) -> Result<Vec<u16>, AllocError>
    ensures { IfOk result (λ numbers. numbers.items ≡ replicate count 0) }
{
    vec![in alloc; 0u16; count]
}

// The number of the window of an address.
fn window_of(address: u64) -> usize
    ensures window { result ≡ overflow.window address }
    ensures below { result < 4096 }
{
    (address / WINDOW) as usize % WINDOWS
}
