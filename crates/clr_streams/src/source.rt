ghost use Rattle.std.specs.Prelude.{◌≡◌, ◌≤◌, ◌<◌, List, ℕ, [], length, take, Option, IfOk, OnErr, IfSome};
ghost use Rattle.clr_streams.specs.Faults.{Rose, Taken};

use crate::Failed;

/// A source of bytes that counts its faults.
pub trait Source {
    // the bytes that are left, where the source tells them
    ghost held: { Self → Option (List ℕ) };

    // how many reads have failed; the count stays at the last value of a u64
    ghost faults: { Self → ℕ };

    /// Reads bytes into the front of `into`, and gives their count. On a buffer that isn't empty, 0 is the end of the
    /// input. After `Failed` the same bytes are left.
    fn read(&mut self, into: &mut [u8]) -> Result<usize, Failed>
        ensures bound { IfOk result (λ n. n ≤ length into.new) }
        ensures bytes { IfOk result (λ n. Taken (held self.old) (held self.new) (take n into.new)) }
        ensures end { IfOk result (λ n. n ≡ 0 → 0 < length into.new → IfSome (held self.old) (λ bytes. bytes ≡ [])) }
        ensures counted { IfOk result (λ n. faults self.new ≡ faults self.old) }
        ensures kept { OnErr result (held self.new ≡ held self.old) }
        ensures cause { OnErr result (Rose (faults self.old) (faults self.new)) };
}
