ghost use Rattle.std.specs.Prelude.{◌≡◌, ◌≤◌, ◌<◌, List, ℕ, length, take, Option, IfOk, OnOk, OnErr};
ghost use Rattle.clr_streams.specs.Faults.{Rose, Appended};

use crate::Failed;

/// A sink of bytes that counts its faults.
pub trait Sink {
    // what was written, where the sink tells it
    ghost written: { Self → Option (List ℕ) };

    // how many writes have failed; the count stays at the last value of a u64
    ghost faults: { Self → ℕ };

    /// Writes bytes from the front of `piece`, and gives their count, at least 1 where the piece isn't empty.
    /// After `Failed` what was written is as before.
    fn write(&mut self, piece: &[u8]) -> Result<usize, Failed>
        ensures bound { IfOk result (λ n. n ≤ length piece.now) }
        ensures bytes { IfOk result (λ n. Appended (written self.old) (written self.new) (take n piece.now)) }
        ensures progress { IfOk result (λ n. 0 < length piece.now → 0 < n) }
        ensures counted { IfOk result (λ n. faults self.new ≡ faults self.old) }
        ensures kept { OnErr result (written self.new ≡ written self.old) }
        ensures cause { OnErr result (Rose (faults self.old) (faults self.new)) };
}

/// Writes a whole text. After `Failed` a part of its front was written.
pub fn write_all<K: Sink>(sink: &mut K, text: &[u8]) -> Result<(), Failed>
    ensures bytes { OnOk result (Appended (K.written sink.old) (K.written sink.new) text.now) }
    ensures counted { OnOk result (K.faults sink.new ≡ K.faults sink.old) }
    ensures part { OnErr result ((n : ℕ) × Appended (K.written sink.old) (K.written sink.new) (take n text.now)) }
    ensures cause { OnErr result (Rose (K.faults sink.old) (K.faults sink.new)) }
{
    let mut at = 0;
    while at < text.len() {
        at += sink.write(&text[at..])?;
    }
    Ok(())
}
