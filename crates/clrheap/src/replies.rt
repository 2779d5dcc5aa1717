//! Whether a script got no other reply than that its lines are none.
use std::io::{self, Write};

/// The reply to a line that spells no instruction.
const REFUSAL: &[u8] = b"refused syntax\n";

/// A writer that may note whether all that is written are refusals of syntax.
#[derive(Drop)]
pub struct Replies<W> {
    inner: W,
    noted: Noted,
}

// What was written so far.
#[derive(Clone, Copy)]
enum Noted {
    // Nothing but such refusals and a part of one, of so many bytes; and whether there was a whole one.
    Refusals { bytes: usize, some: bool },
    // Something else, or it isn't noted.
    Other,
}

impl<W> Replies<W> {
    /// A writer over this one, which notes what is written if it is told so.
    pub fn new(inner: W, notes: bool) -> Replies<W> {
        let noted = if notes {
            Noted::Refusals {
                bytes: 0,
                some: false,
            }
        } else {
            Noted::Other
        };
        Replies { inner, noted }
    }

    /// Whether refusals of syntax were written, and nothing else, and this was noted.
    pub fn are_refusals(&self) -> bool {
        matches!(
            self.noted,
            Noted::Refusals {
                bytes: 0,
                some: true
            }
        )
    }
}

impl Noted {
    // With one byte more.
    fn with(self, byte: u8) -> Noted {
        let Noted::Refusals { bytes, some } = self else {
            return Noted::Other;
        };
        if REFUSAL.get(bytes) != Some(&byte) {
            return Noted::Other;
        }
        if bytes + 1 == REFUSAL.len() {
            return Noted::Refusals {
                bytes: 0,
                some: true,
            };
        }
        Noted::Refusals {
            bytes: bytes + 1,
            some,
        }
    }
}

impl<W: Write> Write for Replies<W> {
    fn write(&mut self, from: &[u8]) -> io::Result<usize> {
        let count = self.inner.write(from)?;
        for i in 0..count.min(from.len()) {
            if matches!(self.noted, Noted::Other) {
                break;
            }
            self.noted = self.noted.with(from[i]);
        }
        Ok(count)
    }

    fn flush(&mut self) -> io::Result<()> {
        self.inner.flush()
    }
}
