//! A sink in memory that grows.
ghost use Rattle.std.specs.Prelude.{◌≡◌, ◌≤◌, ◌<◌, [], length, take, IfOk, OnErr};
ghost use Rattle.clr_streams.specs.Faults.{Appended, Rose};

use clr_streams::{Failed, Sink};
use std::alloc::Global;

/// A text that grows by all that is written. A write fails where there is no memory for it, which counts as a fault.
#[derive(Drop)]
pub(crate) struct Grown {
    bytes: Vec<u8>,
    faults: u64,
}

impl Grown {
    /// A text without bytes.
    pub(crate) fn new(alloc: Global) -> Grown
        ensures { result.bytes.items ≡ [] }
    {
        Grown {
            bytes: Vec::new(alloc),
            faults: 0,
        }
    }

    /// What was written.
    pub(crate) fn into_bytes(self) -> Vec<u8>
        ensures { result.items ≡ self.bytes.items }
    {
        self.bytes
    }
}

impl Sink for Grown {
    ghost use Rattle.std.specs.Prelude.{Some};

    ghost written = { λ s. Some s.bytes.items };

    ghost faults = { λ s. s.faults };

    fn write(&mut self, piece: &[u8]) -> Result<usize, Failed> {
        match self.bytes.extend_from_slice(piece) {
            Ok(()) => Ok(piece.len()),
            Err(_) => {
                self.faults = self.faults.saturating_add(1);
                Err(Failed)
            }
        }
    }
}
