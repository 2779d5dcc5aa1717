//! The edge to std's readers and writers. They tell no bytes.
ghost use Rattle.std.specs.Prelude.{◌≡◌, ◌+◌, ◌-◌, ◌^◌, ◌<◌, ◌≤◌, None, IfOk, OnErr, length, min};
ghost use Rattle.clr_streams.specs.Faults.{Rose};

use crate::Failed;
use crate::sink::Sink;
use crate::source::Source;
use std::io::{Read, Write};
use std::marker::Model;

/// A reader of std as a source. Contracts see the count of its faults, which stays at the last value of a u64.
#[derive(Drop)]
pub struct ReadAdapter<R> {
    inner: Option<R>,
    faults: u64,
}

impl<R> Model for ReadAdapter<R> {
    ghost use Rattle.std.specs.Prelude.{ℕ};

    ghost Value = { ℕ };

    ghost view = { λ s. s.faults };
}

impl<R> ReadAdapter<R> {
    /// A source over this reader, with no fault yet.
    pub fn new(inner: R) -> ReadAdapter<R>
        ensures { result ≡ 0 }
    {
        ReadAdapter::opened(Some(inner))
    }

    /// A source over what was to be opened, as a file, with no fault yet. Where there is none, each read fails.
    pub fn opened(inner: Option<R>) -> ReadAdapter<R>
        ensures { result ≡ 0 }
    {
        ReadAdapter { inner, faults: 0 }
    }
}

impl<R: Read> Source for ReadAdapter<R> {
    ghost held = { λ _. None };

    ghost faults = { λ s. s };

    fn read(&mut self, into: &mut [u8]) -> Result<usize, Failed>
        ensures bound { IfOk result (λ n. n ≤ length into.new) }
        ensures counted { IfOk result (λ n. self.new ≡ self.old) }
        ensures cause { OnErr result (Rose self.old self.new) }
        ensures one_more { OnErr result (self.new ≡ min (self.old + 1) (2 ^ 64 - 1)) }
    {
        if let Some(inner) = &mut self.inner {
            if let Ok(count) = inner.read(into) {
                return Ok(count);
            }
        }
        self.faults = self.faults.saturating_add(1);
        Err(Failed)
    }
}

/// A writer of std as a sink. Contracts see the count of its faults, which stays at the last value of a u64.
/// Where the writer takes no byte of a piece that has some, that counts as a fault, too.
#[derive(Drop)]
pub struct WriteAdapter<W> {
    inner: W,
    faults: u64,
}

impl<W> Model for WriteAdapter<W> {
    ghost use Rattle.std.specs.Prelude.{ℕ};

    ghost Value = { ℕ };

    ghost view = { λ s. s.faults };
}

impl<W> WriteAdapter<W> {
    /// A sink over this writer, with no fault yet.
    pub fn new(inner: W) -> WriteAdapter<W>
        ensures { result ≡ 0 }
    {
        WriteAdapter { inner, faults: 0 }
    }
}

impl<W: Write> Sink for WriteAdapter<W> {
    ghost written = { λ _. None };

    ghost faults = { λ s. s };

    fn write(&mut self, piece: &[u8]) -> Result<usize, Failed>
        ensures bound { IfOk result (λ n. n ≤ length piece.now) }
        ensures progress { IfOk result (λ n. 0 < length piece.now → 0 < n) }
        ensures counted { IfOk result (λ n. self.new ≡ self.old) }
        ensures cause { OnErr result (Rose self.old self.new) }
        ensures one_more { OnErr result (self.new ≡ min (self.old + 1) (2 ^ 64 - 1)) }
    {
        match self.inner.write(piece) {
            Ok(count) if count > 0 || piece.is_empty() => Ok(count),
            _ => {
                self.faults = self.faults.saturating_add(1);
                Err(Failed)
            }
        }
    }
}
