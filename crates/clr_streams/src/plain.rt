//! A source and a sink that never fail.
ghost use Rattle.std.specs.Prelude.{◌≡◌, Some, None, Ok, length};

use crate::Failed;
use crate::buffer::copy_front;
use crate::sink::Sink;
use crate::source::Source;
use std::marker::Model;

/// The bytes of a `Vec`, with no faults. Contracts see the bytes that are left.
#[derive(Drop)]
pub struct PlainSource {
    bytes: Vec<u8>,
    at: usize,
}

impl Model for PlainSource {
    ghost use Rattle.std.specs.Prelude.{List, ℕ, drop, length, ◌≤◌};

    ghost Value = { List ℕ };

    ghost view = { λ s. drop s.at s.bytes.items };

    ghost invariant = { λ s. s.at ≤ length s.bytes.items };
}

impl PlainSource {
    /// A source over these bytes.
    pub fn new(bytes: Vec<u8>) -> PlainSource
        ensures { result ≡ bytes.items }
    {
        PlainSource { bytes, at: 0 }
    }
}

impl Source for PlainSource {
    ghost held = { λ s. Some s };

    ghost faults = { λ _. 0 };

    fn read(&mut self, into: &mut [u8]) -> Result<usize, Failed> {
        let count = copy_front(&self.bytes.as_slice()[self.at..], into, usize::MAX);
        self.at += count;
        Ok(count)
    }
}

/// A sink that takes each piece in one write, and neither keeps nor tells its bytes.
#[derive(Drop)]
pub struct PlainSink;

impl PlainSink {
    /// A sink of this kind.
    pub fn new() -> PlainSink {
        PlainSink
    }
}

impl Sink for PlainSink {
    ghost written = { λ _. None };

    ghost faults = { λ _. 0 };

    fn write(&mut self, piece: &[u8]) -> Result<usize, Failed>
        ensures whole { result ≡ Ok (length piece.now) }
    {
        Ok(piece.len())
    }
}
