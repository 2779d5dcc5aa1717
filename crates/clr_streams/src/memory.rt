//! Sources and sinks in memory, whose calls fail where they are told to.
ghost use Rattle.std.specs.Prelude.{vec_len, vec_capacity, ◌≡◌, ◌+◌, ◌-◌, ◌<◌, ◌≤◌, ◌↔◌, ◌⊎◌, ℕ, [], ◌++◌, length};
ghost use Rattle.std.specs.Prelude.{take, drop, Some, IfOk, OnErr, IsErr, Contains, min};
ghost use Rattle.clr_streams.specs.Faults.{Rose, Taken, Appended};
ghost use Rattle.clr_streams.specs.Memory.{next_call};

use crate::buffer::{copy_front, push_all};
use crate::sink::Sink;
use crate::source::Source;
use crate::{Failed, NoMemory};
use std::alloc::Global;
use std::marker::Model;

/// The bytes of a `Vec`, in pieces.
#[derive(Drop)]
pub struct MemorySource {
    bytes: Vec<u8>,
    at: usize,
    piece: usize,
    fails: Vec<u64>,
    calls: u64,
    faults: u64,
}

impl Model for MemorySource {
    ghost use Rattle.clr_streams.specs.Memory.{SourceState};

    ghost Value = { SourceState };

    ghost use Rattle.clr_streams.specs.MemoryViews.{source_state, IsSource};

    ghost view = { source_state };

    ghost invariant = { IsSource };
}

impl MemorySource {
    /// A source over these bytes, of which a read takes at most `piece`. The reads whose numbers stand in `fails` fail;
    /// they are counted from 1.
    pub fn new(bytes: Vec<u8>, piece: usize, fails: Vec<u64>) -> MemorySource
        requires { 0 < piece }
        ensures { result ≡ record { left = bytes.items; piece = piece; fails = fails.items; calls = 0; faults = 0 } }
    {
        MemorySource {
            bytes,
            at: 0,
            piece,
            fails,
            calls: 0,
            faults: 0,
        }
    }
}

impl Source for MemorySource {
    ghost held = { λ s. Some s.left };

    ghost faults = { λ s. s.faults };

    fn read(&mut self, into: &mut [u8]) -> Result<usize, Failed>
        ensures bound { IfOk result (λ n. n ≤ length into.new) }
        ensures bytes { IfOk result (λ n. Taken (Some self.old.left) (Some self.new.left) (take n into.new)) }
        ensures end { IfOk result (λ n. n ≡ 0 → 0 < length into.new → self.old.left ≡ []) }
        ensures counted { IfOk result (λ n. self.new.faults ≡ self.old.faults) }
        ensures kept { OnErr result (self.new.left ≡ self.old.left) }
        ensures cause { OnErr result (Rose self.old.faults self.new.faults) }

        // It fails exactly at the chosen calls, and takes at most a piece.
        ensures chosen { IsErr result ↔ Contains self.old.fails (next_call self.old.calls) }
        ensures calls { self.new.calls ≡ next_call self.old.calls }
        ensures piece { IfOk result (λ n. n ≡ min (min (length into.new) self.old.piece) (length self.old.left)) }
        ensures same { (self.new.fails ≡ self.old.fails) × (self.new.piece ≡ self.old.piece) }
    {
        self.calls = self.calls.saturating_add(1);
        if self.fails.contains(&self.calls) {
            self.faults = self.faults.saturating_add(1);
            return Err(Failed);
        }
        let count = copy_front(&self.bytes.as_slice()[self.at..], into, self.piece);
        self.at += count;
        Ok(count)
    }
}

/// A `Vec` with room for a number of bytes, written in pieces.
#[derive(Drop)]
pub struct MemorySink {
    bytes: Vec<u8>,
    room: usize,
    piece: usize,
    fails: Vec<u64>,
    calls: u64,
    faults: u64,
}

impl Model for MemorySink {
    ghost use Rattle.clr_streams.specs.Memory.{SinkState};

    ghost Value = { SinkState };

    ghost use Rattle.clr_streams.specs.MemoryViews.{sink_state, IsSink};

    ghost view = { sink_state };

    ghost invariant = { IsSink };
}

impl MemorySink {
    /// A sink with room for `room` bytes, of which a write takes at most `piece`. The writes whose numbers stand in
    /// `fails` fail; they are counted from 1. Takes all its memory here.
    pub fn new(
        alloc: Global,
        room: usize,
        piece: usize,
        fails: Vec<u64>,
    ) -> Result<MemorySink, NoMemory>
        requires { 0 < piece }
        ensures { IfOk result (λ sink.
            sink ≡ record { bytes = []; room = room; piece = piece; fails = fails.items; calls = 0; faults = 0 }) }
    {
        let Ok(bytes) = Vec::with_capacity(alloc, room) else {
            return Err(NoMemory);
        };
        Ok(MemorySink {
            bytes,
            room,
            piece,
            fails,
            calls: 0,
            faults: 0,
        })
    }

    /// What was written.
    pub fn bytes(&self) -> &[u8]
        ensures { result.now ≡ self.now.bytes }
    {
        self.bytes.as_slice()
    }
}

impl Sink for MemorySink {
    ghost written = { λ s. Some s.bytes };

    ghost faults = { λ s. s.faults };

    fn write(&mut self, piece: &[u8]) -> Result<usize, Failed>
        ensures bound { IfOk result (λ n. n ≤ length piece.now) }
        ensures bytes { IfOk result (λ n. Appended (Some self.old.bytes) (Some self.new.bytes) (take n piece.now)) }
        ensures progress { IfOk result (λ n. 0 < length piece.now → 0 < n) }
        ensures counted { IfOk result (λ n. self.new.faults ≡ self.old.faults) }
        ensures kept { OnErr result (self.new.bytes ≡ self.old.bytes) }
        ensures cause { OnErr result (Rose self.old.faults self.new.faults) }

        // It fails exactly at the chosen calls and where the room is full, and takes at most a piece.
        ensures chosen { IsErr result ↔ (Contains self.old.fails (next_call self.old.calls)
            ⊎ ((length self.old.bytes ≡ self.old.room) × (0 < length piece.now))) }
        ensures calls { self.new.calls ≡ next_call self.old.calls }
        ensures piece { IfOk result (λ n.
            n ≡ min (min (length piece.now) self.old.piece) (self.old.room - length self.old.bytes)) }
        ensures same { (self.new.fails ≡ self.old.fails) × (self.new.piece ≡ self.old.piece)
            × (self.new.room ≡ self.old.room) }
    {
        self.calls = self.calls.saturating_add(1);
        let room = self.room - self.bytes.len();
        if self.fails.contains(&self.calls) || (room == 0 && !piece.is_empty()) {
            self.faults = self.faults.saturating_add(1);
            return Err(Failed);
        }
        let count = piece.len().min(self.piece).min(room);
        push_all(&mut self.bytes, &piece[..count]);
        Ok(count)
    }
}
