ghost use Rattle.std.specs.Prelude.{◌≡◌, ◌+◌, ◌*◌, ◌^◌, ◌≤◌, ◌∷◌, ◌++◌, ℕ, List, [], length, MatchOption, take, OnOk};
ghost use Rattle.std.specs.Prelude.{OnErr, IfOk, IfSome, vec_len, vec_capacity, ◌<◌};
ghost use Rattle.clr_script.specs.Fronts.{IsUnfed};
ghost use Rattle.clr_streams.specs.Faults.{Rose};
ghost use Rattle.clr_session.specs.LineStretch.{IsFirstFeed};

use crate::outcome::put_outcome;
use crate::pending::Pending;
use clr_lines::Outcome;
use clr_lines::execute::execute;
use clr_runtime::{NoMemory, Runtime};
use clr_streams::{Failed, Sink, push_all};
use memchr::memchr;
use std::alloc::Global;

/// So many bytes of a begun line are kept, one more than a line that is read can have.
const KEPT: usize = 4097;

// Where the first line feed stands.
fn first_feed(bytes: &[u8]) -> Option<usize>
    ensures { MatchOption result (IsUnfed bytes.now) (IsFirstFeed bytes.now) }
{
    memchr(b'\n', bytes)
}

// Puts bytes behind a begun line, as far as one is kept.
fn keep(line: &mut Vec<u8>, more: &[u8])
    requires short { vec_len line.old ≤ 4097 }
    requires room { 4097 ≤ vec_capacity line.old }
    ensures items { line.new.items ≡ take 4097 (line.old.items ++ more.now) }
    ensures short { vec_len line.new ≤ 4097 }
    ensures room { 4097 ≤ vec_capacity line.new }
{
    let count = more.len().min(KEPT - line.len());
    push_all(line, &more[..count]);
}

/// A script that runs: its core, the line that is begun, and the replies that wait to be written.
#[derive(Drop)]
pub struct Session {
    alloc: Global,
    runtime: Runtime,
    line: Vec<u8>,
    pending: Pending,
    ghost short: { vec_len line ≤ 4097 },
    ghost room: { 4097 ≤ vec_capacity line },
}

impl Session {
    ghost use Rattle.clr_session.specs.Sessions.{Goes, GoesLine, GoesWritten, Ends, EndsWritten};
    ghost use Rattle.clr_session.specs.Sessions.{Stops, StopsLast};
    ghost use Rattle.clr_lines.specs.Outcomes.{outcome_of, CanShow};
    ghost use Rattle.clr_lines.specs.Lines.{FollowsLine};

    /// A script of which nothing was read yet, over a runtime. Takes the memory of its buffers here.
    pub fn over(alloc: Global, runtime: Runtime) -> Result<Session, NoMemory>
        ensures runtime { IfOk result (λ session. session.runtime ≡ runtime) }
        ensures line { IfOk result (λ session. session.line.items ≡ []) }
        ensures empty { IfOk result (λ session. session.pending ≡ []) }
    {
        let Ok(pending) = Pending::new(alloc) else {
            drop(runtime);
            return Err(NoMemory);
        };
        let Ok(line) = Vec::with_capacity(alloc, KEPT) else {
            drop(runtime);
            return Err(NoMemory);
        };
        Ok(Session {
            alloc,
            runtime,
            line,
            pending,
        })
    }

    // Does what the begun line and the bytes behind it say.
    fn execute(&mut self, rest: &[u8]) -> Outcome
        requires unfed { IsUnfed rest.now }
        requires room { self.old.runtime.machine.layout.top ≤ 2 ^ 61 }
        ensures shows { CanShow result }
        ensures line { self.new.line.items ≡ [] }
        ensures pending { self.new.pending ≡ self.old.pending }
        ensures follows { (begun : List ℕ) → self.old.line.items ≡ take 4097 begun →
            FollowsLine self.old.runtime.machine (begun ++ rest.now) (outcome_of result) self.new.runtime.machine }
        ensures grows { self.new.runtime.machine.layout.top ≤ self.old.runtime.machine.layout.top + 2 ^ 30 }
    {
        if self.line.is_empty() {
            return execute(&mut self.runtime, self.alloc, rest);
        }
        keep(&mut self.line, rest);
        let outcome = execute(&mut self.runtime, self.alloc, &self.line);
        self.line.clear();
        outcome
    }

    // Answers the line that these bytes and a line feed end.
    fn end_line<K: Sink>(&mut self, sink: &mut K, rest: &[u8]) -> Result<(), Failed>
        requires unfed { IsUnfed rest.now }
        requires room { self.old.runtime.machine.layout.top ≤ 2 ^ 61 }
        ensures bytes { OnOk result
            (Goes self.old self.new (rest.now ++ 10 ∷ []) (K.written sink.old) (K.written sink.new)) }
        ensures stops { OnErr result (Stops self.old (rest.now ++ 10 ∷ []) (K.written sink.old) (K.written sink.new)) }
        ensures counted { OnOk result (K.faults sink.new ≡ K.faults sink.old) }
        ensures cause { OnErr result (Rose (K.faults sink.old) (K.faults sink.new)) }
        ensures grows { self.new.runtime.machine.layout.top ≤ self.old.runtime.machine.layout.top + 2 ^ 30 }
    {
        let outcome = self.execute(rest);
        put_outcome(&mut self.pending, sink, &outcome)
    }

    // Answers the line that ends first in these bytes, and those behind it that are done at once. Gives where what is
    // behind the last one's line feed begins, and `None` where no line ends in them.
    #[inline]
    fn answer_first<K: Sink>(&mut self, sink: &mut K, text: &[u8]) -> Result<Option<usize>, Failed>
        requires { self.old.runtime.machine.layout.top ≤ 2 ^ 61 }
        ensures bytes { IfOk result (GoesLine self.old self.new text.now (K.written sink.old) (K.written sink.new)) }
        ensures stops { OnErr result (Stops self.old text.now (K.written sink.old) (K.written sink.new)) }
        ensures some { OnErr result (0 < length text.now) }
        ensures counted { OnOk result (K.faults sink.new ≡ K.faults sink.old) }
        ensures cause { OnErr result (Rose (K.faults sink.old) (K.faults sink.new)) }
        ensures grows { IfOk result (λ found. IfSome found (λ count.
            self.new.runtime.machine.layout.top ≤ self.old.runtime.machine.layout.top + 2 ^ 30 * count)) }
        ensures rises { OnErr result (self.new.runtime.machine.layout.top
            ≤ self.old.runtime.machine.layout.top + 2 ^ 30 * length text.now) }
    {
        if !self.line.is_empty() {
            return self.answer_any(sink, text);
        }
        if let Some(count) = self.pending.answer_front(sink, &mut self.runtime, text)? {
            return Ok(Some(count));
        }
        self.answer_any(sink, text)
    }

    // Answers the line that ends first in these bytes, and none behind it, as `answer_first`, whichever it is.
    #[cold]
    #[inline(never)]
    fn answer_any<K: Sink>(&mut self, sink: &mut K, text: &[u8]) -> Result<Option<usize>, Failed>
        requires { self.old.runtime.machine.layout.top ≤ 2 ^ 61 }
        ensures bytes { IfOk result (GoesLine self.old self.new text.now (K.written sink.old) (K.written sink.new)) }
        ensures stops { OnErr result (Stops self.old text.now (K.written sink.old) (K.written sink.new)) }
        ensures some { OnErr result (0 < length text.now) }
        ensures counted { OnOk result (K.faults sink.new ≡ K.faults sink.old) }
        ensures cause { OnErr result (Rose (K.faults sink.old) (K.faults sink.new)) }
        ensures grows { self.new.runtime.machine.layout.top ≤ self.old.runtime.machine.layout.top + 2 ^ 30 }
    {
        let Some(at) = first_feed(text) else {
            return Ok(None);
        };
        self.end_line(sink, &text[..at])?;
        Ok(Some(at + 1))
    }

    // Answers the lines that the next bytes of the script end, and keeps what is behind them.
    #[inline(never)]
    fn answer_piece<K: Sink>(&mut self, sink: &mut K, piece: &[u8]) -> Result<(), Failed>
        requires { self.old.runtime.machine.layout.top + 2 ^ 30 * length piece.now ≤ 2 ^ 61 }
        ensures bytes { OnOk result (Goes self.old self.new piece.now (K.written sink.old) (K.written sink.new)) }
        ensures stops { OnErr result (Stops self.old piece.now (K.written sink.old) (K.written sink.new)) }
        ensures counted { OnOk result (K.faults sink.new ≡ K.faults sink.old) }
        ensures cause { OnErr result (Rose (K.faults sink.old) (K.faults sink.new)) }
        ensures grows { self.new.runtime.machine.layout.top
            ≤ self.old.runtime.machine.layout.top + 2 ^ 30 * length piece.now }
    {
        let mut from = 0;
        while let Some(count) = self.answer_first(sink, &piece[from..])? {
            from += count;
        }
        keep(&mut self.line, &piece[from..]);
        Ok(())
    }

    // Answers the line that is begun where the script ends, if there is one.
    fn answer_end<K: Sink>(&mut self, sink: &mut K) -> Result<(), Failed>
        requires { self.old.runtime.machine.layout.top ≤ 2 ^ 61 }
        ensures bytes { OnOk result (Ends self.old self.new (K.written sink.old) (K.written sink.new)) }
        ensures stops { OnErr result (StopsLast self.old (K.written sink.old) (K.written sink.new)) }
        ensures counted { OnOk result (K.faults sink.new ≡ K.faults sink.old) }
        ensures cause { OnErr result (Rose (K.faults sink.old) (K.faults sink.new)) }
        ensures grows { self.new.runtime.machine.layout.top ≤ self.old.runtime.machine.layout.top + 2 ^ 30 }
    {
        if self.line.is_empty() {
            return Ok(());
        }
        let outcome = self.execute(&[]);
        put_outcome(&mut self.pending, sink, &outcome)
    }

    /// Takes the next bytes of the script, and writes the replies to the lines that they end.
    pub fn take_piece<K: Sink>(&mut self, sink: &mut K, piece: &[u8]) -> Result<(), Failed>
        requires { self.old.runtime.machine.layout.top + 2 ^ 30 * length piece.now ≤ 2 ^ 61 }
        ensures bytes { OnOk result
            (GoesWritten self.old self.new piece.now (K.written sink.old) (K.written sink.new)) }
        ensures stops { OnErr result (Stops self.old piece.now (K.written sink.old) (K.written sink.new)) }
        ensures counted { OnOk result (K.faults sink.new ≡ K.faults sink.old) }
        ensures cause { OnErr result (Rose (K.faults sink.old) (K.faults sink.new)) }
        ensures grows { self.new.runtime.machine.layout.top
            ≤ self.old.runtime.machine.layout.top + 2 ^ 30 * length piece.now }
    {
        self.answer_piece(sink, piece)?;
        self.pending.flush(sink)
    }

    /// Takes the end of the script: a line that is begun is answered, and all replies are written.
    pub fn take_end<K: Sink>(&mut self, sink: &mut K) -> Result<(), Failed>
        requires { self.old.runtime.machine.layout.top ≤ 2 ^ 61 }
        ensures bytes { OnOk result (EndsWritten self.old self.new (K.written sink.old) (K.written sink.new)) }
        ensures stops { OnErr result (StopsLast self.old (K.written sink.old) (K.written sink.new)) }
        ensures counted { OnOk result (K.faults sink.new ≡ K.faults sink.old) }
        ensures cause { OnErr result (Rose (K.faults sink.old) (K.faults sink.new)) }
        ensures grows { self.new.runtime.machine.layout.top ≤ self.old.runtime.machine.layout.top + 2 ^ 30 }
    {
        self.answer_end(sink)?;
        self.pending.flush(sink)
    }

    /// The runtime that ran the lines.
    pub fn into_runtime(self) -> Runtime
        ensures { result ≡ self.runtime }
    {
        let Session {
            alloc: _,
            runtime,
            line: _,
            pending: _,
        } = self;
        runtime
    }
}
