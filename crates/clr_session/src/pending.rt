ghost use Rattle.std.specs.Prelude.{◌≡◌, ◌≢◌, ◌+◌, ◌*◌, ◌^◌, ◌≤◌, ◌∷◌, ◌++◌, [], ℕ, List, length, take};
ghost use Rattle.std.specs.Prelude.{OnOk, OnErr, IfOk, IfSome};
ghost use Rattle.clr_model.specs.ReplyText.{refusal_text, reply_text};
ghost use Rattle.clr_script.specs.ReplyLines.{IsShowable};
ghost use Rattle.clr_lines.specs.Fronts.{IsAnswered};
ghost use Rattle.clr_streams.specs.Faults.{Rose, Appended};
ghost use Rattle.clr_session.specs.Output.{Wrote, WroteSome};
ghost use Rattle.clr_session.specs.FrontLines.{AnswersFront, GoesOver, StopsFront};

use clr_lines::answer_front;
use clr_model::{Refusal, Reply};
use clr_runtime::{NoMemory, Runtime};
use clr_script::{put_refusal, put_reply};
use clr_streams::{Failed, Sink, make_buffer, write_all, write_behind};
use std::alloc::Global;
use std::marker::Model;

/// So many bytes there are for replies that wait to be written.
const CAPACITY: usize = 65_536;

/// So many bytes of them stay free, for the reply to a line. So a line can be done before anything is written.
const LINE: usize = 256;

// Writes the line of a reply at the front, and gives its length.
#[inline]
fn put_reply_line(reply: &Reply, into: &mut [u8]) -> usize
    requires shows { IsShowable reply.now }
    requires room { 256 ≤ length into.old }
    ensures within { result ≤ length into.new }
    ensures text { take result into.new ≡ reply_text reply.now ++ 10 ∷ [] }
{
    match into.first_chunk_mut::<256>() {
        Some(line) => put_reply(reply, line),
        None => 0,
    }
}

// Writes the line of a reply behind the first `at` bytes, and gives where it ends.
#[inline]
fn reply_behind(buffer: &mut [u8], at: usize, reply: &Reply) -> usize
    requires shows { IsShowable reply.now }
    requires room { at + 256 ≤ length buffer.old }
    ensures within { result ≤ length buffer.new }
    ensures text { take result buffer.new ≡ take at buffer.old ++ (reply_text reply.now ++ 10 ∷ []) }
{
    let count = put_reply_line(reply, &mut buffer[at..]);
    at + count
}

// Writes the line of a refusal at the front, and gives its length.
fn put_refusal_line(refusal: &Refusal, into: &mut [u8]) -> usize
    requires { 256 ≤ length into.old }
    ensures within { result ≤ length into.new }
    ensures text { take result into.new ≡ refusal_text refusal.now ++ 10 ∷ [] }
{
    match into.first_chunk_mut::<256>() {
        Some(line) => put_refusal(refusal, line),
        None => 0,
    }
}

// Writes the line of a refusal behind the first `at` bytes, and gives where it ends.
fn refusal_behind(buffer: &mut [u8], at: usize, refusal: &Refusal) -> usize
    requires { at + 256 ≤ length buffer.old }
    ensures within { result ≤ length buffer.new }
    ensures text { take result buffer.new ≡ take at buffer.old ++ (refusal_text refusal.now ++ 10 ∷ []) }
{
    let count = put_refusal_line(refusal, &mut buffer[at..]);
    at + count
}

// Does the line in front of a text where it is one that is done at once, and writes its reply to the front. Gives how
// much of the text that was, and how long the reply is. Where nothing was done, it was nothing of the text.
#[inline]
fn answer_into(into: &mut [u8], runtime: &mut Runtime, text: &[u8]) -> (usize, usize)
    requires { 256 ≤ length into.old }
    ensures within { result.1 ≤ length into.new }
    ensures idle { result.0 ≡ 0 → runtime.new ≡ runtime.old }
    ensures answered { result.0 ≢ 0 →
        IsAnswered runtime.old.machine text.now result.0 (take result.1 into.new) runtime.new.machine }
    ensures grows { runtime.new.machine.layout.top ≤ runtime.old.machine.layout.top + 2 ^ 30 }
{
    let Some(line) = into.first_chunk_mut::<256>() else {
        unreachable!()
    };
    match answer_front(runtime, text, line) {
        Some(answered) => (answered.read, answered.written),
        None => (0, 0),
    }
}

// Does the line in front of a text where it is one that is done at once, and writes its reply behind the first `at`
// bytes. Gives how much of the text that was, and where the reply ends. Where nothing was done, it was nothing of the
// text.
#[inline]
fn answer_behind(buffer: &mut [u8], at: usize, runtime: &mut Runtime, text: &[u8]) -> (usize, usize)
    requires { at + 256 ≤ length buffer.old }
    ensures behind { at ≤ result.1 }
    ensures within { result.1 ≤ length buffer.new }
    ensures kept { take at buffer.new ≡ take at buffer.old }
    ensures idle { result.0 ≡ 0 → runtime.new ≡ runtime.old }
    ensures answered { result.0 ≢ 0 → (reply : List ℕ)
        × IsAnswered runtime.old.machine text.now result.0 reply runtime.new.machine
        × (take result.1 buffer.new ≡ take at buffer.old ++ reply) }
    ensures grows { runtime.new.machine.layout.top ≤ runtime.old.machine.layout.top + 2 ^ 30 }
{
    let (read, written) = answer_into(&mut buffer[at..], runtime, text);
    (read, at + written)
}

// Does the lines in front of a text, one after another, while they are done at once and there is room for a reply, and
// writes their replies behind the first `at` bytes. Gives how much of the text that was, and where the last reply ends.
fn answer_lines(buffer: &mut [u8], at: usize, runtime: &mut Runtime, text: &[u8]) -> (usize, usize)
    requires { at + 256 ≤ length buffer.old }
    ensures read { result.0 ≤ length text.now }
    ensures within { result.1 ≤ length buffer.new }
    ensures kept { take at buffer.new ≡ take at buffer.old }
    ensures idle { result.0 ≡ 0 → runtime.new ≡ runtime.old }
    ensures answered { (reply : List ℕ)
        × GoesOver runtime.old.machine (take result.0 text.now) reply runtime.new.machine
        × (take result.1 buffer.new ≡ take at buffer.old ++ reply) }
    ensures grows { runtime.new.machine.layout.top ≤ runtime.old.machine.layout.top + 2 ^ 30 * result.0 }
{
    let mut from = 0;
    let mut end = at;
    while LINE <= buffer.len() - end {
        let (read, next) = answer_behind(buffer, end, runtime, &text[from..]);
        if read == 0 {
            break;
        }
        from += read;
        end = next;
    }
    (from, end)
}

// Writes the first `filled` bytes where there is no room for a line behind them, and gives how many wait then.
#[inline]
fn write_if_full<K: Sink>(buffer: &[u8], filled: usize, sink: &mut K) -> Result<usize, Failed>
    requires within { filled ≤ length buffer.now }
    requires whole { length buffer.now ≡ 65536 }
    ensures room { IfOk result (λ left. left + 256 ≤ length buffer.now) }
    ensures wrote { IfOk result (λ left.
        Wrote (K.written sink.old) (K.written sink.new) (take filled buffer.now) (take left buffer.now) []) }
    ensures part { OnErr result (WroteSome (K.written sink.old) (K.written sink.new) (take filled buffer.now)) }
    ensures counted { OnOk result (K.faults sink.new ≡ K.faults sink.old) }
    ensures cause { OnErr result (Rose (K.faults sink.old) (K.faults sink.new)) }
{
    if CAPACITY - filled < LINE {
        write_all(sink, &buffer[..filled])?;
        return Ok(0);
    }
    Ok(filled)
}

/// Bytes that wait to be written, so that a sink gets many short replies at once. They stand at the front of a buffer.
#[derive(Drop)]
pub struct Pending {
    buffer: Vec<u8>,
    filled: usize,
}

impl Model for Pending {
    ghost use Rattle.std.specs.Prelude.{List, ℕ, ◌≡◌, ◌+◌, ◌≤◌, length, take};

    ghost Value = { List ℕ };

    ghost view = { λ p. take p.filled p.buffer.items };

    ghost invariant = { λ p. (p.filled + 256 ≤ 65536) × (length p.buffer.items ≡ 65536) };
}

impl Pending {
    /// Nothing waits. Takes all its memory here.
    pub fn new(alloc: Global) -> Result<Pending, NoMemory>
        ensures { IfOk result (λ pending. pending ≡ []) }
    {
        let Ok(buffer) = make_buffer(alloc, CAPACITY) else {
            return Err(NoMemory);
        };
        Ok(Pending { buffer, filled: 0 })
    }

    /// Writes all that waits. After `Failed` a part of its front was written.
    pub fn flush<K: Sink>(&mut self, sink: &mut K) -> Result<(), Failed>
        ensures wrote { OnOk result (Appended (K.written sink.old) (K.written sink.new) self.old) }
        ensures emptied { OnOk result (self.new ≡ []) }
        ensures part { OnErr result (WroteSome (K.written sink.old) (K.written sink.new) self.old) }
        ensures counted { OnOk result (K.faults sink.new ≡ K.faults sink.old) }
        ensures cause { OnErr result (Rose (K.faults sink.old) (K.faults sink.new)) }
    {
        write_all(sink, &self.buffer[..self.filled])?;
        self.filled = 0;
        Ok(())
    }

    /// Puts a text behind what waits, and writes from the front where there is no room for both.
    pub fn put<K: Sink>(&mut self, sink: &mut K, text: &[u8]) -> Result<(), Failed>
        ensures wrote { OnOk result (Wrote (K.written sink.old) (K.written sink.new) self.old self.new text.now) }
        ensures part { OnErr result (WroteSome (K.written sink.old) (K.written sink.new) (self.old ++ text.now)) }
        ensures counted { OnOk result (K.faults sink.new ≡ K.faults sink.old) }
        ensures cause { OnErr result (Rose (K.faults sink.old) (K.faults sink.new)) }
    {
        if text.len() <= CAPACITY - LINE - self.filled {
            self.filled = write_behind(&mut self.buffer, self.filled, text);
            return Ok(());
        }
        self.flush(sink)?;
        write_all(sink, text)
    }

    /// Does the lines in front of a text as far as they are done at once, puts their replies behind what waits, and
    /// writes all where there is no room for another behind them. Gives how much of the text that was. `None` where
    /// nothing was done.
    #[inline]
    pub fn answer_front<K: Sink>(
        &mut self,
        sink: &mut K,
        runtime: &mut Runtime,
        text: &[u8],
    ) -> Result<Option<usize>, Failed>
        ensures answered { IfOk result (AnswersFront runtime.old.machine runtime.new.machine text.now
            (K.written sink.old) (K.written sink.new) self.old self.new) }
        ensures part { OnErr result (StopsFront runtime.old.machine runtime.new.machine text.now
            (K.written sink.old) (K.written sink.new) self.old) }
        ensures counted { OnOk result (K.faults sink.new ≡ K.faults sink.old) }
        ensures cause { OnErr result (Rose (K.faults sink.old) (K.faults sink.new)) }
        ensures grows { IfOk result (λ found. IfSome found (λ read.
            runtime.new.machine.layout.top ≤ runtime.old.machine.layout.top + 2 ^ 30 * read)) }
        ensures rises { OnErr result
            (runtime.new.machine.layout.top ≤ runtime.old.machine.layout.top + 2 ^ 30 * length text.now) }
    {
        let (read, end) = answer_lines(&mut self.buffer, self.filled, runtime, text);
        if read == 0 {
            return Ok(None);
        }
        self.filled = write_if_full(&self.buffer, end, sink)?;
        Ok(Some(read))
    }

    /// Puts the text of a reply and a line feed behind what waits, and writes all where there is no room for another
    /// behind that.
    #[inline]
    pub fn put_reply<K: Sink>(&mut self, sink: &mut K, reply: &Reply) -> Result<(), Failed>
        requires { IsShowable reply.now }
        ensures wrote { OnOk result (Wrote (K.written sink.old) (K.written sink.new)
            self.old self.new (reply_text reply.now ++ 10 ∷ [])) }
        ensures part { OnErr result (WroteSome (K.written sink.old) (K.written sink.new)
            (self.old ++ (reply_text reply.now ++ 10 ∷ []))) }
        ensures counted { OnOk result (K.faults sink.new ≡ K.faults sink.old) }
        ensures cause { OnErr result (Rose (K.faults sink.old) (K.faults sink.new)) }
    {
        let end = reply_behind(&mut self.buffer, self.filled, reply);
        self.filled = write_if_full(&self.buffer, end, sink)?;
        Ok(())
    }

    /// Puts the text of a refusal and a line feed behind what waits, and writes all where there is no room for another
    /// behind that.
    pub fn put_refusal<K: Sink>(&mut self, sink: &mut K, refusal: &Refusal) -> Result<(), Failed>
        ensures wrote { OnOk result (Wrote (K.written sink.old) (K.written sink.new)
            self.old self.new (refusal_text refusal.now ++ 10 ∷ [])) }
        ensures part { OnErr result (WroteSome (K.written sink.old) (K.written sink.new)
            (self.old ++ (refusal_text refusal.now ++ 10 ∷ []))) }
        ensures counted { OnOk result (K.faults sink.new ≡ K.faults sink.old) }
        ensures cause { OnErr result (Rose (K.faults sink.old) (K.faults sink.new)) }
    {
        let end = refusal_behind(&mut self.buffer, self.filled, refusal);
        self.filled = write_if_full(&self.buffer, end, sink)?;
        Ok(())
    }
}
