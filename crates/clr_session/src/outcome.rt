//! How what a line is answered comes to wait.
ghost use Rattle.std.specs.Prelude.{◌≡◌, ◌++◌, OnOk, OnErr};
ghost use Rattle.clr_lines.specs.Outcomes.{outcome_of, CanShow};
ghost use Rattle.clr_model.specs.Outcomes.{outcome_text};
ghost use Rattle.clr_streams.specs.Faults.{Rose};
ghost use Rattle.clr_session.specs.Output.{Wrote, WroteSome};

use crate::pending::Pending;
use clr_lines::Outcome;
use clr_streams::{Failed, Sink};

/// Puts the text of what a line was answered behind what waits to be written.
#[inline]
pub fn put_outcome<K: Sink>(
    pending: &mut Pending,
    sink: &mut K,
    outcome: &Outcome,
) -> Result<(), Failed>
    requires { CanShow outcome.now }
    ensures wrote { OnOk result (Wrote (K.written sink.old) (K.written sink.new)
        pending.old pending.new (outcome_text (outcome_of outcome.now))) }
    ensures part { OnErr result (WroteSome (K.written sink.old) (K.written sink.new)
        (pending.old ++ outcome_text (outcome_of outcome.now))) }
    ensures counted { OnOk result (K.faults sink.new ≡ K.faults sink.old) }
    ensures cause { OnErr result (Rose (K.faults sink.old) (K.faults sink.new)) }
{
    match outcome {
        Outcome::Reply(reply) => pending.put_reply(sink, reply),
        Outcome::Refused(refusal) => pending.put_refusal(sink, refusal),
        Outcome::Text(text) => pending.put(sink, text),
    }
}
