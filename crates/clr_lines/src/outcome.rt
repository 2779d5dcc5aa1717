//! What a line is answered.
ghost use Rattle.std.specs.Prelude.{◌≡◌, ◌≤◌, IfSome};
ghost use Rattle.clr_runtime.specs.Outcomes.{collected_outcome, done_outcome, handle_outcome, mt_outcome};
ghost use Rattle.clr_runtime.specs.Outcomes.{number_outcome, place_outcome, scanned_outcome};
ghost use Rattle.clr_runtime.specs.Steps.{step_outcome};
ghost use Rattle.clr_lines.specs.Outcomes.{found_outcome, outcome_of, refusal_of, size_outcome, text_outcome};
ghost use Rattle.clr_lines.specs.Outcomes.{where_outcome, CanShow};

use clr_model::{Collected, Refusal, Reply, Where};
use clr_objsize::Total;
use clr_runtime::{NoMemory, Progress};
use clr_sos::SosFault;

/// What a line is answered.
#[derive(Drop)]
pub enum Outcome {
    Reply(Reply),
    Text(Vec<u8>),
    Refused(Refusal),
}

/// The outcome of a call that gives a method table word.
pub fn told_mt(told: Result<u64, Refusal>) -> Outcome
    ensures is { outcome_of result ≡ mt_outcome told }
    ensures shows { CanShow result }
{
    match told {
        Ok(mt) => Outcome::Reply(Reply::Mt(mt)),
        Err(refusal) => Outcome::Refused(refusal),
    }
}

/// The outcome of a call that gives a place.
pub fn told_place(told: Result<u64, Refusal>) -> Outcome
    ensures is { outcome_of result ≡ place_outcome told }
    ensures shows { CanShow result }
{
    match told {
        Ok(place) => Outcome::Reply(Reply::Place(place)),
        Err(refusal) => Outcome::Refused(refusal),
    }
}

/// The outcome of a call that gives a number.
pub fn told_number(told: Result<u64, Refusal>) -> Outcome
    ensures is { outcome_of result ≡ number_outcome told }
    ensures shows { CanShow result }
{
    match told {
        Ok(number) => Outcome::Reply(Reply::Number(number)),
        Err(refusal) => Outcome::Refused(refusal),
    }
}

/// The outcome of a call that makes a handle.
pub fn told_handle(told: Result<u64, Refusal>) -> Outcome
    ensures is { outcome_of result ≡ handle_outcome told }
    ensures shows { CanShow result }
{
    match told {
        Ok(h) => Outcome::Reply(Reply::HandleNumber(h)),
        Err(refusal) => Outcome::Refused(refusal),
    }
}

/// The outcome of a call that collects.
pub fn told_collected(told: Result<Collected, Refusal>) -> Outcome
    ensures is { outcome_of result ≡ collected_outcome told }
    ensures shows { CanShow result }
{
    match told {
        Ok(collected) => Outcome::Reply(Reply::Collected(collected)),
        Err(refusal) => Outcome::Refused(refusal),
    }
}

/// The outcome of a call that scans gray objects.
pub fn told_scanned(told: Result<Progress, Refusal>) -> Outcome
    ensures is { outcome_of result ≡ scanned_outcome told }
    ensures shows { CanShow result }
{
    match told {
        Ok(Progress { scanned, gray }) => Outcome::Reply(Reply::Scanned { scanned, gray }),
        Err(refusal) => Outcome::Refused(refusal),
    }
}

/// The outcome of a call that gives nothing.
pub fn told_done(told: Result<(), Refusal>) -> Outcome
    ensures is { outcome_of result ≡ done_outcome told }
    ensures shows { CanShow result }
{
    match told {
        Ok(()) => Outcome::Reply(Reply::Done),
        Err(refusal) => Outcome::Refused(refusal),
    }
}

/// The outcome of a command that shows a text, or finds that there is nothing to show.
pub fn told_found(told: Result<Vec<u8>, SosFault>) -> Outcome
    ensures is { outcome_of result ≡ found_outcome told }
    ensures shows { CanShow result }
{
    match told {
        Ok(text) => Outcome::Text(text),
        Err(fault) => Outcome::Refused(refusal_of(fault)),
    }
}

/// The outcome of a command that shows a text where there is memory for it.
pub fn told_text(told: Result<Vec<u8>, NoMemory>) -> Outcome
    ensures is { outcome_of result ≡ text_outcome told }
    ensures shows { CanShow result }
{
    match told {
        Ok(text) => Outcome::Text(text),
        Err(_) => Outcome::Refused(Refusal::NoMemory),
    }
}

/// The outcome of a command that tells where an object stands.
pub fn told_where(told: Option<Where>) -> Outcome
    requires kind { IfSome told (λ place. place.kind ≤ 3) }
    ensures is { outcome_of result ≡ where_outcome told }
    ensures shows { CanShow result }
{
    match told {
        Some(place) => Outcome::Reply(Reply::Where(place)),
        None => Outcome::Refused(Refusal::NoObject),
    }
}

/// The outcome of a command that counts what the object at the place `a` holds.
pub fn told_size(a: u64, told: Result<Total, SosFault>) -> Outcome
    ensures is { outcome_of result ≡ size_outcome a told }
    ensures shows { CanShow result }
{
    match told {
        Ok(total) => Outcome::Reply(Reply::Size {
            place: a,
            objects: total.objects,
            bytes: total.bytes,
        }),
        Err(fault) => Outcome::Refused(refusal_of(fault)),
    }
}

// How it is told that there is nothing to show.
fn refusal_of(fault: SosFault) -> Refusal
    ensures { result ≡ refusal_of fault }
{
    match fault {
        SosFault::UnknownType => Refusal::UnknownType,
        SosFault::NoObject => Refusal::NoObject,
        SosFault::NoMemory => Refusal::NoMemory,
    }
}

/// The outcome of a call that finishes a step: of a birth it gives a place, and of a store nothing.
pub fn told_step(told: Result<Option<u64>, Refusal>) -> Outcome
    ensures is { outcome_of result ≡ step_outcome told }
    ensures shows { CanShow result }
{
    match told {
        Ok(Some(place)) => Outcome::Reply(Reply::Place(place)),
        Ok(None) => Outcome::Reply(Reply::Done),
        Err(refusal) => Outcome::Refused(refusal),
    }
}
