//! The lines that scripts are mostly made of, each done in one pass from its bytes to its reply.
ghost use Rattle.std.specs.Prelude.{◌≡◌, ◌+◌, ◌^◌, ◌≤◌, ◌∷◌, ◌++◌, codes, drop, length, take, IfSome};
ghost use Rattle.std.specs.Prelude.{IsTrue, MatchOption, Some};
ghost use Rattle.clr_model.specs.LineGrammar.{is_name, thread_word};
ghost use Rattle.clr_runtime.specs.Births.{IsKnown};
ghost use Rattle.clr_runtime.specs.Outcomes.{done_outcome, handle_outcome, number_outcome, place_outcome};
ghost use Rattle.clr_model.specs.Outcomes.{outcome_text, refused};
ghost use Rattle.clr_lines.specs.Fronts.{IsAnswered, IsDone};

use clr_model::Refusal;
use clr_runtime::Runtime;
use clr_script::{
    LONGEST, copy_at, finalizer_at, four_bytes, get_at, handle_at, length_at, local_here, name_at,
    null_at, put_at, put_done, put_handle, put_number, put_place, put_refusal, read_new, set_at,
    slot_at, suppress_at, thread_at,
};
use clr_types::TypeId;

/// So many bytes of a text hold the line of any of these verbs, but for `new`. Where less are left of it, the general
/// way reads the line.
const ROOM: usize = 64;

// The verbs by their first four bytes, as `four_bytes` gives them.
const GET: u32 = 0x2074_6567;

const SET: u32 = 0x2074_6573;

const PUT: u32 = 0x2074_7570;

const NEW: u32 = 0x2077_656e;

const READ: u32 = 0x6461_6572;

const COPY: u32 = 0x7970_6f63;

const NULL: u32 = 0x6c6c_756e;

const FINALIZER: u32 = 0x616e_6966;

const SUPPRESS: u32 = 0x7070_7573;

const HANDLE: u32 = 0x646e_6168;

/// How much of a text was a line that was done, with its line feed, and how long its reply is, with its own.
#[derive(Clone, Copy)]
pub struct Answered {
    pub read: usize,
    pub written: usize,
}

// Writes why a line is refused, and gives how much that is.
#[cold]
#[inline(never)]
fn tell_refusal(refusal: Refusal, into: &mut [u8; 256]) -> usize
    ensures fits { result ≤ 256 }
    ensures text { take result into.new ≡ outcome_text (refused refusal) }
{
    put_refusal(&refusal, into)
}

// Writes what a call tells that gives nothing.
#[inline(always)]
fn tell_done(told: Result<(), Refusal>, into: &mut [u8; 256]) -> usize
    ensures fits { result ≤ 256 }
    ensures text { take result into.new ≡ outcome_text (done_outcome told) }
{
    match told {
        Ok(()) => put_done(into),
        Err(refusal) => tell_refusal(refusal, into),
    }
}

// Writes what a call tells that gives a place.
#[inline(always)]
fn tell_place(told: Result<u64, Refusal>, into: &mut [u8; 256]) -> usize
    ensures fits { result ≤ 256 }
    ensures text { take result into.new ≡ outcome_text (place_outcome told) }
{
    match told {
        Ok(place) => put_place(place, into),
        Err(refusal) => tell_refusal(refusal, into),
    }
}

// Writes what a call tells that gives a number.
#[inline(always)]
fn tell_number(told: Result<u64, Refusal>, into: &mut [u8; 256]) -> usize
    ensures fits { result ≤ 256 }
    ensures text { take result into.new ≡ outcome_text (number_outcome told) }
{
    match told {
        Ok(number) => put_number(number, into),
        Err(refusal) => tell_refusal(refusal, into),
    }
}

// Writes what a call tells that makes a handle.
#[inline(always)]
fn tell_handle(told: Result<u64, Refusal>, into: &mut [u8; 256]) -> usize
    ensures fits { result ≤ 256 }
    ensures text { take result into.new ≡ outcome_text (handle_outcome told) }
{
    match told {
        Ok(h) => put_handle(h, into),
        Err(refusal) => tell_refusal(refusal, into),
    }
}

// The line `get` of thread `t`, whose words stand behind its verb at a place, here without the space before the first
// one. Gives the length of the reply, and where what is behind the line begins. So do the others.
#[inline(always)]
fn answer_get(
    runtime: &mut Runtime,
    t: u64,
    text: &[u8],
    at: usize,
    into: &mut [u8; 256],
) -> Option<(usize, usize)>
    requires { at + 48 ≤ length text.now }
    ensures fits { IfSome result (λ p. p.0 ≤ 256) }
    ensures near { IfSome result (λ p. p.1 ≤ at + 48) }
    ensures done { MatchOption result (runtime.new ≡ runtime.old) (λ p. IsDone runtime.old.machine
        (thread_word t ++ ((32 ∷ codes "get") ++ 32 ∷ drop at text.now)) (drop p.1 text.now) (take p.0 into.new)
        runtime.new.machine) }
{
    let (to, from, index, end) = get_at(text, at)?;
    let written = tell_place(runtime.get(t, to, from, index), into);
    Some((written, end))
}

// The line `set`.
#[inline(always)]
fn answer_set(
    runtime: &mut Runtime,
    t: u64,
    text: &[u8],
    at: usize,
    into: &mut [u8; 256],
) -> Option<(usize, usize)>
    requires { at + 48 ≤ length text.now }
    ensures fits { IfSome result (λ p. p.0 ≤ 256) }
    ensures near { IfSome result (λ p. p.1 ≤ at + 48) }
    ensures done { MatchOption result (runtime.new ≡ runtime.old) (λ p. IsDone runtime.old.machine
        (thread_word t ++ ((32 ∷ codes "set") ++ 32 ∷ drop at text.now)) (drop p.1 text.now) (take p.0 into.new)
        runtime.new.machine) }
{
    let (object, index, from, end) = set_at(text, at)?;
    let written = tell_done(runtime.set(t, object, index, from), into);
    Some((written, end))
}

// The line `put`.
#[inline(always)]
fn answer_put(
    runtime: &mut Runtime,
    t: u64,
    text: &[u8],
    at: usize,
    into: &mut [u8; 256],
) -> Option<(usize, usize)>
    requires { at + 48 ≤ length text.now }
    ensures fits { IfSome result (λ p. p.0 ≤ 256) }
    ensures near { IfSome result (λ p. p.1 ≤ at + 48) }
    ensures done { MatchOption result (runtime.new ≡ runtime.old) (λ p. IsDone runtime.old.machine
        (thread_word t ++ ((32 ∷ codes "put") ++ 32 ∷ drop at text.now)) (drop p.1 text.now) (take p.0 into.new)
        runtime.new.machine) }
{
    let (object, index, value, end) = put_at(text, at)?;
    let written = tell_done(runtime.put(t, object, index, value), into);
    Some((written, end))
}

// The line `read`.
#[inline(always)]
fn answer_read(
    runtime: &mut Runtime,
    t: u64,
    text: &[u8],
    at: usize,
    into: &mut [u8; 256],
) -> Option<(usize, usize)>
    requires { at + 48 ≤ length text.now }
    ensures fits { IfSome result (λ p. p.0 ≤ 256) }
    ensures near { IfSome result (λ p. p.1 ≤ at + 48) }
    ensures done { MatchOption result (runtime.new ≡ runtime.old) (λ p. IsDone runtime.old.machine
        (thread_word t ++ ((32 ∷ codes "read") ++ drop at text.now)) (drop p.1 text.now) (take p.0 into.new)
        runtime.new.machine) }
{
    let (from, index, end) = slot_at(text, at)?;
    let written = tell_number(runtime.read(t, from, index), into);
    Some((written, end))
}

// The line `copy`.
#[inline(always)]
fn answer_copy(
    runtime: &mut Runtime,
    t: u64,
    text: &[u8],
    at: usize,
    into: &mut [u8; 256],
) -> Option<(usize, usize)>
    requires { at + 48 ≤ length text.now }
    ensures fits { IfSome result (λ p. p.0 ≤ 256) }
    ensures near { IfSome result (λ p. p.1 ≤ at + 48) }
    ensures done { MatchOption result (runtime.new ≡ runtime.old) (λ p. IsDone runtime.old.machine
        (thread_word t ++ ((32 ∷ codes "copy") ++ drop at text.now)) (drop p.1 text.now) (take p.0 into.new)
        runtime.new.machine) }
{
    let (to, from, end) = copy_at(text, at)?;
    let written = tell_place(runtime.copy(t, to, from), into);
    Some((written, end))
}

// The line `null`.
#[inline(always)]
fn answer_null(
    runtime: &mut Runtime,
    t: u64,
    text: &[u8],
    at: usize,
    into: &mut [u8; 256],
) -> Option<(usize, usize)>
    requires { at + 48 ≤ length text.now }
    ensures fits { IfSome result (λ p. p.0 ≤ 256) }
    ensures near { IfSome result (λ p. p.1 ≤ at + 48) }
    ensures done { MatchOption result (runtime.new ≡ runtime.old) (λ p. IsDone runtime.old.machine
        (thread_word t ++ ((32 ∷ codes "null") ++ drop at text.now)) (drop p.1 text.now) (take p.0 into.new)
        runtime.new.machine) }
{
    let (local, end) = null_at(text, at)?;
    let written = tell_done(runtime.clear(t, local), into);
    Some((written, end))
}

// The type that the word at a place names, where it is that of the last object asked for or the one before, its name,
// and where that ends.
#[inline(always)]
fn recent_at<'a>(runtime: &Runtime, text: &'a [u8], at: usize) -> Option<(TypeId, &'a [u8], usize)>
    requires { at + 10 ≤ length text.now }
    ensures known { IfSome result (λ p. IsKnown runtime.now.machine.types p.1.now (Some p.0)) }
    ensures name { IfSome result (λ p. IsTrue (is_name p.1.now)) }
    ensures read { IfSome result (λ p. drop at text.now ≡ (32 ∷ p.1.now) ++ drop p.2 text.now) }
    ensures near { IfSome result (λ p. p.2 ≤ at + 9) }
{
    let (recent, hint) = runtime.recent()?;
    if let Some((name, end)) = name_at(text, at, hint) {
        return Some((recent, name, end));
    }
    let (earlier, hint) = runtime.earlier()?;
    let (name, end) = name_at(text, at, hint)?;
    Some((earlier, name, end))
}

// The line `new` of such a type.
#[inline(always)]
fn answer_recent(
    runtime: &mut Runtime,
    t: u64,
    text: &[u8],
    at: usize,
    into: &mut [u8; 256],
) -> Option<(usize, usize)>
    requires { at + 48 ≤ length text.now }
    ensures fits { IfSome result (λ p. p.0 ≤ 256) }
    ensures near { IfSome result (λ p. p.1 ≤ at + 48) }
    ensures done { MatchOption result (runtime.new ≡ runtime.old) (λ p. IsDone runtime.old.machine
        (thread_word t ++ ((32 ∷ codes "new") ++ 32 ∷ drop at text.now)) (drop p.1 text.now) (take p.0 into.new)
        runtime.new.machine) }
{
    let (local, next) = local_here(text, at)?;
    let (known, name, next) = recent_at(runtime, text, next)?;
    let (len, end) = length_at(text, next)?;
    let told = runtime.new_known(t, local, name, Some(known), len);
    Some((tell_place(told, into), end))
}

// The line `new` of any type, whose words stand behind its verb at a place. It is none where it is too long.
#[cold]
#[inline(never)]
fn answer_named(
    runtime: &mut Runtime,
    t: u64,
    text: &[u8],
    at: usize,
    into: &mut [u8; 256],
) -> Option<(usize, usize)>
    requires { at ≤ length text.now }
    ensures fits { IfSome result (λ p. p.0 ≤ 256) }
    ensures near { IfSome result (λ p. (p.1 ≤ 4097) × (p.1 ≤ length text.now)) }
    ensures done { MatchOption result (runtime.new ≡ runtime.old) (λ p. IsDone runtime.old.machine
        (thread_word t ++ ((32 ∷ codes "new") ++ drop at text.now)) (drop p.1 text.now) (take p.0 into.new)
        runtime.new.machine) }
{
    let line = read_new(&text[at..])?;
    let end = text.len() - line.rest.len();
    if end > LONGEST + 1 {
        return None;
    }
    let told = runtime.new_object(t, line.local, line.name, line.len);
    Some((tell_place(told, into), end))
}

// The line `new`, whose verb stands at a place.
#[inline(always)]
fn answer_new(
    runtime: &mut Runtime,
    t: u64,
    text: &[u8],
    at: usize,
    into: &mut [u8; 256],
) -> Option<(usize, usize)>
    requires low { at ≤ 4 }
    requires room { 64 ≤ length text.now }
    requires verb { drop at text.now ≡ codes "new" ++ 32 ∷ drop (at + 4) text.now }
    ensures fits { IfSome result (λ p. p.0 ≤ 256) }
    ensures near { IfSome result (λ p. (p.1 ≤ 4097) × (p.1 ≤ length text.now)) }
    ensures done { MatchOption result (runtime.new ≡ runtime.old) (λ p. IsDone runtime.old.machine
        (thread_word t ++ 32 ∷ drop at text.now) (drop p.1 text.now) (take p.0 into.new) runtime.new.machine) }
{
    if let Some(answered) = answer_recent(runtime, t, text, at + 4, into) {
        return Some(answered);
    }
    let (written, end) = answer_named(runtime, t, text, at + 3, into)?;
    Some((written, end))
}

// The line `finalizer`, whose words stand behind the first four letters of its verb. So do those of the next two.
#[inline(always)]
fn answer_finalizer(
    runtime: &mut Runtime,
    t: u64,
    text: &[u8],
    at: usize,
    into: &mut [u8; 256],
) -> Option<(usize, usize)>
    requires { at + 48 ≤ length text.now }
    ensures fits { IfSome result (λ p. p.0 ≤ 256) }
    ensures near { IfSome result (λ p. p.1 ≤ at + 48) }
    ensures done { MatchOption result (runtime.new ≡ runtime.old) (λ p. IsDone runtime.old.machine
        (thread_word t ++ ((32 ∷ codes "fina") ++ drop at text.now)) (drop p.1 text.now) (take p.0 into.new)
        runtime.new.machine) }
{
    let (to, end) = finalizer_at(text, at)?;
    let written = tell_place(runtime.finalizer(t, to), into);
    Some((written, end))
}

// The line `suppress`.
#[inline(always)]
fn answer_suppress(
    runtime: &mut Runtime,
    t: u64,
    text: &[u8],
    at: usize,
    into: &mut [u8; 256],
) -> Option<(usize, usize)>
    requires { at + 48 ≤ length text.now }
    ensures fits { IfSome result (λ p. p.0 ≤ 256) }
    ensures near { IfSome result (λ p. p.1 ≤ at + 48) }
    ensures done { MatchOption result (runtime.new ≡ runtime.old) (λ p. IsDone runtime.old.machine
        (thread_word t ++ ((32 ∷ codes "supp") ++ drop at text.now)) (drop p.1 text.now) (take p.0 into.new)
        runtime.new.machine) }
{
    let (local, end) = suppress_at(text, at)?;
    let written = tell_done(runtime.suppress(t, local), into);
    Some((written, end))
}

// The line `handle`.
#[inline(always)]
fn answer_handle(
    runtime: &mut Runtime,
    t: u64,
    text: &[u8],
    at: usize,
    into: &mut [u8; 256],
) -> Option<(usize, usize)>
    requires { at + 48 ≤ length text.now }
    ensures fits { IfSome result (λ p. p.0 ≤ 256) }
    ensures near { IfSome result (λ p. p.1 ≤ at + 48) }
    ensures done { MatchOption result (runtime.new ≡ runtime.old) (λ p. IsDone runtime.old.machine
        (thread_word t ++ ((32 ∷ codes "hand") ++ drop at text.now)) (drop p.1 text.now) (take p.0 into.new)
        runtime.new.machine) }
{
    let (kind, local, second, end) = handle_at(text, at)?;
    let written = tell_handle(runtime.handle(t, kind, local, second), into);
    Some((written, end))
}

// Answers a line of a thread by a verb that is rarer than those tried in line.
#[cold]
#[inline(never)]
fn answer_seldom(
    runtime: &mut Runtime,
    t: u64,
    text: &[u8],
    at: usize,
    into: &mut [u8; 256],
) -> Option<(usize, usize)>
    requires low { at ≤ 4 }
    requires room { 64 ≤ length text.now }
    ensures fits { IfSome result (λ p. p.0 ≤ 256) }
    ensures near { IfSome result (λ p. (p.1 ≤ 4097) × (p.1 ≤ length text.now)) }
    ensures done { MatchOption result (runtime.new ≡ runtime.old) (λ p. IsDone runtime.old.machine
        (thread_word t ++ 32 ∷ drop at text.now) (drop p.1 text.now) (take p.0 into.new) runtime.new.machine) }
{
    match four_bytes(text, at) {
        FINALIZER => answer_finalizer(runtime, t, text, at + 4, into),
        SUPPRESS => answer_suppress(runtime, t, text, at + 4, into),
        HANDLE => answer_handle(runtime, t, text, at + 4, into),
        _ => None,
    }
}

// The line of thread `t` whose verb stands at a place.
#[inline]
fn answer_verb(
    runtime: &mut Runtime,
    t: u64,
    text: &[u8],
    at: usize,
    into: &mut [u8; 256],
) -> Option<(usize, usize)>
    requires low { at ≤ 4 }
    requires room { 64 ≤ length text.now }
    ensures fits { IfSome result (λ p. p.0 ≤ 256) }
    ensures near { IfSome result (λ p. (p.1 ≤ 4097) × (p.1 ≤ length text.now)) }
    ensures done { MatchOption result (runtime.new ≡ runtime.old) (λ p. IsDone runtime.old.machine
        (thread_word t ++ 32 ∷ drop at text.now) (drop p.1 text.now) (take p.0 into.new) runtime.new.machine) }
{
    match four_bytes(text, at) {
        GET => answer_get(runtime, t, text, at + 4, into),
        SET => answer_set(runtime, t, text, at + 4, into),
        PUT => answer_put(runtime, t, text, at + 4, into),
        NEW => answer_new(runtime, t, text, at, into),
        READ => answer_read(runtime, t, text, at + 4, into),
        COPY => answer_copy(runtime, t, text, at + 4, into),
        NULL => answer_null(runtime, t, text, at + 4, into),
        _ => {
            let (written, end) = answer_seldom(runtime, t, text, at, into)?;
            Some((written, end))
        }
    }
}

/// Does what the line in front of a text says where it is one of those that scripts are mostly made of, and writes its
/// reply to the front of `into`. `None` where it is another, none ends in the text, or few bytes of that are left, and
/// then nothing changes. No clause promises `Some`, since a `None` only costs the time of `execute`.
#[inline]
pub fn answer_front(runtime: &mut Runtime, text: &[u8], into: &mut [u8; 256]) -> Option<Answered>
    ensures fits { IfSome result (λ a. a.written ≤ 256) }
    ensures answered { MatchOption result (runtime.new ≡ runtime.old)
        (λ a. IsAnswered runtime.old.machine text.now a.read (take a.written into.new) runtime.new.machine) }
    ensures grows { runtime.new.machine.layout.top ≤ runtime.old.machine.layout.top + 2 ^ 30 }
{
    // what is seen is sound: it stands for a lawful machine, and a step of that reserves little
    let _ = runtime.heap();
    if text.len() < ROOM {
        return None;
    }
    let (t, at) = thread_at(text)?;
    let (written, read) = answer_verb(runtime, t, text, at, into)?;
    Some(Answered { read, written })
}
