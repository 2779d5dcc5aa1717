//! Replies and refusals as text, each written once, where it waits to be sent.
ghost use Rattle.std.specs.Prelude.{◌≡◌, ◌+◌, ◌≤◌, ◌<◌, ◌++◌, ◌∷◌, [], take, drop, length, decimal, codes, ℕ};
ghost use Rattle.clr_nums.specs.Numbers.{hex16};
ghost use Rattle.clr_model.specs.ReplyText.{place_text, refusal_text, reply_text};
ghost use Rattle.clr_script.specs.ReplyLines.{IsShowable, IsRefusalName};

use clr_model::{Collected, Refusal, Reply, Where};
use clr_nums::{put_dec, put_hex16};

// Writes 16 hexadecimal digits at the front. The bytes behind them stay.
#[inline(always)]
fn put_hex_digits(v: u64, into: &mut [u8])
    requires { 16 ≤ length into.old }
    ensures { into.new ≡ hex16 v ++ drop 16 into.old }
{
    if let Some(digits) = into.first_chunk_mut::<16>() {
        put_hex16(v, digits);
    }
}

// Writes decimal digits at the front, and gives their count.
#[inline]
fn put_digits(v: u64, into: &mut [u8]) -> usize
    requires { 20 ≤ length into.old }
    ensures fits { result ≤ 20 }
    ensures within { result ≤ length into.new }
    ensures text { take result into.new ≡ decimal v }
{
    match into.first_chunk_mut::<20>() {
        Some(digits) => put_dec(v, digits),
        None => 0,
    }
}

// Writes a text behind the first `at` bytes, and gives where it ends.
#[inline(always)]
fn append(into: &mut [u8; 256], at: usize, text: &[u8]) -> usize
    requires { at + length text.now ≤ 256 }
    ensures end { result ≡ at + length text.now }
    ensures text { take result into.new ≡ take at into.old ++ text.now }
{
    let end = at + text.len();
    into[at..end].copy_from_slice(text);
    end
}

// Writes 16 hexadecimal digits behind the first `at` bytes, and gives where they end.
#[inline(always)]
fn append_hex(into: &mut [u8; 256], at: usize, v: u64) -> usize
    requires { at ≤ 240 }
    ensures end { result ≡ at + 16 }
    ensures text { take result into.new ≡ take at into.old ++ hex16 v }
{
    put_hex_digits(v, &mut into[at..]);
    at + 16
}

// Writes decimal digits behind the first `at` bytes, and gives where they end.
#[inline]
fn append_decimal(into: &mut [u8; 256], at: usize, v: u64) -> usize
    requires { at ≤ 236 }
    ensures end { result ≤ at + 20 }
    ensures text { take result into.new ≡ take at into.old ++ decimal v }
{
    let count = put_digits(v, &mut into[at..]);
    at + count
}

// Writes a space and a word behind the first `at` bytes, and gives where the word ends.
#[inline]
fn append_word(into: &mut [u8; 256], at: usize, text: &[u8]) -> usize
    requires { at + length text.now < 256 }
    ensures end { result ≡ at + 1 + length text.now }
    ensures text { take result into.new ≡ take at into.old ++ 32 ∷ text.now }
{
    let at = append(into, at, b" ");
    append(into, at, text)
}

// Writes a space and a number behind the first `at` bytes, and gives where the number ends.
#[inline]
fn append_number(into: &mut [u8; 256], at: usize, v: u64) -> usize
    requires { at ≤ 235 }
    ensures end { result ≤ at + 21 }
    ensures text { take result into.new ≡ take at into.old ++ 32 ∷ decimal v }
{
    let at = append(into, at, b" ");
    append_decimal(into, at, v)
}

// Writes a space and an address behind the first `at` bytes, and gives where the address ends.
#[inline]
fn append_address(into: &mut [u8; 256], at: usize, v: u64) -> usize
    requires { at ≤ 235 }
    ensures end { result ≡ at + 17 }
    ensures text { take result into.new ≡ take at into.old ++ 32 ∷ hex16 v }
{
    let at = append(into, at, b" ");
    append_hex(into, at, v)
}

// Writes a place, or `null`, and gives its length.
#[inline(always)]
fn put_place_word(place: u64, into: &mut [u8; 256]) -> usize
    ensures short { result < 256 }
    ensures text { take result into.new ≡ place_text place }
{
    if place == 0 {
        append(into, 0, b"null")
    } else {
        append_hex(into, 0, place)
    }
}

// Writes what a collection did, and gives its length.
fn put_collected(collected: &Collected, into: &mut [u8; 256]) -> usize
    ensures short { result < 256 }
    ensures text { take result into.new ≡ reply_text (Reply.Collected collected.now) }
{
    let at = append(into, 0, b"collected");
    let at = append_number(into, at, u64::from(collected.generation));
    let phase = if collected.background {
        b"background".as_slice()
    } else if collected.fitted {
        b"fit".as_slice()
    } else if collected.compacted {
        b"compact".as_slice()
    } else {
        b"sweep".as_slice()
    };
    let at = append_word(into, at, phase);
    let at = append_word(into, at, b"kept");
    let at = append_number(into, at, collected.kept);
    let at = append_word(into, at, b"freed");
    append_number(into, at, collected.freed)
}

// Writes where an object stands, and gives its length.
fn put_where(found: &Where, into: &mut [u8; 256]) -> usize
    requires { found.now.kind ≤ 3 }
    ensures short { result < 256 }
    ensures text { take result into.new ≡ reply_text (Reply.Where found.now) }
{
    let at = append(into, 0, b"gen");
    let at = append_number(into, at, u64::from(found.generation));
    let segment = match found.kind {
        0 => b"small".as_slice(),
        1 => b"ephemeral".as_slice(),
        2 => b"large".as_slice(),
        _ => b"pinned".as_slice(),
    };
    let at = append_word(into, at, segment);
    let at = append_address(into, at, found.base);
    let at = append_word(into, at, b"size");
    append_number(into, at, found.size)
}

// Writes how much an object's slots reach, and gives its length.
fn put_size(place: u64, objects: u64, bytes: u64, into: &mut [u8; 256]) -> usize
    ensures short { result < 256 }
    ensures text { take result into.new ≡ reply_text (Reply.Size place objects bytes) }
{
    let at = append(into, 0, b"objsize");
    let at = append_address(into, at, place);
    let at = append_word(into, at, b"objects");
    let at = append_number(into, at, objects);
    let at = append_word(into, at, b"bytes");
    append_number(into, at, bytes)
}

// Writes what a step of the background marking did, and gives its length.
fn put_scanned(scanned: u64, gray: u64, into: &mut [u8; 256]) -> usize
    ensures short { result < 256 }
    ensures text { take result into.new ≡ reply_text (Reply.Scanned scanned gray) }
{
    let at = append(into, 0, b"scanned");
    let at = append_number(into, at, scanned);
    let at = append_word(into, at, b"gray");
    append_number(into, at, gray)
}

// Writes the text of a reply, and gives its length.
#[inline]
fn put_text(reply: &Reply, into: &mut [u8; 256]) -> usize
    requires { IsShowable reply.now }
    ensures short { result < 256 }
    ensures text { take result into.new ≡ reply_text reply.now }
{
    match reply {
        Reply::Done => append(into, 0, b"ok"),
        Reply::Place(place) => put_place_word(*place, into),
        Reply::Number(n) => append_decimal(into, 0, *n),
        Reply::Mt(mt) => {
            let at = append(into, 0, b"mt");
            append_address(into, at, *mt)
        }
        Reply::HandleNumber(h) => {
            let at = append(into, 0, b"h");
            append_decimal(into, at, *h)
        }
        Reply::Collected(collected) => put_collected(collected, into),
        Reply::Where(found) => put_where(found, into),
        Reply::Clean => append(into, 0, b"clean"),
        Reply::Size {
            place,
            objects,
            bytes,
        } => put_size(*place, *objects, *bytes, into),
        Reply::Scanned { scanned, gray } => put_scanned(*scanned, *gray, into),
    }
}

// Writes the text of a refusal, and gives its length.
#[inline]
fn put_reason(refusal: &Refusal, into: &mut [u8; 256]) -> usize
    ensures short { result < 256 }
    ensures text { take result into.new ≡ refusal_text refusal.now }
{
    let at = append(into, 0, b"refused");
    let at = append_word(into, at, refusal_name(refusal));
    if let Refusal::Blocked(t) | Refusal::Wait(t) = refusal {
        return append_number(into, at, u64::from(*t));
    }
    at
}

/// Writes the text of a reply and a line feed at the front of `into`, and gives their length. The bytes behind them
/// may be any.
#[inline]
pub fn put_reply(reply: &Reply, into: &mut [u8; 256]) -> usize
    requires { IsShowable reply.now }
    ensures fits { result ≤ 256 }
    ensures text { take result into.new ≡ reply_text reply.now ++ 10 ∷ [] }
{
    let at = put_text(reply, into);
    append(into, at, b"\n")
}

/// Writes that a line was done and a line feed at the front of `into`, and gives their length. The bytes behind them
/// may be any.
#[inline(always)]
pub fn put_done(into: &mut [u8; 256]) -> usize
    ensures fits { result ≤ 256 }
    ensures text { take result into.new ≡ reply_text Reply.Done ++ 10 ∷ [] }
{
    if let Some(front) = into.first_chunk_mut::<3>() {
        *front = *b"ok\n";
    }
    3
}

/// Writes a place, 0 for null, and a line feed at the front of `into`, and gives their length. The bytes behind them
/// may be any.
#[inline(always)]
pub fn put_place(place: u64, into: &mut [u8; 256]) -> usize
    ensures fits { result ≤ 256 }
    ensures text { take result into.new ≡ reply_text (Reply.Place place) ++ 10 ∷ [] }
{
    let at = put_place_word(place, into);
    append(into, at, b"\n")
}

/// Writes a number and a line feed at the front of `into`, and gives their length. The bytes behind them may be any.
#[inline(always)]
pub fn put_number(number: u64, into: &mut [u8; 256]) -> usize
    ensures fits { result ≤ 256 }
    ensures text { take result into.new ≡ reply_text (Reply.Number number) ++ 10 ∷ [] }
{
    let at = append_decimal(into, 0, number);
    append(into, at, b"\n")
}

/// Writes the number of a handle and a line feed at the front of `into`, and gives their length. The bytes behind them
/// may be any.
#[inline(always)]
pub fn put_handle(h: u64, into: &mut [u8; 256]) -> usize
    ensures fits { result ≤ 256 }
    ensures text { take result into.new ≡ reply_text (Reply.HandleNumber h) ++ 10 ∷ [] }
{
    let at = append(into, 0, b"h");
    let at = append_decimal(into, at, h);
    append(into, at, b"\n")
}

/// Writes the text of a refusal and a line feed at the front of `into`, and gives their length. The bytes behind them
/// may be any.
pub fn put_refusal(refusal: &Refusal, into: &mut [u8; 256]) -> usize
    ensures fits { result ≤ 256 }
    ensures text { take result into.new ≡ refusal_text refusal.now ++ 10 ∷ [] }
{
    let at = put_reason(refusal, into);
    append(into, at, b"\n")
}

// The first word that names a refusal.
fn refusal_name(refusal: &Refusal) -> &'static [u8]
    ensures name { IsRefusalName refusal.now result.now }
    ensures short { length result.now ≤ 20 }
{
    match refusal {
        Refusal::TooLong => b"too-long",
        Refusal::Syntax => b"syntax",
        Refusal::UnknownThread => b"unknown-thread",
        Refusal::Blocked(_) => b"blocked",
        Refusal::MidStep => b"mid-step",
        Refusal::NotMidStep => b"not-mid-step",
        Refusal::UnknownType => b"unknown-type",
        Refusal::DuplicateType => b"duplicate-type",
        Refusal::BadShape => b"bad-shape",
        Refusal::TooManyTypes => b"too-many-types",
        Refusal::NoSlot => b"no-slot",
        Refusal::Null => b"null",
        Refusal::Index => b"index",
        Refusal::NotReference => b"not-reference",
        Refusal::IsReference => b"is-reference",
        Refusal::NoHandle => b"no-handle",
        Refusal::HandleKind => b"handle-kind",
        Refusal::TooManyHandles => b"too-many-handles",
        Refusal::TooBig => b"too-big",
        Refusal::Wait(_) => b"wait",
        Refusal::Oom => b"oom",
        Refusal::NoObject => b"no-object",
        Refusal::Empty => b"empty",
        Refusal::NoMemory => b"nomem",
        Refusal::HasReferences => b"has-references",
        Refusal::BackgroundRunning => b"background-running",
        Refusal::NoBackground => b"no-background",
    }
}
