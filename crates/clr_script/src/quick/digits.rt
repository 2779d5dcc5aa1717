//! Numbers, and words with a number, at the front of a text.
ghost use Rattle.std.specs.Prelude.{◌≡◌, ◌<◌, ◌^◌, ◌∷◌, ◌++◌, [], ℕ, IfSome, decimal};
ghost use Rattle.clr_model.specs.LineGrammar.{local_word, handle_word, thread_word};
ghost use Rattle.clr_script.specs.Fronts.{behind};

/// Below this number one digit more fits 64 bits.
const ROOM: u64 = 1_000_000_000_000_000_000;

// The number that this digit begins and those in front of the text go on, of at most 19 digits, and what is behind
// them. A number of one digit is the most frequent.
#[inline(always)]
fn number_from(first: u8, text: &[u8]) -> Option<(u64, &[u8])>
    ensures { IfSome result (λ p. (first ∷ text.now ≡ decimal p.0 ++ p.1.now) × (p.0 < 2 ^ 64)) }
{
    if !first.is_ascii_digit() {
        return None;
    }
    let front = u64::from(first - b'0');
    match text {
        [b'0'..=b'9', ..] => Some(long_number(front, text)),
        _ => Some((front, text)),
    }
}

// The number that `front` begins and more digits go on, and what is behind them. Nothing goes on behind a digit 0.
#[inline(always)]
fn long_number(front: u64, text: &[u8]) -> (u64, &[u8])
    requires { front < 10 }
    ensures read { decimal front ++ text.now ≡ decimal result.0 ++ result.1.now }
    ensures fits { result.0 < 2 ^ 64 }
{
    if front == 0 {
        return (0, text);
    }
    more_digits(front, text)
}

// The number with the digits that stand in front behind its own, up to 19 digits, and what is behind them.
#[inline(always)]
fn more_digits(front: u64, text: &[u8]) -> (u64, &[u8])
    requires some { 0 < front }
    requires digit { front < 10 }
    ensures read { decimal front ++ text.now ≡ decimal result.0 ++ result.1.now }
    ensures fits { result.0 < 2 ^ 64 }
{
    let mut number = front;
    let mut rest = text;
    while number < ROOM {
        let Some((next, more)) = rest.split_first() else {
            break;
        };
        if !next.is_ascii_digit() {
            break;
        }
        number = number * 10 + u64::from(*next - b'0');
        rest = more;
    }
    (number, rest)
}

/// The thread whose word is the first of a line, and what is behind the space after it.
#[inline(always)]
pub fn take_thread(text: &[u8]) -> Option<(u64, &[u8])>
    ensures { IfSome result (λ p. (text.now ≡ thread_word p.0 ++ 32 ∷ p.1.now) × (p.0 < 2 ^ 64)) }
{
    match text {
        [b't', first, rest @ ..] => spaced_number(*first, rest),
        _ => None,
    }
}

// The number that this digit begins, whose others go up to a space, and what is behind that. Most threads have one
// digit.
#[inline(always)]
fn spaced_number(first: u8, text: &[u8]) -> Option<(u64, &[u8])>
    ensures { IfSome result (λ p. (first ∷ text.now ≡ decimal p.0 ++ 32 ∷ p.1.now) × (p.0 < 2 ^ 64)) }
{
    if !first.is_ascii_digit() {
        return None;
    }
    let front = u64::from(first - b'0');
    if let Some(rest) = behind_space(text) {
        return Some((front, rest));
    }
    let (number, more) = long_number(front, text);
    let rest = behind_space(more)?;
    Some((number, rest))
}

// What is behind the space that stands in front.
#[inline(always)]
fn behind_space(text: &[u8]) -> Option<&[u8]>
    ensures { IfSome result (λ rest. text.now ≡ 32 ∷ rest.now) }
{
    match text {
        [b' ', rest @ ..] => Some(rest),
        _ => None,
    }
}

/// The number of the next word, and what is behind it.
#[inline(always)]
pub fn take_number(text: &[u8]) -> Option<(u64, &[u8])>
    ensures { IfSome result (λ p. (text.now ≡ (32 ∷ decimal p.0) ++ p.1.now) × (p.0 < 2 ^ 64)) }
{
    match text {
        [b' ', first, rest @ ..] => number_from(*first, rest),
        _ => None,
    }
}

/// The local of the next word, and what is behind it.
#[inline(always)]
pub fn take_local(text: &[u8]) -> Option<(u64, &[u8])>
    ensures { IfSome result (λ p. (text.now ≡ (32 ∷ 108 ∷ decimal p.0) ++ p.1.now) × (p.0 < 2 ^ 64)) }
{
    match text {
        [b' ', b'l', first, rest @ ..] => number_from(*first, rest),
        _ => None,
    }
}

// The number that this digit begins, whose others are the whole text.
#[inline]
fn whole_number(first: u8, text: &[u8]) -> Option<u64>
    ensures { IfSome result (λ n. (first ∷ text.now ≡ decimal n) × (n < 2 ^ 64)) }
{
    match number_from(first, text) {
        Some((number, [])) => Some(number),
        _ => None,
    }
}

/// The local that is the last word of a text.
#[inline]
pub fn last_local(text: &[u8]) -> Option<u64>
    ensures { IfSome result (λ k. (text.now ≡ behind (local_word k ∷ [])) × (k < 2 ^ 64)) }
{
    match text {
        [b' ', b'l', first, rest @ ..] => whole_number(*first, rest),
        _ => None,
    }
}

/// The handle that is the last word of a text.
#[inline]
pub fn last_handle(text: &[u8]) -> Option<u64>
    ensures { IfSome result (λ h. (text.now ≡ behind (handle_word h ∷ [])) × (h < 2 ^ 64)) }
{
    match text {
        [b' ', b'h', first, rest @ ..] => whole_number(*first, rest),
        _ => None,
    }
}

// The number that this digit begins, whose others go up to a line feed, and what is behind that.
#[inline(always)]
fn ended_number(first: u8, text: &[u8]) -> Option<(u64, &[u8])>
    ensures { IfSome result (λ p. (first ∷ text.now ≡ decimal p.0 ++ 10 ∷ p.1.now) × (p.0 < 2 ^ 64)) }
{
    match number_from(first, text) {
        Some((number, [b'\n', rest @ ..])) => Some((number, rest)),
        _ => None,
    }
}

/// The number that is the last word of a line, and what is behind its line feed.
#[inline(always)]
pub fn end_number(text: &[u8]) -> Option<(u64, &[u8])>
    ensures { IfSome result (λ p. (text.now ≡ (32 ∷ decimal p.0) ++ 10 ∷ p.1.now) × (p.0 < 2 ^ 64)) }
{
    match text {
        [b' ', first, rest @ ..] => ended_number(*first, rest),
        _ => None,
    }
}
