//! Numbers from their text.
ghost use Rattle.std.specs.Prelude.{◌≡◌, ℕ, ◌+◌, ◌-◌, ◌*◌, ◌<◌, ◌≤◌, ◌^◌, ◌↔◌, decimal, IsTrue, IsFalse, IfOk, IfSome};
ghost use Rattle.std.specs.Prelude.{IsSome, SomeIff, MatchOption, length};
ghost use Rattle.std.specs.Char.{is_ascii_digit};
ghost use Rattle.std.specs.List.{list_all};
ghost use Rattle.std.specs.Str.Parse.{digits_value};
ghost use Rattle.clr_nums.specs.Numbers.{is_decimal_form, is_hex_digit, is_hex_form, hex_digit, hex16};

/// Why a text is not read as a number.
#[derive(Clone, Copy, PartialEq, Eq, Debug)]
pub enum NumFault {
    /// The text is not in the form of a decimal number.
    NotNumber,
    /// The text is in that form, and its number exceeds a `u64`.
    TooLarge,
}

/// The number that decimal digits write: one or more, with no `0` in front of others, and no sign.
///
/// `NotNumber` comes for a text of another form, and `TooLarge` for one of this form whose number
/// exceeds a `u64`.
pub fn read_dec(text: &[u8]) -> Result<u64, NumFault>
    ensures value { IfOk result (λ n. text.now ≡ decimal n) }
    ensures reads { (n : ℕ) → n < 2 ^ 64 → text.now ≡ decimal n → result ≡ Ok n }
    ensures bound { IfOk result (λ n. n < 2 ^ 64) }
    ensures not_number { (result ≡ Err NumFault.NotNumber) ↔ IsFalse (is_decimal_form text.now) }
    ensures too_large { (result ≡ Err NumFault.TooLarge) ↔
        (IsTrue (is_decimal_form text.now) × (2 ^ 64 ≤ digits_value 10 text.now)) }
{
    if !is_decimal(text) {
        return Err(NumFault::NotNumber);
    }
    number_of(text).ok_or(NumFault::TooLarge)
}

/// The number that 16 hexadecimal digits write, of `0` to `9` and `a` to `f`, and `None` for any other text.
pub fn read_hex(text: &[u8]) -> Option<u64>
    ensures value { IfSome result (λ n. text.now ≡ hex16 n) }
    ensures reads { (n : ℕ) → n < 2 ^ 64 → text.now ≡ hex16 n → result ≡ Some n }
    ensures bound { IfSome result (λ n. n < 2 ^ 64) }
    ensures some { IsSome result ↔ IsTrue (is_hex_form text.now) }
{
    if text.len() == 16 {
        hex_number(text)
    } else {
        None
    }
}

// Whether the text is in the form of a decimal number.
fn is_decimal(text: &[u8]) -> bool
    ensures { result ≡ is_decimal_form text.now }
{
    match text.first() {
        None => false,
        Some(b'0') => text.len() == 1,
        Some(_) => are_digits(text),
    }
}

fn are_digits(text: &[u8]) -> bool
    ensures { result ≡ list_all is_ascii_digit text.now }
{
    text.iter().all(|letter| letter.is_ascii_digit())
}

// The number that decimal digits write, where it fits.
fn number_of(text: &[u8]) -> Option<u64>
    requires { IsTrue (list_all is_ascii_digit text.now) }
    ensures { SomeIff result (digits_value 10 text.now < 2 ^ 64) (digits_value 10 text.now) }
{
    let mut number: u64 = 0;
    for digit in text {
        number = with_digit(number, *digit)?;
    }
    Some(number)
}

// The number with one digit more at its end. 48 is the byte of 0.
fn with_digit(number: u64, digit: u8) -> Option<u64>
    requires { 48 ≤ digit }
    ensures { SomeIff result (number * 10 + (digit - 48) < 2 ^ 64) (number * 10 + (digit - 48)) }
{
    number.checked_mul(10)?.checked_add(u64::from(digit - b'0'))
}

// The number that 16 hexadecimal digits write.
fn hex_number(text: &[u8]) -> Option<u64>
    requires { length text.now ≡ 16 }
    ensures { MatchOption result (IsFalse (is_hex_form text.now)) (λ n. (n < 2 ^ 64) × (text.now ≡ hex16 n)) }
{
    let mut number: u64 = 0;
    for letter in text {
        number = number * 16 + u64::from(hex_value(*letter)?);
    }
    Some(number)
}

fn hex_value(letter: u8) -> Option<u8>
    ensures { MatchOption result (IsFalse (is_hex_digit letter)) (λ d. (d < 16) × (letter ≡ hex_digit d)) }
{
    match letter {
        b'0'..=b'9' => Some(letter - b'0'),
        b'a'..=b'f' => Some(letter - b'a' + 10),
        _ => None,
    }
}
