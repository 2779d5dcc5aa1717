//! Numbers as text.
ghost use Rattle.std.specs.Prelude.{◌≡◌, ◌+◌, ◌<◌, ◌≤◌, [], ◌++◌, take, drop, length, decimal};
ghost use Rattle.clr_nums.specs.Numbers.{decimal_pair, hex_pair, hex_onto, hex16};

// The two decimal digits of each number below 100.
static DECIMAL_PAIRS: [u8; 200] = *b"\
    0001020304050607080910111213141516171819\
    2021222324252627282930313233343536373839\
    4041424344454647484950515253545556575859\
    6061626364656667686970717273747576777879\
    8081828384858687888990919293949596979899";

// The two hexadecimal digits of each byte.
static HEX_PAIRS: [u8; 512] = *b"\
    000102030405060708090a0b0c0d0e0f101112131415161718191a1b1c1d1e1f\
    202122232425262728292a2b2c2d2e2f303132333435363738393a3b3c3d3e3f\
    404142434445464748494a4b4c4d4e4f505152535455565758595a5b5c5d5e5f\
    606162636465666768696a6b6c6d6e6f707172737475767778797a7b7c7d7e7f\
    808182838485868788898a8b8c8d8e8f909192939495969798999a9b9c9d9e9f\
    a0a1a2a3a4a5a6a7a8a9aaabacadaeafb0b1b2b3b4b5b6b7b8b9babbbcbdbebf\
    c0c1c2c3c4c5c6c7c8c9cacbcccdcecfd0d1d2d3d4d5d6d7d8d9dadbdcdddedf\
    e0e1e2e3e4e5e6e7e8e9eaebecedeeeff0f1f2f3f4f5f6f7f8f9fafbfcfdfeff";

/// Writes a number in decimal digits at the front of `into`, and gives the count of digits. The
/// bytes behind them stay.
#[inline]
pub fn put_dec(v: u64, into: &mut [u8; 20]) -> usize
    ensures count { result ≡ length (decimal v) }
    ensures some { 0 < result }
    ensures fits { result ≤ 20 }
    ensures text { take result into.new ≡ decimal v }
    ensures rest { drop result into.new ≡ drop result into.old }
{
    if v < 10_000 {
        put_short(v, into)
    } else {
        put_long(v, into)
    }
}

/// Writes a number as 16 hexadecimal digits, in lower case.
#[inline]
pub fn put_hex16(v: u64, into: &mut [u8; 16])
    ensures { into.new ≡ hex16 v }
{
    let high = v >> 32;
    if high == 0 {
        into[..8].copy_from_slice(b"00000000");
    } else {
        put_hex8(high, &mut into[..8]);
    }
    put_hex8(v, &mut into[8..]);
}

// Writes a number of any length, its last four digits behind the others.
#[inline(never)]
fn put_long(v: u64, into: &mut [u8; 20]) -> usize
    ensures count { result ≡ length (decimal v) }
    ensures text { into.new ≡ decimal v ++ drop result into.old }
{
    if v < 10_000 {
        return put_short(v, into);
    }
    let count = put_long(v / 10_000, into);
    put_pair(decimal_pair(v % 10_000 / 100), into, count);
    put_pair(decimal_pair(v % 100), into, count + 2);
    count + 4
}

// Writes a number of one to four digits.
#[inline]
fn put_short(v: u64, into: &mut [u8; 20]) -> usize
    requires { v < 10000 }
    ensures count { result ≡ length (decimal v) }
    ensures text { into.new ≡ decimal v ++ drop result into.old }
{
    if v < 100 {
        return put_first(v, into);
    }
    let count = put_first(v / 100, into);
    put_pair(decimal_pair(v % 100), into, count);
    count + 2
}

// Writes a number of one or two digits.
#[inline]
fn put_first(v: u64, into: &mut [u8; 20]) -> usize
    requires { v < 100 }
    ensures count { result ≡ length (decimal v) }
    ensures text { into.new ≡ decimal v ++ drop result into.old }
{
    if v < 10 {
        into[0] = b'0' + v as u8;
        return 1;
    }
    put_pair(decimal_pair(v), into, 0);
    2
}

// Writes the last eight hexadecimal digits of a number.
#[inline]
fn put_hex8(v: u64, into: &mut [u8])
    requires { length into.old ≡ 8 }
    ensures { into.new ≡ hex_onto 8 v [] }
{
    let mut rest = v;
    for pair in (0..4).rev() {
        put_pair(hex_pair((rest % 256) as u8), into, 2 * pair);
        rest /= 256;
    }
}

// Writes two bytes behind the first `at` bytes.
#[inline]
fn put_pair(pair: [u8; 2], into: &mut [u8], at: usize)
    requires { at + 2 ≤ length into.old }
    ensures { into.new ≡ take at into.old ++ pair ++ drop (at + 2) into.old }
{
    into[at] = pair[0];
    into[at + 1] = pair[1];
}

// The two decimal digits of a number below 100.
#[inline]
fn decimal_pair(number: u64) -> [u8; 2]
    requires { number < 100 }
    ensures { result ≡ decimal_pair number }
{
    let from = 2 * number as usize;
    [DECIMAL_PAIRS[from], DECIMAL_PAIRS[from + 1]]
}

// The two hexadecimal digits of a byte.
#[inline]
fn hex_pair(byte: u8) -> [u8; 2]
    ensures { result ≡ hex_pair byte }
{
    let from = 2 * usize::from(byte);
    [HEX_PAIRS[from], HEX_PAIRS[from + 1]]
}
