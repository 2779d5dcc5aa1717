// The bits of all segments that there were at the first pause.
ghost use Rattle.std.specs.Prelude.{◌≡◌, ℕ, ◌%◌, ◌<◌, ◌≤◌, true, false, length, get_or, if◌then◌else◌, IfSome, IfNone};
ghost use Rattle.clr_bgmark.specs.Shades.{changed_at, colour_at, covers, is_covered, is_gray, is_logged, is_outside};
ghost use Rattle.clr_bgmark.specs.Shades.{is_white, IsAt, IsBackground, IsWatched, with_marked, with_scanned, with_set};
ghost use Rattle.clr_bgmark.specs.Shades as shades;

use crate::background::Colour;
use crate::pending::Pending;
use crate::shade::{Bit, Shade};

/// The number of the segment that has the address, by halving.
pub(crate) fn find(shades: &Vec<Shade>, a: u64) -> Option<usize>
    requires { IsBackground shades.now.items }
    ensures within { IfSome result (λ k. k < length shades.now.items) }
    ensures at { IfSome result (λ k. IsAt shades.now.items k a) }
    ensures none { IfNone result (is_covered shades.now.items a ≡ false) }
{
    let count = shades.len();
    if count == 0 {
        return None;
    }
    let mut low = 0;
    let mut high = count;
    while low + 1 < high {
        let middle = low + (high - low) / 2;
        if shades[middle].base() <= a {
            low = middle;
        } else {
            high = middle;
        }
    }
    if shades[low].covers(a) {
        return Some(low);
    }
    None
}

/// The number of the segment that has the address, at once where that is `near`, a guess.
#[inline(always)]
pub(crate) fn find_near(shades: &Vec<Shade>, near: usize, a: u64) -> Option<usize>
    requires { IsBackground shades.now.items }
    ensures within { IfSome result (λ k. k < length shades.now.items) }
    ensures at { IfSome result (λ k. IsAt shades.now.items k a) }
    ensures none { IfNone result (is_covered shades.now.items a ≡ false) }
{
    if is_in(shades, near, a) {
        return Some(near);
    }
    find(shades, a)
}

/// Whether segment `k` is there, and has the address.
#[inline(always)]
pub(crate) fn is_in(shades: &Vec<Shade>, k: usize, a: u64) -> bool
    ensures { result ≡ true → (d : _)
        → (k < length shades.now.items) × (covers (get_or shades.now.items k d) a ≡ true) }
{
    match shades.get(k) {
        Some(shade) => shade.covers(a),
        None => false,
    }
}

/// The colour of a place in segment `k`.
#[inline(always)]
pub(crate) fn colour_in(shades: &Vec<Shade>, k: usize, a: u64) -> Colour
    requires within { k < length shades.now.items }
    requires at { IsAt shades.now.items k a }
    ensures { result ≡ colour_at shades.now.items a }
{
    let shade = &shades[k];
    let scanned = shade.is_scanned(a);
    let marked = shade.is_marked(a);
    let taken = shade.is_taken(a);
    colour_by(scanned, marked, taken)
}

// The colour that three bits tell.
#[inline(always)]
fn colour_by(scanned: bool, marked: bool, taken: bool) -> Colour
    ensures { result ≡ shades.colour_by scanned marked taken }
{
    if scanned {
        Colour::Black
    } else if marked {
        Colour::Gray
    } else if taken {
        Colour::White
    } else {
        Colour::Outside
    }
}

/// A reference to a place in segment `k` is met: where the place is white it becomes gray. It answers the colour that
/// the place had; but black may be told as gray.
#[inline(always)]
pub(crate) fn meet_in(shades: &mut Vec<Shade>, k: usize, a: u64) -> Colour
    requires within { k < length shades.old.items }
    requires at { IsAt shades.old.items k a }
    ensures shades { shades.new.items
        ≡ (if is_white result then changed_at a (with_marked a) shades.old.items else shades.old.items) }
    ensures white { is_white result ≡ is_white (colour_at shades.old.items a) }
    ensures outside { is_outside result ≡ is_outside (colour_at shades.old.items a) }
{
    let shade = &mut shades[k];
    match shade.colour_met(a) {
        Colour::White => {
            shade.set_bit(Bit::Marked, a);
            Colour::White
        }
        Colour::Outside => Colour::Outside,
        Colour::Gray => Colour::Gray,
        Colour::Black => Colour::Black,
    }
}

/// Whether the card of a slot in segment `k` is logged.
pub(crate) fn logged_in(shades: &Vec<Shade>, k: usize, a: u64) -> bool
    requires within { k < length shades.now.items }
    requires at { IsAt shades.now.items k a }
    ensures { result ≡ is_logged shades.now.items a }
{
    shades[k].is_logged(a)
}

/// The lowest gray place, which is scanned then, and the number of its segment, a guess. What is pending are segments
/// that may have some.
#[inline(always)]
pub(crate) fn take_gray(shades: &mut Vec<Shade>, pending: &mut Pending) -> Option<(usize, u64)>
    requires { IsWatched shades.old.items pending.old.numbers }
    ensures taken { IfSome result (λ f. shades.new.items ≡ changed_at f.1 (with_scanned f.1) shades.old.items) }
    ensures same { IfNone result (shades.new.items ≡ shades.old.items) }
    ensures watched { IsWatched shades.new.items pending.new.numbers }
    ensures gray { IfSome result (λ f. is_gray shades.old.items f.1 ≡ true) }
    ensures lowest { IfSome result (λ f. (a : ℕ) → is_gray shades.old.items a ≡ true → f.1 ≤ a) }
    ensures aligned { IfSome result (λ f. f.1 % 8 ≡ 0) }
    ensures none { IfNone result ((a : ℕ) → is_gray shades.old.items a ≡ false) }
{
    let past = shades.len() as u64;
    let mut k = pending.lowest();
    while k < past {
        let shade = &mut shades[k as usize];
        if let Some(a) = shade.take_gray() {
            return Some((k as usize, a));
        }
        k = pending.pass(past);
    }
    None
}

/// Sets a bit of an address, where its segment is there: it is looked for at once where that is `near`, a guess. It
/// answers the guess for the next address.
pub(crate) fn set_bit_near(shades: &mut Vec<Shade>, near: usize, bit: Bit, a: u64) -> usize
    requires { IsBackground shades.old.items }
    ensures { shades.new.items ≡ changed_at a (with_set bit a) shades.old.items }
{
    match find_near(shades, near, a) {
        Some(k) => {
            set_bit_in(shades, k, bit, a);
            k
        }
        None => near,
    }
}

/// Sets a bit of an address in segment `k`.
#[inline(always)]
pub(crate) fn set_bit_in(shades: &mut Vec<Shade>, k: usize, bit: Bit, a: u64)
    requires within { k < length shades.old.items }
    requires at { IsAt shades.old.items k a }
    ensures { shades.new.items ≡ changed_at a (with_set bit a) shades.old.items }
{
    let shade = &mut shades[k];
    shade.set_bit(bit, a);
}
