// Which bricks lead back to one below them.
ghost use Rattle.std.specs.Prelude.{◌≡◌, ℕ, ◌+◌, ◌<◌, ◌≤◌, get_or, length, pos, true};
ghost use Rattle.clr_bricks.specs.Bricks as specs;
ghost use Rattle.clr_bricks.specs.Bricks.{back_entry};

/// How many bricks one back entry goes back of so many.
#[inline(always)]
pub fn hop(far: u64) -> u16
    ensures { result ≡ specs.hop far }
{
    if far < 32_767 { far as u16 } else { 32_767 }
}

// How many of these entries, of bricks that follow one another, lead back to the brick below the first one, up to the
// first that doesn't.
pub(crate) fn count_led(entries: &[i16]) -> usize
    ensures within { result ≤ length entries.now }
    ensures led { (i : ℕ) → i < result → get_or entries.now i (pos 0) ≡ back_entry (specs.hop (i + 1)) }
{
    let near = count_near(entries, entries.len().min(32_767));
    if near < 32_767 {
        near
    } else {
        count_far(entries, near)
    }
}

// As `count_led`, of the first `most` entries, each of which leads there by one step: that costs less to compare.
fn count_near(entries: &[i16], most: usize) -> usize
    requires within { most ≤ length entries.now }
    requires near { most ≤ 32767 }
    ensures within { result ≤ most }
    ensures led { (i : ℕ) → i < result → get_or entries.now i (pos 0) ≡ back_entry (specs.hop (i + 1)) }
{
    let mut at = 0;
    while at < most && leads_near(entries[at], at as u64 + 1) {
        at += 1;
    }
    at
}

// As `count_led`, where the first `led` entries are known to lead back.
fn count_far(entries: &[i16], led: usize) -> usize
    requires within { led ≤ length entries.now }
    requires led { (i : ℕ) → i < led → get_or entries.now i (pos 0) ≡ back_entry (specs.hop (i + 1)) }
    ensures within { result ≤ length entries.now }
    ensures led { (i : ℕ) → i < result → get_or entries.now i (pos 0) ≡ back_entry (specs.hop (i + 1)) }
{
    let mut at = led;
    while at < entries.len() && leads_back(entries[at], at as u64 + 1) {
        at += 1;
    }
    at
}

// Whether an entry leads back as it does to a brick so far below, by one step.
#[inline(always)]
fn leads_near(entry: i16, far: u64) -> bool
    requires some { 1 ≤ far }
    requires near { far ≤ 32767 }
    ensures { result ≡ true → entry ≡ back_entry (specs.hop far) }
{
    entry == -(far as i16)
}

// Whether an entry leads back as it does to a brick so far below.
#[inline(always)]
fn leads_back(entry: i16, far: u64) -> bool
    requires { 1 ≤ far }
    ensures { result ≡ true → entry ≡ back_entry (specs.hop far) }
{
    entry == -(hop(far) as i16)
}
