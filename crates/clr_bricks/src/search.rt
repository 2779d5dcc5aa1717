// The search for the brick that names an offset, below a brick and above it.
ghost use Rattle.std.specs.Prelude.{ℕ, ◌-◌, ◌<◌, ◌≤◌, ◌↔◌, IfSome, IsTrue, get_or, length, pos};
ghost use Rattle.clr_covers.specs.Covers.{IsAt};
ghost use Rattle.clr_bricks.specs.Bricks.{IsRoot, IsSearched};

use clr_covers::Covers;
use clr_nums::Steps;
use std::sync::ledger::Ledger;

// Follows back entries from the brick `from` of cover `k`. Each entry that is read counts one step.
pub(crate) fn search<L: Ledger>(
    covers: &Covers<i16>,
    k: usize,
    from: u64,
    steps: &mut Steps<L>,
) -> Option<u64>
    requires { IsAt covers.now k from }
    ensures searched { IsSearched covers.now from result (steps.new - steps.old) }
    ensures there { IfSome result (IsAt covers.now k) }
    ensures below { IfSome result (λ b. b ≤ from) }
{
    let first = covers.first(k);
    let mut at = from;
    'back: loop {
        steps.tick();
        let entry = covers.value(k, at);
        if entry > 0 {
            return Some(at);
        }
        if entry == 0 {
            return None;
        }
        let back = u64::from(entry.unsigned_abs());
        if back > at - first {
            return None;
        }
        at -= back;
    }
}

// The place of the first of these entries that names an offset, and how many there are where none does.
pub(crate) fn first_root(entries: &[i16]) -> usize
    ensures within { result ≤ length entries.now }
    ensures none { (i : ℕ) → i < result → IsRoot (get_or entries.now i (pos 0)) → ⊥ }
    ensures found { result < length entries.now → IsRoot (get_or entries.now result (pos 0)) }
{
    let mut at = 0;
    while at < entries.len() && !is_root(entries[at]) {
        at += 1;
    }
    at
}

// Whether an entry names an offset.
#[inline(always)]
fn is_root(entry: i16) -> bool
    ensures { IsTrue result ↔ IsRoot entry }
{
    entry > 0
}
