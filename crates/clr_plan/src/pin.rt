// The pins that the walk has met, among the entries of the queue.
ghost use Rattle.std.specs.Prelude.{◌≡◌, ◌∷◌, ◌<◌, ◌≤◌, [], IfSome, MatchOption, length};
ghost use Rattle.clr_plan.specs.Waiting.{ranges_from};
ghost use Rattle.clr_plan.specs.Pins.{IsPinFrom};

use clr_pinq::PinQueue;

/// The range of a pinned plug, and the number of the entry behind its own.
#[derive(Clone, Copy)]
pub struct Pin {
    pub place: u64,
    pub end: u64,
    pub behind: usize,
}

/// The first pin of the queue's entries from number `start` on, where there is one. An entry that ends where it starts
/// is no pin.
pub fn next_pin(queue: &PinQueue, start: usize) -> Option<Pin>
    requires within { start ≤ length queue.now.entries }
    ensures some { IfSome result (IsPinFrom queue.now.entries start) }
    ensures none { MatchOption result (ranges_from start queue.now.entries ≡ []) (λ x. Unit {0}) }
{
    let mut i = start;
    while i < queue.len() {
        let entry = queue.get(i);
        if entry.start < entry.end {
            return Some(Pin {
                place: entry.start,
                end: entry.end,
                behind: i + 1,
            });
        }
        i += 1;
    }
    None
}
