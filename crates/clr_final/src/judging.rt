// A collection judges the entries.
ghost use Rattle.std.specs.Prelude.{◌≡◌, ℕ, ◌+◌, ◌^◌, ◌<◌, ◌≤◌, ◌++◌, [], ◌∷◌, length, slice_index, slice_set};
ghost use Rattle.std.specs.Prelude.{if◌then◌else◌};
ghost use Rattle.clr_final.specs.Queues.{ArePlacesJudged, is_alive, is_woken, IsJudged, HasJudged, MayAsk};

use crate::places::Places;
use crate::{Finals, Verdict};

impl Finals {
    /// Judges the entries: those of objects that are alive stay, the woken ones go behind the f-reachable places, and
    /// the others are gone. What stays and what is woken keeps its order, and there isn't less room.
    pub fn dead<F: Fn(u64) -> Verdict>(&mut self, judge: F)
        requires { MayAsk 0 self.old.entries (λ place. F.pre judge place) }
        ensures { HasJudged (λ place verdict. F.post judge place verdict) 0 self.old self.new }
    {
        self.scan_finalizers(0, &judge);
    }

    /// Judges the entries, as `dead` does, where all objects below `low` are known to be alive, and aren't asked of.
    pub fn dead_from<F: Fn(u64) -> Verdict>(&mut self, low: u64, judge: F)
        requires { MayAsk low self.old.entries (λ place. F.pre judge place) }
        ensures { HasJudged (λ place verdict. F.post judge place verdict) low self.old self.new }
    {
        self.scan_finalizers(low, &judge);
    }

    // Sorts the entries behind the settled ones by their verdicts.
    fn scan_finalizers<F: Fn(u64) -> Verdict>(&mut self, low: u64, judge: &F)
        requires { MayAsk low self.old.entries (λ place. F.pre judge.now place) }
        ensures { HasJudged (λ place verdict. F.post judge.now place verdict) low self.old self.new }
    {
        let start = self.entries.settled(low);
        judge_from(&mut self.entries, &mut self.ready, start, low, judge);
        self.entries.settle();
        self.ready.settle();
    }
}

// Sorts the entries from `start` on. Those before lie below `low`.
fn judge_from<F: Fn(u64) -> Verdict>(
    entries: &mut Places,
    ready: &mut Places,
    start: usize,
    low: u64,
    judge: &F,
)
    requires start { start ≤ length entries.old.items }
    requires below { (i : ℕ) → i < start → slice_index entries.old.items i < low }
    requires room { length ready.old.items + length entries.old.items ≤ ready.old.capacity }
    requires ask { MayAsk low entries.old.items (λ place. F.pre judge.now place) }
    ensures sorted { ArePlacesJudged (λ place verdict. F.post judge.now place verdict) low
        entries.old.items entries.new.items ready.old.items ready.new.items }
    ensures entries_capacity { entries.new.capacity ≡ entries.old.capacity }
    ensures ready_capacity { ready.new.capacity ≡ ready.old.capacity }
{
    let mut kept = start;
    for i in start..entries.len() {
        let place = entries.get(i);
        let verdict = verdict_from(place, low, judge);
        kept = put_by(verdict, entries, ready, place, kept);
    }
    entries.truncate(kept);
}

// Puts a place where its verdict says: an entry that stays behind the first `kept`. Answers how many are kept then.
fn put_by(
    verdict: Verdict,
    entries: &mut Places,
    ready: &mut Places,
    place: u64,
    kept: usize,
) -> usize
    requires kept { kept < length entries.old.items }
    requires fits { kept + 1 < 2 ^ 64 }
    requires room { length ready.old.items < ready.old.capacity }
    ensures kept { result ≡ (if is_alive verdict then kept + 1 else kept) }
    ensures entries { entries.new ≡ record entries.old {
      items =
          if is_alive verdict then slice_set entries.old.items kept place else entries.old.items;
    } }
    ensures ready { ready.new ≡ record ready.old {
      items =
          ready.old.items ++ (if is_woken verdict then place ∷ [] else []);
    } }
{
    match verdict {
        Verdict::Alive => {
            entries.set(kept, place);
            kept + 1
        }
        Verdict::Woken => {
            ready.push(place);
            kept
        }
        Verdict::Dropped => kept,
    }
}

// The verdict on a place.
fn verdict_from<F: Fn(u64) -> Verdict>(place: u64, low: u64, judge: &F) -> Verdict
    requires { low ≤ place → F.pre judge.now place }
    ensures { IsJudged (λ place verdict. F.post judge.now place verdict) low place result }
{
    if place < low {
        Verdict::Alive
    } else {
        judge(place)
    }
}
