// What a collection does to handles whose targets aren't kept.
ghost use Rattle.std.specs.Prelude.{◌≡◌, ℕ, ◌+◌, ◌*◌, ◌<◌, ◌≤◌};
ghost use Rattle.std.specs.FinMap as finmap;
ghost use Rattle.clr_handles.specs.Places.{IsCleared, IsKept, MayAsk, MayAskOf, nulled};
ghost use Rattle.clr_handles.specs.Changes.{BecomesAt, BecomesWithin, EachBecomes};
ghost use Rattle.clr_handles.specs.Tops.{IsTop, KeepsCounts};

use crate::rows::Rows;
use crate::tops::CHUNK;
use crate::{Handle, Handles, Kind};

impl Handles {
    /// Makes null the target of each short weak handle whose target isn't kept. `kept` is asked of the targets that
    /// aren't null. All other handles stay.
    pub fn clear_short<F: Fn(u64) -> bool>(&mut self, kept: F)
        requires { MayAsk Kind.Weak 0 self.old (λ place. F.pre kept place) }
        ensures { EachBecomes (IsCleared Kind.Weak (λ place answer. F.post kept place answer) 0) self.old self.new }
    {
        self.clear(Kind::Weak, 0, &kept);
    }

    /// Clears short weak handles, as `clear_short` does, where all places below `low` are known to be kept, and aren't
    /// asked of.
    pub fn clear_short_from<F: Fn(u64) -> bool>(&mut self, low: u64, kept: F)
        requires { MayAsk Kind.Weak low self.old (λ place. F.pre kept place) }
        ensures { EachBecomes (IsCleared Kind.Weak (λ place answer. F.post kept place answer) low) self.old self.new }
    {
        self.clear(Kind::Weak, low, &kept);
    }

    /// Makes null the target of each long weak handle whose target isn't kept. `kept` is asked of the targets that
    /// aren't null. All other handles stay.
    pub fn clear_long<F: Fn(u64) -> bool>(&mut self, kept: F)
        requires { MayAsk Kind.WeakLong 0 self.old (λ place. F.pre kept place) }
        ensures { EachBecomes (IsCleared Kind.WeakLong (λ place answer. F.post kept place answer) 0) self.old self.new }
    {
        self.clear(Kind::WeakLong, 0, &kept);
    }

    /// Clears long weak handles, as `clear_long` does, where all places below `low` are known to be kept, and aren't
    /// asked of.
    pub fn clear_long_from<F: Fn(u64) -> bool>(&mut self, low: u64, kept: F)
        requires { MayAsk Kind.WeakLong low self.old (λ place. F.pre kept place) }
        ensures { EachBecomes (IsCleared Kind.WeakLong (λ place answer. F.post kept place answer) low)
            self.old self.new }
    {
        self.clear(Kind::WeakLong, low, &kept);
    }

    /// Makes null both parts of each dependent handle whose target isn't kept. `kept` is asked of the targets that
    /// aren't null. All other handles stay.
    pub fn clear_dependent<F: Fn(u64) -> bool>(&mut self, kept: F)
        requires { MayAsk Kind.Dependent 0 self.old (λ place. F.pre kept place) }
        ensures { EachBecomes (IsCleared Kind.Dependent (λ place answer. F.post kept place answer) 0)
            self.old self.new }
    {
        self.clear(Kind::Dependent, 0, &kept);
    }

    /// Clears dependent handles, as `clear_dependent` does, where all places below `low` are known to be kept, and
    /// aren't asked of.
    pub fn clear_dependent_from<F: Fn(u64) -> bool>(&mut self, low: u64, kept: F)
        requires { MayAsk Kind.Dependent low self.old (λ place. F.pre kept place) }
        ensures { EachBecomes (IsCleared Kind.Dependent (λ place answer. F.post kept place answer) low)
            self.old self.new }
    {
        self.clear(Kind::Dependent, low, &kept);
    }

    // Clears the handles of a kind that aren't kept, where there are any. Chunks that name nothing from `low` on are
    // passed over.
    fn clear<F: Fn(u64) -> bool>(&mut self, kind: Kind, low: u64, kept: &F)
        requires { MayAsk kind low self.old (λ place. F.pre kept.now place) }
        ensures { EachBecomes (IsCleared kind (λ place answer. F.post kept.now place answer) low) self.old self.new }
    {
        if !self.has_kind(kind) {
            return;
        }
        for chunk in 0..self.tops.len() {
            clear_chunk(
                &mut self.rows,
                chunk as u64,
                self.tops[chunk],
                kind,
                low,
                kept,
            );
        }
    }
}

// Clears in one chunk, unless its top is below `low`.
fn clear_chunk<F: Fn(u64) -> bool>(
    rows: &mut Rows,
    chunk: u64,
    top: u64,
    kind: Kind,
    low: u64,
    kept: &F,
)
    requires few { chunk < 1024 }
    requires top { IsTop rows.old chunk top }
    requires ask { (h : ℕ) → 64 * chunk ≤ h → h < 64 * chunk + 64
        → MayAskOf kind low (finmap.get rows.old h) (λ place. F.pre kept.now place) }
    ensures cleared { BecomesWithin (IsCleared kind (λ place answer. F.post kept.now place answer) low)
        rows.old rows.new (64 * chunk) (64 * chunk + 64) }
    ensures counts { KeepsCounts rows.old rows.new }
{
    if top < low {
        return;
    }
    let first = CHUNK * chunk;
    for h in first..first + CHUNK {
        clear_row(rows, h, kind, low, kept);
    }
}

// Clears one handle.
fn clear_row<F: Fn(u64) -> bool>(rows: &mut Rows, h: u64, kind: Kind, low: u64, kept: &F)
    requires { MayAskOf kind low (finmap.get rows.old h) (λ place. F.pre kept.now place) }
    ensures cleared { BecomesAt (IsCleared kind (λ place answer. F.post kept.now place answer) low)
        rows.old rows.new h }
    ensures counts { KeepsCounts rows.old rows.new }
{
    if let Some(handle) = rows.get(h) {
        if handle.kind == kind && !is_kept(handle.target, low, kept) {
            rows.set(h, nulled(&handle));
        }
    }
}

// Whether a place is kept.
fn is_kept<F: Fn(u64) -> bool>(place: u64, low: u64, kept: &F) -> bool
    requires { 0 < place → low ≤ place → F.pre kept.now place }
    ensures { IsKept (λ place answer. F.post kept.now place answer) low place result }
{
    place != 0 && (place < low || kept(place))
}

// The handle, when what it names isn't kept: a dependent one loses both parts, any other its target.
fn nulled(handle: &Handle) -> Handle
    ensures { result ≡ nulled handle.now }
{
    Handle {
        kind: handle.kind,
        target: 0,
        second: match handle.kind {
            Kind::Dependent => 0,
            _ => handle.second,
        },
    }
}
