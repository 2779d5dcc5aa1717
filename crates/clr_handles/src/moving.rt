// Handles follow the objects that they name to new places.
ghost use Rattle.std.specs.Prelude.{◌≡◌, ℕ, ◌+◌, ◌*◌, ◌<◌, ◌≤◌, ◌&&◌, true, MatchBool, Some};
ghost use Rattle.std.specs.FinMap as finmap;
ghost use Rattle.clr_types.specs.Kinds.{is_pinned_kind};
ghost use Rattle.clr_types.specs.declared.handle.Handle.{Handle as Row};
ghost use Rattle.clr_handles.specs.Places.{IsFollowed, IsMoved, IsRelocated, MayFollow, MayFollowAll};
ghost use Rattle.clr_handles.specs.Changes.{BecomesAt, BecomesWithin, EachBecomes};
ghost use Rattle.clr_handles.specs.Tops.{IsTop, KeepsCounts, reach};

use crate::rows::Rows;
use crate::tops::{CHUNK, reach_of};
use crate::{Handle, Handles};

impl Handles {
    /// Gives each handle the new places of what it names. `to` is asked of the places that aren't null.
    pub fn relocate<F: Fn(u64) -> u64>(&mut self, to: F)
        requires { MayFollowAll 0 self.old (λ place. F.pre to place) }
        ensures { EachBecomes (IsRelocated (λ place moved. F.post to place moved) 0) self.old self.new }
    {
        self.follow(false, 0, &to);
    }

    /// Gives each handle the new places of what it names, where all places below `low` are known to stay, and aren't
    /// asked of.
    pub fn relocate_from<F: Fn(u64) -> u64>(&mut self, low: u64, to: F)
        requires { MayFollowAll low self.old (λ place. F.pre to place) }
        ensures { EachBecomes (IsRelocated (λ place moved. F.post to place moved) low) self.old self.new }
    {
        self.follow(false, low, &to);
    }

    /// Gives each handle the new places of what it names, where all places below `low` and what pinned handles pin are
    /// known to stay, and aren't asked of.
    pub fn relocate_unpinned_from<F: Fn(u64) -> u64>(&mut self, low: u64, to: F)
        requires { MayFollowAll low self.old (λ place. F.pre to place) }
        ensures { EachBecomes (IsFollowed true (λ place moved. F.post to place moved) low) self.old self.new }
    {
        self.follow(true, low, &to);
    }

    // Moves what handles name, but spares the targets of pinned ones where `spares` says so. Chunks that name nothing
    // from `low` on are passed over, the tops of the others are made anew.
    fn follow<F: Fn(u64) -> u64>(&mut self, spares: bool, low: u64, to: &F)
        requires { MayFollowAll low self.old (λ place. F.pre to.now place) }
        ensures { EachBecomes (IsFollowed spares (λ place moved. F.post to.now place moved) low) self.old self.new }
    {
        for chunk in 0..self.tops.len() {
            let top = self.tops[chunk];
            self.tops[chunk] = follow_in_chunk(&mut self.rows, chunk as u64, top, spares, low, to);
        }
    }
}

// Moves what the handles of one chunk name, unless its top is below `low`. Answers the chunk's new top.
fn follow_in_chunk<F: Fn(u64) -> u64>(
    rows: &mut Rows,
    chunk: u64,
    top: u64,
    spares: bool,
    low: u64,
    to: &F,
) -> u64
    requires few { chunk < 1024 }
    requires top { IsTop rows.old chunk top }
    requires follow { (h : ℕ) → 64 * chunk ≤ h → h < 64 * chunk + 64
        → MayFollow low (finmap.get rows.old h) (λ place. F.pre to.now place) }
    ensures moved { BecomesWithin (IsFollowed spares (λ place moved. F.post to.now place moved) low)
        rows.old rows.new (64 * chunk) (64 * chunk + 64) }
    ensures counts { KeepsCounts rows.old rows.new }
    ensures top { IsTop rows.new chunk result }
{
    if top < low {
        return top;
    }
    let first = CHUNK * chunk;
    let mut new_top = 0;
    for h in first..first + CHUNK {
        let high = follow_in_row(rows, h, spares, low, to);
        new_top = new_top.max(high);
    }
    new_top
}

// Moves what one handle names. Answers how high it reaches then.
fn follow_in_row<F: Fn(u64) -> u64>(rows: &mut Rows, h: u64, spares: bool, low: u64, to: &F) -> u64
    requires { MayFollow low (finmap.get rows.old h) (λ place. F.pre to.now place) }
    ensures moved { BecomesAt (IsFollowed spares (λ place moved. F.post to.now place moved) low) rows.old rows.new h }
    ensures counts { KeepsCounts rows.old rows.new }
    ensures reach { (row : Row) → finmap.get rows.new h ≡ Some row → reach row ≤ result }
{
    let Some(handle) = rows.get(h) else {
        return 0;
    };
    let moved = Handle {
        kind: handle.kind,
        target: moved_target(handle, spares, low, to),
        second: moved_place(handle.second, low, to),
    };
    rows.set(h, moved);
    reach_of(&moved)
}

// Where the target of a handle has moved.
fn moved_target<F: Fn(u64) -> u64>(handle: Handle, spares: bool, low: u64, to: &F) -> u64
    requires { 0 < handle.target → low ≤ handle.target → F.pre to.now handle.target }
    ensures { MatchBool (spares && is_pinned_kind handle.kind) (result ≡ handle.target)
        (IsMoved (λ place moved. F.post to.now place moved) low handle.target result) }
{
    if spares && handle.kind.is_pinned() {
        handle.target
    } else {
        moved_place(handle.target, low, to)
    }
}

// Where a place has moved.
fn moved_place<F: Fn(u64) -> u64>(place: u64, low: u64, to: &F) -> u64
    requires { 0 < place → low ≤ place → F.pre to.now place }
    ensures { IsMoved (λ place moved. F.post to.now place moved) low place result }
{
    if place == 0 || place < low {
        place
    } else {
        to(place)
    }
}
