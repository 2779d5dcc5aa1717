// The moves of the plugs of all parts, by rising start.
ghost use Rattle.std.specs.Prelude.{◌≡◌, ◌≢◌, ℕ, ◌+◌, ◌≤◌, List, [], length, MatchOption};
ghost use Rattle.clr_types.specs.Types.{TypeRow};
ghost use Rattle.clr_model.specs.Compaction.{Move};
ghost use Rattle.clr_plugs.specs.Plans.{PlannedPart, PlannedPlug};
ghost use Rattle.clr_moves.specs.declared.condemned.Condemned.{Condemned};
ghost use Rattle.clr_moves.specs.Told.{TellMoves};
ghost use Rattle.clr_moves.specs.PlugMoves.{CanEnter, CanRead, Gives, HasGiven, HasRead};

use crate::condemned::{Condemned, part_start, takes_part};
use crate::moves::PlugMove;
use crate::run::run_end;
use clr_bricks::Bricks;
use clr_heap::Heap;
use clr_plugs::{PlugCursor, info};
use clr_types::Types;
use std::marker::Model;

/// Goes over the plugs of all parts, by rising start, and tells where each of them goes.
///
/// One plug is read ahead, since a plug ends where the unused bytes before the next one begin. So the words of the
/// plugs that it has given may be written over, and those before the next one too.
#[derive(Drop)]
pub struct PlugMoves {
    segment: usize,
    cursor: PlugCursor,
    start: u64,
    to: u64,
}

impl Model for PlugMoves {
    ghost use Rattle.clr_moves.specs.PlugMoves.{PlugMovesView};

    ghost Value = { PlugMovesView };

    ghost view = { λ l. record { segment = l.segment; cursor = l.cursor; start = l.start; to = l.to } };
}

impl PlugMoves {
    /// Before the first plug.
    pub fn new(heap: &Heap, types: &Types, bricks: &Bricks, g: Condemned) -> PlugMoves
        requires { (vs : List Move) × TellMoves types.now heap.now bricks.now g vs }
        ensures { (vs : List Move) → TellMoves types.now heap.now bricks.now g vs
            → Gives types.now heap.now bricks.now g result vs }
    {
        heap.lawful();
        let mut moves = PlugMoves {
            segment: 0,
            cursor: PlugCursor::new(0, 0),
            start: 0,
            to: 0,
        };
        moves.enter(heap, bricks, g);
        moves
    }

    /// The next plug and where it goes, and `None` where none is left.
    pub fn next(
        &mut self,
        heap: &Heap,
        types: &Types,
        bricks: &Bricks,
        g: Condemned,
    ) -> Option<PlugMove>
        requires { (vs : List Move) × Gives types.now heap.now bricks.now g self.old vs }
        ensures { (vs : List Move) → Gives types.now heap.now bricks.now g self.old vs
            → MatchOption result (vs ≡ []) (HasGiven types.now heap.now bricks.now g self.new vs) }
    {
        self.seek(heap, bricks, g);
        if self.start == 0 {
            return None;
        }
        Some(self.step(heap, types, bricks))
    }

    // Goes on to the segments above until a plug is at hand.
    fn seek(&mut self, heap: &Heap, bricks: &Bricks, g: Condemned)
        requires { (rows : List TypeRow) × (vs : List Move) × Gives rows heap.now bricks.now g self.old vs }
        ensures gives { (rows : List TypeRow) (vs : List Move) → Gives rows heap.now bricks.now g self.old vs
            → Gives rows heap.now bricks.now g self.new vs }
        ensures done { self.new.start ≡ 0 → length heap.now.segments ≤ self.new.segment + 1 }
    {
        let count = heap.segments();
        while self.start == 0 && self.segment + 1 < count {
            self.segment += 1;
            self.enter(heap, bricks, g);
        }
    }

    // Reads the first plug of the part of the segment at hand, where it has a part and that has a plug.
    fn enter(&mut self, heap: &Heap, bricks: &Bricks, g: Condemned)
        requires { (rows : List TypeRow) × (vs : List Move) × CanEnter rows heap.now bricks.now g self.old vs }
        ensures gives { (rows : List TypeRow) (vs : List Move) → CanEnter rows heap.now bricks.now g self.old vs
            → Gives rows heap.now bricks.now g self.new vs }
        ensures segment { self.new.segment ≡ self.old.segment }
    {
        let segment = heap.info(self.segment);
        if takes_part(g, segment) {
            self.cursor
                .restart(part_start(heap, g, self.segment), segment.end);
            let _ = self.read(heap, bricks);
        } else {
            self.start = 0;
        }
    }

    // The plug at hand, after which the next one of the part is.
    fn step(&mut self, heap: &Heap, types: &Types, bricks: &Bricks) -> PlugMove
        requires gives { (g : Condemned) × (vs : List Move) × Gives types.now heap.now bricks.now g self.old vs }
        requires some { self.old.start ≢ 0 }
        ensures { (g : Condemned) (vs : List Move) → Gives types.now heap.now bricks.now g self.old vs
            → HasGiven types.now heap.now bricks.now g self.new vs result }
    {
        let (start, to) = (self.start, self.to);
        // In a plan no plug ends below its start; that isn't asked for here.
        match self.read(heap, bricks) {
            Some(end) => PlugMove::new(start, end.saturating_sub(start), to),
            None => {
                let end = run_end(heap, types, self.segment, start);
                PlugMove::new(start, end - start, to)
            }
        }
    }

    // Reads the next plug of the part, and answers where the unused bytes before it begin. `None` where none is left.
    #[inline(always)]
    fn read(&mut self, heap: &Heap, bricks: &Bricks) -> Option<u64>
        requires { (part : PlannedPart) × (ps : List PlannedPlug)
            × CanRead heap.now bricks.now self.old.cursor part ps }
        ensures read { (part : PlannedPart) (ps : List PlannedPlug)
            → CanRead heap.now bricks.now self.old.cursor part ps
            → HasRead heap.now bricks.now self.new part ps result }
        ensures segment { self.new.segment ≡ self.old.segment }
    {
        match self.cursor.next(heap, self.segment, bricks) {
            Some(start) => {
                let told = info(heap, self.segment, start);
                self.start = start;
                self.to = start - told.distance.unsigned_abs();
                Some(start.saturating_sub(told.gap))
            }
            None => {
                self.start = 0;
                None
            }
        }
    }
}
