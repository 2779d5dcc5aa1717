// What stays the same over a whole relocation.
ghost use Rattle.std.specs.Prelude.{◌≡◌, true, false};
ghost use Rattle.clr_reloc.specs.Partial.{IsPartial};

use crate::kinds::RunKind;
use clr_bricks::Bricks;
use clr_heap::Item;
use clr_moves::{Condemned, Planned, Stretch};
use clr_types::Types;

// What a relocation goes by: the types, the bricks, in which the trees of plugs begin, the answer of the plan, and the
// parts that are compacted.
#[derive(Clone, Copy)]
pub struct Relocation<'a> {
    pub types: &'a Types,
    pub bricks: &'a Bricks,
    pub planned: Planned,
    pub g: Condemned,
}

// What was met last, where the next ones most often are: the segment and the entry of the queue, which are guesses, the
// stretch of the target that was followed, and the kind of an object.
#[derive(Drop)]
pub struct Met {
    pub segment: usize,
    pub near: usize,
    pub stretch: Stretch,
    pub kind: RunKind,
}

// An object that is left, in its segment, with a guess of the queue's entry: where it goes, of which generation it is
// then, and whether those of its references alone count whose card is set.
#[derive(Clone, Copy)]
pub struct LeftObject {
    pub segment: usize,
    pub near: usize,
    pub found: Item,
    pub to: u64,
    pub age: u8,
    pub carded: bool,
}

// Whether the parts are those of less than all generations, so that set cards tell which references of what stands
// outside of them count.
pub(crate) fn is_partial(g: Condemned) -> bool
    ensures yes { result ≡ true → IsPartial g }
    ensures no { result ≡ false → IsPartial g → ⊥ }
{
    match g {
        Condemned::Generations(oldest) => oldest < 2,
        Condemned::LargeSegments => false,
    }
}
