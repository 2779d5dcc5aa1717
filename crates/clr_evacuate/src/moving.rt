// What survives a fitting collection goes into older free items, or where a compaction takes it.
ghost use Rattle.std.specs.Prelude.{◌≡◌, ℕ, Bool, true};
ghost use Rattle.clr_heap.specs.View.{no_rests};
ghost use Rattle.clr_model.specs.Lawful.{IsLaid};
ghost use Rattle.clr_model.specs.Machine.{Machine};
ghost use Rattle.clr_view.specs.Marks.{IsUnmarked};
ghost use Rattle.clr_view.specs.Memory.{IsMemoryOf, TestsMarks};
ghost use Rattle.clr_generations.specs.Tidy.{IsTidy};
ghost use Rattle.clr_survivors.specs.Moving.{IsMarkedFor, IsReadyFor, KeepsNumbers};
ghost use Rattle.clr_survivors.specs.Survivors.{HaveMoved, world_of};

use crate::fitting::fit_survivors;
use clr_compact::Slides;
use clr_generations::Space;
use clr_moves::Promoted;
use clr_pinq::PinQueue;
use clr_survivors::{Roots, move_survivors};
use clr_types::Types;

/// Moves what is marked in a collection of generation 1 that fits: first each plug that isn't pinned, low to high, to
/// the front of the lowest older free item in which it then fits, and then what found no room to where a compaction
/// takes it, as `move_survivors` does. Locals, handles, entries, the f-reachable queue and all references of what is
/// left name the new places then. It answers the bytes that went to generations 1 and 2.
///
/// `slides` counts one, and each byte of a plug that the compaction moved. The other conditions, and what is so
/// afterwards, are those of `move_survivors`.
pub fn fit_and_move(
    types: &Types,
    space: &mut Space,
    roots: &mut Roots,
    pins: &mut PinQueue,
    slides: &mut Slides,
) -> Promoted
    requires tidy { IsTidy types.now space.old }
    requires marked { IsMarkedFor (world_of types.now space.old.heap roots.old) 1 }
    requires ready { IsReadyFor roots.old.handles pins.old }
    ensures moved { (n : Machine) (kept : ℕ → Bool) → IsMemoryOf types.now space.old.heap n → IsLaid n
        → n.handles ≡ roots.old.handles → TestsMarks types.now space.old.heap 1 kept
        → HaveMoved true (world_of types.now space.old.heap roots.old)
        (world_of types.now space.new.heap roots.new) 1 n kept result.to1 result.to2 slides.old slides.new }
    ensures tidy { IsTidy types.now space.new }
    ensures unmarked { IsUnmarked types.now space.new.heap }
    ensures no_contexts { space.new.heap.rests ≡ no_rests }
    ensures limit { space.new.heap.limit ≡ space.old.heap.limit }
    ensures ready { IsReadyFor roots.new.handles pins.new }
    ensures room { pins.new.spare ≡ pins.old.spare }
    ensures numbers { KeepsNumbers roots.old roots.new }
{
    let bytes = fit_survivors(types, space, roots);
    let moved = move_survivors(types, space, roots, pins, slides, 1);
    Promoted {
        to1: moved.promoted1,
        to2: moved.promoted2 + bytes,
    }
}
