// What follows on the sweep or the compaction of a collection: the slide of the large heap, and the release of
// segments.
ghost use Rattle.std.specs.Prelude.{◌≡◌, ◌&&◌, ◌==◌, not, [], Some};
ghost use Rattle.clr_generations.specs.Tidy.{IsTidy};
ghost use Rattle.clr_heap.specs.View.{no_rests};
ghost use Rattle.clr_model.specs.Collection.{ended, SlidesIf};
ghost use Rattle.clr_model.specs.Lawful.{IsPlaceNamed};
ghost use Rattle.clr_model.specs.Machine.{Machine};
ghost use Rattle.clr_model.specs.Picture.{picture};
ghost use Rattle.clr_view.specs.Marks.{IsUnmarked};
ghost use Rattle.clr_view.specs.View.{tail_of};
ghost use Rattle.clr_view.specs.World.{IsWorldOf};
ghost use Rattle.clr_ctx.specs.Contexts.{IsIndex};
ghost use Rattle.clr_survivors.specs.Moving.{IsReadyFor, KeepsNumbers};
ghost use Rattle.clr_survivors.specs.Survivors.{world_of};
ghost use Rattle.clr_collect.specs.Released.{HasObjects};

use crate::collecting::release_after;
use crate::collector::CollectorState;
use clr_generations::Space;
use clr_pinq::PinQueue;
use clr_survivors::{Roots, slide_large_heap};
use clr_types::Types;

// Ends a collection of generation `g`: a full one slides the large heap where the flag is up, which it puts down, and
// gives back the segments in which nothing stands.
pub(crate) fn slide_and_release(
    types: &Types,
    space: &mut Space,
    roots: &mut Roots,
    collector: &mut CollectorState,
    g: u8,
)
    requires tidy { IsTidy types.now space.old }
    requires no_contexts { space.old.heap.rests ≡ no_rests }
    requires unmarked { IsUnmarked types.now space.old.heap }
    requires world { (n : Machine) × IsWorldOf (world_of types.now space.old.heap roots.old) n × IsPlaceNamed n }
    requires occupied { g ≡ 2 → HasObjects types.now space.old.heap }
    requires ready { IsReadyFor roots.old.handles collector.old.pins }
    ensures ended { (n : Machine) → IsWorldOf (world_of types.now space.old.heap roots.old) n → IsPlaceNamed n
        → (slid : Machine) × SlidesIf (collector.old.compacts_large && (g == 2)) n slid
        × IsWorldOf (world_of types.now space.new.heap roots.new) (ended g (picture slid)) }
    ensures collector { collector.new ≡ record collector.old {
      pins = collector.new.pins;
      compacts_large = collector.old.compacts_large && not (g == 2);
    } }
    ensures tidy { IsTidy types.now space.new }
    ensures unmarked { IsUnmarked types.now space.new.heap }
    ensures limit { space.new.heap.limit ≡ space.old.heap.limit }
    ensures index { space.old.heap.start0 ≡ tail_of space.old.heap → IsIndex types.now space.new.heap (Some []) }
    ensures ready { IsReadyFor roots.new.handles collector.new.pins }
    ensures room { collector.new.pins.spare ≡ collector.old.pins.spare }
    ensures numbers { KeepsNumbers roots.old roots.new }
{
    let slides = is_due(collector.compacts_large, g);
    slide_if(types, space, roots, &mut collector.pins, slides);
    release_after(types, space, g);
    put_down(&mut collector.compacts_large, g);
}

// Whether a collection of generation `g` slides the large heap.
fn is_due(compacts_large: bool, g: u8) -> bool
    ensures { result ≡ compacts_large && (g == 2) }
{
    compacts_large && g == 2
}

// Puts the flag down in a collection of all generations.
fn put_down(compacts_large: &mut bool, g: u8)
    ensures { compacts_large.new ≡ compacts_large.old && not (g == 2) }
{
    *compacts_large = *compacts_large && g != 2;
}

// Slides the large heap, or leaves all as it is.
fn slide_if(types: &Types, space: &mut Space, roots: &mut Roots, pins: &mut PinQueue, slides: bool)
    requires tidy { IsTidy types.now space.old }
    requires no_contexts { space.old.heap.rests ≡ no_rests }
    requires unmarked { IsUnmarked types.now space.old.heap }
    requires world { (n : Machine) × IsWorldOf (world_of types.now space.old.heap roots.old) n × IsPlaceNamed n }
    requires ready { IsReadyFor roots.old.handles pins.old }
    ensures slid { (n : Machine) → IsWorldOf (world_of types.now space.old.heap roots.old) n → IsPlaceNamed n
        → (slid : Machine) × SlidesIf slides n slid
        × IsWorldOf (world_of types.now space.new.heap roots.new) (picture slid) }
    ensures tidy { IsTidy types.now space.new }
    ensures no_contexts { space.new.heap.rests ≡ no_rests }
    ensures unmarked { IsUnmarked types.now space.new.heap }
    ensures occupied { HasObjects types.now space.old.heap → HasObjects types.now space.new.heap }
    ensures limit { space.new.heap.limit ≡ space.old.heap.limit }
    ensures tail { space.old.heap.start0 ≡ tail_of space.old.heap
        → space.new.heap.start0 ≡ tail_of space.new.heap }
    ensures ready { IsReadyFor roots.new.handles pins.new }
    ensures room { pins.new.spare ≡ pins.old.spare }
    ensures numbers { KeepsNumbers roots.old roots.new }
{
    if !slides {
        return;
    }
    slide_large_heap(types, space, roots, pins);
}
