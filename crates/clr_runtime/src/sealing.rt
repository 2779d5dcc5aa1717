//! A new ephemeral segment, where the limit allows one more.
ghost use Rattle.std.specs.Prelude.{◌≡◌, None};
ghost use Rattle.clr_heap.specs.View.{no_rests};
ghost use Rattle.clr_model.specs.Lookups.{lowest_in_step};
ghost use Rattle.clr_runtime.specs.Rooms.{IsSealing};
ghost use Rattle.clr_runtime.specs.RuntimeView.{IsRuntime, seen};

use crate::parts::Parts;
use clr_collect::seal;
use clr_heap::AcquireFault;

// Seals the ephemeral segment, and acquires a new one of the size that the options say. No thread has a
// context, and none is in mid-step.
//
// `OverLimit` comes exactly where the limit allows no such segment, and `NoMemory` where there is no memory, or no
// address left, for it, its cards or its bricks. Nothing that is seen changes then.
pub(crate) fn seal_parts(parts: &mut Parts) -> Result<(), AcquireFault>
    requires runtime { IsRuntime parts.old }
    requires idle { lowest_in_step (seen parts.old) ≡ None }
    requires no_contexts { parts.old.space.heap.rests ≡ no_rests }
    ensures sealed { IsSealing (seen parts.old) (seen parts.new) result }
    ensures runtime { IsRuntime parts.new }
    ensures slides { parts.new.collector.slides ≡ parts.old.collector.slides }
    ensures stack { parts.new.collector.marker.capacity ≡ parts.old.collector.marker.capacity }
    ensures finals { parts.new.roots.finals ≡ parts.old.roots.finals }
    ensures types { parts.new.types ≡ parts.old.types }
    ensures safe { parts.new.safe ≡ parts.old.safe }
{
    seal(
        &mut parts.space.heap,
        &parts.types,
        &mut parts.space.cards,
        &mut parts.space.bricks,
        parts.options.segment,
    )?;
    parts.collector.young.forget();
    Ok(())
}
