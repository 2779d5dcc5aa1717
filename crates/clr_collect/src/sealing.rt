// The ephemeral segment, sealed: it becomes a small one, and a new one takes its place.
ghost use Rattle.std.specs.Prelude.{◌≡◌, ◌↔◌, ◌+◌, ◌%◌, ◌<◌, ◌≤◌, Err, OnErr, OnOk};
ghost use Rattle.clr_types.specs.Segments.{reserved_sum};
ghost use Rattle.clr_heap.specs.View.{acquired, frame, IsHeap, no_rests};
ghost use Rattle.clr_model.specs.Allocation.{sealed};
ghost use Rattle.clr_model.specs.Lawful.{IsLaid};
ghost use Rattle.clr_model.specs.Machine.{Machine};
ghost use Rattle.clr_view.specs.Clean.{AreClean};
ghost use Rattle.clr_view.specs.Marks.{IsUnmarked};
ghost use Rattle.clr_view.specs.Memory.{IsMemoryOf};
ghost use Rattle.clr_view.specs.View.{AreFreeHeads, IsHeld, layout_in, objects_in};
ghost use Rattle.clr_generations.specs.Tables.{AreTablesOf};

use clr_bricks::Bricks;
use clr_cards::Cards;
use clr_generations::{acquire, renew_aged_bricks};
use clr_heap::{AcquireFault, Heap, SegKind};
use clr_types::Types;

/// Seals the ephemeral segment, all of which is generation 2 then, and gives the heap a new empty ephemeral one of
/// `size` bytes, with its cards and bricks. The contexts are given up.
///
/// `OverLimit` comes exactly where all segments together would reserve more than the limit, and `NoMemory` where there
/// is no memory, or no address left, for the segment, its cards or its bricks. After both the heap is as it was, and
/// cards and bricks still are its own.
pub fn seal(
    heap: &mut Heap,
    types: &Types,
    cards: &mut Cards,
    bricks: &mut Bricks,
    size: u64,
) -> Result<(), AcquireFault>
    requires held { IsHeld types.now heap.old }
    requires no_contexts { heap.old.rests ≡ no_rests }
    requires laid { (m : Machine) × IsMemoryOf types.now heap.old m × IsLaid m }
    requires tables { AreTablesOf types.now heap.old cards.old bricks.old }
    requires aligned { size % 4096 ≡ 0 }
    requires least { 262144 ≤ size }
    requires most { size ≤ 67108864 }
    ensures sealed { OnOk result (heap.new ≡ acquired heap.old SegKind.Ephemeral size) }
    ensures objects { objects_in types.now heap.new ≡ objects_in types.now heap.old }
    ensures layout { OnOk result (layout_in types.now heap.new ≡ sealed (layout_in types.now heap.old) size) }
    ensures lawful { IsHeap heap.new }
    ensures held { IsHeld types.now heap.new }
    ensures unmarked { IsUnmarked types.now heap.old → IsUnmarked types.now heap.new }
    ensures free_heads { AreFreeHeads types.now heap.old → AreFreeHeads types.now heap.new }
    ensures clean { AreClean types.now heap.old → AreClean types.now heap.new }
    ensures tables { AreTablesOf types.now heap.new cards.new bricks.new }
    ensures over_limit { (result ≡ Err AcquireFault.OverLimit)
        ↔ (heap.old.limit < reserved_sum (frame heap.old) + size) }
    ensures err { OnErr result (heap.new ≡ heap.old) }
{
    let k = heap.ephemeral();
    let (_, start0) = heap.boundaries();
    acquire(heap, cards, bricks, SegKind::Ephemeral, size)?;
    renew_aged_bricks(heap, types, bricks, k, start0);
    Ok(())
}
