// Whether a collection compacts.
ghost use Rattle.std.specs.Prelude.{◌≡◌, ℕ, ◌≤◌, Bool};
ghost use Rattle.clr_heap.specs.View.{no_rests};
ghost use Rattle.clr_model.specs.Collection as collection;
ghost use Rattle.clr_model.specs.Lawful.{IsLaid};
ghost use Rattle.clr_model.specs.Machine.{Machine};
ghost use Rattle.clr_model.specs.Sweep.{survivors};
ghost use Rattle.clr_view.specs.Memory.{IsMemoryOf, TestsMarks};
ghost use Rattle.clr_view.specs.View.{IsHeld};

use clr_heap::Heap;
use clr_model::How;
use clr_sweep::frees_enough;
use clr_types::Types;

// Whether a collection of generation `g` compacts, when what it keeps is marked: as `how` says, and where that leaves
// it open, where more than `threshold` hundredths of the bytes of the condemned parts of the small heap are free.
pub(crate) fn compacts(heap: &Heap, types: &Types, g: u8, how: How, threshold: u64) -> bool
    requires generation { g ≤ 2 }
    requires threshold { threshold ≤ 100 }
    requires held { IsHeld types.now heap.now }
    requires no_contexts { heap.now.rests ≡ no_rests }
    requires laid { (m : Machine) × IsMemoryOf types.now heap.now m × IsLaid m }
    ensures decides { (m : Machine) (kept : ℕ → Bool) → IsMemoryOf types.now heap.now m → IsLaid m
        → TestsMarks types.now heap.now g kept → m.options.compact ≡ threshold
        → result ≡ collection.compacts how (collection.decides_to_compact m g (survivors m g kept)) }
{
    match how {
        How::Sweep => false,
        How::Compact | How::Fit => true,
        How::Decide => frees_enough(heap, types, g, threshold),
    }
}
