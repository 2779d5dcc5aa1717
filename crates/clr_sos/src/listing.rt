// The command that shows the items of the heap.
ghost use Rattle.std.specs.Prelude.{◌≡◌, ◌≢◌, ◌↔◌, ℕ, Bool, Err, IfOk, Some, filter};
ghost use Rattle.clr_types.specs.Rising.{Tests};
ghost use Rattle.clr_heap.specs.View.{heap_items, IsHeap};
ghost use Rattle.clr_view.specs.View.{IsHeld};
ghost use Rattle.clr_model.specs.declared.Life.TheVariants.{Any};
ghost use Rattle.clr_model.specs.declared.Refusal.TheVariants as refusal;
ghost use Rattle.clr_model.specs.Checks.{unknown_type};
ghost use Rattle.clr_model.specs.Instructions.{dump_heap, options_of};
ghost use Rattle.clr_model.specs.Machine.{Machine};
ghost use Rattle.clr_model.specs.Reach.{Live};
ghost use Rattle.clr_model.specs.Sos.{dump_by_mode, dumpheap_text};
ghost use Rattle.clr_model.specs.Step.{TestsLife};
ghost use Rattle.clr_sos.specs.Views.{IsShownView, IsViewOf};
ghost use Rattle.clr_sos.specs.Wants.{is_wanted};

use crate::View;
use crate::fault::SosFault;
use crate::listing_text::listing_where;
use crate::reach::reach_all;
use crate::wanted::{Wanted, wanted_by};
use clr_model::{Filter, Life, Mode};
use std::alloc::{AllocError, Global};

/// The items of the heap that pass the options: objects and free items, by rising place.
///
/// An item passes where it has the method table word and the name of its type that the options ask for, where its bytes
/// are at least `min` and at most `max`, and where the roots reach it (`Life::Live`) or don't (`Life::Dead`), as no
/// free item does.
///
/// With `Mode::Full` there is a line for each item, `PLACE MT BYTES TYPE`. With `Mode::Stat` there is a line for each
/// type with an item that passes, by the type's number, `MT COUNT BYTES TYPE`. Both end with the line of the totals,
/// `total OBJECTS bytes BYTES free BYTES`, of which the last are the bytes of free items. With `Mode::Short` there is a
/// line for each item, `PLACE`, or the one line `none`.
///
/// Places and method table words have 16 hexadecimal digits, and all other numbers are decimal. `UnknownType` comes
/// exactly where no type has the method table word or the name that the options ask for, and `NoMemory` only where
/// there was no memory for the text or for the search from the roots, which `Life::Any` doesn't need. Nothing else
/// fails.
///
/// The heap has to hold the objects of its words, as between lines, or of an image. Only where the options ask what the
/// roots reach does each name have to be an object's.
pub fn dumpheap(alloc: Global, view: &View<'_>, filter: &Filter<'_>) -> Result<Vec<u8>, SosFault>
    requires held { IsHeld view.now.types.now view.now.heap.now }
    requires shown { filter.now.life ≢ Any → IsShownView view.now }
    ensures unknown { (m : Machine) → IsViewOf view.now m → (result ≡ Err SosFault.UnknownType)
        ↔ (unknown_type m (dump_heap (options_of filter.now)) ≡ Some refusal.UnknownType) }
    ensures no_object { result ≡ Err SosFault.NoObject → ⊥ }
    ensures text { IfOk result (λ text. (m : Machine) → IsViewOf view.now m → (live : ℕ → Bool)
        → TestsLife filter.now.life live (Live m) → text.items ≡ dumpheap_text m live (options_of filter.now)) }
{
    let Some(wanted) = wanted_by(view.types, view.heap, filter) else {
        return Err(SosFault::UnknownType);
    };
    match filter.life {
        Life::Any => {
            let text = listing_of_all(alloc, view, filter.mode, &wanted)?;
            Ok(text)
        }
        Life::Live | Life::Dead => {
            let text = listing_by_life(alloc, view, filter.mode, &wanted)?;
            Ok(text)
        }
    }
}

// The listing where no option asks what the roots reach.
fn listing_of_all(
    alloc: Global,
    view: &View<'_>,
    mode: Mode,
    wanted: &Wanted,
) -> Result<Vec<u8>, AllocError>
    requires any { wanted.now.life ≡ Any }
    requires held { IsHeld view.now.types.now view.now.heap.now }
    ensures text { IfOk result (λ text. (live : ℕ → Bool) → text.items ≡ dump_by_mode mode view.now.types.now
        (filter (is_wanted wanted.now live) (heap_items view.now.types.now view.now.heap.now))) }
    ensures heap { IsHeap view.now.heap.now }
{
    listing_where(alloc, view.types, view.heap, mode, wanted, &|_| false)
}

// The listing where an option asks what the roots reach.
fn listing_by_life(
    alloc: Global,
    view: &View<'_>,
    mode: Mode,
    wanted: &Wanted,
) -> Result<Vec<u8>, AllocError>
    requires shown { IsShownView view.now }
    ensures { IfOk result (λ text. (m : Machine) → IsViewOf view.now m → (live : ℕ → Bool) → Tests live (Live m)
        → text.items ≡ dump_by_mode mode view.now.types.now
        (filter (is_wanted wanted.now live) (heap_items view.now.types.now view.now.heap.now))) }
{
    let reached = reach_all(alloc, view)?;
    listing_where(
        alloc,
        view.types,
        view.heap,
        mode,
        wanted,
        &|place| reached.has(view.heap, place),
    )
}
