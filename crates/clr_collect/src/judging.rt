// What becomes of finalisation entries and of handles whose objects aren't reached.
ghost use Rattle.std.specs.Prelude.{◌≡◌, ℕ, ℤ, ◌+◌, ◌≤◌, false, filter, length, [], List};
ghost use Rattle.clr_types.specs.Maps.{map_values};
ghost use Rattle.clr_types.specs.declared.handle.Kind.TheVariants.{Dependent, Weak, WeakLong};
ghost use Rattle.clr_handles.specs.Laws.{cleared};
ghost use Rattle.clr_covers.specs.Covers.{CoverView};
ghost use Rattle.clr_heap.specs.View.{HeapView, IsHeap};
ghost use Rattle.clr_view.specs.Memory.{is_left_name};
ghost use Rattle.clr_view.specs.SlotValues.{StandsAt};
ghost use Rattle.clr_view.specs.View.{IsHeld};
ghost use Rattle.clr_view.specs.World.{HandlesStand};
ghost use Rattle.clr_generations.specs.Tables.{AreTablesOf};
ghost use Rattle.clr_mark.specs.Waiting.{IsGray};
ghost use Rattle.clr_collect.specs.Collecting.{AllLeft, AllStand, drops_at, HasMarkedAlive, HasMarkedKept};
ghost use Rattle.clr_collect.specs.Collecting.{HasUnflagged, HaveBeenJudged, LeftStart, wakes_at, world_with};

use clr_final::{Finals, Verdict};
use clr_handles::Handles;
use clr_heap::Heap;
use clr_mark::Marker;
use clr_types::Types;
use clr_view::{is_suppressed, set_suppressed};

// Goes on where what is alive before finalisation is marked, and no more: judges the entries, marks what the woken ones
// reach, and clears the handles of what isn't reached. Then what a collection keeps is marked, and handles and entries
// are as it leaves them.
pub(crate) fn process_references(
    types: &Types,
    heap: &mut Heap,
    marker: &mut Marker,
    handles: &mut Handles,
    finals: &mut Finals,
)
    requires gray { IsGray types.now heap.old marker.old }
    requires handles { HandlesStand types.now heap.old handles.old }
    requires entries { AllStand types.now heap.old finals.old.entries }
    ensures kept { (old : HeapView) (locals : List ℕ)
        → HasMarkedAlive (world_with types.now old locals handles.old finals.old)
        (LeftStart types.now heap.old marker.old.oldest) heap.old marker.old.oldest
        → HasMarkedKept (world_with types.now old locals handles.old finals.old)
        (LeftStart types.now heap.old marker.old.oldest) heap.new handles.new finals.new marker.old.oldest }
    ensures marker { marker.new ≡ record marker.old { stack = []; ranges = [] } }
    ensures spare { finals.old.spare ≤ finals.new.spare }
    ensures none_added { finals.new.spare + length finals.new.entries ≤ finals.old.spare + length finals.old.entries }
    ensures tables { (cards : List (CoverView ℕ)) (bricks : List (CoverView ℤ))
        → AreTablesOf types.now heap.old cards bricks → AreTablesOf types.now heap.new cards bricks }
{
    let waiting = finals.ready().len();
    scan_finalizers(types, heap, marker, finals);
    clear_short(types, heap, marker, handles);
    marker.mark_more(heap, types, handles, &finals.ready()[waiting..]);
    clear_long_and_dependent(types, heap, marker, handles);
}

// Judges the entries, where what is alive before finalisation is marked: those of objects that are alive stay, others
// are woken, or dropped where the object's finaliser is suppressed. The headers of the dropped ones' objects then say
// so no more.
//
// An object may have several entries, so all are judged before a flag is cleared.
fn scan_finalizers(types: &Types, heap: &mut Heap, marker: &Marker, finals: &mut Finals)
    requires heap { IsHeap heap.old }
    requires held { IsHeld types.now heap.old }
    requires entries { AllStand types.now heap.old finals.old.entries }
    ensures judged { HaveBeenJudged types.now heap.old marker.now.oldest finals.old finals.new }
    ensures unflagged { HasUnflagged types.now heap.old heap.new marker.now.oldest finals.old.entries }
    ensures spare { finals.old.spare ≤ finals.new.spare }
    ensures none_added { finals.new.spare + length finals.new.entries ≤ finals.old.spare + length finals.old.entries }
{
    let low = marker.lowest_condemned(heap);
    finals.dead_from(low, |place| wake(types, heap, marker, place));
    let first = finals.settled(low);
    let any_dead = clear_flags(types, heap, marker, &finals.entries()[first..]);
    drop_entries(types, heap, marker, finals, any_dead);
}

// Takes out the entries of objects that aren't left. There are some only where `any_dead` says so.
fn drop_entries(types: &Types, heap: &Heap, marker: &Marker, finals: &mut Finals, any_dead: bool)
    requires held { IsHeld types.now heap.now }
    requires stand { AllStand types.now heap.now finals.old.entries }
    requires left { any_dead ≡ false → AllLeft types.now heap.now marker.now.oldest finals.old.entries }
    ensures entries { finals.new.entries
        ≡ filter (is_left_name types.now heap.now marker.now.oldest) finals.old.entries }
    ensures ready { finals.new.ready ≡ finals.old.ready }
    ensures spare { finals.old.spare ≤ finals.new.spare }
    ensures none_added { finals.new.spare + length finals.new.entries ≤ finals.old.spare + length finals.old.entries }
{
    if any_dead {
        let low = marker.lowest_condemned(heap);
        finals.dead_from(low, |place| drop_dead(types, heap, marker, place));
    }
}

// Whether an entry is woken; one that is to be dropped stays among the entries for now.
fn wake(types: &Types, heap: &Heap, marker: &Marker, place: u64) -> Verdict
    requires held { IsHeld types.now heap.now }
    requires stands { StandsAt types.now heap.now place }
    ensures { result ≡ wakes_at types.now heap.now marker.now.oldest place }
{
    if marker.is_left(heap, types, place) || is_suppressed(heap, types, place) {
        Verdict::Alive
    } else {
        Verdict::Woken
    }
}

// Whether an entry stays when the woken ones are gone.
fn drop_dead(types: &Types, heap: &Heap, marker: &Marker, place: u64) -> Verdict
    requires held { IsHeld types.now heap.now }
    requires stands { StandsAt types.now heap.now place }
    ensures { result ≡ drops_at types.now heap.now marker.now.oldest place }
{
    if marker.is_left(heap, types, place) {
        Verdict::Alive
    } else {
        Verdict::Dropped
    }
}

// Clears the flags of those of some objects that aren't left, and answers whether there are any.
fn clear_flags(types: &Types, heap: &mut Heap, marker: &Marker, places: &[u64]) -> bool
    requires heap { IsHeap heap.old }
    requires held { IsHeld types.now heap.old }
    requires places { AllStand types.now heap.old places.now }
    ensures unflagged { HasUnflagged types.now heap.old heap.new marker.now.oldest places.now }
    ensures left { result ≡ false → AllLeft types.now heap.old marker.now.oldest places.now }
{
    let mut any_dead = false;
    for &place in places {
        if !marker.is_left(heap, types, place) {
            set_suppressed(heap, types, place, false);
            any_dead = true;
        }
    }
    any_dead
}

// Clears the short weak handles whose targets aren't left.
fn clear_short(types: &Types, heap: &Heap, marker: &Marker, handles: &mut Handles)
    requires held { IsHeld types.now heap.now }
    requires handles { HandlesStand types.now heap.now handles.old }
    ensures { handles.new ≡ map_values (cleared Weak (is_left_name types.now heap.now marker.now.oldest)) handles.old }
{
    let low = marker.lowest_condemned(heap);
    handles.clear_short_from(low, |place| marker.is_left(heap, types, place));
}

// Clears the long weak handles whose targets aren't left, and the dependent ones whose primaries aren't.
fn clear_long_and_dependent(types: &Types, heap: &Heap, marker: &Marker, handles: &mut Handles)
    requires held { IsHeld types.now heap.now }
    requires handles { HandlesStand types.now heap.now handles.old }
    ensures { handles.new ≡ map_values (cleared Dependent (is_left_name types.now heap.now marker.now.oldest))
        (map_values (cleared WeakLong (is_left_name types.now heap.now marker.now.oldest)) handles.old) }
{
    let low = marker.lowest_condemned(heap);
    handles.clear_long_from(low, |place| marker.is_left(heap, types, place));
    handles.clear_dependent_from(low, |place| marker.is_left(heap, types, place));
}
