// Forwarding of all that names objects from outside of the heap.
ghost use Rattle.std.specs.Prelude.{◌≡◌, ℕ, map};
ghost use Rattle.clr_heap.specs.View.{IsHeap};
ghost use Rattle.clr_view.specs.View.{IsHeld};
ghost use Rattle.clr_evacuate.specs.Forwarding.{AllCanForward, CanForward, HasFollowed, HaveFollowed, LeadsBy};
ghost use Rattle.clr_evacuate.specs.Forwarding.{NamesCanForward};

use crate::forwarding::forward;
use clr_heap::Heap;
use clr_survivors::Roots;
use clr_types::Types;

// Lets locals, handles, entries and the f-reachable queue go where what they name went. Null stays.
pub(crate) fn forward_roots(heap: &Heap, types: &Types, roots: &mut Roots)
    requires heap { IsHeap heap.now }
    requires held { IsHeld types.now heap.now }
    requires named { NamesCanForward types.now heap.now roots.old.locals.items roots.old.handles roots.old.finals }
    ensures { (go : ℕ → ℕ) → LeadsBy types.now heap.now go
        → HaveFollowed go roots.old.locals.items roots.new.locals.items roots.old.handles roots.new.handles
        roots.old.finals roots.new.finals }
{
    roots.handles.relocate(
        |place|
            requires heap { IsHeap heap.now }
            requires held { IsHeld types.now heap.now }
            requires can { CanForward types.now heap.now place }
            ensures { HasFollowed types.entry.now heap.entry.now place result }
        { forward(heap, types, place) },
    );
    roots.finals.relocate(
        |place|
            requires heap { IsHeap heap.now }
            requires held { IsHeld types.now heap.now }
            requires can { CanForward types.now heap.now place }
            ensures { HasFollowed types.entry.now heap.entry.now place result }
        { forward(heap, types, place) },
    );
    forward_locals(heap, types, &mut roots.locals);
}

// Lets locals go where what they name went.
fn forward_locals(heap: &Heap, types: &Types, locals: &mut [u64])
    requires heap { IsHeap heap.now }
    requires held { IsHeld types.now heap.now }
    requires named { AllCanForward types.now heap.now locals.old }
    ensures { (go : ℕ → ℕ) → LeadsBy types.now heap.now go → locals.new ≡ map go locals.old }
{
    for i in 0..locals.len() {
        locals[i] = forward(heap, types, locals[i]);
    }
}
