// Laws on what runtimes show and on heaps without contexts, each the contract of a function that does nothing.
ghost use Rattle.std.specs.Prelude.{List, ℕ};
ghost use Rattle.clr_types.specs.Types.{TypeRow};
ghost use Rattle.clr_heap.specs.View.{HeapView};
ghost use Rattle.clr_sos.specs.CleanStates.{CleanStateLaw, FaultlessLaw, ShownLaw};

/// What a runtime shows between lines, with what its threads have begun, meets the condition of `verifyheap`, which
/// answers Ok.
pub fn clean_states_are_lawful()
    ensures { CleanStateLaw }
{}

/// A heap without contexts, as one that was loaded, meets the condition of `verifyheap`. Where that answers Ok, the
/// heap's words hold a machine's objects, as the other commands ask. So do the names of a view, where its handles and
/// its finalisation queue name objects.
pub fn faultless_heaps_are_held()
    ensures held { (rows : List TypeRow) (large : ℕ) (h : HeapView) (locals : List ℕ)
        → FaultlessLaw rows large h locals }
    ensures shown { ShownLaw }
{}
