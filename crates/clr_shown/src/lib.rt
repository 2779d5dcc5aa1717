//! What `clrheap inspect` shows of the image of a state.
#![tactic(auto)]

ghost use Rattle.clr_shown.specs.Laws.{NothingGivenUpLaw, ShownLaw};

/// What `inspect` shows of the image of a lawful state are the replies to `eeheap -gc`, `dumpheap`, `gchandles`,
/// `finalizequeue` and `verifyheap` in that state, once all contexts are given up. Where no thread has a context, that
/// is the state itself.
pub fn what_inspect_shows_is_what_the_lines_show()
    ensures shown { ShownLaw }
    ensures unchanged { NothingGivenUpLaw }
{}
