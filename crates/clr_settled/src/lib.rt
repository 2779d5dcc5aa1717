//! What an image keeps of a state, and laws on it, each the contract of a function that does nothing.
#![tactic(auto)]

ghost use Rattle.clr_settled.specs.Laws.{AskedLaw, DumpedLaw, SettledForgetsLaw, SettledFreeLaw, SettledFrontLaw};
ghost use Rattle.clr_settled.specs.Laws.{SettledLawfulLaw, SettledPictureLaw, SettledPiecesLaw, SettledPlacesLaw};
ghost use Rattle.clr_settled.specs.Laws.{SettledTwiceLaw};

/// What an image keeps of a lawful state is one, whether objects are identified by the numbers of their allocations or
/// by their addresses.
pub fn what_is_kept_is_lawful()
    ensures born { SettledLawfulLaw }
    ensures placed { SettledPlacesLaw }
{}

/// What is kept of it is all of it.
pub fn what_is_kept_stays()
    ensures { SettledTwiceLaw }
{}

/// Its pieces are those that were there.
pub fn all_pieces_are_kept()
    ensures { SettledPiecesLaw }
{}

/// What is given up later is free as if it had been given up at once, and what is begun keeps its front.
pub fn free_items_and_fronts_are_kept()
    ensures free { SettledFreeLaw }
    ensures front { SettledFrontLaw }
{}

/// The bytes that budgets are compared with, where the next segment was to begin, and a background collection that runs
/// do not matter for what is kept.
pub fn what_is_not_kept_does_not_matter()
    ensures { SettledForgetsLaw }
{}

/// Names do not matter for what is kept.
pub fn names_do_not_matter_for_what_is_kept()
    ensures { SettledPictureLaw }
{}

/// Questions that no free item answers have the same answers.
pub fn asking_is_alike()
    ensures asked { AskedLaw }
    ensures dumped { DumpedLaw }
{}
