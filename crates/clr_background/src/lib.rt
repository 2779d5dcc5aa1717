//! Laws on background collections over runs of lines, each the contract of a function that does nothing.
#![tactic(auto)]

ghost use Rattle.clr_background.specs.Laws.{BackgroundFreesLaw, BackgroundKeepsLaw, FirstPauseNamesLaw};
ghost use Rattle.clr_background.specs.Laws.{LogHoldsLaw, LogNamesLaw, MarkerNamesLaw, OldStayPutLaw, OlderStayLaw};
ghost use Rattle.clr_background.specs.Laws.{RescanIsEnoughLaw, StrictLogHoldsLaw};

/// A collection leaves what is older than its generation as it is.
pub fn older_objects_stay()
    ensures { OlderStayLaw }
{}

/// A line after which a background collection runs leaves the objects of generation 2 in their places.
pub fn old_objects_stay_put()
    ensures { OldStayPutLaw }
{}

/// What the roots reach at the last pause of a background collection stays as it is.
pub fn a_background_collection_keeps()
    ensures { BackgroundKeepsLaw }
{}

/// What is of generation 2 and out of reach at the first pause is gone after the last one.
pub fn a_background_collection_frees()
    ensures { BackgroundFreesLaw }
{}

/// After each line what black objects name is marked, or logged, or a begun store.
pub fn the_log_holds()
    ensures { LogHoldsLaw }
{}

/// At a pause it is marked or logged.
pub fn the_log_holds_strictly()
    ensures { StrictLogHoldsLaw }
{}

/// At the last pause it is enough to follow, of the slots of black objects, those that are logged.
pub fn a_rescan_is_enough()
    ensures { RescanIsEnoughLaw }
{}

/// Names do not matter for the law of the log.
pub fn names_do_not_matter_for_the_log()
    ensures { LogNamesLaw }
{}

/// Names do not matter at the first pause.
pub fn names_do_not_matter_at_the_first_pause()
    ensures { FirstPauseNamesLaw }
{}

/// Names do not matter for steps of the marker.
pub fn names_do_not_matter_for_the_marker()
    ensures { MarkerNamesLaw }
{}
