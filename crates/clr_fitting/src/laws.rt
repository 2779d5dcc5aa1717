//! The laws, each the contract of a function that does nothing.
ghost use Rattle.clr_fitting.specs.Laws.{BelowStaysLaw, CopiedAlikeLaw, CopiedLaidLaw, FitApartLaw, FitAppendLaw};
ghost use Rattle.clr_fitting.specs.Laws.{FitLaidLaw, FitMovesLaw, FittedBytesLaw, FittedObjectLaw, FittedSeenLaw};
ghost use Rattle.clr_fitting.specs.Laws.{GoesTwiceLaw, ItemByItemLaw, LaidSeenLaw, LeftItemsLaw, LeftSurvivorsLaw};
ghost use Rattle.clr_fitting.specs.Laws.{LowestBehindLaw, MovesInTurnLaw, NoRoomLaterLaw, OlderItemsLaw, PartLeftLaw};
ghost use Rattle.clr_fitting.specs.Laws.{PromotedLaw, PromotedSeenLaw, TakenTwiceLaw, TwoPartsLaw, TwoStepsCollectLaw};
ghost use Rattle.clr_fitting.specs.Laws.{TwoStepsLaw, TwoStepsSeenLaw};

/// A fit leaves the memory as lawful, whatever is kept.
pub fn a_fit_leaves_a_lawful_memory()
    ensures { FitLaidLaw }
{}

/// What finds room is a kept object of generation 1 that isn't pinned, and goes below the first boundary, to
/// generation 2.
pub fn fitted_objects_were_of_generation_1()
    ensures { FittedObjectLaw }
{}

/// Each move of a fit takes a plug from above the first boundary to below it.
pub fn moves_of_a_fit_cross_the_first_boundary()
    ensures { FitMovesLaw }
{}

/// What stands below the first boundary stays in a fit, and null does.
pub fn a_fit_leaves_what_stands_below()
    ensures { BelowStaysLaw }
{}

/// A fit takes no two objects to one place.
pub fn a_fit_keeps_objects_apart()
    ensures { FitApartLaw }
{}

/// What found no room is left to be compacted, as it was.
pub fn a_fit_leaves_the_others()
    ensures { LeftSurvivorsLaw }
{}

/// The bytes of what finds room are those of the moves that take it.
pub fn fitted_bytes_are_those_of_the_moves()
    ensures { FittedBytesLaw }
{}

/// Where a fit copies what finds room, and leaves it where it was, too, the memory is as lawful.
pub fn a_copying_fit_leaves_a_lawful_memory()
    ensures { CopiedLaidLaw }
{}

/// A compaction of generation 1 doesn't tell such a memory from that after a fit.
pub fn compactions_do_not_see_copies()
    ensures { CopiedAlikeLaw }
{}

/// A fit, and a usual compaction of generation 1 of what it leaves, are a fitting.
pub fn a_fit_and_a_compaction_are_a_fitting()
    ensures { TwoStepsLaw }
{}

/// They are also where objects get other names between the two steps, such as their new places.
pub fn names_do_not_matter_between()
    ensures { TwoStepsSeenLaw }
{}

/// Where objects are named by their places, what is seen of a fit is the machine that it leaves, under other names.
pub fn a_fit_is_seen_by_places()
    ensures { FittedSeenLaw }
{}

/// An object goes where the fit takes it, and from there where the compaction does.
pub fn objects_go_twice()
    ensures { GoesTwiceLaw }
{}

/// What went to generation 1 are the bytes that the compaction takes there, and to generation 2 went those that it
/// takes there and those that found room.
pub fn promoted_bytes_add_up()
    ensures { PromotedLaw }
{}

/// What lies where is lawful whatever objects are called.
pub fn names_do_not_matter_for_the_memory()
    ensures { LaidSeenLaw }
{}

/// What is promoted doesn't depend on names.
pub fn names_do_not_matter_for_promoted_bytes()
    ensures { PromotedSeenLaw }
{}

/// Where a collection of generation 1 keeps this, a fit and a usual compaction of what it leaves are a fitting
/// collection, and this is what it answers and leaves.
pub fn both_steps_collect()
    ensures { TwoStepsCollectLaw }
{}

/// A fit of some plugs, and then of others in the items that it leaves, is a fit of both.
pub fn a_fit_goes_on()
    ensures { FitAppendLaw }
{}

/// After some plugs the older items are what these left.
pub fn a_part_of_a_fit_leaves_older_items()
    ensures { PartLeftLaw }
{}

/// A size that fits in no item doesn't fit later, when a plug was put into one.
pub fn what_finds_no_room_finds_none_later()
    ensures { NoRoomLaterLaw }
{}

/// A search for the lowest item may begin behind items in which the size doesn't fit.
pub fn a_search_may_begin_behind()
    ensures { LowestBehindLaw }
{}

/// The older items of a lawful memory are lawful, by rising place, and apart.
pub fn older_items_are_apart()
    ensures { OlderItemsLaw }
{}

/// So is what a fit leaves of items.
pub fn a_fit_leaves_items_apart()
    ensures { LeftItemsLaw }
{}

/// What is taken at once from the front of an item can be taken in two steps, as object by object.
pub fn a_front_can_be_taken_in_two_steps()
    ensures { TakenTwiceLaw }
{}

/// A plug that goes as one goes where its parts do, one behind the other, as object by object.
pub fn a_plug_can_go_in_two_parts()
    ensures { TwoPartsLaw }
{}

/// Moves that land below where others start can be made before them.
pub fn moves_can_be_made_in_turn()
    ensures { MovesInTurnLaw }
{}

/// Item by item go the same plugs to the same places as plug by plug, and the same is left of the items.
pub fn items_one_by_one_take_the_same()
    ensures { ItemByItemLaw }
{}
