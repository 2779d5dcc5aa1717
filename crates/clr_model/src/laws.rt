//! Laws on the definitions, each the contract of a function that does nothing.
ghost use Rattle.clr_model.specs.Laws.{FirstIsKeptLaw, OneTestLaw, OpeningLaw, CompactionLayoutLaw, SweepLayoutLaw};
ghost use Rattle.clr_model.specs.Laws.{CollectionLayoutLaw, YoungTilesLaw, CollectionStaysLawfulLaw, SweepNamesLaw};
ghost use Rattle.clr_model.specs.Laws.{PromotionLaw, PinnedStayLaw, NoneRisesLaw, FreeBeforePinsLaw};
ghost use Rattle.clr_model.specs.Laws.{CollectionNamesLaw, TwoCollectionsNamesLaw, OneReadingLaw, LineReservesLaw};
ghost use Rattle.clr_model.specs.Laws.{SeenStandsLaw, BoundedSumsLaw, TestsExistLaw, CompactionExistsLaw};
ghost use Rattle.clr_model.specs.Laws.{CollectionExistsLaw, OrderLaw, SlideExistsLaw, StepsFitLaw};
ghost use Rattle.clr_model.specs.Laws.{SlideStaysLawfulLaw, SlidPlacesLaw, SlidAgesLaw, SlidFreeBeforePinsLaw};
ghost use Rattle.clr_model.specs.Laws.{SlideNamesLaw, FittingExistsLaw, FittingLaidLaw, FittedPlacesLaw};
ghost use Rattle.clr_model.specs.Laws.{BackgroundEndsLaw, BackgroundNamesLaw, BackgroundStaysLawfulLaw, FittedAgesLaw};
ghost use Rattle.std.specs.Prelude.{◌≡◌, ◌≢◌, ℕ, ◌≤◌, [], false, is_some, None, Some, true};
ghost use Rattle.clr_types.specs.Descriptors.{series_of};
ghost use Rattle.clr_types.specs.Segments.{Layout};
ghost use Rattle.clr_types.specs.Types.{Form, form_at, is_array, is_array_with_references, size_of, type_row};
ghost use Rattle.clr_types.specs.declared.segment.SegKind.TheVariants.{Pinned};
ghost use Rattle.clr_model.specs.declared.How.TheVariants.{Compact};
ghost use Rattle.clr_model.specs.Machine.{Machine};
ghost use Rattle.clr_model.specs.Lookups.{lowest_in_step};
ghost use Rattle.clr_model.specs.Updates.{born_at};
ghost use Rattle.clr_model.specs.Allocation.{allows, has_room_in, IsPlacedIn, out_of_memory, out_of_room, segment_for};
ghost use Rattle.clr_model.specs.Allocation.{waits, with_layout};
ghost use Rattle.clr_model.specs.Lawful.{IsBirthNamed};
ghost use Rattle.clr_model.specs.RoomFollows.{HasCollected};
ghost use Rattle.clr_model.specs.PinnedFollows.{acquired_for, FollowsPinnedFails, FollowsToPinned, PinnedHeapStaysLaw};
ghost use Rattle.clr_model.specs.PinnedFollows.{BackgroundPinnedHeapLaw};

/// What is alive before finalisation is kept.
pub fn first_is_kept()
    ensures { FirstIsKeptLaw }
{}

/// What is alive before finalisation is determined: two tests of it agree.
pub fn one_test()
    ensures { OneTestLaw }
{}

/// The numbers of what the threads of a lawful machine have begun fit a word.
pub fn steps_fit()
    ensures { StepsFitLaw }
{}

/// A script opens in a lawful state.
pub fn opening_is_lawful()
    ensures { OpeningLaw }
{}

/// Tests tell what is alive in a machine before finalisation, and what stays.
pub fn tests_exist()
    ensures { TestsExistLaw }
{}

/// The small heap of a machine can be compacted, whatever stays.
pub fn a_compaction_exists()
    ensures { CompactionExistsLaw }
{}

/// Every collection of a lawful machine has an outcome.
pub fn a_collection_exists()
    ensures { CollectionExistsLaw }
{}

/// A compaction of the small heap leaves a lawful layout.
pub fn a_compaction_leaves_a_lawful_layout()
    ensures { CompactionLayoutLaw }
{}

/// A sweep of the small heap leaves a lawful layout.
pub fn a_sweep_leaves_a_lawful_layout()
    ensures { SweepLayoutLaw }
{}

/// A whole collection leaves a lawful layout.
pub fn a_collection_leaves_a_lawful_layout()
    ensures { CollectionLayoutLaw }
{}

/// After a collection of generation 0 or 1, objects and free items fill every segment.
pub fn a_young_collection_fills_the_segments()
    ensures { YoungTilesLaw }
{}

/// A collection leaves a lawful state, where no thread is between the halves of a step.
pub fn a_collection_stays_lawful()
    ensures { CollectionStaysLawfulLaw }
{}

/// A sweep moves nothing: objects that are named by their places still are.
pub fn a_sweep_keeps_names_of_places()
    ensures { SweepNamesLaw }
{}

/// A condemned object that stays gets the next older generation, and a pinned one at most that; an older object keeps
/// its generation.
pub fn objects_are_promoted()
    ensures { PromotionLaw }
{}

/// A collection leaves pinned objects where they are.
pub fn pinned_objects_stay()
    ensures { PinnedStayLaw }
{}

/// A collection moves no object to a higher place.
pub fn no_object_rises()
    ensures { NoneRisesLaw }
{}

/// A collection keeps the order of the small heap's objects that aren't pinned.
pub fn objects_keep_their_order()
    ensures { OrderLaw }
{}

/// Each free item that a compaction leaves lies right before a pinned object.
pub fn free_items_lie_before_pins()
    ensures { FreeBeforePinsLaw }
{}

/// The large heap of a machine can be slid.
pub fn a_slide_exists()
    ensures { SlideExistsLaw }
{}

/// A slide leaves a lawful machine.
pub fn a_slide_stays_lawful()
    ensures { SlideStaysLawfulLaw }
{}

/// A slide takes no object to a higher place, and leaves pinned objects and those of the small heap where they are.
pub fn a_slide_moves_large_objects_down()
    ensures { SlidPlacesLaw }
{}

/// A slide leaves each object its generation.
pub fn a_slide_keeps_generations()
    ensures { SlidAgesLaw }
{}

/// Each free item that a slide leaves in the large heap lies right before a pinned object.
pub fn slid_free_items_lie_before_pins()
    ensures { SlidFreeBeforePinsLaw }
{}

/// What a slide does to a machine's picture, it does to the machine, whatever its objects are called.
pub fn names_do_not_matter_in_a_slide()
    ensures { SlideNamesLaw }
{}

/// Survivors of generation 1 can be fitted into older free items, whatever stays.
pub fn a_fitting_exists()
    ensures { FittingExistsLaw }
{}

/// A fitting leaves the memory as lawful.
pub fn a_fitting_leaves_a_lawful_memory()
    ensures { FittingLaidLaw }
{}

/// A fitting takes no object to a higher place, and leaves pinned objects where they are.
pub fn a_fitting_moves_objects_down()
    ensures { FittedPlacesLaw }
{}

/// What a fitting puts into an older free item is of generation 2 then.
pub fn fitted_objects_are_old()
    ensures { FittedAgesLaw }
{}

/// Every background collection can end.
pub fn a_background_collection_ends()
    ensures { BackgroundEndsLaw }
{}

/// The end of a background collection leaves a lawful state, where no thread is between the halves of a step.
pub fn a_background_collection_stays_lawful()
    ensures { BackgroundStaysLawfulLaw }
{}

/// What the end of a background collection does to a machine's picture, it does to the machine, whatever its objects
/// are called.
pub fn names_do_not_matter_in_the_background()
    ensures { BackgroundNamesLaw }
{}

/// What a collection does to a machine's picture, it does to the machine, whatever its objects are called.
pub fn names_do_not_matter()
    ensures { CollectionNamesLaw }
{}

/// What two collections do to pictures, one after the other, they do to the machine.
pub fn names_do_not_matter_in_two_collections()
    ensures { TwoCollectionsNamesLaw }
{}

/// A line has one reading: two instructions whose line it is are one.
pub fn a_line_has_one_reading()
    ensures { OneReadingLaw }
{}

/// A line reserves at most 2^30 bytes more, whatever it is.
pub fn a_line_reserves_little()
    ensures { LineReservesLaw }
{}

/// A lawful machine whose objects are named by their places stands for one whose objects are named by births.
pub fn a_lawful_picture_is_stood_for()
    ensures { SeenStandsLaw }
{}

/// Each of the four sums that a lawful machine counts is at most its limit.
pub fn sums_stay_below_the_limit()
    ensures { BoundedSumsLaw }
{}

/// A pinned allocation, on what is seen, comes to a place, or to none, by these steps in their order: a place that is
/// there, a new segment within the limit, a wait for a thread in mid-step, and after a full compacting collection the
/// first two again.
pub fn pinned_ladders_follow()
    ensures place { (s : Machine) (size : ℕ) → has_room_in Pinned s.layout size ≡ true → FollowsToPinned s size s }
    ensures acquired { (s : Machine) (size : ℕ) → has_room_in Pinned s.layout size ≡ false
        → allows s (segment_for s size) ≡ true → FollowsToPinned s size (acquired_for size s) }
    ensures lacks { (s : Machine) (size : ℕ) → has_room_in Pinned s.layout size ≡ false
        → allows s (segment_for s size) ≡ true → FollowsPinnedFails s size out_of_memory s }
    ensures waits { (s : Machine) (size k : ℕ) → has_room_in Pinned s.layout size ≡ false
        → allows s (segment_for s size) ≡ false → lowest_in_step s ≡ Some k → FollowsPinnedFails s size (waits k) s }
    ensures collected_place { (s : Machine) (size : ℕ) → has_room_in Pinned s.layout size ≡ false
        → allows s (segment_for s size) ≡ false → lowest_in_step s ≡ None → (full : Machine)
        → HasCollected s 2 Compact full → has_room_in Pinned full.layout size ≡ true → FollowsToPinned s size full }
    ensures collected_acquired { (s : Machine) (size : ℕ) → has_room_in Pinned s.layout size ≡ false
        → allows s (segment_for s size) ≡ false → lowest_in_step s ≡ None → (full : Machine)
        → HasCollected s 2 Compact full → has_room_in Pinned full.layout size ≡ false
        → allows full (segment_for full size) ≡ true → FollowsToPinned s size (acquired_for size full) }
    ensures collected_lacks { (s : Machine) (size : ℕ) → has_room_in Pinned s.layout size ≡ false
        → allows s (segment_for s size) ≡ false → lowest_in_step s ≡ None → (full : Machine)
        → HasCollected s 2 Compact full → has_room_in Pinned full.layout size ≡ false
        → allows full (segment_for full size) ≡ true → FollowsPinnedFails s size out_of_memory full }
    ensures none { (s : Machine) (size : ℕ) → has_room_in Pinned s.layout size ≡ false
        → allows s (segment_for s size) ≡ false → lowest_in_step s ≡ None → (full : Machine)
        → HasCollected s 2 Compact full → has_room_in Pinned full.layout size ≡ false
        → allows full (segment_for full size) ≡ false → FollowsPinnedFails s size out_of_room full }
{}

/// The birth of an array without references in a pinned segment leaves a lawful state.
pub fn pinned_births_are_lawful()
    ensures { (m : Machine) (t local place type len : ℕ) (layout : Layout) → IsBirthNamed m
        → is_some (type_row m.types type) ≡ true → is_array (form_at m.types type) ≡ true
        → is_array_with_references (form_at m.types type) ≡ false → size_of (form_at m.types type) len ≤ 1073741824
        → IsPlacedIn Pinned m.layout (size_of (form_at m.types type) len) place layout
        → IsBirthNamed (born_at (with_layout m layout) t local place type len) }
{}

/// What stands in a pinned segment keeps its place in every collection, a slide of the large heap and the last pause of
/// a background collection included.
pub fn pinned_heap_stays()
    ensures collections { PinnedHeapStaysLaw }
    ensures background { BackgroundPinnedHeapLaw }
{}

/// An array has no series of references just where it has no references.
pub fn plain_arrays_have_no_series()
    ensures plain { (form : Form) → is_array form ≡ true → is_array_with_references form ≡ false
        → series_of form ≡ [] }
    ensures refer { (form : Form) → is_array form ≡ true → is_array_with_references form ≡ true
        → series_of form ≢ [] }
{}
