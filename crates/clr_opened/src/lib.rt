//! The state that an image says, to go on from, and laws on it.
#![tactic(auto)]

ghost use Rattle.clr_opened.specs.Laws.{OpenedLaw, OwnReopenedLaw, ReadObjectsLaw, ReadWordLaw, ReopenedLaw};
ghost use Rattle.clr_opened.specs.Laws.{ReopenedLawfulLaw, SavedFrontLaw, SavedObjectsLaw, SettledImageLaw};

/// The image of what an image keeps of a state is the image of that state.
pub fn saving_keeps_what_is_kept()
    ensures { SettledImageLaw }
{}

/// An image that was saved delimits itself.
pub fn what_is_saved_delimits_itself()
    ensures { SavedFrontLaw }
{}

/// The words of objects are read back, and so the objects are.
pub fn objects_are_read_back()
    ensures words { ReadWordLaw }
    ensures objects { ReadObjectsLaw }
{}

/// The objects of a machine, with their slots, are those of what is loaded of its image.
pub fn objects_of_a_machine_are_read_back()
    ensures { SavedObjectsLaw }
{}

/// What is opened of a machine's image has the machine's types, objects, locals, handles, queues, steps, holder,
/// segments, boundaries of generations, limit, least size of large objects and flag.
pub fn a_machine_that_was_saved_is_opened()
    ensures { OpenedLaw }
{}

/// What is opened of a machine's image is what an image keeps of the machine, and nothing else, but for budgets; with
/// the machine's own budgets not even these differ, where its ephemeral segment is as long as its options say. It is a
/// lawful state, where its options are lawful.
pub fn what_is_opened_is_what_is_kept()
    ensures kept { ReopenedLaw }
    ensures own { OwnReopenedLaw }
    ensures lawful { ReopenedLawfulLaw }
{}
