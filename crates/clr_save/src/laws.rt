//! Laws on images that are written.
ghost use Rattle.clr_save.specs.Laws.{TablesLaw, TypesLaw, WordLaw};
ghost use Rattle.clr_save.specs.SavedImages.{SavedLaw};
ghost use Rattle.clr_save.specs.WrittenImage.{ImageLaw};

/// What is written is read back.
pub fn what_is_written_is_read_back()
    ensures word { WordLaw }
    ensures types { TypesLaw }
    ensures tables { TablesLaw }
    ensures image { ImageLaw }
{}

/// The image of a lawful machine is one, and says what the machine is.
pub fn what_is_saved_is_an_image()
    ensures { SavedLaw }
{}
