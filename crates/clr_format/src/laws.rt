//! Laws on images, each the contract of a function that does nothing.
ghost use Rattle.clr_format.specs.Laws.{MigratedStaysLaw, NoFaultLaw, OneImageLaw, SavedVersionLaw};

/// Bytes are an image in one way, or have a fault, and not both.
pub fn bytes_are_read_in_one_way()
    ensures image { OneImageLaw }
    ensures fault { NoFaultLaw }
{}

/// Machines are saved in the second version. So is what is migrated, and migrated again it stays as it is.
pub fn new_images_are_of_the_second_version()
    ensures saved { SavedVersionLaw }
    ensures migrated { MigratedStaysLaw }
{}
