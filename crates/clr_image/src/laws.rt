//! Laws on images.
ghost use Rattle.clr_image.specs.Migration.{MigrationLaw};

/// An image of the first version becomes one of the second with the same parts.
pub fn what_is_migrated_says_the_same()
    ensures { MigrationLaw }
{}
