//! The law of an empty proof. The function does nothing: its contract is the law.

ghost use Rattle.drup_mode.specs.EmptyLaw.{EmptyShows};

/// What comes of an empty proof, as the second text is where it has the name of the first.
pub fn empty_law()
    ensures { EmptyShows }
{}
