//! The laws, each the contract of a function that does nothing.

ghost use Rattle.search_laws.specs.Luby.{LubySums};
ghost use Rattle.search_laws.specs.Stretches.{StretchesFit};
ghost use Rattle.search_laws.specs.TrailNumber.{NeverRises, FallsWhenTurned, StaysBelow};

/// The sum of the first terms of Luby's sequence.
pub fn luby_law()
    ensures { LubySums }
{}

/// How many clauses a search with restarts can learn.
pub fn stretch_law()
    ensures { StretchesFit }
{}

/// How the trail's number changes.
pub fn trail_law()
    ensures rises { NeverRises }
    ensures falls { FallsWhenTurned }
    ensures below { StaysBelow }
{}
