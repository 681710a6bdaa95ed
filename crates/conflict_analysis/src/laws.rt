//! Laws of learned clauses, each the contract of a function that does nothing.

ghost use Rattle.conflict_analysis.specs.Laws.{LearnedAccepted, LearnedNew, LearnedFalse, LearnedUnit, LearnedInRange};
ghost use Rattle.conflict_analysis.specs.Laws.{MayResolve, ConflictIsHere, EmptyNew, UnitNew};

/// A learned clause is accepted with its hints.
pub fn accepted_law()
    ensures { LearnedAccepted }
{}

/// A learned clause is new: at a conflict above level 0 by complete propagation below, at level 0 where it doesn't
/// live.
pub fn new_laws()
    ensures learned { LearnedNew }
    ensures empty { EmptyNew }
    ensures one { UnitNew }
{}

/// How a learned clause stands on the trail, and after the jump.
pub fn standing_laws()
    ensures is_false { LearnedFalse }
    ensures unit { LearnedUnit }
    ensures range { LearnedInRange }
    ensures here { ConflictIsHere }
{}

/// A learned clause may be made smaller.
pub fn resolve_law()
    ensures { MayResolve }
{}
