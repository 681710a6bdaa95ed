//! Laws of parts, for proofs of crates above. The function does nothing; its contract is the laws.

ghost use Rattle.model_parts.specs.PartLaws.{OnlyTyped, OnlyInLimits, OnlySolutions, FewerHold, OthersHold};
ghost use Rattle.model_parts.specs.PartLaws.{ChosenWeight};
ghost use Rattle.model_parts.specs.DividedLaws.{PartIsOnly, MarkedIsChosen};

/// A model with a part of its statements is well typed and in the limits where the model is; its solutions are the
/// assignments in the domains for which each of its statements holds; and it weighs no more than any part may. The
/// part of a divided model is the model with the statements that it has, and where the listed ones are marked, with
/// those.
pub fn part_law()
    ensures typed { OnlyTyped }
    ensures limits { OnlyInLimits }
    ensures solutions { OnlySolutions }
    ensures fewer { FewerHold }
    ensures others { OthersHold }
    ensures weight { ChosenWeight }
    ensures part { PartIsOnly }
    ensures marked { MarkedIsChosen }
{}
