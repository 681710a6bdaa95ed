//! Laws of new labels, for proofs of crates above. The function does nothing; its contract is the law.

ghost use Rattle.asking_bound.specs.Laws.{FewNewLabels, FewPairs};

/// A merge gives a new label to the smaller class alone, whose members are then in one at least twice as large, or have
/// a constant, which stays. So a variable gets one new label at most for each binary digit of the number of variables.
pub fn new_label_laws()
    ensures labels { FewNewLabels }
    ensures pairs { FewPairs }
{}
