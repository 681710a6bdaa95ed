//! Laws of lowering, for proofs of crates above. Each function does nothing; its contract is the law.

ghost use Rattle.statement_lower.specs.Lowers.{LineLaw, VariablesLaw};
ghost use Rattle.statement_lower.specs.SameMeanings.{SameMeanings};

/// What statements and cores say alike of lists of numbers and of truths.
pub fn meaning_law()
    ensures { SameMeanings }
{}

/// The cores of a statement stand for its being true.
pub fn line_law()
    ensures { LineLaw }
{}

/// A statement keeps the variables so far.
pub fn variables_law()
    ensures { VariablesLaw }
{}
