//! Laws of the checker's reading. Each function does nothing; its contract is the law.

ghost use Rattle.ledger_check.specs.Laws.{WholeIsValid, ValidIsWhole, OneFirstFault};

/// A text that is read line by line to its end is a valid answer, and a valid answer is read to its end.
pub fn reading_law()
    ensures whole { WholeIsValid }
    ensures valid { ValidIsWhole }
{}

/// A text has one first line that fails, since a line says one thing where it stands.
pub fn first_fault_law()
    ensures { OneFirstFault }
{}
