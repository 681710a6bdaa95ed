//! The law that each text has an answer. The function does nothing: its contract is the law.

ghost use Rattle.dimacs_read.specs.AnswerLaws.{TextOrLine, ValuesOrLine};

/// A text is a compiled text, or a line of it fails; and for a CNF it is in the form of values, or a line of it fails.
pub fn answer_law()
    ensures text { TextOrLine }
    ensures values { ValuesOrLine }
{}
