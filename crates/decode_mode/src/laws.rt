//! The law that each two texts have an answer. The function does nothing: its contract is the law.

ghost use Rattle.decode_mode.specs.AnswerLaw.{DecodeAnswers};

/// Of each two texts the first has a fault, or both have an end of decode mode.
pub fn answer_law()
    ensures { DecodeAnswers }
{}
