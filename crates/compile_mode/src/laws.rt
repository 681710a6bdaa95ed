//! The law that no text is without an answer. The function does nothing: its contract is the law.

ghost use Rattle.compile_mode.specs.AnswerLaw.{CompileAnswers};

/// Each text has an end of compile mode.
pub fn answer_law()
    ensures { CompileAnswers }
{}
