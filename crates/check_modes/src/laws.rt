//! The law that no two texts are without an answer. The function does nothing: its contract is the law.

ghost use Rattle.check_modes.specs.AnswerLaws.{CheckAnswers, CheckAllAnswers, CheckCoreAnswers};

/// It cannot be that two texts have no end of a mode.
pub fn answer_law()
    ensures check { CheckAnswers }
    ensures check_all { CheckAllAnswers }
    ensures check_core { CheckCoreAnswers }
{}
