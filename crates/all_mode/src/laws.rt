//! The laws of the mode. Each function does nothing: its contract is the law.

ghost use Rattle.all_mode.specs.AllLaws.{ListsAreAccepted, AllAnswers};

/// What is written for a text `checkall` accepts beside it.
pub fn accepted_law()
    ensures { ListsAreAccepted }
{}

/// It cannot be that a text has neither a fault nor a model, so each has an end of the mode.
pub fn answer_law()
    ensures { AllAnswers }
{}
