//! The laws of the mode. Each function does nothing: its contract is the law.

ghost use Rattle.core_mode.specs.Accepted.{ConflictsAreAccepted};
ghost use Rattle.core_mode.specs.CoreMode.{CoreAnswers};

/// What is written for a text `checkcore` accepts beside it.
pub fn accepted_law()
    ensures { ConflictsAreAccepted }
{}

/// Each text has a fault, or says a model that is answered.
pub fn answer_law()
    ensures { CoreAnswers }
{}
