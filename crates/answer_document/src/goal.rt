//! What is asked of a goal.

ghost use Rattle.std.specs.Prelude.{◌≡◌};
ghost use Rattle.answer_document.specs.Goals.{has_objective, has_second};

use model_meaning::Goal;

/// Whether something is sought.
pub fn has_objective(goal: Goal) -> bool
    ensures { result ≡ has_objective goal }
{
    match goal {
        Goal::Satisfy => false,
        Goal::Minimize(_, _) | Goal::Maximize(_, _) => true,
    }
}

/// Whether a second objective is sought.
pub fn has_second(goal: Goal) -> bool
    ensures { result ≡ has_second goal }
{
    match goal {
        Goal::Satisfy => false,
        Goal::Minimize(_, second) => second.is_some(),
        Goal::Maximize(_, second) => second.is_some(),
    }
}
