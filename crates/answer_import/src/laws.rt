//! Laws of what another solver found. The function does nothing: its contract is the laws.

ghost use Rattle.answer_import.specs.FindingLaws.{ShowsOne, ShowsOrFails, FailsOnce, ShowsOrFailsOnce};

use lrat_check::answer_laws;

/// Each text has one end: it shows one verdict, or one line of it is the first that fails.
pub fn finding_laws()
    ensures one { ShowsOne }
    ensures either { ShowsOrFails }
    ensures once { FailsOnce }
    ensures some { ShowsOrFailsOnce }
{
    answer_laws();
}
