//! From a model that is compiled and what was found about its clauses to the text of the answer.

ghost use Rattle.std.specs.Prelude.{List, ℕ, IfOk};
ghost use Rattle.certify_mode.specs.Holding.{HoldsCompiled};
ghost use Rattle.certify_mode.specs.Certified.{IsCertifying};

use crate::fault::{RefusedFinding, fault_at};
use crate::holding::HeldCompilation;
use answer_import::{Imported, import_answer};
use std::alloc::{AllocError, Global};
use std::cell::Cell;
use text_modes::{Outcome, refusal};

/// What is written for a model and what was found about its clauses: the text of the answer, or the line that tells
/// which line fails first; what stands against that line is put into the cell.
pub(crate) fn certify_text(
    alloc: Global,
    held: HeldCompilation,
    found: &[u8],
    noted: &Cell<Option<RefusedFinding>>,
) -> Result<(Outcome, Vec<u8>), AllocError>
    requires { (text : List ℕ) × HoldsCompiled text held }
    ensures { IfOk result (λ made. IsCertifying held found.now made.0 made.1.items) }
{
    let HeldCompilation { model, compiled } = held;
    match import_answer(alloc, &model, compiled, found)? {
        Imported::Answer(_, text) => Ok((Outcome::Done, text)),
        Imported::Refused(line) => {
            noted.set(Some(fault_at(found, line)));
            let text = refusal(alloc, line)?;
            Ok((Outcome::Refused(line), text))
        }
    }
}
