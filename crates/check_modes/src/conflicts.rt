//! The mode `checkcore`.

ghost use Rattle.text_modes.specs.Seen.{seen, shelf_shown, sink_shown};
ghost use Rattle.check_modes.specs.CheckCoreMode.{CheckCoreMode};

use crate::checked::Checked;
use crate::checker::Checker;
use crate::run::run_check;
use bee_outside::{Shelf, Sink};
use conflict_check::{ConflictJudgement, RefusedConflict, check_text};
use conflict_models::whole_model;
use conflict_text::{CoreVerdict, push_verdict};
use model_meaning::Model;
use model_texts::{ModelFault, ModelTextFault};
use std::alloc::{AllocError, Global};
use std::cell::Cell;
use text_modes::End;

/// Conflicts as a kind of text. What stands against a line that is refused goes beside, into a cell, since no clause
/// speaks of it.
#[derive(Drop)]
struct Conflicts<'a> {
    noted: &'a Cell<Option<RefusedConflict>>,
}

impl Checker for Conflicts<'_> {
    ghost use Rattle.check_modes.specs.CheckCoreMode.{conflicts};

    type Held = Model;

    type Verdict = CoreVerdict;

    ghost kind = { conflicts };

    ghost model_of = { λ model. model };

    ghost is_kept = { λ _. Unit {0} };

    fn judge(&self, alloc: Global, first: &[u8]) -> Result<Model, ModelTextFault> {
        whole_model(alloc, first)
    }

    fn check(
        &self,
        alloc: Global,
        held: Model,
        conflict: &[u8],
    ) -> Result<Checked<CoreVerdict>, AllocError> {
        match check_text(alloc, held, conflict, self.noted)? {
            ConflictJudgement::Valid(verdict) => Ok(Checked::Valid(verdict)),
            ConflictJudgement::Refused(line) => Ok(Checked::Refused(line)),
        }
    }

    fn push_words(&self, out: &mut Vec<u8>, verdict: CoreVerdict) -> Result<(), AllocError> {
        push_verdict(out, verdict)
    }
}

/// Reads the text of a model and judges it, and then reads the text of a conflict and checks it; makes the line that
/// tells what came of that, and then writes it, as by `run_check`. What stands against a line that is refused is put
/// into the cell.
pub fn check_core<S: Shelf, O: Sink>(
    alloc: Global,
    input: &str,
    second: &str,
    shelf: &mut S,
    out: &mut O,
    noted: &Cell<Option<RefusedConflict>>,
) -> End<ModelFault>
    ensures { CheckCoreMode input.now second.now result (seen (shelf_shown S.left S.faults)
        (sink_shown O.taken O.flushed O.faults) shelf.old shelf.new out.old out.new) }
{
    run_check(alloc, &Conflicts { noted }, input, second, shelf, out)
}
