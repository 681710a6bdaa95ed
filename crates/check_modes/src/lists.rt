//! The mode `checkall`.

ghost use Rattle.text_modes.specs.Seen.{seen, shelf_shown, sink_shown};
ghost use Rattle.check_modes.specs.CheckAllMode.{CheckAllMode};

use crate::checked::Checked;
use crate::checker::Checker;
use crate::run::run_check;
use bee_outside::{Shelf, Sink};
use list_check::{ListJudgement, RefusedList, check_lowered};
use list_text::{ListVerdict, push_verdict};
use model_texts::{HeldModel, ModelFault, ModelTextFault, held_model};
use std::alloc::{AllocError, Global};
use std::cell::Cell;
use text_modes::End;

/// Lists of solutions as a kind of text. What stands against a line that is refused goes beside, into a cell, since no
/// clause speaks of it.
#[derive(Drop)]
struct Lists<'a> {
    noted: &'a Cell<Option<RefusedList>>,
}

impl Checker for Lists<'_> {
    ghost use Rattle.std.specs.Prelude.{◌≡◌};
    ghost use Rattle.model_lower.specs.Lowering.{lowered_of};
    ghost use Rattle.check_modes.specs.CheckAllMode.{lists};

    type Held = HeldModel;

    type Verdict = ListVerdict;

    ghost kind = { lists };

    ghost model_of = { λ held. held.model };

    ghost is_kept = { λ held. held.lowered ≡ lowered_of held.model };

    fn judge(&self, alloc: Global, first: &[u8]) -> Result<HeldModel, ModelTextFault> {
        held_model(alloc, first)
    }

    fn check(
        &self,
        alloc: Global,
        held: HeldModel,
        list: &[u8],
    ) -> Result<Checked<ListVerdict>, AllocError> {
        let HeldModel { model, lowered } = held;
        match check_lowered(alloc, &model, lowered, list, self.noted)? {
            ListJudgement::Valid(verdict) => Ok(Checked::Valid(verdict)),
            ListJudgement::Refused(line) => Ok(Checked::Refused(line)),
        }
    }

    fn push_words(&self, out: &mut Vec<u8>, verdict: ListVerdict) -> Result<(), AllocError> {
        push_verdict(out, verdict)
    }
}

/// Reads the text of a model and judges it, and then reads the text of a list and checks it; makes the line that tells
/// what came of that, and then writes it, as by `run_check`. What stands against a line that is refused is put into the
/// cell.
pub fn check_all<S: Shelf, O: Sink>(
    alloc: Global,
    input: &str,
    second: &str,
    shelf: &mut S,
    out: &mut O,
    noted: &Cell<Option<RefusedList>>,
) -> End<ModelFault>
    ensures { CheckAllMode input.now second.now result (seen (shelf_shown S.left S.faults)
        (sink_shown O.taken O.flushed O.faults) shelf.old shelf.new out.old out.new) }
{
    run_check(alloc, &Lists { noted }, input, second, shelf, out)
}
