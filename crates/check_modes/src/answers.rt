//! The mode `check`.

ghost use Rattle.text_modes.specs.Seen.{seen, shelf_shown, sink_shown};
ghost use Rattle.check_modes.specs.CheckMode.{CheckMode};

use crate::checked::Checked;
use crate::checker::Checker;
use crate::run::run_check;
use answer_document::{Verdict, push_verdict};
use bee_outside::{Shelf, Sink};
use ledger_check::{Judgement, Why, check_lowered};
use model_texts::{HeldModel, ModelFault, ModelTextFault, held_model};
use std::alloc::{AllocError, Global};
use std::cell::Cell;
use text_modes::End;

/// Answers as a kind of text. What stands against a line that is refused goes beside, into a cell, since no clause
/// speaks of it.
#[derive(Drop)]
struct Answers<'a> {
    noted: &'a Cell<Option<Why>>,
}

impl Checker for Answers<'_> {
    ghost use Rattle.std.specs.Prelude.{◌≡◌};
    ghost use Rattle.model_lower.specs.Lowering.{lowered_of};
    ghost use Rattle.check_modes.specs.CheckMode.{answers};

    type Held = HeldModel;

    type Verdict = Verdict;

    ghost kind = { answers };

    ghost model_of = { λ held. held.model };

    ghost is_kept = { λ held. held.lowered ≡ lowered_of held.model };

    fn judge(&self, alloc: Global, first: &[u8]) -> Result<HeldModel, ModelTextFault> {
        held_model(alloc, first)
    }

    fn check(
        &self,
        alloc: Global,
        held: HeldModel,
        answer: &[u8],
    ) -> Result<Checked<Verdict>, AllocError> {
        let HeldModel { model, lowered } = held;
        match check_lowered(alloc, &model, lowered, answer)? {
            Judgement::Valid(verdict) => Ok(Checked::Valid(verdict)),
            Judgement::Refused { line, why } => {
                self.noted.set(Some(why));
                Ok(Checked::Refused(line))
            }
        }
    }

    fn push_words(&self, out: &mut Vec<u8>, verdict: Verdict) -> Result<(), AllocError> {
        push_verdict(out, verdict)
    }
}

/// Reads the text of a model and judges it, and then reads the text of an answer and checks it; makes the line that
/// tells what came of that, and then writes it, as by `run_check`. What stands against a line that is refused is put
/// into the cell.
pub fn check<S: Shelf, O: Sink>(
    alloc: Global,
    input: &str,
    second: &str,
    shelf: &mut S,
    out: &mut O,
    noted: &Cell<Option<Why>>,
) -> End<ModelFault>
    ensures { CheckMode input.now second.now result (seen (shelf_shown S.left S.faults)
        (sink_shown O.taken O.flushed O.faults) shelf.old shelf.new out.old out.new) }
{
    run_check(alloc, &Answers { noted }, input, second, shelf, out)
}
