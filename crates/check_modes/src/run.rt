//! The run that checks a text against a model.

ghost use Rattle.std.specs.Prelude.{◌≡◌, IfOk};
ghost use Rattle.text_modes.specs.Seen.{seen, shelf_shown, sink_shown};
ghost use Rattle.check_modes.specs.Kinds.{accepted_text};
ghost use Rattle.check_modes.specs.Checks.{CheckRun};

use crate::checked::Checked;
use crate::checker::Checker;
use bee_outside::{Shelf, Sink};
use bee_text::{end_line, push_bytes};
use model_texts::{LONGEST_TEXT, ModelFault, ModelTextFault};
use std::alloc::{AllocError, Global};
use text_modes::{End, Outcome, TwoTexts, refusal, run_two};

/// The line that tells that a text is valid, with its verdict's words.
fn acceptance<C: Checker>(
    alloc: Global,
    checker: &C,
    verdict: C::Verdict,
) -> Result<Vec<u8>, AllocError>
    ensures { IfOk result (λ text. text.items ≡ accepted_text (C.kind.words verdict)) }
{
    let mut out = Vec::new(alloc);
    push_bytes(&mut out, b"ACCEPTED ")?;
    checker.push_words(&mut out, verdict)?;
    end_line(&mut out)?;
    Ok(out)
}

/// The text of a model is read first, and then the one that is checked. Its fault is that of the model.
#[derive(Drop)]
struct Checking<'a, C> {
    checker: &'a C,
}

impl<C: Checker> TwoTexts for Checking<'_, C> {
    ghost use Rattle.std.specs.Prelude.{◌+◌, Some};
    ghost use Rattle.model_texts.specs.ModelTexts.{longest_text};
    ghost use Rattle.check_modes.specs.Kinds.{HasFault, Gives};

    type Held = C::Held;

    type Fault = ModelFault;

    ghost most = { λ _. Some (longest_text + 1) };

    ghost holds = { λ _ text held. C.kind.Holds text (C.model_of held) × C.is_kept held };

    ghost has_fault = { λ _. HasFault C.kind };

    ghost gives = { λ _. Gives C.kind };

    fn limit(&self) -> Option<usize> {
        Some(LONGEST_TEXT + 1)
    }

    fn too_long(&self) -> ModelFault {
        ModelFault::TooLong
    }

    #[tactic(auto, using(crate::proofs::Ends::within_limit))]
    fn judge(
        &self,
        alloc: Global,
        first: &[u8],
    ) -> Result<Result<C::Held, ModelFault>, AllocError> {
        match self.checker.judge(alloc, first) {
            Ok(held) => Ok(Ok(held)),
            Err(ModelTextFault::Model(fault)) => Ok(Err(fault)),
            Err(ModelTextFault::Memory) => Err(AllocError),
        }
    }

    fn make(
        &self,
        alloc: Global,
        held: C::Held,
        second: &[u8],
    ) -> Result<(Outcome, Vec<u8>), AllocError> {
        match self.checker.check(alloc, held, second)? {
            Checked::Valid(verdict) => {
                let text = acceptance(alloc, self.checker, verdict)?;
                Ok((Outcome::Done, text))
            }
            Checked::Refused(line) => {
                let text = refusal(alloc, line)?;
                Ok((Outcome::Refused(line), text))
            }
        }
    }
}

/// Reads the text of a model and judges it, and then reads the second text and checks it; makes the line that tells
/// what came of that, and then writes it. Where both have one name, the second text is what the reading of the model
/// left: on a shelf that tells its bytes, nothing, which is refused at line 1.
pub fn run_check<C: Checker, S: Shelf, O: Sink>(
    alloc: Global,
    checker: &C,
    input: &str,
    second: &str,
    shelf: &mut S,
    out: &mut O,
) -> End<ModelFault>
    ensures { CheckRun C.kind input.now second.now result (seen (shelf_shown S.left S.faults)
        (sink_shown O.taken O.flushed O.faults) shelf.old shelf.new out.old out.new) }
{
    run_two(alloc, &Checking { checker }, input, second, shelf, out)
}
