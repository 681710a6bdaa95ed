//! The mode `certify`.

ghost use Rattle.text_modes.specs.Seen.{seen, shelf_shown, sink_shown};
ghost use Rattle.certify_mode.specs.CertifyMode.{CertifyMode};

use crate::fault::{CertifyFault, RefusedFinding};
use crate::holding::{HeldCompilation, held_compilation};
use crate::making::certify_text;
use answer_import::finding_laws;
use bee_outside::{Shelf, Sink};
use model_texts::{LONGEST_TEXT, ModelFault, ModelTextFault};
use std::alloc::{AllocError, Global};
use std::cell::Cell;
use text_modes::{End, Outcome, TwoTexts, run_two};

/// The text of a model is read first, and then what was found about its clauses. What stands against a line of that
/// goes beside, into a cell, since no clause speaks of it.
#[derive(Drop)]
struct Certifying<'a> {
    noted: &'a Cell<Option<RefusedFinding>>,
}

impl TwoTexts for Certifying<'_> {
    ghost use Rattle.std.specs.Prelude.{◌+◌, Some};
    ghost use Rattle.model_texts.specs.ModelTexts.{longest_text};
    ghost use Rattle.certify_mode.specs.Holding.{HoldsCompiled, HasFault};
    ghost use Rattle.certify_mode.specs.Certified.{Gives};

    type Held = HeldCompilation;

    type Fault = CertifyFault;

    ghost most = { λ _. Some (longest_text + 1) };

    ghost holds = { λ _. HoldsCompiled };

    ghost has_fault = { λ _. HasFault };

    ghost gives = { λ _. Gives };

    fn limit(&self) -> Option<usize> {
        Some(LONGEST_TEXT + 1)
    }

    fn too_long(&self) -> CertifyFault {
        CertifyFault::Model(ModelFault::TooLong)
    }

    fn judge(
        &self,
        alloc: Global,
        first: &[u8],
    ) -> Result<Result<HeldCompilation, CertifyFault>, AllocError> {
        match held_compilation(alloc, first) {
            Ok(Some(held)) => Ok(Ok(held)),
            Ok(None) => Ok(Err(CertifyFault::TwoObjectives)),
            Err(ModelTextFault::Model(fault)) => Ok(Err(CertifyFault::Model(fault))),
            Err(ModelTextFault::Memory) => Err(AllocError),
        }
    }

    #[tactic(auto, using(crate::proofs::Ends::given_text))]
    fn make(
        &self,
        alloc: Global,
        held: HeldCompilation,
        found: &[u8],
    ) -> Result<(Outcome, Vec<u8>), AllocError> {
        certify_text(alloc, held, found, self.noted)
    }
}

/// Reads the text of a model and compiles it, and then reads what was found about its clauses; makes the whole text of
/// the answer, or the line that tells which line fails first, and then writes it. Where both have one name, the second
/// text is what the reading of the model left: on a shelf that tells its bytes, nothing. What stands against a line
/// that is refused is put into the cell.
pub fn certify<S: Shelf, O: Sink>(
    alloc: Global,
    input: &str,
    second: &str,
    shelf: &mut S,
    out: &mut O,
    noted: &Cell<Option<RefusedFinding>>,
) -> End<CertifyFault>
    ensures { CertifyMode input.now second.now result (seen (shelf_shown S.left S.faults)
        (sink_shown O.taken O.flushed O.faults) shelf.old shelf.new out.old out.new) }
{
    finding_laws();
    run_two(alloc, &Certifying { noted }, input, second, shelf, out)
}
