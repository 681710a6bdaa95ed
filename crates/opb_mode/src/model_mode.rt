//! The mode `opbmodel`.

ghost use Rattle.text_modes.specs.Seen.{seen, shelf_shown, sink_shown};
ghost use Rattle.opb_mode.specs.OpbModelMode.{OpbModelMode};

use crate::making::file_model_text;
use bee_outside::{Shelf, Sink};
use model_texts::{LONGEST_TEXT, ModelFault, ModelTextFault};
use std::alloc::{AllocError, Global};
use text_modes::{End, Made, OneText, Outcome, run_one};

/// The text of a file is read, and that of its model is written.
struct Modelling;

impl OneText for Modelling {
    ghost use Rattle.std.specs.Prelude.{◌+◌, Some};
    ghost use Rattle.model_texts.specs.ModelTexts.{longest_text};
    ghost use Rattle.opb_mode.specs.Files.{HasFileFault};
    ghost use Rattle.opb_mode.specs.OpbModelMode.{Gives};

    type Fault = ModelFault;

    ghost most = { λ _. Some (longest_text + 1) };

    ghost gives = { λ _. Gives };

    ghost has_fault = { λ _. HasFileFault };

    fn limit(&self) -> Option<usize> {
        Some(LONGEST_TEXT + 1)
    }

    fn too_long(&self) -> ModelFault {
        ModelFault::TooLong
    }

    #[tactic(auto, using(crate::proofs::Faults::file_had, crate::proofs::Faults::within_limit))]
    fn make(&self, alloc: Global, text: &[u8]) -> Result<Made<ModelFault>, AllocError> {
        match file_model_text(alloc, text) {
            Ok(written) => Ok(Made::Text(Outcome::Done, written)),
            Err(ModelTextFault::Model(fault)) => Ok(Made::Fault(fault)),
            Err(ModelTextFault::Memory) => Err(AllocError),
        }
    }
}

/// Reads the text of a pseudo-Boolean file, makes the whole canonical text of its model, and then writes that.
pub fn opb_model_text<S: Shelf, O: Sink>(
    alloc: Global,
    input: &str,
    shelf: &mut S,
    out: &mut O,
) -> End<ModelFault>
    ensures { OpbModelMode input.now result (seen (shelf_shown S.left S.faults)
        (sink_shown O.taken O.flushed O.faults) shelf.old shelf.new out.old out.new) }
{
    run_one(alloc, &Modelling, input, shelf, out)
}
