//! The mode `compile`.

ghost use Rattle.text_modes.specs.Seen.{seen, shelf_shown, sink_shown};
ghost use Rattle.compile_mode.specs.CompileMode.{CompileMode};

use crate::making::compile_text;
use bee_outside::{Shelf, Sink};
use model_texts::{LONGEST_TEXT, ModelFault, ModelTextFault};
use std::alloc::{AllocError, Global};
use text_modes::{End, Made, OneText, Outcome, run_one};

/// The text of a model is read, and its compiled text is written.
struct Compiling;

impl OneText for Compiling {
    ghost use Rattle.std.specs.Prelude.{◌+◌, Some};
    ghost use Rattle.model_texts.specs.ModelTexts.{longest_text, HasFault};
    ghost use Rattle.compile_mode.specs.Compiled.{Gives};

    type Fault = ModelFault;

    ghost most = { λ _. Some (longest_text + 1) };

    ghost gives = { λ _. Gives };

    ghost has_fault = { λ _. HasFault };

    fn limit(&self) -> Option<usize> {
        Some(LONGEST_TEXT + 1)
    }

    fn too_long(&self) -> ModelFault {
        ModelFault::TooLong
    }

    #[tactic(auto, using(crate::proofs::Ends::ends))]
    fn make(&self, alloc: Global, text: &[u8]) -> Result<Made<ModelFault>, AllocError> {
        match compile_text(alloc, text) {
            Ok(written) => Ok(Made::Text(Outcome::Done, written)),
            Err(ModelTextFault::Model(fault)) => Ok(Made::Fault(fault)),
            Err(ModelTextFault::Memory) => Err(AllocError),
        }
    }
}

/// Reads the text of a model, makes its whole compiled text, and then writes that.
pub fn compile<S: Shelf, O: Sink>(
    alloc: Global,
    input: &str,
    shelf: &mut S,
    out: &mut O,
) -> End<ModelFault>
    ensures { CompileMode input.now result (seen (shelf_shown S.left S.faults)
        (sink_shown O.taken O.flushed O.faults) shelf.old shelf.new out.old out.new) }
{
    run_one(alloc, &Compiling, input, shelf, out)
}
