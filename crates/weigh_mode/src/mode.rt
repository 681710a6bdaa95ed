//! The mode `weigh`.

ghost use Rattle.text_modes.specs.Seen.{seen, shelf_shown, sink_shown};
ghost use Rattle.weigh_mode.specs.WeighMode.{WeighMode};

use crate::making::weigh_text;
use bee_outside::{Shelf, Sink};
use model_texts::{LONGEST_TEXT, ModelFault};
use std::alloc::{AllocError, Global};
use text_modes::{End, Made, OneText, run_one};

/// The text of a model is read, and what it weighs is written.
struct Weighing;

impl OneText for Weighing {
    ghost use Rattle.std.specs.Prelude.{◌+◌, Some};
    ghost use Rattle.model_texts.specs.ModelTexts.{longest_text};
    ghost use Rattle.weigh_mode.specs.WeighMode.{HasFormFault, Gives};

    type Fault = ModelFault;

    ghost most = { λ _. Some (longest_text + 1) };

    ghost gives = { λ _. Gives };

    ghost has_fault = { λ _. HasFormFault };

    fn limit(&self) -> Option<usize> {
        Some(LONGEST_TEXT + 1)
    }

    fn too_long(&self) -> ModelFault {
        ModelFault::TooLong
    }

    #[tactic(auto, using(crate::proofs::Ends::within_limit))]
    fn make(&self, alloc: Global, text: &[u8]) -> Result<Made<ModelFault>, AllocError> {
        weigh_text(alloc, text)
    }
}

/// Reads the text of a model, and writes its weight and its heaviest items. It takes the time of reading and weighing
/// the model twice, and beside it memory for ten items.
pub fn weigh<S: Shelf, O: Sink>(
    alloc: Global,
    input: &str,
    shelf: &mut S,
    out: &mut O,
) -> End<ModelFault>
    ensures { WeighMode input.now result (seen (shelf_shown S.left S.faults)
        (sink_shown O.taken O.flushed O.faults) shelf.old shelf.new out.old out.new) }
{
    run_one(alloc, &Weighing, input, shelf, out)
}
