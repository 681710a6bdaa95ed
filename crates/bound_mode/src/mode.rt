//! The mode `bound`.

ghost use Rattle.text_modes.specs.Seen.{seen, shelf_shown, sink_shown};
ghost use Rattle.bound_mode.specs.BoundMode.{BoundMode};

use crate::fault::BoundFault;
use crate::making::bound_text;
use bee_outside::{Shelf, Sink};
use model_texts::{LONGEST_TEXT, ModelFault, ModelTextFault};
use std::alloc::{AllocError, Global};
use text_modes::{End, Made, OneText, Outcome, run_one};

/// The text of a model is read, and its compiled text is written, with the clause that its objective is better than a
/// number.
#[derive(Drop)]
struct Bounding {
    number: i64,
}

impl OneText for Bounding {
    ghost use Rattle.std.specs.Prelude.{◌+◌, Some};
    ghost use Rattle.model_texts.specs.ModelTexts.{longest_text};
    ghost use Rattle.bound_mode.specs.Bounded.{Gives, HasFault};

    type Fault = BoundFault;

    ghost most = { λ _. Some (longest_text + 1) };

    ghost gives = { λ bounding. Gives bounding.number };

    ghost has_fault = { λ _. HasFault };

    fn limit(&self) -> Option<usize> {
        Some(LONGEST_TEXT + 1)
    }

    fn too_long(&self) -> BoundFault {
        BoundFault::Model(ModelFault::TooLong)
    }

    #[tactic(auto, using(crate::proofs::Ends::had_fault, crate::proofs::Ends::within_limit))]
    fn make(&self, alloc: Global, text: &[u8]) -> Result<Made<BoundFault>, AllocError> {
        match bound_text(alloc, text, self.number) {
            Ok(Some(written)) => Ok(Made::Text(Outcome::Done, written)),
            Ok(None) => Ok(Made::Fault(BoundFault::NoObjective)),
            Err(ModelTextFault::Model(fault)) => Ok(Made::Fault(BoundFault::Model(fault))),
            Err(ModelTextFault::Memory) => Err(AllocError),
        }
    }
}

/// Reads the text of a model, makes its whole compiled text with the clause that its objective is better than a number,
/// and then writes that.
pub fn bound<S: Shelf, O: Sink>(
    alloc: Global,
    input: &str,
    number: i64,
    shelf: &mut S,
    out: &mut O,
) -> End<BoundFault>
    ensures { BoundMode number input.now result (seen (shelf_shown S.left S.faults)
        (sink_shown O.taken O.flushed O.faults) shelf.old shelf.new out.old out.new) }
{
    run_one(alloc, &Bounding { number }, input, shelf, out)
}
