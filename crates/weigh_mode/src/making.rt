//! From the text of a model to the lines that tell what it weighs.

ghost use Rattle.std.specs.Prelude.{◌≡◌, ◌<◌, ◌≤◌, ◌^◌, length, IfOk};
ghost use Rattle.model_meaning.specs.Limits.{InLimits};
ghost use Rattle.model_weight.specs.Weight.{weight_of};
ghost use Rattle.model_texts.specs.ModelTexts.{longest_text};
ghost use Rattle.text_modes.specs.Ends.{IsMade};
ghost use Rattle.weigh_mode.specs.WeighingText.{weighing_text};
ghost use Rattle.weigh_mode.specs.WeighMode.{HasFormFault, form_fault_of, Gives};

use crate::heaviest::heaviest_items;
use crate::weighing_lines::{push_items, push_weight};
use model_meaning::Model;
use model_texts::{ModelFault, ModelTextFault, model_of};
use model_weight::weight;
use std::alloc::{AllocError, Global};
use text_modes::{Made, Outcome};

/// The lines of a model.
fn weigh_model(alloc: Global, model: &Model) -> Result<Vec<u8>, AllocError>
    requires limits { InLimits model.now }
    requires fits { weight_of model.now < 2 ^ 128 }
    ensures { IfOk result (λ text. text.items ≡ weighing_text model.now) }
{
    let total = weight(alloc, model)?;
    let heaviest = heaviest_items(alloc, model)?;
    let mut out = Vec::new(alloc);
    push_weight(&mut out, total)?;
    push_items(&mut out, total, heaviest.as_slice())?;
    Ok(out)
}

/// The fault of a text that says no model; that one weighs too much is none.
fn form_fault(fault: ModelFault) -> Option<ModelFault>
    ensures { result ≡ form_fault_of fault }
{
    match fault {
        ModelFault::TooHeavy(_) => None,
        other => Some(other),
    }
}

/// The lines of the model that a text says, or the first fault of a text that says none. A text that is read is not
/// weighed before, so none is told to be too heavy.
#[tactic(auto, using(crate::proofs::Ends::told))]
pub(crate) fn weigh_text(alloc: Global, text: &[u8]) -> Result<Made<ModelFault>, AllocError>
    requires { length text.now ≤ longest_text }
    ensures { IfOk result (IsMade (Gives text.now) (HasFormFault text.now)) }
{
    match model_of(alloc, text) {
        Ok(model) => {
            let written = weigh_model(alloc, &model)?;
            Ok(Made::Text(Outcome::Done, written))
        }
        Err(ModelTextFault::Model(fault)) => match form_fault(fault) {
            Some(told) => Ok(Made::Fault(told)),
            None => Err(AllocError),
        },
        Err(ModelTextFault::Memory) => Err(AllocError),
    }
}
