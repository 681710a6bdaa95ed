//! The model that a text says, where no part of it is too heavy.

ghost use Rattle.std.specs.Prelude.{◌≤◌, ℕ, List, length, IfOk, IfErr};
ghost use Rattle.model_texts.specs.ModelTexts.{longest_text, IsCauseOf};
ghost use Rattle.conflict_models.specs.ConflictModels.{HoldsWhole, IsReasonOf};

use model_meaning::Model;
use model_parts::weight_above;
use model_texts::{ModelFault, ModelTextFault, model_of};
use std::alloc::Global;

/// Why reading a text gives no model. Reading alone tells no weight, so no text comes to the first arm.
pub fn reading_fault(fault: ModelTextFault) -> ModelTextFault
    ensures { (text : List ℕ) → IsCauseOf fault text → IsReasonOf result text }
{
    match fault {
        ModelTextFault::Model(ModelFault::TooHeavy(_)) => ModelTextFault::Memory,
        other => other,
    }
}

/// The model that a text within the limit says, where no part of it is too heavy. It takes as long as reading and
/// weighing.
pub fn whole_model(alloc: Global, text: &[u8]) -> Result<Model, ModelTextFault>
    requires { length text.now ≤ longest_text }
    ensures model { IfOk result (HoldsWhole text.now) }
    ensures fault { IfErr result (λ e. IsReasonOf e text.now) }
{
    let model = match model_of(alloc, text) {
        Ok(model) => model,
        Err(fault) => return Err(reading_fault(fault)),
    };
    match weight_above(alloc, &model) {
        Ok(None) => Ok(model),
        Ok(Some(weight)) => Err(ModelTextFault::Model(ModelFault::TooHeavy(weight))),
        Err(_) => Err(ModelTextFault::Memory),
    }
}
