//! The model that a text says, where it is not too heavy, and what it is lowered to.

ghost use Rattle.std.specs.Prelude.{◌≡◌, ◌≤◌, length, IfOk, IfErr};
ghost use Rattle.model_texts.specs.ModelTexts.{longest_text, IsCauseOf};
ghost use Rattle.model_texts.specs.HeldModels.{HoldsLowered, lower_fault_of};

use crate::fault::ModelFault;
use crate::model_text::{ModelTextFault, model_of};
use model_lower::{LowerFault, Lowered, lower};
use model_meaning::Model;
use std::alloc::Global;

/// What a fault of the lowering makes of a text.
pub fn lower_fault(fault: LowerFault) -> ModelTextFault
    ensures { result ≡ lower_fault_of fault }
{
    match fault {
        LowerFault::TooHeavy(weight) => ModelTextFault::Model(ModelFault::TooHeavy(weight)),
        LowerFault::Memory => ModelTextFault::Memory,
    }
}

/// A model that is not too heavy, and what it is lowered to.
#[derive(Drop)]
pub struct HeldModel {
    /// The model.
    pub model: Model,
    /// The model as cores.
    pub lowered: Lowered,
}

/// The model that a text within the limit says, where it is not too heavy, lowered. It is weighed once.
pub fn held_model(alloc: Global, text: &[u8]) -> Result<HeldModel, ModelTextFault>
    requires { length text.now ≤ longest_text }
    ensures model { IfOk result (HoldsLowered text.now) }
    ensures fault { IfErr result (λ e. IsCauseOf e text.now) }
{
    let model = model_of(alloc, text)?;
    match lower(alloc, &model) {
        Ok(lowered) => Ok(HeldModel { model, lowered }),
        Err(fault) => Err(lower_fault(fault)),
    }
}
