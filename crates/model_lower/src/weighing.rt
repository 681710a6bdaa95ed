//! Whether a model is light enough to be lowered.

ghost use Rattle.std.specs.Prelude.{◌≤◌, IfOk, IfErr};
ghost use Rattle.model_meaning.specs.Limits.{InLimits};
ghost use Rattle.model_weight.specs.Weight.{weight_of};
ghost use Rattle.model_lower.specs.Weighed.{most_weight};
ghost use Rattle.model_lower.specs.Faults.{IsFaultOf};

use crate::fault::LowerFault;
use model_meaning::Model;
use model_weight::weight;
use std::alloc::Global;

/// The greatest weight of a model that is lowered.
const MOST_WEIGHT: u128 = 67_108_864;

/// Tells a model that weighs too much.
pub fn weigh(alloc: Global, model: &Model) -> Result<(), LowerFault>
    requires { InLimits model.now }
    ensures light { IfOk result (λ u. weight_of model.now ≤ most_weight) }
    ensures heavy { IfErr result (λ e. IsFaultOf e model.now) }
{
    let weight = weight(alloc, model)?;
    if weight > MOST_WEIGHT {
        return Err(LowerFault::TooHeavy(weight));
    }
    Ok(())
}
