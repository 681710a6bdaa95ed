//! Models that are in the limits of a text.

ghost use Rattle.std.specs.Prelude.{IfOk};
ghost use Rattle.model_meaning.specs.WellTyped.{WellTyped};
ghost use Rattle.model_meaning.specs.Limits.{InLimits};

use bumblebee_reader::read_model;
use model_meaning::{Model, in_limits};
use std::alloc::Global;
use std::test::Fail;
use typed_model::check_types;

/// A model that is in the limits of a text.
pub(super) fn small_model(alloc: Global, text: &str) -> Result<Model, Fail>
    ensures typed { IfOk result WellTyped }
    ensures limits { IfOk result InLimits }
{
    let syntax = read_model(alloc, text.as_bytes())?;
    let model = check_types(alloc, &syntax)?;
    if in_limits(&model) {
        Ok(model)
    } else {
        Err(Fail::from("too great a numeral"))
    }
}

/// A model that is too heavy.
pub(super) const HEAVY: &str = "new_int(x,0,100000000) solve satisfy";
