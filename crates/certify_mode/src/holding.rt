//! From the text of a model to what it is compiled to.

ghost use Rattle.std.specs.Prelude.{◌≤◌, length, IfOk, IfErr, MatchOption};
ghost use Rattle.model_texts.specs.ModelTexts.{longest_text, IsCauseOf};
ghost use Rattle.certify_mode.specs.Holding.{HoldsCompiled, HasTwo};

use answer_document::has_second;
use bee_compile::Compiled;
use compile_mode::compile_model;
use model_lower::weigh;
use model_meaning::Model;
use model_texts::{ModelTextFault, lower_fault, model_of};
use std::alloc::Global;

/// A model, and what it is compiled to.
#[derive(Drop)]
pub(crate) struct HeldCompilation {
    pub(crate) model: Model,
    pub(crate) compiled: Compiled,
}

/// The model that a text within the limit says, where it is not too heavy, compiled; none where it has two objectives,
/// and then it is weighed alone. The text is read twice, since the compiler uses a model up.
pub(crate) fn held_compilation(
    alloc: Global,
    text: &[u8],
) -> Result<Option<HeldCompilation>, ModelTextFault>
    requires { length text.now ≤ longest_text }
    ensures held { IfOk result (λ made. MatchOption made (HasTwo text.now) (HoldsCompiled text.now)) }
    ensures fault { IfErr result (λ e. IsCauseOf e text.now) }
{
    let model = model_of(alloc, text)?;
    if has_second(model.goal) {
        return match weigh(alloc, &model) {
            Ok(()) => Ok(None),
            Err(fault) => Err(lower_fault(fault)),
        };
    }
    let twin = model_of(alloc, text)?;
    match compile_model(alloc, twin) {
        Ok(compiled) => Ok(Some(HeldCompilation { model, compiled })),
        Err(fault) => Err(lower_fault(fault)),
    }
}
