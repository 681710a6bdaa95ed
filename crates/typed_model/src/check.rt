//! From a text's items to a model.

ghost use Rattle.std.specs.Prelude.{◌≡◌, IfOk, IfErr, None};
ghost use Rattle.typed_model.specs.Items.{first_fault, model_of, IsFaultOf};
ghost use Rattle.model_meaning.specs.WellTyped.{WellTyped};

use crate::fault::TypeFault;
use crate::taking::Typing;
use bumblebee_reader::Syntax;
use model_meaning::Model;
use std::alloc::Global;

/// The model of a text's items, or the first fault: that of the first item that has one. It is linear in
/// the text.
pub fn check_types(alloc: Global, syntax: &Syntax) -> Result<Model, TypeFault>
    ensures accepted { IfOk result (λ m. first_fault syntax.now.items ≡ None) }
    ensures model { IfOk result (λ m. m ≡ model_of syntax.now.items) }
    ensures typed { IfOk result WellTyped }
    ensures fault { IfErr result (λ e. IsFaultOf e syntax.now.items) }
{
    let mut typing = Typing::new(alloc);
    for item in syntax.items.as_slice() {
        typing.take(alloc, item)?;
    }
    typing.finish()
}
