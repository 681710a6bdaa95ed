//! From a text to the model that it says.

ghost use Rattle.std.specs.Prelude.{◌≡◌, ◌≢◌, ◌++◌, ◌∷◌, [], List, IfOk, IfErr, OnOk};
ghost use Rattle.std.specs.Prelude.{MatchResult, Ok, Err};
ghost use Rattle.bumblebee_reader.specs.declared.syntax.Item.{Item};
ghost use Rattle.bumblebee_reader.specs.Unread.{unread, whole_text};
ghost use Rattle.typed_model.specs.Taken.{HasTaken};
ghost use Rattle.model_texts.specs.ModelTexts.{IsModelOf, IsCauseOf, text_fault_of, read_fault_of};

use crate::fault::ModelFault;
use bumblebee_reader::{Item, ItemReader, ReadFault};
use model_meaning::Model;
use std::alloc::Global;
use typed_model::{TypeFault, Typing};

/// The greatest number of bytes of a model's text.
pub const LONGEST_TEXT: usize = 16_777_216;

/// Why nothing comes of a text.
#[derive(Debug, Drop)]
pub enum ModelTextFault {
    /// It has this fault.
    Model(ModelFault),
    /// Memory is wanting.
    Memory,
}

/// What a fault of the items makes of a text.
fn text_fault(fault: TypeFault) -> ModelTextFault
    ensures { result ≡ text_fault_of fault }
{
    match fault {
        TypeFault::Memory => ModelTextFault::Memory,
        other => ModelTextFault::Model(ModelFault::Typed(other)),
    }
}

/// What a fault of the reading makes of a text.
fn read_fault(fault: ReadFault) -> ModelTextFault
    ensures { result ≡ read_fault_of fault }
{
    match fault {
        ReadFault::Syntax(line) => ModelTextFault::Model(ModelFault::Syntax(line)),
        ReadFault::Number(line) => ModelTextFault::Model(ModelFault::Number(line)),
        ReadFault::Memory => ModelTextFault::Memory,
    }
}

/// Types one more item, and lets it go.
fn take_item(alloc: Global, typing: &mut Typing, item: Item) -> Result<(), ReadFault>
    ensures taken { (items : List Item) → HasTaken typing.old items
        → OnOk result (HasTaken typing.new (items ++ item ∷ [])) }
    ensures fault { IfErr result (λ f. f ≡ ReadFault.Memory) }
{
    typing.take(alloc, &item)?;
    Ok(())
}

/// The items of a text, typed one by one, or the first fault of reading them. A fault of an item is kept while
/// the rest of the text is read, since faults of the text come first.
fn take_items(alloc: Global, text: &[u8]) -> Result<Typing, ReadFault>
    ensures { MatchResult result
        (λ t. (items : List Item) × (unread (whole_text text.now) ≡ Ok items) × HasTaken t items)
        (λ f. f ≢ ReadFault.Memory → unread (whole_text text.now) ≡ Err f) }
{
    let mut items = ItemReader::new(text);
    let mut typing = Typing::new(alloc);
    while let Some(item) = items.next_item(alloc)? {
        take_item(alloc, &mut typing, item)?;
    }
    Ok(typing)
}

/// The model that a text says. Of what was read of the text just one item stands at a time.
pub fn model_of(alloc: Global, text: &[u8]) -> Result<Model, ModelTextFault>
    ensures model { IfOk result (λ m. IsModelOf text.now m) }
    ensures fault { IfErr result (λ e. IsCauseOf e text.now) }
{
    let typing = match take_items(alloc, text) {
        Ok(typing) => typing,
        Err(fault) => return Err(read_fault(fault)),
    };
    match typing.finish() {
        Ok(model) => Ok(model),
        Err(fault) => Err(text_fault(fault)),
    }
}
