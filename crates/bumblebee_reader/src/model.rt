//! Reads a model text.

ghost use Rattle.std.specs.Prelude.{◌≡◌, ◌↔◌, ℕ, Ok, Err};
ghost use Rattle.bumblebee_reader.specs.declared.syntax.Syntax.{Syntax};
ghost use Rattle.bumblebee_reader.specs.Grammar.{IsText};
ghost use Rattle.bumblebee_reader.specs.Faults.{IsSyntaxFault, IsNumberFault, MemoryFound};
ghost use Rattle.bumblebee_reader.specs.Reading.{AtItem, reading, Gives};

use crate::fault::ReadFault;
use crate::items::ItemReader;
use crate::syntax::Syntax;
use bee_list::Sequence;
use std::alloc::Global;

/// The syntax of a text, or its first fault. One pass over the bytes, each of which is looked at once; a
/// name of more than 16 bytes takes memory once, when it is whole. `ItemReader` gives the same items one at a time.
pub fn read_model(alloc: Global, text: &[u8]) -> Result<Syntax, ReadFault>
    ensures ok { MemoryFound result → (s : Syntax) → (result ≡ Ok s) ↔ IsText text.now s }
    ensures syntax { MemoryFound result → (line : ℕ)
        → (result ≡ Err (ReadFault.Syntax line)) ↔ IsSyntaxFault text.now line }
    ensures number { MemoryFound result → (line : ℕ)
        → (result ≡ Err (ReadFault.Number line)) ↔ IsNumberFault text.now line }
{
    read_whole(alloc, text)
}

fn read_whole(alloc: Global, text: &[u8]) -> Result<Syntax, ReadFault>
    ensures { Gives result (reading AtItem 1 text.now) (λ s. Ok s.items) }
{
    let mut left = ItemReader::new(text);
    let mut items = Vec::new(alloc);
    while let Some(item) = left.next_item(alloc)? {
        items.push(item)?;
    }
    Ok(Syntax {
        items: Sequence::from_vec(items),
    })
}
