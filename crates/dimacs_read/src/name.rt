//! Which words are names.

ghost use Rattle.std.specs.Prelude.{◌↔◌, IsTrue};
ghost use Rattle.bumblebee_reader.specs.Names.{IsDeclarable};

use bee_text::is;
use bumblebee_reader::is_name;

/// Whether a word is a name that may be declared.
pub(crate) fn is_declarable(word: &[u8]) -> bool
    ensures { IsTrue result ↔ IsDeclarable word.now }
{
    is_name(word) && !is(word, b"true") && !is(word, b"false")
}
