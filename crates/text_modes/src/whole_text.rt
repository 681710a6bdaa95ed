//! Reading a text to its end.

ghost use Rattle.std.specs.Prelude.{◌≡◌, ◌≢◌, ℕ, ◌≤◌, List, None, IfOk};
ghost use Rattle.bee_outside.specs.Bytes.{TookPiece};
ghost use Rattle.bee_outside.specs.Faults.{read_count, UnlessFailed};
ghost use Rattle.text_modes.specs.Promises.{ReadWhole};

use bee_outside::{ReadText, Shelf, ShelfFault, read_all};
use std::alloc::Global;

/// Reads what is left under a name, to its end.
pub fn read_whole<S: Shelf>(alloc: Global, shelf: &mut S, name: &str) -> Result<Vec<u8>, ShelfFault>
    ensures no_count_falls { (other : List ℕ) → S.faults shelf.old other ≤ S.faults shelf.new other }
    ensures others_stay { (other : List ℕ) → other ≢ name.now →
        S.left shelf.new other ≡ S.left shelf.old other }
    ensures whole { IfOk result (λ text.
        ReadWhole (S.left shelf.old name.now) (S.left shelf.new name.now) text.items) }
    ensures took { TookPiece (S.left shelf.old name.now) (S.left shelf.new name.now) None }
    ensures counts_faults { S.faults shelf.new name.now ≡ read_count result (S.faults shelf.old name.now) }
    ensures counts_nothing_else { UnlessFailed result ((other : List ℕ) →
        S.faults shelf.new other ≡ S.faults shelf.old other) }
{
    match read_all(alloc, shelf, name, None) {
        Ok(ReadText::Whole(text)) => Ok(text),
        Ok(ReadText::Cut(text)) => Ok(text),
        Err(fault) => Err(fault),
    }
}
