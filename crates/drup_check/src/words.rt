//! The words of a line.

ghost use Rattle.std.specs.Prelude.{◌≤◌, ◌^◌, List, IfOk, MatchOption};
ghost use Rattle.bee_text.specs.Gaps.{words_of};
ghost use Rattle.order_ints.specs.declared.literal.Lit.{Lit};
ghost use Rattle.drup_check.specs.DrupLines.{SpellsClause};

use bee_text::next_word;
use order_ints::Lit;
use sat_front::{is_word, literal_within};
use std::alloc::{AllocError, Global};

/// The clause that the words of a text spell, with 0 behind its literals, none where they spell none or a variable is
/// above their number.
pub fn read_clause(alloc: Global, vars: u32, text: &[u8]) -> Result<Option<Vec<Lit>>, AllocError>
    requires { vars ≤ 2 ^ 27 }
    ensures { IfOk result
        (λ read. MatchOption read ((clause : List Lit) → SpellsClause vars (words_of text.now) clause → ⊥)
        (λ lits. SpellsClause vars (words_of text.now) lits.items)) }
{
    let mut lits = Vec::new(alloc);
    let mut rest = text;
    while let Some((word, behind)) = next_word(rest) {
        if is_word(word, b"0") {
            return match next_word(behind) {
                None => Ok(Some(lits)),
                Some(_) => Ok(None),
            };
        }
        let Some(literal) = literal_within(word, vars) else {
            return Ok(None);
        };
        lits.push(literal)?;
        rest = behind;
    }
    Ok(None)
}
