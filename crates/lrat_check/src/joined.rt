//! The words of a line, with single blanks between them.

ghost use Rattle.std.specs.Prelude.{◌≡◌, ◌∷◌, OnOk};
ghost use Rattle.bee_text.specs.Gaps.{words_of};
ghost use Rattle.bee_text.specs.Words.{join_words};

use bee_text::{next_word, push_bytes};
use std::alloc::AllocError;

/// Writes a first word and those of a text behind it, with a single blank between two of them, in place of what `out`
/// had.
pub(crate) fn write_joined(out: &mut Vec<u8>, first: &[u8], behind: &[u8]) -> Result<(), AllocError>
    ensures { OnOk result (out.new.items ≡ join_words (first.now ∷ words_of behind.now)) }
{
    out.clear();
    push_bytes(out, first)?;
    let mut rest = behind;
    while let Some((word, others)) = next_word(rest) {
        out.push(b' ')?;
        push_bytes(out, word)?;
        rest = others;
    }
    Ok(())
}
