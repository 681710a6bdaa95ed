//! Which texts have hints.

ghost use Rattle.std.specs.Prelude.{◌≡◌};
ghost use Rattle.bee_text.specs.Gaps.{words_of};
ghost use Rattle.lrat_check.specs.Kinds.{has_zero, has_two_zeros, begins_deletion, is_lrat_text};

use bee_text::next_word;
use sat_front::{cut_line, is_word};

/// Whether one of the words of a text is `0`.
fn has_zero(text: &[u8]) -> bool
    ensures { result ≡ has_zero (words_of text.now) }
{
    let mut rest = text;
    while let Some((word, behind)) = next_word(rest) {
        if is_word(word, b"0") {
            return true;
        }
        rest = behind;
    }
    false
}

/// Whether two of the words of a text are `0`.
fn has_two_zeros(text: &[u8]) -> bool
    ensures { result ≡ has_two_zeros (words_of text.now) }
{
    let mut rest = text;
    while let Some((word, behind)) = next_word(rest) {
        if is_word(word, b"0") {
            return has_zero(behind);
        }
        rest = behind;
    }
    false
}

/// Whether the first word of a text is `d`.
fn begins_deletion(text: &[u8]) -> bool
    ensures { result ≡ begins_deletion (words_of text.now) }
{
    match next_word(text) {
        None => false,
        Some((word, _)) => is_word(word, b"d"),
    }
}

/// Whether a text is a proof with hints rather than one without, by its first line that says something: with hints it
/// has two words `0`, or `d` as its second word. It looks at no line behind that one.
pub fn is_lrat_text(text: &[u8]) -> bool
    ensures { result ≡ is_lrat_text text.now }
{
    let mut rest = text;
    while let Some((line, lines)) = cut_line(rest) {
        if let Some((first, behind)) = next_word(line) {
            if !is_word(first, b"c") {
                return begins_deletion(behind) || has_two_zeros(line);
            }
        }
        rest = lines;
    }
    false
}
