//! Which lines are value lines, by their form.

ghost use Rattle.std.specs.Prelude.{◌≡◌};
ghost use Rattle.wish_text.specs.Wishes.{are_parts, is_value_line};

use bee_text::{Words, is, is_word, split_words};

/// Whether the pieces that are left are a name, the sign `=` and a word.
fn are_parts(words: &mut Words<'_>) -> bool
    ensures { result ≡ are_parts words.old }
{
    let Some(name) = words.next_word() else {
        return false;
    };
    let Some(sign) = words.next_word() else {
        return false;
    };
    let Some(word) = words.next_word() else {
        return false;
    };
    if words.next_word().is_some() {
        return false;
    }
    is_word(name) && is(sign, b"=") && is_word(word)
}

/// Whether a line is a value line.
pub(crate) fn is_value_line(line: &[u8]) -> bool
    ensures { result ≡ is_value_line line.now }
{
    are_parts(&mut split_words(line))
}
