//! The words of a line that stand apart by single blanks.

ghost use Rattle.std.specs.Prelude.{◌≡◌, ◌∷◌, [], ◌==◌, MatchOption, IfSome, IsTrue, position};
ghost use Rattle.bee_text.specs.Lines.{lacks};
ghost use Rattle.bee_text.specs.Words.{is_word, ArePieces, join_words, split_blanks};

use crate::gaps::find_gap;
use std::marker::Model;

/// A reader of the pieces of a text between its blanks. Two blanks in a row have an empty piece
/// between them, and so have a blank and an end of the text: what a caller takes for a word it tests
/// by [`is_word`]. It copies nothing, and passes over each byte once. A clause sees it as the list of
/// the pieces that are left.
#[derive(Drop)]
pub struct Words<'a> {
    left: Option<&'a [u8]>,
}

impl<'a> Model for Words<'a> {
    ghost use Rattle.std.specs.Prelude.{ℕ, List};
    ghost use Rattle.std.specs.Option.{option_copied};
    ghost use Rattle.bee_text.specs.Words.{pieces_left};

    ghost Value = { List (List ℕ) };

    ghost view = { λ w. pieces_left (option_copied w.left) };
}

/// The pieces of a text between its blanks.
pub fn split_words(text: &[u8]) -> Words<'_>
    ensures pieces { result ≡ split_blanks text.now }
    ensures joined { join_words result ≡ text.now }
    ensures apart { ArePieces result }
{
    Words { left: Some(text) }
}

impl<'a> Words<'a> {
    /// The next piece, if one is left.
    pub fn next_word(&mut self) -> Option<&'a [u8]>
        ensures piece { MatchOption result ((self.old ≡ []) × (self.new ≡ []))
            (λ w. self.old ≡ w.now ∷ self.new) }
        ensures apart { IfSome result (λ w. IsTrue (lacks 32 w.now)) }
    {
        let text = self.left?;
        match find_blank(text) {
            Some(end) => {
                self.left = Some(&text[end + 1..]);
                Some(&text[..end])
            }
            None => {
                self.left = None;
                Some(text)
            }
        }
    }
}

/// Whether a text is a word: it has a byte, and none is a blank, a tab, a line feed or a carriage return.
pub fn is_word(text: &[u8]) -> bool
    ensures { result ≡ is_word text.now }
{
    !text.is_empty() && find_gap(text).is_none()
}

// The place of the first blank.
fn find_blank(text: &[u8]) -> Option<usize>
    ensures { result ≡ position (λ b. b == 32) text.now }
{
    text.iter().position(|b| *b == b' ')
}
