//! The lines of a text, one by one.

ghost use Rattle.std.specs.Prelude.{◌≡◌, ◌==◌, ◌+◌, ◌∷◌, ◌++◌, [], IfSome, IfNone, MatchOption};
ghost use Rattle.std.specs.Prelude.{position};
ghost use Rattle.bee_text.specs.Lines.{IsLine, lines_of};

use std::marker::Model;

/// A line of a text, without the line feed that ends it.
#[derive(Clone, Copy)]
pub struct TextLine<'a> {
    /// The number of the line, from 1.
    pub number: usize,
    /// What stands before its line feed.
    pub bytes: &'a [u8],
}

/// A reader of a text's lines. It copies nothing, and passes over each byte once.
#[derive(Drop)]
pub struct Lines<'a> {
    left: &'a [u8],
    count: usize,
}

impl<'a> Model for Lines<'a> {
    ghost use Rattle.std.specs.Prelude.{◌+◌, ◌<◌, ◌^◌, length};
    ghost use Rattle.bee_text.specs.Lines.{Progress};

    ghost Value = { Progress };

    ghost view = { λ l. record { rest = l.left.now; read = l.count } };

    ghost invariant = { λ l. l.count + length l.left.now < 2 ^ 64 };
}

impl<'a> Lines<'a> {
    /// The reader at the start of a text.
    pub fn new(text: &'a [u8]) -> Lines<'a>
        ensures rest { result.rest ≡ text.now }
        ensures read { result.read ≡ 0 }
    {
        Lines {
            left: text,
            count: 0,
        }
    }

    /// The next line, if a line feed is left.
    pub fn next_line(&mut self) -> Option<TextLine<'a>>
        ensures line { IfSome result (λ l. IsLine l.bytes.now) }
        ensures rest { IfSome result (λ l. self.old.rest ≡ l.bytes.now ++ 10 ∷ self.new.rest) }
        ensures number { IfSome result (λ l. l.number ≡ self.old.read + 1) }
        ensures read { IfSome result (λ _. self.new.read ≡ self.old.read + 1) }
        ensures none { IfNone result (IsLine self.old.rest × (self.new ≡ self.old)) }
        ensures lines { MatchOption result (lines_of self.old.rest ≡ [])
            (λ l. lines_of self.old.rest ≡ l.bytes.now ∷ lines_of self.new.rest) }
    {
        let text = self.left;
        let end = find_line_feed(text)?;
        self.left = &text[end + 1..];
        self.count += 1;
        Some(TextLine {
            number: self.count,
            bytes: &text[..end],
        })
    }

    /// What is left of the text behind the lines that were given.
    pub fn rest(&self) -> &'a [u8]
        ensures { result.now ≡ self.now.rest }
    {
        self.left
    }
}

// The place of the first line feed.
fn find_line_feed(text: &[u8]) -> Option<usize>
    ensures { result ≡ position (λ b. b == 10) text.now }
{
    text.iter().position(|b| *b == b'\n')
}
