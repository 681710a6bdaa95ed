//! The tokens of a text, one after another.

ghost use Rattle.std.specs.Prelude.{◌≡◌, ◌+◌, ◌<◌, ◌≤◌, ◌^◌, [], ◌∷◌, length, drop};
ghost use Rattle.std.specs.Prelude.{false, Some, MatchOption, IfNone, OnSome};
ghost use Rattle.std.specs.List.{prefix_len};
ghost use Rattle.bumblebee_reader.specs.Bytes.{is_word, is_digit, is_in_comment, is_letter};
ghost use Rattle.bumblebee_reader.specs.Tokens.{tokens_at, last_line_at, token_of, token_from, length_from, lone_token};
ghost use Rattle.bumblebee_reader.specs.Tokens.{begins_gap};

use crate::lexeme::{Lexeme, Sign, is_digit, is_letter, is_word};

/// What is left of a text, and the line on which it begins.
#[derive(Clone, Copy)]
pub struct Tokens<'a> {
    rest: &'a [u8],
    line: u64,
    ghost fits: { line + length rest.now < 2 ^ 64 },
}

impl<'a> Tokens<'a> {
    /// The tokens of a whole text.
    pub fn new(text: &'a [u8]) -> Tokens<'a>
        ensures rest { result.rest.now ≡ text.now }
        ensures line { result.line ≡ 1 }
    {
        Tokens {
            rest: text,
            line: 1,
        }
    }

    /// The line of the token that was taken last, or of the end where none was left.
    pub fn line(&self) -> u64
        ensures { result ≡ self.now.line }
    {
        self.line
    }

    /// The next token. Each byte is looked at once.
    pub fn next(&mut self) -> Option<Lexeme<'a>>
        ensures token { MatchOption result (tokens_at self.old.line self.old.rest.now ≡ [])
            (λ t. tokens_at self.old.line self.old.rest.now
            ≡ record { token = token_of t; line = self.new.line } ∷ tokens_at self.new.line self.new.rest.now) }
        ensures end { last_line_at self.new.line self.new.rest.now ≡ last_line_at self.old.line self.old.rest.now }
        ensures at_end { IfNone result (self.new.rest.now ≡ []) }
        ensures shorter { OnSome result (length self.new.rest.now < length self.old.rest.now) }
    {
        while let Some((first, others)) = self.rest.split_first() {
            match *first {
                b'\n' => {
                    self.line += 1;
                    self.rest = others;
                }
                b' ' | b'\t' | b'\r' => self.rest = others,
                b'%' => self.rest = behind_comment(others),
                byte => {
                    let (lexeme, rest) = split_lexeme(self.rest, byte, others);
                    self.rest = rest;
                    return Some(lexeme);
                }
            }
        }
        None
    }
}

/// The token at the front of the bytes, where no gap stands, and what stands behind it.
fn split_lexeme<'a>(bytes: &'a [u8], first: u8, others: &'a [u8]) -> (Lexeme<'a>, &'a [u8])
    requires parts { bytes.now ≡ first ∷ others.now }
    requires token { begins_gap first ≡ false }
    ensures token { token_from first others.now ≡ Some (token_of result.0) }
    ensures rest { result.1.now ≡ drop (length_from first others.now) others.now }
{
    if is_letter(first) {
        let (word, rest) = bytes.split_at(1 + word_length(others));
        return (Lexeme::Word(word), rest);
    }
    if is_digit(first) {
        let (digits, rest) = bytes.split_at(1 + digits_length(others));
        return (Lexeme::Digits(digits), rest);
    }
    (lone_lexeme(first), others)
}

/// The token that is one byte.
fn lone_lexeme<'a>(byte: u8) -> Lexeme<'a>
    ensures { token_of result ≡ lone_token byte }
{
    match byte {
        b'(' => Lexeme::Sign(Sign::OpenCall),
        b')' => Lexeme::Sign(Sign::CloseCall),
        b'[' => Lexeme::Sign(Sign::OpenList),
        b']' => Lexeme::Sign(Sign::CloseList),
        b',' => Lexeme::Sign(Sign::Comma),
        b'-' => Lexeme::Sign(Sign::Dash),
        _ => Lexeme::Stray,
    }
}

/// What stands behind the bytes that go on with a comment.
fn behind_comment(bytes: &[u8]) -> &[u8]
    ensures rest { result.now ≡ drop (prefix_len is_in_comment bytes.now) bytes.now }
    ensures within { length result.now ≤ length bytes.now }
{
    let (_comment, rest) = bytes.split_at(comment_length(bytes));
    rest
}

/// How many of the first bytes go on with a comment.
fn comment_length(bytes: &[u8]) -> usize
    ensures count { result ≡ prefix_len is_in_comment bytes.now }
    ensures within { result ≤ length bytes.now }
{
    bytes.iter().take_while(|byte| **byte != b'\n').count()
}

/// How many of the first bytes go on with a name.
fn word_length(bytes: &[u8]) -> usize
    ensures count { result ≡ prefix_len is_word bytes.now }
    ensures within { result ≤ length bytes.now }
{
    bytes.iter().take_while(|byte| is_word(**byte)).count()
}

/// How many of the first bytes are digits.
fn digits_length(bytes: &[u8]) -> usize
    ensures count { result ≡ prefix_len is_digit bytes.now }
    ensures within { result ≤ length bytes.now }
{
    bytes.iter().take_while(|byte| is_digit(**byte)).count()
}
