//! The tokens of a line.

ghost use Rattle.std.specs.Prelude.{◌≡◌, ◌==◌, ◌<◌, ◌^◌, ◌+◌, ◌*◌, ◌-◌, nat_le, true};
ghost use Rattle.std.specs.Prelude.{IsTrue, Some, None, if◌then◌else◌, slice_index};
ghost use Rattle.std.specs.List.{list_all};
ghost use Rattle.std.specs.Char.{is_ascii_digit};
ghost use Rattle.opb_front.specs.Tokens.{are_digits, value_of, signed, number_token, literal_token, term_token};
ghost use Rattle.opb_front.specs.Tokens.{token_of, is_comment};

use crate::items::{Comparison, Literal};
use bee_text::is;

/// The greatest absolute value of a number.
pub(crate) const MOST_NUMBER: u64 = 1_073_741_824;

/// The greatest index.
const MOST_INDEX: u64 = 1_000_000;

/// A token.
#[derive(Clone, Copy)]
pub(crate) enum Token {
    /// `min:`
    Min,
    /// `;`
    Semicolon,
    /// A comparison.
    Compare(Comparison),
    /// A number in the limit.
    Number(i64),
    /// A number past the limit.
    PastNumber,
    /// A literal whose index is in the limit.
    Of(Literal),
    /// A literal whose index is past the limit.
    PastIndex,
    /// No token.
    Unknown,
}

/// Whether each byte is a digit.
fn all_digits(bytes: &[u8]) -> bool
    ensures { result ≡ list_all is_ascii_digit bytes.now }
{
    bytes.iter().all(|b| b.is_ascii_digit())
}

/// Whether bytes are digits, at least one.
fn are_digits(bytes: &[u8]) -> bool
    ensures { result ≡ are_digits bytes.now }
{
    !bytes.is_empty() && all_digits(bytes)
}

/// A number with one digit more.
fn with_digit(value: u64, byte: u8) -> u64
    requires value { value < 2 ^ 32 }
    requires digit { is_ascii_digit byte ≡ true }
    ensures { result ≡ 10 * value + (byte - 48) }
{
    10 * value + u64::from(byte - b'0')
}

/// The number that digits make, where it is at most `most`. It looks at no digit past the one that passes it.
fn value_within(digits: &[u8], most: u64) -> Option<u64>
    requires digits { IsTrue (are_digits digits.now) }
    requires most { most < 2 ^ 32 }
    ensures { result ≡ (if nat_le (value_of digits.now) most then Some (value_of digits.now) else None) }
{
    let mut value: u64 = 0;
    for byte in digits {
        value = with_digit(value, *byte);
        if value > most {
            return None;
        }
    }
    Some(value)
}

/// A number with its sign.
fn signed(positive: bool, value: u64) -> i64
    requires { value < 2 ^ 32 }
    ensures { result ≡ signed positive value }
{
    let number = value as i64;
    if positive { number } else { -number }
}

/// A number, by its sign and its digits.
fn number_token(positive: bool, digits: &[u8]) -> Token
    ensures { result ≡ number_token positive digits.now }
{
    if !are_digits(digits) {
        return Token::Unknown;
    }
    match value_within(digits, MOST_NUMBER) {
        Some(value) => Token::Number(signed(positive, value)),
        None => Token::PastNumber,
    }
}

/// A literal, by its sign and the digits of its index.
fn literal_token(positive: bool, digits: &[u8]) -> Token
    ensures { result ≡ literal_token positive digits.now }
{
    if !are_digits(digits) || digits[0] == b'0' {
        return Token::Unknown;
    }
    match value_within(digits, MOST_INDEX) {
        Some(index) => Token::Of(Literal {
            index: index as u32,
            positive,
        }),
        None => Token::PastIndex,
    }
}

/// Whether the byte at a place is this one.
fn has_at(word: &[u8], place: usize, byte: u8) -> bool
    requires { 0 < byte }
    ensures { result ≡ (slice_index word.now place == byte) }
{
    place < word.len() && word[place] == byte
}

/// A number or a literal.
fn term_token(word: &[u8]) -> Token
    ensures { result ≡ term_token word.now }
{
    if has_at(word, 0, b'+') {
        number_token(true, &word[1..])
    } else if has_at(word, 0, b'-') {
        number_token(false, &word[1..])
    } else if has_at(word, 0, b'x') {
        literal_token(true, &word[1..])
    } else if has_at(word, 0, b'~') && has_at(word, 1, b'x') {
        literal_token(false, &word[2..])
    } else {
        number_token(true, word)
    }
}

/// The token that a word is.
pub(crate) fn token_of(word: &[u8]) -> Token
    ensures { result ≡ token_of word.now }
{
    if is(word, b";") {
        Token::Semicolon
    } else if is(word, b">=") {
        Token::Compare(Comparison::AtLeast)
    } else if is(word, b"<=") {
        Token::Compare(Comparison::AtMost)
    } else if is(word, b"=") {
        Token::Compare(Comparison::Equal)
    } else if is(word, b"min:") {
        Token::Min
    } else {
        term_token(word)
    }
}

/// Whether a line says nothing.
pub(crate) fn is_comment(line: &[u8]) -> bool
    ensures { result ≡ is_comment line.now }
{
    has_at(line, 0, b'*')
}
