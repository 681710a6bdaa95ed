//! Tokens as they stand in the text, and the classes of bytes.

ghost use Rattle.std.specs.Prelude.{◌≡◌};
ghost use Rattle.std.specs.List.{list_all};
ghost use Rattle.bumblebee_reader.specs.Bytes.{is_letter, is_digit, is_word};
ghost use Rattle.bumblebee_reader.specs.Names.{is_name};

/// One of the six signs.
#[derive(Clone, Copy)]
pub enum Sign {
    /// `(`
    OpenCall,
    /// `)`
    CloseCall,
    /// `[`
    OpenList,
    /// `]`
    CloseList,
    /// `,`
    Comma,
    /// `-`
    Dash,
}

/// A token, whose bytes are lent by the text.
#[derive(Clone, Copy)]
pub enum Lexeme<'a> {
    /// A name.
    Word(&'a [u8]),
    /// Digits in a row.
    Digits(&'a [u8]),
    /// One of the six signs.
    Sign(Sign),
    /// Any other byte, which fits nowhere.
    Stray,
}

/// Whether a byte may begin a name.
pub fn is_letter(byte: u8) -> bool
    ensures { result ≡ is_letter byte }
{
    byte.is_ascii_alphabetic() || byte == b'_'
}

/// Whether a byte is a digit.
pub fn is_digit(byte: u8) -> bool
    ensures { result ≡ is_digit byte }
{
    byte.is_ascii_digit()
}

/// Whether a byte may stand in a name.
pub fn is_word(byte: u8) -> bool
    ensures { result ≡ is_word byte }
{
    is_letter(byte) || is_digit(byte)
}

/// Whether each byte may stand in a name.
fn are_name_bytes(bytes: &[u8]) -> bool
    ensures { result ≡ list_all is_word bytes.now }
{
    bytes.iter().all(|b| is_word(*b))
}

/// Whether a word is a name.
pub fn is_name(word: &[u8]) -> bool
    ensures { result ≡ is_name word.now }
{
    !word.is_empty() && is_letter(word[0]) && are_name_bytes(&word[1..])
}
