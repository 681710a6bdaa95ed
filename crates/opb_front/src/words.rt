//! The words of a line.

ghost use Rattle.std.specs.Prelude.{◌≡◌, ◌<◌, ◌≤◌, ◌∷◌, [], false, not, MatchOption, position};
ghost use Rattle.std.specs.Prelude.{length, slice_index, take, drop};
ghost use Rattle.bee_text.specs.Words.{is_gap};
ghost use Rattle.opb_front.specs.Words.{ends_word, line_words};

/// Whether a byte stands between words.
fn is_gap(byte: u8) -> bool
    ensures { result ≡ is_gap byte }
{
    matches!(byte, b' ' | b'\t' | b'\n' | b'\r')
}

/// Whether a byte ends a word.
fn ends_word(byte: u8) -> bool
    ensures { result ≡ ends_word byte }
{
    is_gap(byte) || byte == b';'
}

/// The place of the first byte of a word.
fn find_word(text: &[u8]) -> Option<usize>
    ensures { result ≡ position (λ b. not (is_gap b)) text.now }
{
    text.iter().position(|b| !is_gap(*b))
}

/// The place of the first byte that ends a word.
fn find_end(text: &[u8]) -> Option<usize>
    ensures { result ≡ position ends_word text.now }
{
    text.iter().position(|b| ends_word(*b))
}

/// How many bytes the first word of a text has.
fn word_length(text: &[u8]) -> usize
    requires some { 0 < length text.now }
    requires word { is_gap (slice_index text.now 0) ≡ false }
    ensures within { result ≤ length text.now }
    ensures cut { line_words text.now ≡ take result text.now ∷ line_words (drop result text.now) }
{
    if text[0] == b';' {
        1
    } else {
        find_end(text).unwrap_or(text.len())
    }
}

/// The first word of a text and what stands behind it, or nothing where the text has no word.
pub(crate) fn next_word(text: &[u8]) -> Option<(&[u8], &[u8])>
    ensures { MatchOption result (line_words text.now ≡ [])
        (λ w. line_words text.now ≡ w.0.now ∷ line_words w.1.now) }
{
    let start = find_word(text)?;
    let text = &text[start..];
    let end = word_length(text);
    Some((&text[..end], &text[end..]))
}
