//! The words of a text that stand apart by any blanks, tabs, carriage returns and line feeds.

ghost use Rattle.std.specs.Prelude.{◌≡◌, ◌∷◌, ◌++◌, [], not, MatchOption, IfSome, position};
ghost use Rattle.bee_text.specs.Words.{is_gap, IsWord};
ghost use Rattle.bee_text.specs.Gaps.{after_gap, words_of};

/// The first word of a text and what stands behind it, or nothing where the text has no word. The gap
/// before the word is passed over; the rest begins with the gap behind it, or is empty.
pub fn next_word(text: &[u8]) -> Option<(&[u8], &[u8])>
    ensures words { MatchOption result (words_of text.now ≡ [])
        (λ w. words_of text.now ≡ w.0.now ∷ words_of w.1.now) }
    ensures parts { IfSome result (λ w. after_gap text.now ≡ w.0.now ++ w.1.now) }
    ensures word { IfSome result (λ w. IsWord w.0.now) }
{
    let start = find_word(text)?;
    let text = &text[start..];
    let end = find_gap(text).unwrap_or(text.len());
    Some((&text[..end], &text[end..]))
}

// Whether a byte stands between words.
fn is_gap(byte: u8) -> bool
    ensures { result ≡ is_gap byte }
{
    matches!(byte, b' ' | b'\t' | b'\n' | b'\r')
}

// The place of the first byte of a word.
fn find_word(text: &[u8]) -> Option<usize>
    ensures { result ≡ position (λ b. not (is_gap b)) text.now }
{
    text.iter().position(|b| !is_gap(*b))
}

// The place of the first byte of a gap.
pub(crate) fn find_gap(text: &[u8]) -> Option<usize>
    ensures { result ≡ position is_gap text.now }
{
    text.iter().position(|b| is_gap(*b))
}
