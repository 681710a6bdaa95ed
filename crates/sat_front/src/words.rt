//! The words of a line.

ghost use Rattle.std.specs.Prelude.{◌≡◌, ◌↔◌, ℕ, ◌+◌, ◌<◌, ◌≤◌, ◌^◌, ◌∷◌, []};
ghost use Rattle.std.specs.Prelude.{IsTrue, MatchOption};
ghost use Rattle.std.specs.Fmt.{decimal};
ghost use Rattle.bee_text.specs.Gaps.{words_of};
ghost use Rattle.sat_front.specs.CnfLines.{AreNumbers, IsHeader};

use bee_text::{next_word, read_number};

/// The greatest number of variables.
const MOST_VARS: u128 = 67_108_864;

/// The greatest number of clauses.
const MOST_CLAUSES: u128 = 9_223_372_036_854_775_807;

/// Whether a word is these bytes.
pub fn is_word(word: &[u8], bytes: &[u8]) -> bool
    ensures { IsTrue result ↔ (word.now ≡ bytes.now) }
{
    word == bytes
}

/// The first of two numbers that are the words of a text: how many variables and how many clauses there are.
fn read_numbers(text: &[u8]) -> Option<u32>
    ensures { MatchOption result ((vars : ℕ) → AreNumbers (words_of text.now) vars → ⊥)
        (λ vars. AreNumbers (words_of text.now) vars) }
{
    let (word, behind) = next_word(text)?;
    let vars = read_number(word, MOST_VARS)?;
    let (word, behind) = next_word(behind)?;
    let _count = read_number(word, MOST_CLAUSES)?;
    if next_word(behind).is_none() {
        Some(vars as u32)
    } else {
        None
    }
}

/// The number of variables that the line before the clauses tells, with its first word apart.
pub(crate) fn read_header(first: &[u8], behind: &[u8]) -> Option<u32>
    ensures { MatchOption result ((vars : ℕ) → IsHeader (first.now ∷ words_of behind.now) vars → ⊥)
        (λ vars. IsHeader (first.now ∷ words_of behind.now) vars) }
{
    let (second, numbers) = next_word(behind)?;
    if is_word(first, b"p") && is_word(second, b"cnf") {
        match read_numbers(numbers) {
            Some(vars) => Some(vars),
            None => None,
        }
    } else {
        None
    }
}
