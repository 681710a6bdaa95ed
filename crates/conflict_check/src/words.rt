//! Words and numbers of lines.

ghost use Rattle.std.specs.Prelude.{◌≡◌, ◌↔◌, ◌++◌, ◌<◌, ◌≤◌, ◌^◌};
ghost use Rattle.std.specs.Prelude.{ℕ, List, IsTrue, MatchOption, codes};
ghost use Rattle.std.specs.Fmt.{decimal};
ghost use Rattle.conflict_text.specs.declared.verdict.CoreVerdict.{CoreVerdict};
ghost use Rattle.conflict_text.specs.ConflictLines.{verdict_line, without_line, VerdictFits};
ghost use Rattle.conflict_text.proofs.Words.{first_byte};

use bee_text::is;
use certificate_lines::{read_count, read_spent};
use conflict_text::CoreVerdict;

/// What stands behind a word at the front of a line.
fn behind_word<'a>(line: &'a [u8], word: &[u8]) -> Option<&'a [u8]>
    ensures { MatchOption result ((rest : List ℕ) → line.now ≡ word.now ++ rest → ⊥)
        (λ rest. line.now ≡ word.now ++ rest.now) }
{
    let length = word.len();
    if line.len() < length {
        return None;
    }
    if is(&line[..length], word) {
        Some(&line[length..])
    } else {
        None
    }
}

/// The number of 64 bits that stands behind a word, where a line is both.
pub(crate) fn read_numbered(line: &[u8], word: &[u8]) -> Option<u64>
    ensures { MatchOption result ((n : ℕ) → n < 2 ^ 64 → line.now ≡ word.now ++ decimal n → ⊥)
        (λ n. (n < 2 ^ 64) × (line.now ≡ word.now ++ decimal n)) }
{
    match behind_word(line, word) {
        None => None,
        Some(rest) => read_count(rest),
    }
}

/// The number of learned clauses that a line tells.
fn read_unknown(line: &[u8]) -> Option<u64>
    ensures { MatchOption result
        ((n : ℕ) → 1 ≤ n → n < 2 ^ 63 → line.now ≡ codes "UNKNOWN " ++ decimal n → ⊥)
        (λ n. (1 ≤ n) × (n < 2 ^ 63) × (line.now ≡ codes "UNKNOWN " ++ decimal n)) }
{
    match behind_word(line, b"UNKNOWN ") {
        None => None,
        Some(rest) => read_spent(rest),
    }
}

/// The verdict that a line tells.
pub(crate) fn read_verdict(line: &[u8]) -> Option<CoreVerdict>
    ensures { MatchOption result ((v : CoreVerdict) → VerdictFits v → line.now ≡ verdict_line v → ⊥)
        (λ v. VerdictFits v × (line.now ≡ verdict_line v)) }
{
    if is(line, b"SATISFIABLE") {
        return Some(CoreVerdict::Satisfiable);
    }
    if let Some(count) = read_numbered(line, b"CORE ") {
        return Some(CoreVerdict::Core(count));
    }
    match read_unknown(line) {
        None => None,
        Some(count) => Some(CoreVerdict::Unknown(count)),
    }
}

/// Whether a line is the one before the assignment of a statement.
pub(crate) fn is_without(line: &[u8], number: u64) -> bool
    ensures { IsTrue result ↔ (line.now ≡ without_line number) }
{
    match read_numbered(line, b"without ") {
        None => false,
        Some(told) => told == number,
    }
}

/// Whether a line begins with a letter, as no line of a derivation does.
pub(crate) fn begins_word(line: &[u8]) -> bool
    ensures { IsTrue result ↔ (58 ≤ first_byte line.now) }
{
    !line.is_empty() && line[0] >= 58
}
