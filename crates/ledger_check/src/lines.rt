//! Reading the lines up to the last value.

ghost use Rattle.std.specs.Prelude.{◌≡◌, ℕ, ◌++◌, List, Bool, IfSome, Some, None};
ghost use Rattle.std.specs.Prelude.{MatchOption, codes, if◌then◌else◌};
ghost use Rattle.answer_document.specs.declared.verdict.Bounds.{Bounds};
ghost use Rattle.answer_document.specs.declared.verdict.Verdict.{Verdict};
ghost use Rattle.answer_document.specs.Verdicts.{verdict_text};
ghost use Rattle.answer_document.specs.DocumentText.{best_line};
ghost use Rattle.ledger_check.specs.declared.told.Told.{Told};
ghost use Rattle.ledger_check.specs.Items.{told_word, HaveNumbers, IsVerdictLine, IsToldValue};

use crate::told::Told;
use crate::words::{read_bounds, read_told, read_words};
use answer_document::{Bounds, Verdict};
use bee_text::{is, split_words};

/// Whether the line that a version begins with is that of two objectives; `None` where it is none.
pub(crate) fn read_version(line: &[u8]) -> Option<bool>
    ensures read { IfSome result (λ two. line.now ≡ (if two then codes "bee 2" else codes "bee 1")) }
    ensures complete { (two : Bool) → line.now ≡ (if two then codes "bee 2" else codes "bee 1") → result ≡ Some two }
{
    if is(line, b"bee 2") {
        return Some(true);
    }
    if is(line, b"bee 1") {
        return Some(false);
    }
    None
}

/// The verdict that a line tells, with two numbers where there are two objectives.
pub(crate) fn read_verdict(line: &[u8], two: bool) -> Option<Verdict>
    ensures read { IfSome result (λ v. (line.now ≡ verdict_text v) × IsVerdictLine two v) }
    ensures complete { (v : Verdict) → IsVerdictLine two v → line.now ≡ verdict_text v → result ≡ Some v }
{
    let mut words = split_words(line);
    let verdict = read_words(&mut words, two)?;
    match words.next_word() {
        None => Some(verdict),
        Some(_) => None,
    }
}

/// The values of a best solution that a line tells.
pub(crate) fn read_best(line: &[u8], two: bool) -> Option<Bounds>
    ensures read { IfSome result (λ b. (line.now ≡ best_line b) × HaveNumbers two b) }
    ensures complete { (b : Bounds) → HaveNumbers two b → line.now ≡ best_line b → result ≡ Some b }
{
    let mut words = split_words(line);
    if !is(words.next_word()?, b"best") {
        return None;
    }
    let bounds = read_bounds(&mut words, two)?;
    match words.next_word() {
        None => Some(bounds),
        Some(_) => None,
    }
}

/// What stands behind a front.
fn behind<'a>(text: &'a [u8], front: &[u8]) -> Option<&'a [u8]>
    ensures { MatchOption result ((rest : List ℕ) → text.now ≡ front.now ++ rest → ⊥)
        (λ rest. text.now ≡ front.now ++ rest.now) }
{
    text.strip_prefix(front)
}

/// The value of a name that a line tells.
pub(crate) fn read_value(line: &[u8], name: &[u8]) -> Option<Told>
    ensures read { IfSome result (λ t. (line.now ≡ name.now ++ (codes " = " ++ told_word t)) × IsToldValue t) }
    ensures complete { (t : Told) → IsToldValue t → line.now ≡ name.now ++ (codes " = " ++ told_word t)
        → result ≡ Some t }
{
    let told = behind(line, name)?;
    let word = behind(told, b" = ")?;
    read_told(word)
}
