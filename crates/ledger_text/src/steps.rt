//! The text of a ledger's lines.

ghost use Rattle.std.specs.Prelude.{◌≡◌, ◌↔◌, ◌++◌, ℕ, ◌<◌, ◌^◌, List, OnOk, IfOk, IfSome};
ghost use Rattle.std.specs.Prelude.{Some, IsTrue};
ghost use Rattle.std.specs.Fmt.{decimal};
ghost use Rattle.bee_text.specs.Words.{words_behind};
ghost use Rattle.core_forms.specs.declared.equation.Rule.{Rule};
ghost use Rattle.core_forms.specs.declared.equation.Equation.{Equation};
ghost use Rattle.ledger_text.specs.declared.line.Line.{Line};
ghost use Rattle.ledger_text.specs.Words.{IsReadableAtom};
ghost use Rattle.ledger_text.specs.Steps.{rule_word, equation_words, step_words, step_text, IsReadableStep};

use crate::line::Line;
use crate::words::{push_atom, read_atom};
use bee_text::{Words, is, push_blank, push_bytes, push_number, read_number, split_words};
use core_forms::{Equation, Rule};
use std::alloc::{AllocError, Global};

/// The word of a rule.
fn word_of(rule: Rule) -> &'static [u8]
    ensures { result.now ≡ rule_word rule }
{
    match rule {
        Rule::Order => b"order",
        Rule::Form => b"form",
        Rule::Table => b"table",
    }
}

/// Appends the text of a line.
pub fn push_step(out: &mut Vec<u8>, line: &Line) -> Result<(), AllocError>
    ensures { OnOk result (out.new.items ≡ out.old.items ++ step_text line.now) }
{
    match *line {
        Line::Equate { id, e } => {
            push_bytes(out, b"eq ")?;
            push_number(out, u128::from(id))?;
            push_equation(out, e)
        }
        Line::Split { id } => {
            push_bytes(out, b"split ")?;
            push_number(out, u128::from(id))
        }
        Line::Encode { id } => {
            push_bytes(out, b"enc ")?;
            push_number(out, u128::from(id))
        }
    }
}

/// Appends the words of an equation, each behind a blank.
fn push_equation(out: &mut Vec<u8>, e: Equation) -> Result<(), AllocError>
    ensures { OnOk result (out.new.items ≡ out.old.items ++ words_behind (equation_words e)) }
{
    push_blank(out)?;
    push_bytes(out, word_of(e.rule))?;
    push_blank(out)?;
    push_atom(out, e.a)?;
    push_blank(out)?;
    push_atom(out, e.b)
}

/// The text of a line.
pub fn write_step(alloc: Global, line: &Line) -> Result<Vec<u8>, AllocError>
    ensures { IfOk result (λ text. text.items ≡ step_text line.now) }
{
    let mut out = Vec::new(alloc);
    push_step(&mut out, line)?;
    Ok(out)
}

/// The rule that a word names.
fn read_rule(word: &[u8]) -> Option<Rule>
    ensures read { IfSome result (λ r. word.now ≡ rule_word r) }
    ensures complete { (r : Rule) → word.now ≡ rule_word r → result ≡ Some r }
{
    if is(word, b"order") {
        Some(Rule::Order)
    } else if is(word, b"form") {
        Some(Rule::Form)
    } else if is(word, b"table") {
        Some(Rule::Table)
    } else {
        None
    }
}

/// The id that a word spells.
fn read_id(word: &[u8]) -> Option<u64>
    ensures read { IfSome result (λ id. word.now ≡ decimal id) }
    ensures complete { (id : ℕ) → id < 2 ^ 64 → word.now ≡ decimal id → result ≡ Some id }
{
    let id = read_number(word, u128::from(u64::MAX))?;
    Some(id as u64)
}

/// The equation that the next three words spell.
fn read_equation(words: &mut Words<'_>) -> Option<Equation>
    ensures read { IfSome result (λ e. (words.old ≡ equation_words e ++ words.new)
        × (IsReadableAtom e.a × IsReadableAtom e.b)) }
    ensures complete { (e : Equation) (rest : List (List ℕ)) → IsReadableAtom e.a → IsReadableAtom e.b
        → words.old ≡ equation_words e ++ rest → (result ≡ Some e) × (words.new ≡ rest) }
{
    let rule = read_rule(words.next_word()?)?;
    let a = read_atom(words.next_word()?)?;
    let b = read_atom(words.next_word()?)?;
    Some(Equation { rule, a, b })
}

/// The line that the next words spell.
fn read_line(words: &mut Words<'_>) -> Option<Line>
    ensures read { IfSome result (λ l. (words.old ≡ step_words l ++ words.new) × IsReadableStep l) }
    ensures complete { (l : Line) (rest : List (List ℕ)) → IsReadableStep l
        → words.old ≡ step_words l ++ rest → (result ≡ Some l) × (words.new ≡ rest) }
{
    let kind = words.next_word()?;
    let id = read_id(words.next_word()?)?;
    if is(kind, b"eq") {
        let e = read_equation(words)?;
        Some(Line::Equate { id, e })
    } else if is(kind, b"split") {
        Some(Line::Split { id })
    } else if is(kind, b"enc") {
        Some(Line::Encode { id })
    } else {
        None
    }
}

/// The line whose text the bytes are: `None` exactly where they are the text of no line with an id of 64
/// bits and variables up to 2^27. It takes no memory, and passes over each byte a few times.
pub fn read_step(text: &[u8]) -> Option<Line>
    ensures read { IfSome result (λ l. (text.now ≡ step_text l) × IsReadableStep l) }
    ensures complete { (l : Line) → IsReadableStep l → text.now ≡ step_text l → result ≡ Some l }
{
    let mut words = split_words(text);
    let line = read_line(&mut words)?;
    match words.next_word() {
        None => Some(line),
        Some(_) => None,
    }
}
