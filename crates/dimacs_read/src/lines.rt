//! Reads the lines of a compiled text that are no names.

ghost use Rattle.std.specs.Prelude.{◌≡◌, ◌↔◌, ℕ, ◌+◌, ◌<◌, ◌^◌, ◌∷◌, [], List, IsTrue};
ghost use Rattle.std.specs.Prelude.{MatchOption, IfOk};
ghost use Rattle.std.specs.Fmt.{decimal};
ghost use Rattle.order_ints.specs.declared.literal.Lit.{Lit};
ghost use Rattle.order_ints.specs.Place.{ClauseBelow};
ghost use Rattle.ledger_text.specs.declared.line.Line.{Line};
ghost use Rattle.ledger_text.specs.Steps.{IsReadableStep};
ghost use Rattle.dimacs_out.specs.CompiledText.{clause_line, clause_words, heading, ledger_line};
ghost use Rattle.dimacs_read.specs.TextSteps.{IsNumbers};

use crate::literal::read_literal;
use bee_list::Sequence;
use bee_text::{Words, is, read_number, split_words};
use ledger_text::{Line, read_step};
use order_ints::Lit;
use std::alloc::{AllocError, Global};

/// Whether the bytes are the first line.
pub(crate) fn is_heading(line: &[u8]) -> bool
    ensures { IsTrue result ↔ (line.now ≡ heading) }
{
    is(line, b"c bee 1")
}

/// The line of a ledger that the bytes hold.
pub(crate) fn read_ledger(line: &[u8]) -> Option<Line>
    ensures { MatchOption result ((l : Line) → IsReadableStep l → line.now ≡ ledger_line l → ⊥)
        (λ l. IsReadableStep l × (line.now ≡ ledger_line l)) }
{
    if line.len() < 6 {
        return None;
    }
    let (front, text) = line.split_at(6);
    if is(front, b"c led ") {
        read_step(text)
    } else {
        None
    }
}

/// How many variables and clauses there are.
#[derive(Clone, Copy)]
pub(crate) struct Numbers {
    pub(crate) vars: u32,
    pub(crate) count: u64,
}

/// The numbers that two words spell, and no word behind them.
fn read_pair(words: &mut Words<'_>) -> Option<Numbers>
    ensures { MatchOption result
        ((vars count : ℕ) → vars < 2 ^ 32 → count < 2 ^ 64 → words.old ≡ decimal vars ∷ decimal count ∷ []
        → ⊥)
        (λ n. (words.old ≡ decimal n.vars ∷ decimal n.count ∷ []) × (n.vars < 2 ^ 32) × (n.count < 2 ^ 64)) }
{
    let vars = read_number(words.next_word()?, u128::from(u32::MAX))?;
    let count = read_number(words.next_word()?, u128::from(u64::MAX))?;
    match words.next_word() {
        None => Some(Numbers {
            vars: vars as u32,
            count: count as u64,
        }),
        Some(_) => None,
    }
}

/// The numbers of variables and clauses that the bytes tell.
pub(crate) fn read_numbers(line: &[u8]) -> Option<Numbers>
    ensures { MatchOption result ((vars count : ℕ) → IsNumbers line.now vars count → ⊥)
        (λ n. IsNumbers line.now n.vars n.count) }
{
    let mut words = split_words(line);
    if is(words.next_word()?, b"p") && is(words.next_word()?, b"cnf") {
        match read_pair(&mut words) {
            Some(numbers) => Some(numbers),
            None => None,
        }
    } else {
        None
    }
}

/// The literals that the words spell that are left, behind which 0 stands.
fn read_literals(
    alloc: Global,
    words: &mut Words<'_>,
    vars: u32,
) -> Result<Option<Vec<Lit>>, AllocError>
    ensures { IfOk result
        (λ found. MatchOption found ((c : List Lit) → ClauseBelow (vars + 1) c → words.old ≡ clause_words c
        → ⊥)
        (λ c. ClauseBelow (vars + 1) c.items × (words.old ≡ clause_words c.items))) }
{
    let mut literals = Vec::new(alloc);
    while let Some(word) = words.next_word() {
        if is(word, b"0") {
            return match words.next_word() {
                None => Ok(Some(literals)),
                Some(_) => Ok(None),
            };
        }
        let Some(literal) = read_literal(word, vars) else {
            return Ok(None);
        };
        literals.push(literal)?;
    }
    Ok(None)
}

/// The clause whose line the bytes are.
pub(crate) fn read_clause(
    alloc: Global,
    line: &[u8],
    vars: u32,
) -> Result<Option<Sequence<Lit>>, AllocError>
    ensures { IfOk result
        (λ found. MatchOption found ((c : List Lit) → ClauseBelow (vars + 1) c → line.now ≡ clause_line c
        → ⊥)
        (λ c. ClauseBelow (vars + 1) c × (line.now ≡ clause_line c))) }
{
    let mut words = split_words(line);
    match read_literals(alloc, &mut words, vars)? {
        Some(literals) => Ok(Some(Sequence::from_vec(literals))),
        None => Ok(None),
    }
}
