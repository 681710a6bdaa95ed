//! Reads the steps of an integer.

ghost use Rattle.std.specs.Prelude.{◌≡◌, ◌==◌, ℕ, List, map, position, MatchOption, IfOk, IfSome, Some};
ghost use Rattle.order_ints.specs.declared.atom.Atom.{Atom};
ghost use Rattle.order_ints.specs.OrderRange.{weights};
ghost use Rattle.dimacs_out.specs.CompiledText.{step_word};
ghost use Rattle.dimacs_read.specs.Steps.{IsReadableStepWord, AreReadableWeights};

use bee_text::{Words, read_number};
use ledger_text::read_atom;
use order_ints::Atom;
use std::alloc::{AllocError, Global};

/// The most that the steps of an integer raise it: from the least value in the limit to the greatest.
const MOST: u128 = 1 << 31;

/// The steps of an integer, and how much they raise it together.
#[derive(Drop)]
pub(crate) struct Steps {
    pub(crate) steps: Vec<(Atom, u128)>,
    pub(crate) total: u128,
}

/// The place of the first colon.
fn find_colon(word: &[u8]) -> Option<usize>
    ensures { result ≡ position (λ b. b == 58) word.now }
{
    word.iter().position(|b| *b == b':')
}

/// The step that a word spells.
fn read_step_word(word: &[u8]) -> Option<(Atom, u128)>
    ensures read { IfSome result (λ s. IsReadableStepWord s × (word.now ≡ step_word s)) }
    ensures complete { (s : Atom × ℕ) → IsReadableStepWord s → word.now ≡ step_word s → result ≡ Some s }
{
    let colon = find_colon(word)?;
    let atom = read_atom(&word[..colon])?;
    let weight = read_number(&word[colon + 1..], MOST)?;
    if weight == 0 {
        return None;
    }
    Some((atom, weight))
}

/// The steps that the words spell that are left.
pub(crate) fn read_steps(alloc: Global, words: &mut Words<'_>) -> Result<Option<Steps>, AllocError>
    ensures { IfOk result
        (λ found. MatchOption found ((steps : List (Atom × ℕ)) → AreReadableWeights steps
        → words.old ≡ map step_word steps → ⊥)
        (λ s. AreReadableWeights s.steps.items × (words.old ≡ map step_word s.steps.items)
        × (s.total ≡ weights s.steps.items))) }
{
    let mut steps = Vec::new(alloc);
    let mut total = 0;
    while let Some(word) = words.next_word() {
        let Some(step) = read_step_word(word) else {
            return Ok(None);
        };
        total += step.1;
        if total > MOST {
            return Ok(None);
        }
        steps.push(step)?;
    }
    Ok(Some(Steps { steps, total }))
}
