//! Reads the values that a SAT solver answers.

ghost use Rattle.std.specs.Prelude.{◌≡◌, ◌↔◌, ◌∷◌, [], ℕ, List, Bool, codes, IsTrue, MatchOption};
ghost use Rattle.std.specs.Prelude.{IfSome, IfOk, IfErr};
ghost use Rattle.bee_text.specs.Gaps.{words_of};
ghost use Rattle.dimacs_read.specs.Values.{Known, Told, told, nothing_told, Tell, IsTold, Says, NextValues, IsValues};
ghost use Rattle.dimacs_read.specs.Values.{ValuesFail};
ghost use Rattle.dimacs_read.specs.Faults.{ValuesFault, AreReadAs, FailAt};

use crate::fault::ValuesTextFault;
use crate::known::KnownValues;
use crate::literal::read_literal;
use bee_text::{is, next_word};
use line_texts::{LineTaken, LineTaker, TextEnd, read_lines};
use order_ints::Cnf;
use std::alloc::{AllocError, Global};
use std::marker::Model;

/// How far values are told.
#[derive(Clone, Copy)]
pub(crate) enum Stage {
    /// The line that says that there are values is still to come.
    Before,
    /// It stands; the end of the literals is still to come.
    Listing,
    /// They have ended.
    Ended,
}

/// Takes the words of a text: literals, and 0 where the values end. The answer says whether they ended; there
/// is none where a word doesn't fit.
fn take_words(known: &mut KnownValues, text: &[u8]) -> Option<bool>
    ensures told { MatchOption result ((ends : Bool) (k : Known) → Tell known.old (words_of text.now) ends k → ⊥)
        (λ ends. Tell known.old (words_of text.now) ends known.new) }
    ensures only { IfSome result
        (λ ends. (e : Bool) (k : Known) → Tell known.old (words_of text.now) e k → (e ≡ ends)
        × (k ≡ known.new)) }
{
    let mut rest = text;
    while let Some((word, behind)) = next_word(rest) {
        let vars = known.vars();
        if is(word, b"0") {
            return if next_word(behind).is_none() {
                Some(true)
            } else {
                None
            };
        }
        let literal = read_literal(word, vars)?;
        if !known.take(literal) {
            return None;
        }
        rest = behind;
    }
    Some(false)
}

/// Whether a text is the one word that says that there are values.
fn says_satisfiable(text: &[u8]) -> bool
    ensures { IsTrue result ↔ (words_of text.now ≡ codes "SATISFIABLE" ∷ []) }
{
    match next_word(text) {
        Some((word, behind)) => is(word, b"SATISFIABLE") && next_word(behind).is_none(),
        None => false,
    }
}

/// Takes what stands behind the first word of a `v` line. The answer says how far the values are told then;
/// there is none where a word doesn't fit, or where the values end and are no answer.
fn take_list(known: &mut KnownValues, text: &[u8], cnf: &Cnf) -> Option<Stage>
    ensures { MatchOption result ((t : Told) → IsTold cnf.now known.old (words_of text.now) t → ⊥)
        (λ s. IsTold cnf.now known.old (words_of text.now) (told s known.new)) }
{
    if !take_words(known, text)? {
        return Some(Stage::Listing);
    }
    if known.is_answer(cnf) {
        Some(Stage::Ended)
    } else {
        None
    }
}

/// Takes a line that says something, with its first word apart.
fn take_words_of(
    stage: Stage,
    known: &mut KnownValues,
    first: &[u8],
    behind: &[u8],
    cnf: &Cnf,
) -> Option<Stage>
    ensures { MatchOption result
        ((t : Told) → Says cnf.now stage known.old (first.now ∷ words_of behind.now) t → ⊥)
        (λ s. Says cnf.now stage known.old (first.now ∷ words_of behind.now) (told s known.new)) }
{
    match stage {
        Stage::Before => {
            if is(first, b"s") && says_satisfiable(behind) {
                Some(Stage::Listing)
            } else {
                None
            }
        }
        Stage::Listing => {
            if !is(first, b"v") {
                return None;
            }
            match take_list(known, behind, cnf) {
                Some(next) => Some(next),
                None => None,
            }
        }
        Stage::Ended => None,
    }
}

/// Takes a line, if it is the next.
fn take_line(stage: Stage, known: &mut KnownValues, line: &[u8], cnf: &Cnf) -> Option<Stage>
    ensures { MatchOption result ((t : Told) → NextValues cnf.now (told stage known.old) line.now t → ⊥)
        (λ s. NextValues cnf.now (told stage known.old) line.now (told s known.new)) }
{
    match next_word(line) {
        None => Some(stage),
        Some((first, behind)) => {
            if is(first, b"c") {
                Some(stage)
            } else {
                take_words_of(stage, known, first, behind, cnf)
            }
        }
    }
}

/// What a text of values told so far.
#[derive(Drop)]
struct ValuesDraft {
    stage: Stage,
    known: KnownValues,
}

impl Model for ValuesDraft {
    ghost use Rattle.dimacs_read.specs.Values.{Told, told};

    ghost Value = { Told };

    ghost view = { λ d. told d.stage d.known };
}

impl ValuesDraft {
    /// Nothing is told of `vars` variables.
    fn new(alloc: Global, vars: u32) -> Result<ValuesDraft, AllocError>
        ensures { IfOk result (λ d. d ≡ nothing_told vars) }
    {
        let known = KnownValues::new(alloc, vars)?;
        Ok(ValuesDraft {
            stage: Stage::Before,
            known,
        })
    }

    /// The truth values, that of variable 1 first.
    fn into_values(self) -> Vec<bool>
        ensures { result.items ≡ self.known.values }
    {
        let ValuesDraft { stage: _, known } = self;
        known.into_values()
    }
}

impl LineTaker for ValuesDraft {
    ghost use Rattle.dimacs_read.specs.Values.{NextValues, AreTold};

    type Against = Cnf;

    type Cause = ();

    ghost next = { NextValues };

    ghost ended = { λ d. AreTold d };

    ghost because = { λ _ _ _ _. Unit {0} };

    fn take_line(
        &mut self,
        _alloc: Global,
        cnf: &Cnf,
        line: &[u8],
    ) -> Result<LineTaken<()>, AllocError> {
        match take_line(self.stage, &mut self.known, line, cnf) {
            Some(next) => {
                self.stage = next;
                Ok(LineTaken::Next)
            }
            None => Ok(LineTaken::Misfit(())),
        }
    }

    fn is_ended(&self) -> bool {
        matches!(self.stage, Stage::Ended)
    }
}

/// The truth values that a text tells, or the first line that fails.
fn read_told(alloc: Global, text: &[u8], cnf: &Cnf) -> Result<Vec<bool>, ValuesTextFault>
    ensures read { IfOk result (λ values. IsValues cnf.now text.now values.items) }
    ensures fault { IfErr result (ValuesFault cnf.now text.now) }
{
    let mut draft = ValuesDraft::new(alloc, cnf.vars)?;
    match read_lines(alloc, text, cnf, &mut draft)? {
        TextEnd::Whole => Ok(draft.into_values()),
        TextEnd::Misfit(line, _) => Err(ValuesTextFault::Misfit(line)),
        TextEnd::Missing(line) => Err(ValuesTextFault::Missing(line)),
    }
}

/// The truth values that a text tells, that of variable 1 first, or the first line that fails. The text is looked
/// at once, and takes two bytes of memory for each variable; the clauses are tested once, at the end of the values.
pub fn read_values(alloc: Global, text: &[u8], cnf: &Cnf) -> Result<Vec<bool>, ValuesTextFault>
    ensures read { IfOk result (λ values. IsValues cnf.now text.now values.items) }
    ensures fault { IfErr result (ValuesFault cnf.now text.now) }
    ensures complete { (values : List Bool) → IsValues cnf.now text.now values
        → AreReadAs (λ v. v.items) result values }
    ensures exact { (line : ℕ) → ValuesFail cnf.now text.now line → FailAt result line }
{
    // A field that is read tells the proof its range.
    let _vars = cnf.vars;
    read_told(alloc, text, cnf)
}
