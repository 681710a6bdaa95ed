//! A CNF's text, as far as it is read.

ghost use Rattle.std.specs.Prelude.{◌≡◌, ◌≤◌, ◌↔◌, ◌∷◌, [], false, Some, IfOk, IsTrue};
ghost use Rattle.std.specs.Prelude.{MatchBool};
ghost use Rattle.bee_text.specs.Gaps.{words_of};
ghost use Rattle.sat_front.specs.CnfLines.{Listed, nothing_listed, with_literal, with_end, Lists, Draft, nothing_read};
ghost use Rattle.sat_front.specs.CnfLines.{Says, IsComplete, NextLine};

use crate::literals::literal_within;
use crate::words::{is_word, read_header};
use bee_list::Sequence;
use bee_text::next_word;
use line_texts::{LineTaken, LineTaker};
use order_ints::Lit;
use std::alloc::{AllocError, Global};
use std::marker::Model;

/// The clauses that ended, and the literals of one that has not.
#[derive(Drop)]
pub(crate) struct ListedClauses {
    clauses: Vec<Sequence<Lit>>,
    begun: Vec<Lit>,
}

impl Model for ListedClauses {
    ghost use Rattle.sat_front.specs.CnfLines.{Listed};

    ghost Value = { Listed };

    ghost view = { λ l. record { clauses = l.clauses.items; begun = l.begun.items } };
}

impl ListedClauses {
    /// No clause.
    fn new(alloc: Global) -> ListedClauses
        ensures { result ≡ nothing_listed }
    {
        ListedClauses {
            clauses: Vec::new(alloc),
            begun: Vec::new(alloc),
        }
    }

    /// Adds a literal to the clause that has not ended.
    fn push(&mut self, literal: Lit) -> Result<(), AllocError>
        ensures { IfOk result (λ _. self.new ≡ with_literal self.old literal) }
    {
        self.begun.push(literal)?;
        Ok(())
    }

    /// Ends the clause.
    fn end(&mut self) -> Result<(), AllocError>
        ensures { IfOk result (λ _. self.new ≡ with_end self.old) }
    {
        let literals = self.begun.clone()?;
        self.clauses.push(Sequence::from_vec(literals))?;
        self.begun.clear();
        Ok(())
    }

    /// Whether each clause has ended.
    fn is_ended(&self) -> bool
        ensures { IsTrue result ↔ (self.now.begun ≡ []) }
    {
        self.begun.is_empty()
    }

    /// Takes words: literals over so many variables, and 0 where a clause ends. The answer says whether all fit.
    fn take_words(&mut self, vars: u32, text: &[u8]) -> Result<bool, AllocError>
        requires { vars ≤ 67108864 }
        ensures { IfOk result
            (λ taken. MatchBool taken (Lists vars self.old (words_of text.now) self.new)
            ((t : Listed) → Lists vars self.old (words_of text.now) t → ⊥)) }
    {
        let mut rest = text;
        while let Some((word, behind)) = next_word(rest) {
            if is_word(word, b"0") {
                self.end()?;
            } else {
                let Some(literal) = literal_within(word, vars) else {
                    return Ok(false);
                };
                self.push(literal)?;
            }
            rest = behind;
        }
        Ok(true)
    }
}

/// What a text told so far.
#[derive(Drop)]
pub(crate) struct CnfDraft {
    vars: Option<u32>,
    listed: ListedClauses,
    ended: bool,
}

impl Model for CnfDraft {
    ghost use Rattle.std.specs.Prelude.{◌≤◌, IfSome};
    ghost use Rattle.sat_front.specs.CnfLines.{Draft};

    ghost Value = { Draft };

    ghost view = { λ d. record { vars = d.vars; listed = d.listed; ended = d.ended } };

    ghost invariant = { λ d. IfSome d.vars (λ n. n ≤ 67108864) };
}

impl CnfDraft {
    /// Nothing is read.
    pub(crate) fn new(alloc: Global) -> CnfDraft
        ensures { result ≡ nothing_read }
    {
        CnfDraft {
            vars: None,
            listed: ListedClauses::new(alloc),
            ended: false,
        }
    }

    /// Whether nothing is missing.
    fn is_complete(&self) -> bool
        ensures { IsTrue result ↔ IsComplete self.now }
    {
        self.vars.is_some() && self.listed.is_ended()
    }

    /// How many variables there are, and the clauses, where nothing is missing.
    pub(crate) fn finish(self) -> (u32, Vec<Sequence<Lit>>)
        requires { IsComplete self }
        ensures vars { self.vars ≡ Some result.0 }
        ensures clauses { result.1.items ≡ self.listed.clauses }
    {
        let CnfDraft {
            vars,
            listed,
            ended: _,
        } = self;
        let ListedClauses { clauses, begun } = listed;
        drop(begun);
        (vars.unwrap(), clauses)
    }

    /// Takes a line that says something, with its first word apart.
    fn take_said(&mut self, line: &[u8], first: &[u8], behind: &[u8]) -> Result<bool, AllocError>
        requires open { self.old.ended ≡ false }
        requires words { words_of line.now ≡ first.now ∷ words_of behind.now }
        ensures { IfOk result
            (λ taken. MatchBool taken (Says self.old (words_of line.now) self.new)
            ((t : Draft) → Says self.old (words_of line.now) t → ⊥)) }
    {
        if is_word(first, b"%") {
            self.ended = true;
            return Ok(true);
        }
        match self.vars {
            Some(vars) => self.listed.take_words(vars, line),
            None => match read_header(first, behind) {
                Some(vars) => {
                    self.vars = Some(vars);
                    Ok(true)
                }
                None => Ok(false),
            },
        }
    }

    /// Takes a line, if it is the next.
    fn take_next(&mut self, line: &[u8]) -> Result<bool, AllocError>
        ensures { IfOk result
            (λ taken. MatchBool taken (NextLine self.old line.now self.new)
            ((t : Draft) → NextLine self.old line.now t → ⊥)) }
    {
        if self.ended {
            return Ok(self.is_complete());
        }
        match next_word(line) {
            None => Ok(true),
            Some((first, behind)) => {
                if is_word(first, b"c") {
                    Ok(true)
                } else {
                    let taken = self.take_said(line, first, behind)?;
                    Ok(taken)
                }
            }
        }
    }
}

impl LineTaker for CnfDraft {
    ghost use Rattle.sat_front.specs.CnfLines.{NextLine, IsComplete};

    type Against = ();

    type Cause = ();

    ghost next = { λ _. NextLine };

    ghost ended = { IsComplete };

    ghost because = { λ _ _ _ _. Unit {0} };

    fn take_line(
        &mut self,
        _alloc: Global,
        _against: &(),
        line: &[u8],
    ) -> Result<LineTaken<()>, AllocError> {
        if self.take_next(line)? {
            Ok(LineTaken::Next)
        } else {
            Ok(LineTaken::Misfit(()))
        }
    }

    fn is_ended(&self) -> bool {
        self.is_complete()
    }
}
