//! A pseudo-Boolean file, as far as it is read.

ghost use Rattle.std.specs.Prelude.{◌≡◌, ◌↔◌, false, [], Ok, Err, IfOk, IsTrue, MatchOption};
ghost use Rattle.opb_front.specs.Tokens.{line_tokens};
ghost use Rattle.opb_front.specs.declared.places.Place.TheVariants.{Objectives};
ghost use Rattle.opb_front.specs.Steps.{nothing_read, sum_passes, passes, with_number, with_term, with_literal};
ghost use Rattle.opb_front.specs.Steps.{with_end, with_token, at_place, move, run, IsEnded};

use crate::fault::Misfit;
use crate::items::{Constraint, Literal, Objective, Opb, Term};
use crate::places::{Place, step};
use crate::tokens::{MOST_NUMBER, Token, is_comment, token_of};
use crate::words::next_word;
use bee_list::Sequence;
use std::alloc::{AllocError, Global};
use std::marker::Model;

/// What a text told so far.
#[derive(Drop)]
pub(crate) struct OpbDraft {
    place: Place,
    terms: Vec<Term>,
    low: i64,
    high: i64,
    objective: Option<Objective>,
    constraints: Vec<Constraint>,
    vars: u32,
}

impl Model for OpbDraft {
    ghost use Rattle.std.specs.Prelude.{pos, neg_ℤ, ◌≤ℤ◌};
    ghost use Rattle.opb_front.specs.Tokens.{most_number};
    ghost use Rattle.opb_front.specs.Steps.{Draft};

    ghost Value = { Draft };

    ghost view = { λ d. record {
      place = d.place;
      terms = d.terms.items;
      low = d.low;
      high = d.high;
      objective = d.objective;
      constraints = d.constraints.items;
      vars = d.vars;
    } };

    ghost invariant = { λ d. ((neg_ℤ (pos most_number) ≤ℤ d.low) × (d.low ≤ℤ pos 0))
        × ((pos 0 ≤ℤ d.high) × (d.high ≤ℤ pos most_number)) };
}

impl OpbDraft {
    /// Nothing is read.
    pub(crate) fn new(alloc: Global) -> OpbDraft
        ensures { result ≡ nothing_read }
    {
        OpbDraft {
            place: Place::First,
            terms: Vec::new(alloc),
            low: 0,
            high: 0,
            objective: None,
            constraints: Vec::new(alloc),
            vars: 0,
        }
    }

    /// Whether a coefficient passes the limit of the sum that it is added to.
    fn sum_passes(&self, number: i64) -> bool
        ensures { result ≡ sum_passes self.now.low self.now.high number }
    {
        let most = MOST_NUMBER as i64;
        if number >= 0 {
            number > most - self.high
        } else {
            number < -most - self.low
        }
    }

    /// Whether a limit is passed with a token.
    fn passes(&self, token: Token) -> bool
        ensures { result ≡ passes self.now token }
    {
        match token {
            Token::PastNumber => true,
            Token::PastIndex => true,
            Token::Number(number) => match self.place {
                Place::Objectives => self.sum_passes(number),
                _ => false,
            },
            _ => false,
        }
    }

    /// Adds a coefficient of the objective to its sum.
    fn add_number(&mut self, number: i64)
        requires { sum_passes self.old.low self.old.high number ≡ false }
        ensures { self.new ≡ with_number Objectives self.old number }
    {
        if number >= 0 {
            self.high += number;
        } else {
            self.low += number;
        }
    }

    /// Adds a term to the sum that is open.
    fn add_term(&mut self, coefficient: i64, literal: Literal) -> Result<(), AllocError>
        ensures { IfOk result (λ _. self.new ≡ with_term self.old coefficient literal) }
    {
        self.terms.push(Term {
            coefficient,
            literal,
        })?;
        self.vars = self.vars.max(literal.index);
        Ok(())
    }

    /// The terms of the sum that is open, which is closed.
    fn take_terms(&mut self) -> Result<Sequence<Term>, AllocError>
        ensures { IfOk result (λ terms. (terms ≡ self.old.terms) × (self.new ≡ record self.old { terms = [] })) }
    {
        let terms = self.terms.clone()?;
        self.terms.clear();
        Ok(Sequence::from_vec(terms))
    }

    /// Ends the objective or a constraint.
    fn end(&mut self) -> Result<(), AllocError>
        ensures { IfOk result (λ _. self.new ≡ with_end self.old.place self.old) }
    {
        match self.place {
            Place::Objectives => {
                let terms = self.take_terms()?;
                self.objective = Some(Objective {
                    terms,
                    low: self.low,
                    high: self.high,
                });
            }
            Place::End(comparison, bound) => {
                let terms = self.take_terms()?;
                self.constraints.push(Constraint {
                    terms,
                    comparison,
                    bound,
                })?;
            }
            _ => {}
        }
        Ok(())
    }

    /// Keeps what a token tells.
    fn keep(&mut self, token: Token) -> Result<(), AllocError>
        requires { passes self.old token ≡ false }
        ensures { IfOk result (λ _. self.new ≡ with_token self.old token) }
    {
        match token {
            Token::Number(number) => {
                if let Place::Objectives = self.place {
                    self.add_number(number);
                }
            }
            Token::Of(literal) => match self.place {
                Place::ObjectiveNumber(number) => self.add_term(number, literal)?,
                Place::TermNumber(number) => self.add_term(number, literal)?,
                _ => {}
            },
            Token::Semicolon => self.end()?,
            _ => {}
        }
        Ok(())
    }

    /// Takes a token, if it fits; otherwise the answer says why not.
    fn take(&mut self, token: Token) -> Result<Option<Misfit>, AllocError>
        ensures { IfOk result
            (λ misfit. MatchOption misfit (move self.old token ≡ Ok self.new)
            (λ m. move self.old token ≡ Err m)) }
    {
        let Some(place) = step(self.place, token) else {
            return Ok(Some(Misfit::Syntax));
        };
        if self.passes(token) {
            return Ok(Some(Misfit::Number));
        }
        self.keep(token)?;
        self.place = place;
        Ok(None)
    }

    #[tactic(auto, using(crate::proofs::LineRun::line_runs))]
    /// Takes the tokens of a line, up to the first that doesn't fit; the answer says why it doesn't.
    pub(crate) fn take_line(&mut self, line: &[u8]) -> Result<Option<Misfit>, AllocError>
        ensures { IfOk result (λ misfit. MatchOption misfit (run self.old (line_tokens line.now) ≡ Ok self.new)
            (λ m. run self.old (line_tokens line.now) ≡ Err m)) }
    {
        if is_comment(line) {
            return Ok(None);
        }
        let mut rest = line;
        while let Some((word, behind)) = next_word(rest) {
            if let Some(misfit) = self.take(token_of(word))? {
                return Ok(Some(misfit));
            }
            rest = behind;
        }
        Ok(None)
    }

    /// Whether the text may end here.
    pub(crate) fn is_ended(&self) -> bool
        ensures { IsTrue result ↔ IsEnded self.now }
    {
        matches!(self.place, Place::First | Place::Terms) && self.terms.is_empty()
    }

    /// What the text says, where it has ended.
    pub(crate) fn finish(self) -> Opb
        ensures vars { result.vars ≡ self.vars }
        ensures objective { result.objective ≡ self.objective }
        ensures constraints { result.constraints ≡ self.constraints }
    {
        let OpbDraft {
            place: _,
            terms,
            low: _,
            high: _,
            objective,
            constraints,
            vars,
        } = self;
        drop(terms);
        Opb {
            vars,
            objective,
            constraints: Sequence::from_vec(constraints),
        }
    }
}
