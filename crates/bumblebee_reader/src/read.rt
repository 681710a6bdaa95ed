//! Reads a model text, token by token.

ghost use Rattle.std.specs.Prelude.{◌≡◌, ◌<◌, ◌≤◌, ◌++◌, ◌∷◌, [], Ok, Err, Some, Option};
ghost use Rattle.std.specs.Prelude.{List, ℕ, length, option_map, IfOk, OnSome};
ghost use Rattle.bumblebee_reader.specs.Tokens.{token_of};
ghost use Rattle.bumblebee_reader.specs.declared.syntax.Arg.{Arg};
ghost use Rattle.bumblebee_reader.specs.declared.syntax.Arg.TheVariants.{Many};
ghost use Rattle.bumblebee_reader.specs.declared.syntax.Item.TheVariants.{Call, Goal};
ghost use Rattle.bumblebee_reader.specs.declared.syntax.GoalKind.{GoalKind};
ghost use Rattle.bumblebee_reader.specs.Reading.{AtItem, AtOpen, AtArg, BehindArg, AtFirst, AtKind, AtObjective};
ghost use Rattle.bumblebee_reader.specs.Reading.{AtInner, BehindDash, BehindObjective, FirstOf, SecondOf, Owner, Place};
ghost use Rattle.bumblebee_reader.specs.Reading.{behind_term, at_item, taken, term_taken, turn_at, reading, with_item};
ghost use Rattle.bumblebee_reader.specs.Reading.{Gives, is_then_word, is_open_list, is_close_list};
ghost use Rattle.bumblebee_reader.specs.Unread.{next_before};

use crate::fault::ReadFault;
use crate::lexeme::{Lexeme, Sign};
use crate::name::Name;
use crate::numeral::read_number;
use crate::syntax::{Arg, GoalKind, Item, Term};
use crate::tokens::Tokens;
use crate::words::{goal_kind, is_solve, is_then, own_name};
use bee_list::Sequence;
use std::alloc::Global;

/// The next item, or none at the end of the text.
pub fn read_next(alloc: Global, tokens: &mut Tokens<'_>) -> Result<Option<Item>, ReadFault>
    ensures read { Gives result (reading AtItem tokens.old.line tokens.old.rest.now)
        (λ next. next_before next (reading AtItem tokens.new.line tokens.new.rest.now)) }
    ensures shorter { IfOk result (λ next. OnSome next (length tokens.new.rest.now < length tokens.old.rest.now)) }
{
    let Some(first) = take(tokens) else {
        return Ok(None);
    };
    Ok(Some(read_item(alloc, tokens, first)?))
}

/// The item that begins with this token.
fn read_item(alloc: Global, tokens: &mut Tokens<'_>, first: Lexeme<'_>) -> Result<Item, ReadFault>
    ensures read { Gives result
        (turn_at (at_item (token_of first.entry)) (token_of first.entry) tokens.old.line tokens.old.rest.now)
        (λ item. with_item item (reading AtItem tokens.new.line tokens.new.rest.now)) }
    ensures not_longer { length tokens.new.rest.now ≤ length tokens.old.rest.now }
{
    match first {
        Lexeme::Word(name) => {
            if is_solve(name) {
                return read_goal(alloc, tokens);
            }
            if is_then(name) {
                return Err(misfit(tokens));
            }
            read_call(alloc, tokens, name)
        }
        _ => Err(misfit(tokens)),
    }
}

/// What stands behind `solve`.
fn read_goal(alloc: Global, tokens: &mut Tokens<'_>) -> Result<Item, ReadFault>
    ensures read { Gives result (reading AtKind tokens.old.line tokens.old.rest.now)
        (λ item. with_item item (reading AtItem tokens.new.line tokens.new.rest.now)) }
    ensures not_longer { length tokens.new.rest.now ≤ length tokens.old.rest.now }
{
    let Some(Lexeme::Word(word)) = take(tokens) else {
        return Err(misfit(tokens));
    };
    match goal_kind(word) {
        None => Err(misfit(tokens)),
        Some(GoalKind::Satisfy) => Ok(Item::Goal {
            kind: GoalKind::Satisfy,
            objective: None,
            second: None,
        }),
        Some(kind) => read_objectives(alloc, tokens, kind),
    }
}

/// The objectives of a goal of this kind.
fn read_objectives(
    alloc: Global,
    tokens: &mut Tokens<'_>,
    kind: GoalKind,
) -> Result<Item, ReadFault>
    ensures read { Gives result (reading (AtObjective (FirstOf kind)) tokens.old.line tokens.old.rest.now)
        (λ item. with_item item (reading AtItem tokens.new.line tokens.new.rest.now)) }
    ensures not_longer { length tokens.new.rest.now ≤ length tokens.old.rest.now }
{
    let first = read_objective(alloc, tokens)?;
    read_second(alloc, tokens, kind, first)
}

/// The goal whose first objective was read: with a second one, where `then` comes next. Where another token comes
/// next, it isn't taken.
#[tactic(auto, using(crate::proofs::Parse::next_item_behind))]
fn read_second(
    alloc: Global,
    tokens: &mut Tokens<'_>,
    kind: GoalKind,
    first: Name,
) -> Result<Item, ReadFault>
    ensures read { Gives result (reading (BehindObjective kind first) tokens.old.line tokens.old.rest.now)
        (λ item. with_item item (reading AtItem tokens.new.line tokens.new.rest.now)) }
    ensures not_longer { length tokens.new.rest.now ≤ length tokens.old.rest.now }
{
    let mut ahead = *tokens;
    let next = take(&mut ahead);
    if !is_then_word(next) {
        return Ok(Item::Goal {
            kind,
            objective: Some(first),
            second: None,
        });
    }
    *tokens = ahead;
    let second = read_objective(alloc, tokens)?;
    Ok(Item::Goal {
        kind,
        objective: Some(first),
        second: Some(second),
    })
}

/// The objective behind `minimize`, `maximize` or `then`.
fn read_objective(alloc: Global, tokens: &mut Tokens<'_>) -> Result<Name, ReadFault>
    ensures first { (kind : GoalKind)
        → Gives result (reading (AtObjective (FirstOf kind)) tokens.old.line tokens.old.rest.now)
        (λ name. reading (BehindObjective kind name) tokens.new.line tokens.new.rest.now) }
    ensures second { (kind : GoalKind) (first : List ℕ)
        → Gives result (reading (AtObjective (SecondOf kind first)) tokens.old.line tokens.old.rest.now)
        (λ name. with_item (Goal kind (Some first) (Some name)) (reading AtItem tokens.new.line tokens.new.rest.now)) }
    ensures not_longer { length tokens.new.rest.now ≤ length tokens.old.rest.now }
{
    match take(tokens) {
        Some(Lexeme::Word(name)) => Ok(own_name(alloc, name)?),
        Some(Lexeme::Sign(Sign::OpenCall)) => read_inner(alloc, tokens),
        _ => Err(misfit(tokens)),
    }
}

/// The objective behind an opening parenthesis, and the closing one.
fn read_inner(alloc: Global, tokens: &mut Tokens<'_>) -> Result<Name, ReadFault>
    ensures first { (kind : GoalKind)
        → Gives result (reading (AtInner (FirstOf kind)) tokens.old.line tokens.old.rest.now)
        (λ name. reading (BehindObjective kind name) tokens.new.line tokens.new.rest.now) }
    ensures second { (kind : GoalKind) (first : List ℕ)
        → Gives result (reading (AtInner (SecondOf kind first)) tokens.old.line tokens.old.rest.now)
        (λ name. with_item (Goal kind (Some first) (Some name)) (reading AtItem tokens.new.line tokens.new.rest.now)) }
    ensures not_longer { length tokens.new.rest.now ≤ length tokens.old.rest.now }
{
    let Some(Lexeme::Word(name)) = take(tokens) else {
        return Err(misfit(tokens));
    };
    let Some(Lexeme::Sign(Sign::CloseCall)) = take(tokens) else {
        return Err(misfit(tokens));
    };
    Ok(own_name(alloc, name)?)
}

/// What stands behind the name of a call.
fn read_call(alloc: Global, tokens: &mut Tokens<'_>, name: &[u8]) -> Result<Item, ReadFault>
    ensures read { Gives result (reading (AtOpen name.now) tokens.old.line tokens.old.rest.now)
        (λ item. with_item item (reading AtItem tokens.new.line tokens.new.rest.now)) }
    ensures not_longer { length tokens.new.rest.now ≤ length tokens.old.rest.now }
{
    let Some(Lexeme::Sign(Sign::OpenCall)) = take(tokens) else {
        return Err(misfit(tokens));
    };
    let args = read_args(alloc, tokens)?;
    Ok(Item::Call {
        name: own_name(alloc, name)?,
        args: Sequence::from_vec(args),
    })
}

/// One argument or more, and the closing parenthesis.
fn read_args(alloc: Global, tokens: &mut Tokens<'_>) -> Result<Vec<Arg>, ReadFault>
    ensures read { (name : List ℕ) → Gives result (reading (AtArg name []) tokens.old.line tokens.old.rest.now)
        (λ args. with_item (Call name args.items) (reading AtItem tokens.new.line tokens.new.rest.now)) }
    ensures not_longer { length tokens.new.rest.now ≤ length tokens.old.rest.now }
{
    let mut args = Vec::new(alloc);
    loop {
        args.push(read_arg(alloc, tokens)?)?;
        match take(tokens) {
            Some(Lexeme::Sign(Sign::Comma)) => {}
            Some(Lexeme::Sign(Sign::CloseCall)) => return Ok(args),
            _ => return Err(misfit(tokens)),
        }
    }
}

/// One argument.
#[tactic(auto, using(crate::proofs::Parse::taken_argument))]
fn read_arg(alloc: Global, tokens: &mut Tokens<'_>) -> Result<Arg, ReadFault>
    ensures read { (name : List ℕ) (args : List Arg)
        → Gives result (reading (AtArg name args) tokens.old.line tokens.old.rest.now)
        (λ arg. reading (BehindArg name (args ++ arg ∷ [])) tokens.new.line tokens.new.rest.now) }
    ensures not_longer { length tokens.new.rest.now ≤ length tokens.old.rest.now }
{
    let first = take(tokens);
    if is_open_list(first) {
        return Ok(Arg::Many(Sequence::from_vec(read_list(alloc, tokens)?)));
    }
    Ok(Arg::One(read_term(alloc, tokens, first)?))
}

/// The members of a list, and the closing bracket.
fn read_list(alloc: Global, tokens: &mut Tokens<'_>) -> Result<Vec<Term>, ReadFault>
    ensures read { (name : List ℕ) (args : List Arg)
        → Gives result (reading (AtFirst name args) tokens.old.line tokens.old.rest.now)
        (λ terms. reading (BehindArg name (args ++ Many terms.items ∷ [])) tokens.new.line tokens.new.rest.now) }
    ensures not_longer { length tokens.new.rest.now ≤ length tokens.old.rest.now }
{
    let mut terms = Vec::new(alloc);
    let mut first = take(tokens);
    if is_close_list(first) {
        return Ok(terms);
    }
    loop {
        terms.push(read_term(alloc, tokens, first)?)?;
        match take(tokens) {
            Some(Lexeme::Sign(Sign::Comma)) => first = take(tokens),
            Some(Lexeme::Sign(Sign::CloseList)) => return Ok(terms),
            _ => return Err(misfit(tokens)),
        }
    }
}

/// The term that begins with this token.
fn read_term(
    alloc: Global,
    tokens: &mut Tokens<'_>,
    first: Option<Lexeme<'_>>,
) -> Result<Term, ReadFault>
    ensures read { (owner : Owner)
        → Gives result (term_taken owner (option_map token_of first.entry) tokens.old.line tokens.old.rest.now)
        (λ term. reading (behind_term owner term) tokens.new.line tokens.new.rest.now) }
    ensures not_longer { length tokens.new.rest.now ≤ length tokens.old.rest.now }
{
    match first {
        Some(Lexeme::Word(name)) => Ok(Term::Plain(own_name(alloc, name)?)),
        Some(Lexeme::Digits(digits)) => {
            let number = read_number(digits, tokens.line())?;
            Ok(Term::Number(i64::from(number)))
        }
        Some(Lexeme::Sign(Sign::Dash)) => read_negated(alloc, tokens),
        _ => Err(misfit(tokens)),
    }
}

/// The term that goes on behind `-`.
fn read_negated(alloc: Global, tokens: &mut Tokens<'_>) -> Result<Term, ReadFault>
    ensures read { (owner : Owner) → Gives result (reading (BehindDash owner) tokens.old.line tokens.old.rest.now)
        (λ term. reading (behind_term owner term) tokens.new.line tokens.new.rest.now) }
    ensures not_longer { length tokens.new.rest.now ≤ length tokens.old.rest.now }
{
    match take(tokens) {
        Some(Lexeme::Word(name)) => Ok(Term::Minus(own_name(alloc, name)?)),
        Some(Lexeme::Digits(digits)) => {
            let number = read_number(digits, tokens.line())?;
            Ok(Term::Number(-i64::from(number)))
        }
        _ => Err(misfit(tokens)),
    }
}

/// Whether a token is the word `then`.
fn is_then_word(token: Option<Lexeme<'_>>) -> bool
    ensures { result ≡ is_then_word (option_map token_of token.entry) }
{
    match token {
        Some(Lexeme::Word(word)) => is_then(word),
        _ => false,
    }
}

/// Whether a token opens a list.
fn is_open_list(token: Option<Lexeme<'_>>) -> bool
    ensures { result ≡ is_open_list (option_map token_of token.entry) }
{
    matches!(token, Some(Lexeme::Sign(Sign::OpenList)))
}

/// Whether a token closes a list.
fn is_close_list(token: Option<Lexeme<'_>>) -> bool
    ensures { result ≡ is_close_list (option_map token_of token.entry) }
{
    matches!(token, Some(Lexeme::Sign(Sign::CloseList)))
}

/// The next token, or none at the end of the text.
fn take<'a>(tokens: &mut Tokens<'a>) -> Option<Lexeme<'a>>
    ensures read { (place : Place) → reading place tokens.old.line tokens.old.rest.now
        ≡ taken place (option_map token_of result) tokens.new.line tokens.new.rest.now }
    ensures shorter { OnSome result (length tokens.new.rest.now < length tokens.old.rest.now) }
    ensures not_longer { length tokens.new.rest.now ≤ length tokens.old.rest.now }
{
    tokens.next()
}

/// The token that was taken last, or the end, fits nowhere.
fn misfit(tokens: &Tokens<'_>) -> ReadFault
    ensures { result ≡ ReadFault.Syntax tokens.now.line }
{
    ReadFault::Syntax(tokens.line())
}
