//! Where the reading of a text stands, and which token may stand next.

ghost use Rattle.std.specs.Prelude.{◌≡◌};
ghost use Rattle.opb_front.specs.Steps.{sized, step_terms, step_first, step_objective, step_literal, step_bound};
ghost use Rattle.opb_front.specs.Steps.{step_end, step};

use crate::items::{Comparison, Literal};
use crate::tokens::Token;

/// Where the reading stands.
#[derive(Clone, Copy)]
pub(crate) enum Place {
    /// Before the first token.
    First,
    /// In the objective, behind its terms so far.
    Objectives,
    /// In the objective, behind a coefficient.
    ObjectiveNumber(i64),
    /// In a constraint, behind its terms so far, of which there may be none.
    Terms,
    /// In a constraint, behind a coefficient.
    TermNumber(i64),
    /// Behind a constraint's comparison.
    Bound(Comparison),
    /// Behind a constraint's number.
    End(Comparison, i64),
}

/// A token of the same kind that is in its limit.
fn sized(token: Token) -> Token
    ensures { result ≡ sized token }
{
    match token {
        Token::PastNumber => Token::Number(0),
        Token::PastIndex => Token::Of(Literal {
            index: 1,
            positive: true,
        }),
        _ => token,
    }
}

/// The place behind a token at the start of a text.
fn step_first(token: Token) -> Option<Place>
    ensures { result ≡ step_first token }
{
    match token {
        Token::Min => Some(Place::Objectives),
        Token::Number(number) => Some(Place::TermNumber(number)),
        Token::Compare(comparison) => Some(Place::Bound(comparison)),
        _ => None,
    }
}

/// The place behind a token in a constraint.
fn step_terms(token: Token) -> Option<Place>
    ensures { result ≡ step_terms token }
{
    match token {
        Token::Number(number) => Some(Place::TermNumber(number)),
        Token::Compare(comparison) => Some(Place::Bound(comparison)),
        _ => None,
    }
}

/// The place behind a token in the objective.
fn step_objective(token: Token) -> Option<Place>
    ensures { result ≡ step_objective token }
{
    match token {
        Token::Number(number) => Some(Place::ObjectiveNumber(number)),
        Token::Semicolon => Some(Place::Terms),
        _ => None,
    }
}

/// The place behind a token that follows a coefficient.
fn step_literal(behind: Place, token: Token) -> Option<Place>
    ensures { result ≡ step_literal behind token }
{
    match token {
        Token::Of(_) => Some(behind),
        _ => None,
    }
}

/// The place behind a token that follows a comparison.
fn step_bound(comparison: Comparison, token: Token) -> Option<Place>
    ensures { result ≡ step_bound comparison token }
{
    match token {
        Token::Number(number) => Some(Place::End(comparison, number)),
        _ => None,
    }
}

/// The place behind a token that ends a constraint.
fn step_end(token: Token) -> Option<Place>
    ensures { result ≡ step_end token }
{
    match token {
        Token::Semicolon => Some(Place::Terms),
        _ => None,
    }
}

/// The place behind a token, if it may stand next, whatever its size.
pub(crate) fn step(place: Place, token: Token) -> Option<Place>
    ensures { result ≡ step place token }
{
    let token = sized(token);
    match place {
        Place::First => step_first(token),
        Place::Objectives => step_objective(token),
        Place::ObjectiveNumber(_) => step_literal(Place::Objectives, token),
        Place::Terms => step_terms(token),
        Place::TermNumber(_) => step_literal(Place::Terms, token),
        Place::Bound(comparison) => step_bound(comparison, token),
        Place::End(_, _) => step_end(token),
    }
}
