//! Whether the numbers of a model are in the limit of numerals, and its lists in that of a text.

ghost use Rattle.std.specs.Prelude.{◌≡◌, ◌≤◌, ◌↔◌, IsTrue};
ghost use Rattle.model_meaning.specs.Arguments.{argument, arguments};
ghost use Rattle.model_meaning.specs.Sizes.{argument_members, arguments_members};
ghost use Rattle.model_meaning.specs.Limits.{InLimit, AllInLimit, TermInLimit, TermsInLimit, ArgumentInLimit};
ghost use Rattle.model_meaning.specs.Limits.{ArgumentsInLimit, WhatInLimit, StmtsInLimit, KindInLimit, DeclsInLimit};
ghost use Rattle.model_meaning.specs.Limits.{InLimits};

use crate::arguments::{Argument, arguments_of};
use crate::model::{Decl, Kind, Model, Stmt};
use crate::what::{IntTerm, What};

/// The greatest absolute value of a numeral.
const LIMIT: i64 = 1_073_741_824;

/// The most members of a statement's lists: as many as a text has bytes.
const MOST_MEMBERS: usize = 16_777_216;

/// Whether a number is in the limit.
fn number_in_limit(number: i64) -> bool
    ensures { IsTrue result ↔ InLimit number }
{
    -LIMIT <= number && number <= LIMIT
}

/// Whether each number of a list is.
fn all_in_limit(numbers: &[i64]) -> bool
    ensures { IsTrue result ↔ AllInLimit numbers.now }
{
    for number in numbers {
        if !number_in_limit(*number) {
            return false;
        }
    }
    true
}

/// Whether the number of a term is.
fn term_in_limit(term: IntTerm) -> bool
    ensures { IsTrue result ↔ TermInLimit term }
{
    match term {
        IntTerm::Number(number) => number_in_limit(number),
        IntTerm::Of(_) => true,
    }
}

/// Whether the number of each term is.
fn terms_in_limit(terms: &[IntTerm]) -> bool
    ensures { IsTrue result ↔ TermsInLimit terms.now }
{
    for term in terms {
        if !term_in_limit(*term) {
            return false;
        }
    }
    true
}

/// Whether each number of an argument is.
fn argument_in_limit(lent: Argument<'_>) -> bool
    ensures { IsTrue result ↔ ArgumentInLimit (argument lent.entry) }
{
    match lent {
        Argument::Truth(_) => true,
        Argument::Number(term) => term_in_limit(term),
        Argument::Truths(_) => true,
        Argument::Numbers(terms) => terms_in_limit(terms),
        Argument::Numerals(numbers) => all_in_limit(numbers),
    }
}

/// Whether each number of some arguments is.
fn arguments_in_limit(lents: &[Option<Argument<'_>>]) -> bool
    ensures { IsTrue result ↔ ArgumentsInLimit (arguments lents.now) }
{
    let mut rest = lents;
    while let [first, others @ ..] = rest {
        if let Some(lent) = first {
            if !argument_in_limit(*lent) {
                return false;
            }
        }
        rest = others;
    }
    true
}

/// How many members an argument has.
fn members(lent: Argument<'_>) -> usize
    ensures { result ≡ argument_members (argument lent.entry) }
{
    match lent {
        Argument::Truth(_) => 0,
        Argument::Number(_) => 0,
        Argument::Truths(terms) => terms.len(),
        Argument::Numbers(terms) => terms.len(),
        Argument::Numerals(numbers) => numbers.len(),
    }
}

/// Whether some arguments have no more members than a text may have terms.
fn members_in_limit(lents: &[Option<Argument<'_>>]) -> bool
    ensures { IsTrue result ↔ arguments_members (arguments lents.now) ≤ 16777216 }
{
    let mut left = MOST_MEMBERS;
    let mut rest = lents;
    while let [first, others @ ..] = rest {
        if let Some(lent) = first {
            let Some(fewer) = left.checked_sub(members(*lent)) else {
                return false;
            };
            left = fewer;
        }
        rest = others;
    }
    true
}

/// Whether each number of a statement is, and how many members it has.
fn what_in_limit(what: &What) -> bool
    ensures { IsTrue result ↔ WhatInLimit what.now }
{
    let lents = arguments_of(what);
    arguments_in_limit(&lents) && members_in_limit(&lents)
}

/// Whether each number of each statement is.
fn stmts_in_limit(stmts: &[Stmt]) -> bool
    ensures { IsTrue result ↔ StmtsInLimit stmts.now }
{
    let mut rest = stmts;
    while let [first, others @ ..] = rest {
        if !what_in_limit(&first.what) {
            return false;
        }
        rest = others;
    }
    true
}

/// Whether the bounds of a domain, or its listed values, are.
fn kind_in_limit(kind: &Kind) -> bool
    ensures { IsTrue result ↔ KindInLimit kind.now }
{
    match kind {
        Kind::Bool => true,
        Kind::Range { low, high } => number_in_limit(*low) && number_in_limit(*high),
        Kind::Listed { values } => all_in_limit(values.as_slice()),
    }
}

/// Whether the bounds of each domain are.
fn decls_in_limit(decls: &[Decl]) -> bool
    ensures { IsTrue result ↔ DeclsInLimit decls.now }
{
    let mut rest = decls;
    while let [first, others @ ..] = rest {
        if !kind_in_limit(&first.kind) {
            return false;
        }
        rest = others;
    }
    true
}

/// Whether each number of a model, and the bounds of each of its domains, are at most 1,073,741,824 in
/// absolute value, and each statement's lists have at most 16,777,216 members together. It is so of a model that was
/// read, since a text's numerals and its length are bounded. It is linear in the model.
pub fn in_limits(model: &Model) -> bool
    ensures { IsTrue result ↔ InLimits model.now }
{
    decls_in_limit(model.decls.as_slice()) && stmts_in_limit(model.stmts.as_slice())
}
