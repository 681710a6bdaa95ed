//! The domains of terms, and the shapes of integers with them.

ghost use Rattle.std.specs.Prelude.{◌≡◌, ◌^◌, ◌<◌, ◌-ℤ◌};
ghost use Rattle.model_meaning.specs.Domains.{at_least_zero};
ghost use Rattle.model_weight.specs.Shapes.{steps_of, shape_of, least_of, greatest_of, domain_of, lent_domain};
ghost use Rattle.model_weight.specs.Shapes.{steps_in, shape_in};

use core_cost::Shape;
use model_meaning::{Decl, IntTerm, Kind};

/// The domain of an integer term, as the model lends it.
#[derive(Clone, Copy)]
pub(crate) enum Domain<'a> {
    /// That of a declaration.
    Declared(&'a Kind),
    /// That of a numeral, which is the numeral alone.
    Number(i64),
}

/// The gap from a number up to another, or 0 where the other is less.
fn gap(low: i64, high: i64) -> u128
    ensures gap { result ≡ at_least_zero (high -ℤ low) }
    ensures range { result < 2 ^ 64 }
{
    if low < high {
        u128::from(high.abs_diff(low))
    } else {
        0
    }
}

/// How many steps an integer has with this declared domain: one for each value but the least. A Boolean has one.
pub(crate) fn steps_of(kind: &Kind) -> u128
    ensures { result ≡ steps_of kind.now }
{
    match kind {
        Kind::Bool => 1,
        Kind::Range { low, high } => gap(*low, *high),
        Kind::Listed { values } => values.shape().steps,
    }
}

/// How many steps an integer has with this domain.
pub(crate) fn steps(domain: Domain<'_>) -> u128
    ensures { result ≡ steps_of (lent_domain domain.entry) }
{
    match domain {
        Domain::Declared(kind) => steps_of(kind),
        Domain::Number(number) => gap(number, number),
    }
}

/// The shape of an integer with this declared domain.
fn shape_of(kind: &Kind) -> Shape
    ensures shape { result ≡ shape_of kind.now }
    ensures span { result.span < 2 ^ 64 }
    ensures divisor { result.divisor < 2 ^ 64 }
{
    match kind {
        Kind::Bool => Shape::units(1),
        Kind::Range { low, high } => Shape::units(gap(*low, *high)),
        Kind::Listed { values } => values.shape(),
    }
}

/// The shape of an integer with this domain.
pub(crate) fn shape(domain: Domain<'_>) -> Shape
    ensures shape { result ≡ shape_of (lent_domain domain.entry) }
    ensures span { result.span < 2 ^ 64 }
    ensures divisor { result.divisor < 2 ^ 64 }
{
    match domain {
        Domain::Declared(kind) => shape_of(kind),
        Domain::Number(number) => Shape::units(gap(number, number)),
    }
}

/// A number, or 0 where it is negative.
fn at_least_zero(number: i64) -> u128
    ensures { result ≡ at_least_zero number }
{
    if number > 0 {
        u128::from(number.unsigned_abs())
    } else {
        0
    }
}

/// The least value of a declared domain, or 0 where it is negative.
fn least_of(kind: &Kind) -> u128
    ensures { result ≡ least_of kind.now }
{
    match kind {
        Kind::Bool => 0,
        Kind::Range { low, .. } => at_least_zero(*low),
        Kind::Listed { values } => at_least_zero(values.least()),
    }
}

/// The least value, or 0 where it is negative.
pub(crate) fn least(domain: Domain<'_>) -> u128
    ensures { result ≡ least_of (lent_domain domain.entry) }
{
    match domain {
        Domain::Declared(kind) => least_of(kind),
        Domain::Number(number) => at_least_zero(number),
    }
}

/// The greatest value of a declared domain, or 0 where it is negative.
fn greatest_of(kind: &Kind) -> u128
    ensures { result ≡ greatest_of kind.now }
{
    match kind {
        Kind::Bool => 1,
        Kind::Range { high, .. } => at_least_zero(*high),
        Kind::Listed { values } => at_least_zero(values.greatest()),
    }
}

/// The greatest value, or 0 where it is negative.
pub(crate) fn greatest(domain: Domain<'_>) -> u128
    ensures { result ≡ greatest_of (lent_domain domain.entry) }
{
    match domain {
        Domain::Declared(kind) => greatest_of(kind),
        Domain::Number(number) => at_least_zero(number),
    }
}

/// The domain of an integer term; past the last declaration it is 0 alone.
pub(crate) fn domain_of(decls: &[Decl], term: IntTerm) -> Domain<'_>
    ensures { lent_domain result ≡ domain_of decls.now term }
{
    match term {
        IntTerm::Number(number) => Domain::Number(number),
        IntTerm::Of(place) => match decls.get(place) {
            Some(decl) => Domain::Declared(&decl.kind),
            None => Domain::Number(0),
        },
    }
}

/// How many steps the integer of a term has.
pub(crate) fn steps_in(decls: &[Decl], term: IntTerm) -> u128
    ensures { result ≡ steps_in decls.now term }
{
    steps(domain_of(decls, term))
}

/// The shape of the integer of a term.
pub(crate) fn shape_in(decls: &[Decl], term: IntTerm) -> Shape
    ensures shape { result ≡ shape_in decls.now term }
    ensures span { result.span < 2 ^ 64 }
    ensures divisor { result.divisor < 2 ^ 64 }
{
    shape(domain_of(decls, term))
}
