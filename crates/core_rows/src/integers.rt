//! Worked values of the integers, by hand.

ghost use Rattle.std.specs.Prelude.{IfOk};
ghost use Rattle.order_ints.specs.OrderRange.{IsBounded, IntBelow};

use core_words::{atom, push_int};
use order_ints::{Atom, Lit, OrdInt};
use std::alloc::{AllocError, Global};
use std::process::Abort;
use std::test::Fail;

/// An integer of small values over nine variables, multiplied by a small number.
fn multiple(rt: &impl Abort, a: &OrdInt, by: i128) -> Result<OrdInt, AllocError>
    requires bounded { IsBounded a.now }
    requires place { IntBelow 10 a.now }
    ensures bounded { IfOk result (λ b. IsBounded b) }
    ensures place { IfOk result (λ b. IntBelow 10 b) }
{
    let low = a.low().unsigned_abs();
    let high = a.high().unsigned_abs();
    let factor = by.unsigned_abs();
    assert!(rt; low < 1000);
    assert!(rt; high < 1000);
    assert!(rt; factor < 100_000);
    a.scaled(by)
}

/// An integer of small values with a small number added.
fn moved(rt: &impl Abort, a: &OrdInt, by: i128) -> Result<OrdInt, AllocError>
    requires { IsBounded a.now }
    ensures { IfOk result (λ b. IsBounded b) }
{
    let low = a.low();
    let high = a.high();
    assert!(rt; -1000 < low && low < 1000);
    assert!(rt; -1000 < high && high < 1000);
    assert!(rt; -1000 < by && by < 1000);
    a.shifted(by)
}

/// Asserts which integer was made.
fn shows(
    rt: &impl Abort,
    alloc: Global,
    made: Result<OrdInt, AllocError>,
    want: &str,
) -> Result<(), AllocError> {
    let mut found = Vec::new(alloc);
    push_int(&mut found, &made?)?;
    assert_eq!(rt; found.as_slice(), want.as_bytes());
    Ok(())
}

/// Asserts the value under nine truth values, and whether the integer is ordered there.
fn values(rt: &impl Abort, a: &OrdInt, sigma: &[bool; 9], value: i128, ordered: bool)
    requires bounded { IsBounded a.now }
    requires place { IntBelow 10 a.now }
{
    assert_eq!(rt; a.value(sigma.as_slice()), value);
    assert_eq!(rt; a.is_ordered(sigma.as_slice()), ordered);
}

#[test]
fn integers_are_made(rt: HostRuntime) -> Result<(), Fail> {
    let alloc = rt.alloc();
    let x = Lit::of(3, true);
    assert_eq!(rt; x.negated(), Lit::of(x.var(), !x.positive()));
    let not_x = atom("-3")?;
    assert_eq!(rt; Atom::Of(x).not(), not_x);
    shows(&rt, alloc, OrdInt::constant(alloc, -7), "(-7)")?;
    shows(
        &rt,
        alloc,
        OrdInt::of_atom(alloc, Atom::Of(x.negated())),
        "(0 -3)",
    )?;
    shows(
        &rt,
        alloc,
        OrdInt::from_values(alloc, &[0, 2], 1),
        "(0 1:2)",
    )?;
    shows(&rt, alloc, OrdInt::unit_range(alloc, -1, 4, 2), "(-1 4 5)")?;
    Ok(())
}

/// What it is that an integer of the values -5, -1 and 100, by variables 7 and 8, is at least a value.
static REACHED: [(i128, &str); 7] = [
    (i128::MIN, "T"),
    (-5, "T"),
    (-4, "7"),
    (-1, "7"),
    (100, "8"),
    (101, "F"),
    (i128::MAX, "F"),
];

/// Asserts these rows.
fn reaches(rt: &impl Abort, wide: &OrdInt) -> Result<(), Fail>
    requires { IsBounded wide.now }
{
    for (value, word) in &REACHED {
        let wanted = atom(word)?;
        assert_eq!(rt; wide.at(*value), wanted, "at {value}");
    }
    Ok(())
}

/// Asserts that an integer reaches each of its values by its level.
fn reaches_levels(rt: &impl Abort, wide: &OrdInt)
    requires { IsBounded wide.now }
{
    for (value, atom) in wide.levels() {
        assert_eq!(rt; atom, wide.at(value));
    }
}

#[test]
fn values_are_reached(rt: HostRuntime) -> Result<(), Fail> {
    let wide = OrdInt::from_values(rt.alloc(), &[-5, -1, 100], 7)?;
    assert_eq!(rt; wide.levels().count(), 3);
    reaches_levels(&rt, &wide);
    reaches(&rt, &wide)
}

#[test]
fn integers_are_turned(rt: HostRuntime) -> Result<(), AllocError> {
    let range = OrdInt::unit_range(rt.alloc(), 0, 4, 3)?;
    let down = range.negated()?;
    shows(&rt, rt.alloc(), moved(&rt, &down, 3), "(0 -6 -5 -4)")
}

/// Asserts the base of a multiple of a digit, and its value where the digit is four.
fn multiplied(
    rt: &impl Abort,
    alloc: Global,
    by: i128,
    base: i128,
    value: i128,
) -> Result<(), AllocError> {
    let digit = OrdInt::unit_range(alloc, 0, 1, 9)?;
    let term = multiple(rt, &digit, by)?;
    assert_eq!(rt; term.base, base, "by {by}");
    let four = [true, true, true, true, false, false, false, false, false];
    values(rt, &term, &four, value, true);
    Ok(())
}

#[test]
fn integers_are_multiplied(rt: HostRuntime) -> Result<(), AllocError> {
    for (by, base, value) in [
        (1000, 0, 4000),
        (91, 0, 364),
        (-90, -810, -360),
        (1, 0, 4),
        (-9000, -81_000, -36_000),
        (-900, -8100, -3600),
        (10, 0, 40),
        (-1, -9, -4),
        (0, 0, 0),
    ] {
        multiplied(&rt, rt.alloc(), by, base, value)?;
    }
    Ok(())
}

#[test]
fn a_digit_out_of_order(rt: HostRuntime) -> Result<(), AllocError> {
    let digit = OrdInt::unit_range(rt.alloc(), 0, 1, 9)?;
    let mixed = [true, false, true, true, false, false, false, false, false];
    values(&rt, &digit, &mixed, 3, false);
    Ok(())
}
