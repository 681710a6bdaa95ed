//! Integers in words. One is the list of its values, with commas between them, where `2..5` is each value from 2 to 5;
//! its variables are those from 1 on, or with `@7` behind the values those from 7 on. Or it is its least value, `^`,
//! and the atoms of three steps of weight 1. A list of integers has semicolons between its members; the empty one is
//! `none`.

ghost use Rattle.std.specs.Prelude.{◌<◌, ◌≤◌, ◌≤ℤ◌, unsigned_abs, length, IfOk, IsTrue};
ghost use Rattle.order_ints.specs.OrderMade.{AscendFrom, AreAscending, AreSmall};
ghost use Rattle.order_ints.specs.OrderRange.{low_of};
ghost use Rattle.core_forms.specs.WellFormed.{IsSound, AreSound, greatest_abs, abs_total};

use crate::words::{atoms, misread, number};
use bee_list::Sequence;
use order_ints::OrdInt;
use std::alloc::{AllocError, Global};
use std::io::Result;

/// Puts the numbers from one to another behind others.
fn push_range(
    values: &mut Vec<i128>,
    low: i128,
    high: i128,
) -> std::result::Result<(), AllocError> {
    for value in low..=high {
        values.push(value)?;
    }
    Ok(())
}

/// The values of an integer.
fn values(alloc: Global, words: &str) -> Result<Vec<i128>> {
    let mut values = Vec::new(alloc);
    for word in words.split(',') {
        let (low, high) = word.split_once("..").unwrap_or((word, word));
        push_range(&mut values, number(low)?, number(high)?)?;
    }
    Ok(values)
}

/// Whether small numbers ascend from one on.
fn ascend_from(value: i128, values: &[i128]) -> bool
    ensures ascending { IsTrue result → AscendFrom value values.now }
    ensures small { IsTrue result → AreSmall values.now }
{
    let Some((next, rest)) = values.split_first() else {
        return true;
    };
    let next = *next;
    value < next && next < 1000 && -1000 < next && ascend_from(next, rest)
}

/// Whether there are numbers, small and ascending.
fn are_values(values: &[i128]) -> bool
    ensures some { IsTrue result → 0 < length values.now }
    ensures ascending { IsTrue result → AreAscending values.now }
    ensures small { IsTrue result → AreSmall values.now }
{
    let Some((least, rest)) = values.split_first() else {
        return false;
    };
    let least = *least;
    least < 1000 && -1000 < least && ascend_from(least, rest)
}

/// An integer that is found to be small.
fn small(a: OrdInt) -> Result<OrdInt>
    requires { IsSound a }
    ensures sound { IfOk result (λ a. IsSound a) }
    ensures small { IfOk result (λ a. greatest_abs a < 1000) }
{
    let (low, high) = (a.low(), a.high());
    if -1000 < low && low < 1000 && -1000 < high && high < 1000 {
        return Ok(a);
    }
    Err(misread("a great integer"))
}

/// The integer of some values, over the variables from one on.
fn int_of(alloc: Global, values: &[i128], first: u128) -> Result<OrdInt>
    ensures sound { IfOk result (λ a. IsSound a) }
    ensures small { IfOk result (λ a. greatest_abs a < 1000) }
{
    if values.len() < 100 && 1 <= first && first < 1000 && are_values(values) {
        return small(OrdInt::from_values(alloc, values, first as u32)?);
    }
    Err(misread("values of no integer"))
}

/// The integer of three steps of weight 1.
fn stepped(alloc: Global, base: &str, steps: &str) -> Result<OrdInt>
    ensures sound { IfOk result (λ a. IsSound a) }
    ensures small { IfOk result (λ a. greatest_abs a < 1000) }
{
    let base = number(base)?;
    let atoms = atoms(alloc, steps)?;
    let atoms = atoms.as_slice();
    if atoms.len() != 3 {
        return Err(misread(steps));
    }
    let steps = vec![in alloc; (atoms[0], 1), (atoms[1], 1), (atoms[2], 1)]?;
    let steps = Sequence::from_vec(steps);
    small(OrdInt { base, steps })
}

/// An integer of values between -1,000 and 1,000; `InvalidInput` where the word is none.
pub fn int(alloc: Global, word: &str) -> Result<OrdInt>
    ensures sound { IfOk result (λ a. IsSound a) }
    ensures small { IfOk result (λ a. greatest_abs a < 1000) }
{
    if let Some((base, steps)) = word.split_once('^') {
        return stepped(alloc, base, steps);
    }
    let (list, first) = word.split_once('@').unwrap_or((word, "1"));
    let first = number(first)?;
    let values = values(alloc, list)?;
    int_of(alloc, &values, first.unsigned_abs())
}

/// An integer whose least value is at least a number.
pub(crate) fn int_from(alloc: Global, word: &str, least: i128) -> Result<OrdInt>
    ensures sound { IfOk result (λ a. IsSound a) }
    ensures small { IfOk result (λ a. greatest_abs a < 1000) }
    ensures least { IfOk result (λ a. least ≤ℤ low_of a) }
{
    let a = int(alloc, word)?;
    let low = a.low();
    if least <= low {
        return Ok(a);
    }
    Err(misread(word))
}

/// A list of integers, fewer than a hundred.
pub(crate) fn ints(alloc: Global, word: &str) -> Result<Sequence<OrdInt>>
    ensures sound { IfOk result (λ ints. AreSound ints) }
    ensures small { IfOk result (λ ints. abs_total ints < 100000) }
{
    let mut ints = Vec::new(alloc);
    for member in word.split(';') {
        if member != "none" {
            ints.push(int(alloc, member)?)?;
        }
    }
    if ints.len() < 100 {
        return Ok(Sequence::from_vec(ints));
    }
    Err(misread(word))
}
