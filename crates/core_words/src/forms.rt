//! The forms over integers in words.

ghost use Rattle.std.specs.Prelude.{◌<◌, ◌≤ℤ◌, pos, IfOk};
ghost use Rattle.order_ints.specs.OrderRange.{low_of};
ghost use Rattle.core_forms.specs.WellFormed.{IsSound, greatest_abs, IsWellFormed};

use crate::ints::{int, int_from, ints};
use crate::words::{atom, atoms, misread, number, word};
use core_forms::Core;
use order_ints::OrdInt;
use std::alloc::{AllocError, Global};
use std::io::Result;

/// A product.
fn product_of(
    alloc: Global,
    a: OrdInt,
    b: OrdInt,
    c: OrdInt,
) -> std::result::Result<Core, AllocError>
    requires sound { IsSound a × IsSound b × IsSound c }
    requires small { (greatest_abs a < 1000) × (greatest_abs b < 1000) }
    ensures { IfOk result (λ core. IsWellFormed core) }
{
    Core::prod(alloc, a, b, c)
}

/// A division.
fn division_of(
    alloc: Global,
    a: OrdInt,
    b: OrdInt,
    q: OrdInt,
    r: OrdInt,
) -> std::result::Result<Core, AllocError>
    requires sound { IsSound a × IsSound b × IsSound q × IsSound r }
    requires small { (greatest_abs b < 1000) × (greatest_abs q < 1000) × (greatest_abs r < 1000) }
    requires least { (pos 0 ≤ℤ low_of a) × (pos 1 ≤ℤ low_of b) }
    ensures { IfOk result (λ core. IsWellFormed core) }
{
    Core::div_mod(alloc, a, b, q, r)
}

/// A comparison of two integers.
fn comparison(alloc: Global, text: &str, equal: bool) -> Result<Core>
    ensures { IfOk result (λ core. IsWellFormed core) }
{
    let r = atom(word(text, 1))?;
    let a = int(alloc, word(text, 2))?;
    let b = int(alloc, word(text, 3))?;
    if equal {
        return Ok(Core::eq_r(alloc, r, a, b)?);
    }
    Ok(Core::leq_r(alloc, r, a, b)?)
}

/// The third integer is the sum or the product of the first two.
fn operation(alloc: Global, text: &str, product: bool) -> Result<Core>
    ensures { IfOk result (λ core. IsWellFormed core) }
{
    let a = int(alloc, word(text, 1))?;
    let b = int(alloc, word(text, 2))?;
    let c = int(alloc, word(text, 3))?;
    if product {
        return Ok(product_of(alloc, a, b, c)?);
    }
    Ok(Core::sum3(alloc, a, b, c)?)
}

/// The third and fourth integer are quotient and rest of the first by the second.
fn division(alloc: Global, text: &str) -> Result<Core>
    ensures { IfOk result (λ core. IsWellFormed core) }
{
    let a = int_from(alloc, word(text, 1), 0)?;
    let b = int_from(alloc, word(text, 2), 1)?;
    let q = int(alloc, word(text, 3))?;
    let r = int(alloc, word(text, 4))?;
    Ok(division_of(alloc, a, b, q, r)?)
}

/// A count of true members.
fn count(alloc: Global, text: &str) -> Result<Core>
    ensures { IfOk result (λ core. IsWellFormed core) }
{
    let members = atoms(alloc, word(text, 1))?;
    let c = int(alloc, word(text, 2))?;
    Ok(Core::count(alloc, members, c)?)
}

/// A sum of members, which is a number.
fn sum(alloc: Global, text: &str) -> Result<Core>
    ensures { IfOk result (λ core. IsWellFormed core) }
{
    let members = ints(alloc, word(text, 1))?;
    let total = number(word(text, 2))?;
    Ok(Core::sum(alloc, members, total)?)
}

/// The greatest member.
fn maximum(alloc: Global, text: &str) -> Result<Core>
    ensures { IfOk result (λ core. IsWellFormed core) }
{
    let members = ints(alloc, word(text, 1))?;
    let c = int(alloc, word(text, 2))?;
    if members.is_empty() {
        return Err(misread(text));
    }
    Ok(Core::max(alloc, members, c)?)
}

/// Members that differ where both their conditions are true.
fn differences(alloc: Global, text: &str) -> Result<Core>
    ensures { IfOk result (λ core. IsWellFormed core) }
{
    let members = ints(alloc, word(text, 1))?;
    let conditions = atoms(alloc, word(text, 2))?;
    if members.len() != conditions.len() {
        return Err(misread(text));
    }
    Ok(Core::all_diff(alloc, members, conditions)?)
}

/// The order of two lists.
fn order(alloc: Global, text: &str) -> Result<Core>
    ensures { IfOk result (λ core. IsWellFormed core) }
{
    let strict = word(text, 1) == "strict";
    let r = atom(word(text, 2))?;
    let front = ints(alloc, word(text, 3))?;
    let back = ints(alloc, word(text, 4))?;
    if front.len() != back.len() {
        return Err(misread(text));
    }
    Ok(Core::lex(alloc, r, strict, front, back)?)
}

/// A form over a few integers.
fn of_few(alloc: Global, text: &str) -> Result<Core>
    ensures { IfOk result (λ core. IsWellFormed core) }
{
    match word(text, 0) {
        "LeqR" => comparison(alloc, text, false),
        "EqR" => comparison(alloc, text, true),
        "Sum3" => operation(alloc, text, false),
        "Prod" => operation(alloc, text, true),
        "DivMod" => division(alloc, text),
        _ => Err(misread(text)),
    }
}

/// A form over integers.
pub(crate) fn of_ints(alloc: Global, text: &str) -> Result<Core>
    ensures { IfOk result (λ core. IsWellFormed core) }
{
    match word(text, 0) {
        "Count" => count(alloc, text),
        "Sum" => sum(alloc, text),
        "Max" => maximum(alloc, text),
        "AllDiff" => differences(alloc, text),
        "Lex" => order(alloc, text),
        _ => of_few(alloc, text),
    }
}
