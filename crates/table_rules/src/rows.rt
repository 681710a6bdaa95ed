//! The rows of a core's truth table, one for each valuation of its variables.

ghost use Rattle.std.specs.Prelude.{◌≡◌, ◌^◌, ◌≤◌, length};
ghost use Rattle.std.specs.List.{filter};
ghost use Rattle.order_ints.specs.Truth.{valuation_at};
ghost use Rattle.core_forms.specs.WellFormed.{IsWellFormed};
ghost use Rattle.table_rules.specs.Rows.{row_of, are_equal_in, is_some_apart, are_equal_below, left_below};

use core_forms::{Core, holds_in_row};
use order_ints::{Atom, TruthRow};

/// How many rows so many variables have.
pub(crate) fn row_count(vars: usize) -> usize
    requires { vars ≤ 8 }
    ensures { result ≡ 2 ^ vars }
{
    1 << vars
}

/// Writes the row with a number: the truth value of the first variable is the lowest bit.
pub(crate) fn write_row(values: &mut [bool], number: usize)
    ensures { values.new ≡ row_of (length values.old) number }
{
    let mut rest = number;
    for value in values.iter_mut() {
        *value = rest % 2 == 1;
        rest /= 2;
    }
}

/// Whether two atoms are equally true in a row.
pub(crate) fn are_equal_in(vars: &[u32], values: &[bool], pair: (Atom, Atom)) -> bool
    ensures { result ≡ are_equal_in (valuation_at vars.now values.now) pair }
{
    let row = TruthRow { vars, values };
    pair.0.holds(row) == pair.1.holds(row)
}

/// Whether two atoms are equally true in each row in which a core is met. It takes no memory.
pub(crate) fn are_equal(core: &Core, vars: &[u32], a: Atom, b: Atom) -> bool
    requires well_formed { IsWellFormed core.now }
    requires few { length vars.now ≤ 8 }
    ensures { result ≡ are_equal_below core.now vars.now (a, b) (2 ^ length vars.now) }
{
    let mut row = [false; 8];
    let values = &mut row[..vars.len()];
    for number in 0..row_count(vars.len()) {
        write_row(values, number);
        if !are_equal_in(vars, values, (a, b)) && holds_in_row(core, vars, values) {
            return false;
        }
    }
    true
}

/// Whether the atoms of some pair are not equally true in a row.
pub(crate) fn is_some_apart(pairs: &[(Atom, Atom)], vars: &[u32], values: &[bool]) -> bool
    ensures { result ≡ is_some_apart (valuation_at vars.now values.now) pairs.now }
{
    for pair in pairs {
        if !are_equal_in(vars, values, *pair) {
            return true;
        }
    }
    false
}

/// Keeps those of pairs of atoms which are equally true in a row.
pub(crate) fn keep_equal(pairs: &mut Vec<(Atom, Atom)>, vars: &[u32], values: &[bool])
    ensures { pairs.new.items ≡ filter (are_equal_in (valuation_at vars.now values.now)) pairs.old.items }
{
    pairs.retain(|pair| are_equal_in(vars, values, *pair));
}

/// Keeps those of pairs of atoms which are equally true in each row in which a core is met. It ends with
/// the row in which the last one falls, and looks at the core only in rows in which some pair would fall.
pub(crate) fn keep_implied(pairs: &mut Vec<(Atom, Atom)>, core: &Core, vars: &[u32])
    requires well_formed { IsWellFormed core.now }
    requires few { length vars.now ≤ 8 }
    ensures { pairs.new.items ≡ left_below core.now vars.now pairs.old.items (2 ^ length vars.now) }
{
    let mut row = [false; 8];
    let values = &mut row[..vars.len()];
    for number in 0..row_count(vars.len()) {
        if pairs.is_empty() {
            return;
        }
        write_row(values, number);
        if is_some_apart(pairs.as_slice(), vars, values) && holds_in_row(core, vars, values) {
            keep_equal(pairs, vars, values);
        }
    }
}
