//! Equations worked out by hand: what is found at a core, equations that are instances there, and equations that are
//! not.

ghost use Rattle.std.specs.Prelude.{◌≡◌, ◌<◌};
ghost use Rattle.core_forms.specs.WellFormed.{IsWellFormed};

use crate::difference_rows::{COUNTED, NARROW, ORDERS};
use crate::form_rows::{ATOMS, COMPARISONS, LADDERS};
use crate::max_rows::MAXIMA;
use crate::product_rows::{CONSTANTS, DIVISIONS, RANGES};
use crate::sum_rows::{COUNTS, SUMS, SUMS_OF_TWO};
use crate::truth_rows::{FORMS, LIMITS};
use core_forms::{Core, Equation};
use core_words::{core_of, equation_of, equation_text};
use rule_base::Steps;
use std::alloc::{AllocError, Global};
use std::marker::Brand;
use std::process::Abort;
use std::sync::ledger::{Blank, Ledger};
use std::test::Fail;

/// A core, what is found at it, instances, and equations that are none, with a semicolon between them.
pub(super) type Row = (&'static str, &'static str, &'static str, &'static str);

/// Which rules are asked: those of forms and of orders of integers, those of members that differ, those of sums,
/// counts, maxima and products, or those of truth tables.
#[derive(Clone, Copy, Debug)]
enum Rules {
    Equality,
    Difference,
    Arithmetic,
    Truth,
}

/// What rules find at a core, with a counter of its own.
fn found_with<L: Ledger>(
    rules: Rules,
    alloc: Global,
    blank: Blank,
    core: &Core,
) -> Result<Option<Equation>, AllocError>
    requires name { blank.name ≡ L.name }
    requires parts { blank.parts ≡ L.parts }
    requires some { 0 < L.parts }
    requires core { IsWellFormed core.now }
{
    let mut steps = Steps::<L>::open(blank);
    match rules {
        Rules::Equality => Ok(equi_rules::find(core, &mut steps)),
        Rules::Difference => alldiff_rules::find(alloc, core, &mut steps),
        Rules::Arithmetic => Ok(arith_rules::find(core, &mut steps)),
        Rules::Truth => table_rules::find(alloc, core, &mut steps),
    }
}

/// What rules find at a core.
fn found(rules: Rules, alloc: Global, core: &Core) -> Result<Option<Equation>, AllocError>
    requires { IsWellFormed core.now }
{
    found_with::<Brand>(rules, alloc, Blank::new(1), core)
}

/// Whether an equation is an instance of rules at a core.
fn is_instance(rules: Rules, alloc: Global, core: &Core, e: &Equation) -> Result<bool, AllocError>
    requires { IsWellFormed core.now }
{
    match rules {
        Rules::Equality => Ok(equi_rules::is_instance(core, e)),
        Rules::Difference => alldiff_rules::is_instance(alloc, core, e),
        Rules::Arithmetic => Ok(arith_rules::is_instance(core, e)),
        Rules::Truth => Ok(table_rules::is_instance(core, e)),
    }
}

/// Tests whether each of some equations is an instance at a core, or none is.
fn check(
    rt: &impl Abort,
    alloc: Global,
    rules: Rules,
    core: &Core,
    equations: &str,
    wanted: bool,
) -> Result<(), Fail>
    requires { IsWellFormed core.now }
{
    for words in equations.split(';') {
        if !words.is_empty() {
            let told = is_instance(rules, alloc, core, &equation_of(words)?)?;
            assert_eq!(rt; told, wanted, "{words}");
        }
    }
    Ok(())
}

/// Tests a row.
fn check_row(rt: &impl Abort, alloc: Global, rules: Rules, row: &Row) -> Result<(), Fail> {
    let core = core_of(alloc, row.0)?;
    let found = equation_text(alloc, found(rules, alloc, &core)?)?;
    assert_eq!(rt; found.as_slice(), row.1.as_bytes(), "{rules:?}: {}", row.0);
    check(rt, alloc, rules, &core, row.2, true)?;
    check(rt, alloc, rules, &core, row.3, false)
}

#[test]
fn equations_are_those_of_the_rules(rt: HostRuntime) -> Result<(), Fail> {
    for (rules, rows) in [
        (Rules::Equality, ATOMS.as_slice()),
        (Rules::Equality, COMPARISONS.as_slice()),
        (Rules::Equality, LADDERS.as_slice()),
        (Rules::Difference, COUNTED.as_slice()),
        (Rules::Difference, NARROW.as_slice()),
        (Rules::Difference, ORDERS.as_slice()),
        (Rules::Arithmetic, SUMS_OF_TWO.as_slice()),
        (Rules::Arithmetic, COUNTS.as_slice()),
        (Rules::Arithmetic, SUMS.as_slice()),
        (Rules::Arithmetic, MAXIMA.as_slice()),
        (Rules::Arithmetic, RANGES.as_slice()),
        (Rules::Arithmetic, CONSTANTS.as_slice()),
        (Rules::Arithmetic, DIVISIONS.as_slice()),
        (Rules::Truth, FORMS.as_slice()),
        (Rules::Truth, LIMITS.as_slice()),
    ] {
        for row in rows {
            check_row(&rt, rt.alloc(), rules, row)?;
        }
    }
    Ok(())
}
