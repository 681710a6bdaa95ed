//! Searches over CNFs in no order, beside the trying of all valuations.

ghost use Rattle.std.specs.Prelude.{◌≤◌, ◌^◌, ◌+◌};
ghost use Rattle.std.specs.Option.{ForSome};
ghost use Rattle.order_ints.specs.Place.{InRange, LitBelow};
ghost use Rattle.clause_rings.specs.Clauses.{AreApartIn};

use crate::numbers::Numbers;
use crate::random_moves::some_clause;
use crate::words::{cnf_of, literal, literals};
use bee_list::Sequence;
use learning_solver::{Found, Solver};
use order_ints::{Cnf, Lit};
use search_watcher::Silent;
use std::alloc::{AllocError, Global};
use std::test::Fail;

/// Whether a valuation, a digit for each variable, satisfies clauses of literals' numbers and one more literal, 0 for
/// none.
fn is_model(clauses: &[Vec<i32>], values: u32, assumption: i32) -> bool {
    let holds = |number: i32| {
        let digit = 1u32.wrapping_shl(number.unsigned_abs().wrapping_sub(1));
        (values & digit != 0) == (number > 0)
    };
    (assumption == 0 || holds(assumption))
        && clauses
            .iter()
            .all(|clause| clause.iter().any(|number| holds(*number)))
}

/// What a new solver finds, under an assumption where one is given.
fn found(
    alloc: Global,
    cnf: &Cnf,
    assumption: Option<Lit>,
    restart: bool,
) -> Result<Found, AllocError>
    requires vars { cnf.now.vars ≤ 2 ^ 27 }
    requires in_range { InRange cnf.now }
    requires apart { AreApartIn cnf.now }
    requires below { ForSome assumption (LitBelow (cnf.now.vars + 1)) }
{
    let mut solver = Solver::with(alloc, cnf)?;
    solver.solve_watched(assumption, u64::MAX, restart, &mut Silent)
}

/// Whether a new solver finds values, under an assumption where its number is not 0.
fn answered(
    alloc: Global,
    cnf: &Cnf,
    number: i32,
    restart: bool,
) -> Result<Option<bool>, AllocError>
    requires vars { cnf.now.vars ≤ 2 ^ 27 }
    requires in_range { InRange cnf.now }
    requires apart { AreApartIn cnf.now }
{
    let assumption = literal(number);
    let asked = if assumption.var < 1 || cnf.vars < assumption.var {
        None
    } else {
        Some(assumption)
    };
    match found(alloc, cnf, asked, restart)? {
        Found::Sat(_) => Ok(Some(true)),
        Found::Refuted(_) => Ok(Some(false)),
        Found::Spent => Ok(None),
    }
}

/// Asks for no assumption, and for each literal of a small CNF, those of variable 1 alone of others, with or without
/// restarts.
fn valuations_row(alloc: Global, cnf: &Cnf, clauses: &[Vec<i32>], restart: bool) -> Result<(), Fail>
    requires vars { cnf.now.vars ≤ 2 ^ 27 }
    requires in_range { InRange cnf.now }
    requires apart { AreApartIn cnf.now }
{
    let most = if cnf.vars < 5 { cnf.vars as i32 } else { 1 };
    for number in 0 - most..most + 1 {
        let has_model = (0..1u32.wrapping_shl(cnf.vars)).any(|values| is_model(
            clauses, values, number,
        ));
        if answered(alloc, cnf, number, restart)? != Some(has_model) {
            return Err(Fail::new("an answer is wrong"));
        }
    }
    Ok(())
}

/// A CNF in no order, of up to twelve variables, with and without restarts.
fn random_row(alloc: Global, numbers: &mut Numbers) -> Result<(), Fail> {
    let vars = numbers.below(12) + 1;
    let mut clauses = Vec::new(alloc);
    let mut lits = Vec::new(alloc);
    for _ in 0..numbers.below(5 * vars) {
        let one_of = (vars / 3).max(2);
        let clause = some_clause(alloc, numbers, vars as i32, one_of)?;
        lits.push(Sequence::from_vec(literals(alloc, &clause)?))?;
        clauses.push(clause)?;
    }
    let cnf = cnf_of(vars, lits)?;
    valuations_row(alloc, &cnf, &clauses, false)?;
    valuations_row(alloc, &cnf, &clauses, true)
}

#[test]
fn answers_are_those_of_all_valuations(rt: HostRuntime) -> Result<(), Fail> {
    let mut numbers = Numbers { last: 47 };
    for _ in 0..10_000 {
        random_row(rt.alloc(), &mut numbers)?;
    }
    assert!(rt; numbers.last != 47);
    Ok(())
}
