//! Literals, clauses and CNFs from numbers.

ghost use Rattle.std.specs.Prelude.{◌≡◌, ◌≤◌, ◌^◌, IsTrue, IfOk};
ghost use Rattle.order_ints.specs.Place.{InRange};
ghost use Rattle.clause_rings.specs.Clauses.{AreApartIn};
ghost use Rattle.search_rows.specs.Clauses.{Ascends, EachAscends};

use bee_list::Sequence;
use order_ints::{Cnf, Lit};
use std::alloc::{AllocError, Global};
use std::test::Fail;

/// A literal: the number of its variable, negative for the negation.
pub(super) fn literal(number: i32) -> Lit {
    Lit::of(number.unsigned_abs(), number > 0)
}

/// The literals of numbers.
pub(super) fn literals(alloc: Global, numbers: &[i32]) -> Result<Vec<Lit>, AllocError> {
    let mut lits = Vec::new(alloc);
    for number in numbers {
        lits.push(literal(*number))?;
    }
    Ok(lits)
}

/// Whether the variables of literals ascend, from 1 to `vars`.
pub(super) fn is_clause(lits: &[Lit], vars: u32) -> bool
    ensures { IsTrue result → Ascends 0 vars lits.now }
{
    let mut last = 0;
    for l in lits {
        if l.var <= last {
            return false;
        }
        if vars < l.var {
            return false;
        }
        last = l.var;
    }
    true
}

/// Whether those of each clause do.
fn are_clauses(clauses: &[Sequence<Lit>], vars: u32) -> bool
    ensures { IsTrue result → EachAscends vars clauses.now }
{
    for clause in clauses {
        if !is_clause(clause.as_slice(), vars) {
            return false;
        }
    }
    true
}

/// A CNF that may be solved.
pub(super) fn cnf_of(vars: u32, clauses: Vec<Sequence<Lit>>) -> Result<Cnf, Fail>
    ensures vars { IfOk result (λ cnf. cnf.vars ≤ 2 ^ 27) }
    ensures same { IfOk result (λ cnf. cnf.vars ≡ vars) }
    ensures in_range { IfOk result InRange }
    ensures apart { IfOk result AreApartIn }
{
    if vars > 1 << 27 || !are_clauses(&clauses, vars) {
        return Err(Fail::new("no CNF"));
    }
    Ok(Cnf {
        vars,
        clauses: Sequence::from_vec(clauses),
    })
}

/// The CNF of clauses.
pub(super) fn cnf(alloc: Global, vars: u32, clauses: &[&[i32]]) -> Result<Cnf, Fail>
    ensures vars { IfOk result (λ cnf. cnf.vars ≤ 2 ^ 27) }
    ensures same { IfOk result (λ cnf. cnf.vars ≡ vars) }
    ensures in_range { IfOk result InRange }
    ensures apart { IfOk result AreApartIn }
{
    let mut made = Vec::new(alloc);
    for clause in clauses {
        made.push(Sequence::from_vec(literals(alloc, clause)?))?;
    }
    cnf_of(vars, made)
}
