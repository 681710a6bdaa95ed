//! The truth of clauses under a list of truth values.

ghost use Rattle.std.specs.Prelude.{◌≡◌, ◌↔◌, IsNone, IfSome};
ghost use Rattle.order_ints.specs.Truth.{valuation_of};
ghost use Rattle.order_ints.specs.Satisfies.{clause_truth, Satisfies};
ghost use Rattle.order_ints.specs.FirstFalse.{first_false_place, FirstFalseAt};

use crate::cnf::Cnf;
use crate::literal::Lit;
use bee_list::Sequence;

/// Whether a clause is true: one of its literals is.
pub fn is_clause_true(clause: &[Lit], sigma: &[bool]) -> bool
    ensures { result ≡ clause_truth (valuation_of sigma.now) clause.now }
{
    for literal in clause {
        if literal.holds(sigma) {
            return true;
        }
    }
    false
}

/// The place of the first false one of some clauses.
fn first_false_clause(clauses: &[Sequence<Lit>], sigma: &[bool]) -> Option<usize>
    ensures { result ≡ first_false_place (valuation_of sigma.now) clauses.now }
{
    for (i, clause) in clauses.iter().enumerate() {
        if !is_clause_true(clause.as_slice(), sigma) {
            return Some(i);
        }
    }
    None
}

/// The place of the first false clause, counted from 0. The truth value of variable 1 stands first; a
/// variable that has none is false.
pub fn first_false(cnf: &Cnf, sigma: &[bool]) -> Option<usize>
    ensures place { result ≡ first_false_place (valuation_of sigma.now) cnf.now.clauses }
    ensures none { IsNone result ↔ Satisfies (valuation_of sigma.now) cnf.now }
    ensures first { IfSome result (FirstFalseAt (valuation_of sigma.now) cnf.now.clauses) }
{
    first_false_clause(cnf.clauses.as_slice(), sigma)
}
