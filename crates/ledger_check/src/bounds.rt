//! Whether what was derived shows the atom of a bound, and what derivations begin with.

ghost use Rattle.std.specs.Prelude.{◌≡◌, ◌+◌, ◌==◌, ◌++◌, IfOk, length};
ghost use Rattle.order_ints.specs.Place.{AtomBelow};
ghost use Rattle.step_kernel.specs.CnfOf.{cnf_of};
ghost use Rattle.proof_check.specs.Lrat.{proof_of};
ghost use Rattle.answer_document.specs.Valid.{atom_clauses, stated};
ghost use Rattle.ledger_check.specs.Tests.{is_shown};

use answer_document::{Bounds, Verdict, with_atom};
use ledger_replay::Replay;
use order_ints::{Atom, Cnf};
use proof_check::Checker;
use std::alloc::{AllocError, Global};

/// Whether an atom is shown by a derivation.
pub(crate) fn is_shown(checker: &Checker, atom: Atom) -> bool
    ensures { result ≡ is_shown checker.now atom }
{
    match atom {
        Atom::True => true,
        Atom::False => checker.known(&[]),
        Atom::Of(literal) => checker.known(&[]) || checker.known(&[literal]),
    }
}

/// The values of the objectives that a verdict states.
pub(crate) fn stated(verdict: Verdict) -> Option<Bounds>
    ensures { result ≡ stated verdict }
{
    match verdict {
        Verdict::Satisfiable => None,
        Verdict::Unsatisfiable => None,
        Verdict::Optimum(bounds) => Some(bounds),
        Verdict::Unknown(_, best) => best,
    }
}

/// The checker of derivations from the CNF of a state and the clause of an atom behind it.
pub(crate) fn fixed_checker(
    alloc: Global,
    state: &Replay,
    atom: Atom,
) -> Result<Checker, AllocError>
    requires { AtomBelow (length state.now.view + 1) atom }
    ensures { IfOk result (λ c. c ≡ proof_of (record {
      vars = (cnf_of state.now).vars;
      clauses = (cnf_of state.now).clauses ++ atom_clauses atom;
    })) }
{
    // Read for the proof alone, which knows the state's invariant from here on.
    let _vars = state.vars();
    let Cnf { vars, clauses } = state.cnf()?;
    let cnf = Cnf {
        vars,
        clauses: with_atom(alloc, clauses, atom)?,
    };
    Checker::with(alloc, &cnf)
}

/// Whether two numbers add up to a third.
pub(crate) fn adds_up(a: u64, b: u64, sum: u64) -> bool
    ensures { result ≡ (a + b == sum) }
{
    a <= sum && sum - a == b
}
