//! Clauses, and that an objective is fixed.

ghost use Rattle.std.specs.Prelude.{◌≡◌, ◌+◌, ◌++◌, ◌≤◌, IfOk};
ghost use Rattle.answer_document.specs.Valid.{atom_clauses};
ghost use Rattle.learning_solver.specs.Log.{additions};
ghost use Rattle.decode_minimize.specs.Fixing.{adds_clause};

use answer_document::with_atom;
use order_ints::{Atom, Cnf};
use proof_check::ProofLine;
use std::alloc::{AllocError, Global};

/// The CNF with the clause of an atom behind its own: none of True, and the empty one of False.
pub fn fix(alloc: Global, cnf: Cnf, atom: Atom) -> Result<Cnf, AllocError>
    ensures { IfOk result (λ all. all ≡ record { vars = cnf.vars; clauses = cnf.clauses ++ atom_clauses atom }) }
{
    let Cnf { vars, clauses } = cnf;
    Ok(Cnf {
        vars,
        clauses: with_atom(alloc, clauses, atom)?,
    })
}

/// Whether a line adds a clause.
fn adds(line: &ProofLine) -> bool
    ensures { result ≡ adds_clause line.now }
{
    match line {
        ProofLine::Add { .. } => true,
        ProofLine::Delete { .. } => false,
    }
}

/// How many lines add a clause.
pub fn additions(lines: &[ProofLine]) -> u64
    ensures { result ≡ additions lines.now }
{
    let mut count: u64 = 0;
    for line in lines {
        if adds(line) {
            count += 1;
        }
    }
    count
}
