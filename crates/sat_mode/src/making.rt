//! From a CNF's text to the text that tells what was found.

ghost use Rattle.std.specs.Prelude.{◌≤◌, length, IfOk};
ghost use Rattle.order_ints.specs.Place.{InRange};
ghost use Rattle.order_ints.specs.OrderedClauses.{ClausesAscend};
ghost use Rattle.text_modes.specs.Ends.{IsMade};
ghost use Rattle.sat_front.specs.HeldCnfs.{longest_text, HasFault};
ghost use Rattle.sat_mode.specs.Found.{Tells, IsSolved};

use crate::writing::{write_refutation, write_unknown, write_values};
use learning_solver::{Found, Solver};
use order_ints::Cnf;
use sat_front::{CnfFault, CnfTextFault, read_cnf};
use search_options::SearchOptions;
use search_watcher::Watcher;
use std::alloc::{AllocError, Global};
use text_modes::{Made, Outcome};

/// What is written for a CNF.
fn tell<W: Watcher>(
    alloc: Global,
    cnf: &Cnf,
    options: SearchOptions,
    watcher: &mut W,
) -> Result<(Outcome, Vec<u8>), AllocError>
    requires few { cnf.now.vars ≤ 67108864 }
    requires in_range { InRange cnf.now }
    requires ascend { ClausesAscend cnf.now.clauses }
    ensures { IfOk result (λ made. Tells options cnf.now cnf.now.clauses made.0 made.1.items) }
{
    let mut solver = Solver::with(alloc, cnf)?;
    match solver.solve_watched(None, options.budget, options.restart, watcher)? {
        Found::Sat(values) => {
            let text = write_values(alloc, values.as_slice())?;
            Ok((Outcome::Done, text))
        }
        Found::Refuted(_) => {
            let text = write_refutation(alloc, solver.log())?;
            Ok((Outcome::Done, text))
        }
        Found::Spent => {
            let text = write_unknown(alloc, solver.log())?;
            Ok((Outcome::Unknown(options.budget), text))
        }
    }
}

/// What is written for a text, or its fault.
pub(crate) fn solve_text<W: Watcher>(
    alloc: Global,
    text: &[u8],
    options: SearchOptions,
    watcher: &mut W,
) -> Result<Made<CnfTextFault>, AllocError>
    requires { length text.now ≤ longest_text }
    ensures { IfOk result (IsMade (IsSolved options text.now) (HasFault text.now)) }
{
    match read_cnf(alloc, text) {
        Ok(cnf) => {
            let (outcome, written) = tell(alloc, &cnf, options, watcher)?;
            Ok(Made::Text(outcome, written))
        }
        Err(CnfFault::Form(line)) => Ok(Made::Fault(CnfTextFault::Form(line))),
        Err(CnfFault::Memory) => Err(AllocError),
    }
}
