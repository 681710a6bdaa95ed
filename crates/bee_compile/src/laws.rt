//! Laws of the compilation, for proofs of crates above. The function does nothing; its contract is the law.

ghost use Rattle.bee_compile.specs.Compiled.{CompilationLaw};

use fixpoint_queue::Oracle;
use std::sync::ledger::Ledger;

/// The assignments that the satisfying valuations of a model's clauses give are its solutions.
pub fn compilation_law<F: Oracle<L>, L: Ledger>()
    ensures { CompilationLaw F.told }
{}
