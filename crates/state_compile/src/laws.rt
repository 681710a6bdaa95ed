//! Laws of compilations, for proofs of crates above. Each function does nothing; its contract is the law.

ghost use Rattle.std.specs.Prelude.{◌≡◌, ◌≤◌, List, length};
ghost use Rattle.order_ints.specs.declared.atom.Atom.{Atom};
ghost use Rattle.order_ints.specs.Label.{IsLater};
ghost use Rattle.order_ints.specs.Satisfies.{Satisfies};
ghost use Rattle.order_ints.specs.Truth.{Valuation, atom_truth};
ghost use Rattle.order_ints.specs.View.{resolve};
ghost use Rattle.ledger_text.specs.declared.line.Line.{Line};
ghost use Rattle.step_kernel.specs.CnfOf.{cnf_of};
ghost use Rattle.step_kernel.specs.Kernel.{Kernel, IsKernel};
ghost use Rattle.step_kernel.specs.Models.{IsModel};
ghost use Rattle.fixpoint_queue.specs.Ledgers.{Leads};
ghost use Rattle.state_compile.specs.StandsFor.{CnfStandsFor, read_by};
ghost use Rattle.state_compile.specs.Compilation.{IsCompilation};

use fixpoint_queue::Oracle;
use std::sync::ledger::Ledger;

/// The ledger of a compilation leads from its first state to its last, which is a state with a later store,
/// and whose CNF has the models of the first one.
pub fn compilation_law<F: Oracle<L>, L: Ledger>()
    ensures leads { (start last : Kernel) (ledger : List Line)
        → IsCompilation F.told start ledger last → Leads F.told start ledger last }
    ensures kernel { (start last : Kernel) (ledger : List Line)
        → IsKernel start → IsCompilation F.told start ledger last → IsKernel last }
    ensures later { (start last : Kernel) (ledger : List Line)
        → IsKernel start → IsCompilation F.told start ledger last
        → (length start.view ≤ length last.view) × IsLater start.view last.view }
    ensures models { (start last : Kernel) (ledger : List Line)
        → IsKernel start → IsCompilation F.told start ledger last → CnfStandsFor start last }
{}

/// What a valuation that satisfies the CNF of the last state gives, also where it does not meet the store: read
/// by the last view it is a model of the first state. So read, an atom is as true as what it resolves to.
pub fn reading_law()
    ensures model { (start last : Kernel) (σ : Valuation) → IsKernel last → CnfStandsFor start last
        → Satisfies σ (cnf_of last) → IsModel start (read_by last.view σ) }
    ensures atom { (view : List Atom) (σ : Valuation) (a : Atom)
        → atom_truth (read_by view σ) a ≡ atom_truth σ (resolve view a) }
{}
