//! What equations cores tell.

ghost use Rattle.std.specs.Prelude.{ℕ, ◌+◌, ◌≤◌, IfOk, IfSome, IfNone};
ghost use Rattle.core_forms.specs.declared.equation.Equation.{Equation};
ghost use Rattle.core_forms.specs.Edges.{IsKnown};
ghost use Rattle.core_forms.specs.WellFormed.{IsWellFormed};
ghost use Rattle.core_forms.specs.Place.{CoreBelow};
ghost use Rattle.equation_runs.specs.Turns.{AreToldInTurn, EquationsBelow};
ghost use Rattle.fixpoint_queue.specs.Told.{IsToldInstance};

use core_forms::{Core, Known};
use core_rules::FoundRun;
use rule_base::Steps;
use std::alloc::{AllocError, Global};
use std::sync::ledger::Ledger;

/// What tells equations, to whoever counts the queries in the ledger `L`. It has one meaning, a relation between
/// cores, as a store has them, and equations, and that is all that is known of it: that nothing is told of a core
/// follows from a query alone. Who is generic over `L` has no other counter of that ledger than the one that is
/// handed in, so each query of such a caller is on it.
pub trait Oracle<L: Ledger>: Copy {
    ghost use Rattle.core_forms.specs.declared.form.Core.{Core};
    ghost use Rattle.core_forms.specs.declared.equation.Equation.{Equation};

    ghost told: { Core → Equation → Type 0 };

    /// An equation that is told of a core, with a run: equations that it tells one after another, each when its turn
    /// comes, once those before it are made; perhaps none. Or `None` where no equation is told. What is told is an
    /// instance of a rule. So one look at a core that tells many is enough. It counts one step at least and three at
    /// most. What is known of a core spares a look: at the order of the integers of one that is plain, and of all but
    /// the last of a sum whose other members are.
    fn ask(
        &self,
        alloc: Global,
        core: &Core,
        known: Known,
        steps: &mut Steps<L>,
    ) -> Result<Option<FoundRun>, AllocError>
        requires formed { IsWellFormed core.now }
        requires known { IsKnown known core.now }
        ensures some { IfOk result
            (λ found. IfSome found (λ first. IsToldInstance told core.now first.equation)) }
        ensures run { IfOk result
            (λ found. IfSome found (λ first. AreToldInTurn (IsToldInstance told) core.now first.run.items)) }
        ensures below { (n : ℕ) → CoreBelow n core.now
            → IfOk result (λ found. IfSome found (λ first. EquationsBelow n first.run.items)) }
        ensures none { IfOk result (λ found. IfNone found ((e : Equation) → told core.now e → ⊥)) }
        ensures least { steps.old + 1 ≤ steps.new }
        ensures most { steps.new ≤ steps.old + 3 };
}

/// Tells nothing. It is for tests.
#[derive(Clone, Copy)]
pub struct Silent;

impl<L: Ledger> Oracle<L> for Silent {
    ghost told = { λ core e. ⊥ };

    fn ask(
        &self,
        _alloc: Global,
        _core: &Core,
        _known: Known,
        steps: &mut Steps<L>,
    ) -> Result<Option<FoundRun>, AllocError> {
        steps.tick();
        Ok(None)
    }
}
