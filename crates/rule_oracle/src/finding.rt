//! An equation of any rule, with the run that the same look at the core tells.

ghost use Rattle.std.specs.Prelude.{◌≡◌, ℕ, ◌+◌, ◌≤◌, ◌↔◌, true, false, IsTrue, IsNone, IfOk};
ghost use Rattle.std.specs.Prelude.{IfSome, IfNone};
ghost use Rattle.core_forms.specs.declared.equation.Equation.{Equation};
ghost use Rattle.core_forms.specs.WellFormed.{IsWellFormed};
ghost use Rattle.core_forms.specs.Edges.{IsKnown};
ghost use Rattle.core_forms.specs.Place.{CoreBelow};
ghost use Rattle.equation_runs.specs.Turns.{AreToldInTurn, EquationsBelow, is_stated};
ghost use Rattle.equi_rules.specs.Instances.{is_instance_of as is_equi_instance};
ghost use Rattle.alldiff_rules.specs.Instances.{is_instance_of as is_alldiff_instance};
ghost use Rattle.arith_rules.specs.Instances.{is_instance_of as is_arith_instance};
ghost use Rattle.core_rules.specs.Instances.{is_instance_at, is_form_instance};

use core_forms::{Core, Equation, Known, Rule};
use core_rules::FoundRun;
use equation_runs::{run_at_edge, run_of, run_of_form};
use rule_base::Steps;
use std::alloc::{AllocError, Global};
use std::sync::ledger::Ledger;

/// An equation that a core's form states, where it is a sum, a count, a maximum, a product or a division. It
/// counts one step at most.
fn by_arithmetic<L: Ledger>(core: &Core, steps: &mut Steps<L>) -> Option<Equation>
    requires { IsWellFormed core.now }
    ensures some { IfSome result (λ e. is_arith_instance core.now e ≡ true) }
    ensures none { IfNone result ((e : Equation) → is_arith_instance core.now e ≡ true → ⊥) }
    ensures least { steps.old ≤ steps.new }
    ensures most { steps.new ≤ steps.old + 1 }
{
    match core {
        Core::Sum3(_, _, _)
        | Core::Count(_, _)
        | Core::Sum(_, _)
        | Core::Max(_, _)
        | Core::Prod(_, _, _)
        | Core::DivMod(_, _, _, _) => arith_rules::find(core, steps),
        _ => None,
    }
}

/// An equation that all-different or lexicographic order states.
fn by_difference<L: Ledger>(
    alloc: Global,
    core: &Core,
    steps: &mut Steps<L>,
) -> Result<Option<Equation>, AllocError>
    requires { IsWellFormed core.now }
    ensures some { IfOk result (λ found. IfSome found (λ e. is_alldiff_instance core.now e ≡ true)) }
    ensures none { IfOk result
        (λ found. IfNone found ((e : Equation) → is_alldiff_instance core.now e ≡ true → ⊥)) }
    ensures steps { steps.new ≡ steps.old + 1 }
{
    alldiff_rules::find(alloc, core, steps)
}

/// An equation that a core's form states beside those of `equi_rules`. It counts one step at most.
fn by_form<L: Ledger>(
    alloc: Global,
    core: &Core,
    steps: &mut Steps<L>,
) -> Result<Option<Equation>, AllocError>
    requires { IsWellFormed core.now }
    ensures some { IfOk result (λ found. IfSome found (λ e. is_form_instance core.now e ≡ true)) }
    ensures none { IfOk result
        (λ found. IfNone found ((e : Equation) → is_form_instance core.now e ≡ true → ⊥)) }
    ensures least { steps.old ≤ steps.new }
    ensures most { steps.new ≤ steps.old + 1 }
{
    match core {
        Core::AllDiff(_, _) | Core::Lex(_, _, _, _) => by_difference(alloc, core, steps),
        _ => Ok(by_arithmetic(core, steps)),
    }
}

/// An equation that a core states by the rules of `equi_rules`. Of a core that is known to be plain the order is not
/// looked at, and of one that is so but for its edge the order of that alone.
fn by_equality<L: Ledger>(core: &Core, known: Known, steps: &mut Steps<L>) -> Option<Equation>
    requires well_formed { IsWellFormed core.now }
    requires known { IsKnown known core.now }
    ensures some { IfSome result (λ e. is_equi_instance core.now e ≡ true) }
    ensures none { IsNone result ↔ ((e : Equation) → is_equi_instance core.now e ≡ false) }
    ensures steps { steps.new ≡ steps.old + 1 }
{
    match known {
        Known::Plain => equi_rules::find_plain(core, steps),
        Known::ButLast => equi_rules::find_last(core, steps),
        Known::Nothing => equi_rules::find(core, steps),
    }
}

/// An equation that a core states by the order of its integers or by its form. It counts one step or two.
fn by_order_or_form<L: Ledger>(
    alloc: Global,
    core: &Core,
    known: Known,
    steps: &mut Steps<L>,
) -> Result<Option<Equation>, AllocError>
    requires well_formed { IsWellFormed core.now }
    requires known { IsKnown known core.now }
    ensures some { IfOk result (λ found. IfSome found (λ e. is_instance_at core.now e ≡ true)) }
    ensures none { IfOk result
        (λ found. IfNone found ((e : Equation) → is_stated core.now e ≡ true → ⊥)) }
    ensures least { steps.old + 1 ≤ steps.new }
    ensures most { steps.new ≤ steps.old + 2 }
{
    match by_equality(core, known, steps) {
        Some(e) => Ok(Some(e)),
        None => by_form(alloc, core, steps),
    }
}

/// A run of a core: where the core is plain but for its edge, that of the edge alone, if no other equation can be told;
/// else that without the equations along its integers, where a rule told one that is asked when Order tells none.
fn run_by<L: Ledger>(
    alloc: Global,
    core: &Core,
    known: Known,
    rule: Rule,
    steps: &mut Steps<L>,
) -> Result<Vec<Equation>, AllocError>
    requires { IsWellFormed core.now }
    ensures told { IfOk result (λ run. AreToldInTurn (λ c e. is_stated c e ≡ true) core.now run.items) }
    ensures below { (n : ℕ) → CoreBelow n core.now → IfOk result (λ run. EquationsBelow n run.items) }
    ensures steps { steps.new ≡ steps.old + 1 }
{
    match (known, rule) {
        (Known::Nothing, Rule::Order) => run_of(alloc, core, steps),
        (Known::Nothing, _) => run_of_form(alloc, core, steps),
        (Known::ButLast | Known::Plain, _) => run_at_edge(alloc, core, steps),
    }
}

/// An equation that was found, with a run of its core.
fn with_run<L: Ledger>(
    alloc: Global,
    core: &Core,
    known: Known,
    steps: &mut Steps<L>,
    equation: Equation,
) -> Result<FoundRun, AllocError>
    requires { IsWellFormed core.now }
    ensures equation { IfOk result (λ found. found.equation ≡ equation) }
    ensures run { IfOk result
        (λ found. AreToldInTurn (λ c e. is_instance_at c e ≡ true) core.now found.run.items) }
    ensures below { (n : ℕ) → CoreBelow n core.now
        → IfOk result (λ found. EquationsBelow n found.run.items) }
    ensures steps { steps.new ≡ steps.old + 1 }
{
    let run = run_by(alloc, core, known, equation.rule, steps)?;
    Ok(FoundRun { equation, run })
}

/// An instance of the rule Table at a core of which no other rule states an equation. There is no run behind it.
fn by_table<L: Ledger>(
    alloc: Global,
    core: &Core,
    steps: &mut Steps<L>,
) -> Result<Option<FoundRun>, AllocError>
    requires well_formed { IsWellFormed core.now }
    requires none { (e : Equation) → is_stated core.now e ≡ true → ⊥ }
    ensures some { IfOk result
        (λ found. IfSome found (λ first. is_instance_at core.now first.equation ≡ true)) }
    ensures run { IfOk result (λ found. IfSome found
        (λ first. AreToldInTurn (λ c e. is_instance_at c e ≡ true) core.now first.run.items)) }
    ensures below { (n : ℕ) → CoreBelow n core.now
        → IfOk result (λ found. IfSome found (λ first. EquationsBelow n first.run.items)) }
    ensures none { IfOk result (λ found. IfNone found ((e : Equation) → is_instance_at core.now e ≡ true → ⊥)) }
    ensures steps { steps.new ≡ steps.old + 1 }
{
    match table_rules::find(alloc, core, steps)? {
        Some(equation) => Ok(Some(FoundRun {
            equation,
            run: Vec::new(alloc),
        })),
        None => Ok(None),
    }
}

/// An instance of any rule at a core, by the rules Order, Form and Table in this order; and any run that all rules
/// tell in turn, where the instance was found by one of the first two that of `equation_runs`. `None` exactly where
/// there is no instance. What is known of the core spares looks at its order, and at members that can tell nothing. It
/// counts one step for each of the crates of rules that it asks, and one for the run: three at most.
pub(crate) fn find<L: Ledger>(
    alloc: Global,
    core: &Core,
    known: Known,
    steps: &mut Steps<L>,
) -> Result<Option<FoundRun>, AllocError>
    requires well_formed { IsWellFormed core.now }
    requires known { IsKnown known core.now }
    ensures some { IfOk result
        (λ found. IfSome found (λ first. is_instance_at core.now first.equation ≡ true)) }
    ensures run { IfOk result (λ found. IfSome found
        (λ first. AreToldInTurn (λ c e. is_instance_at c e ≡ true) core.now first.run.items)) }
    ensures below { (n : ℕ) → CoreBelow n core.now
        → IfOk result (λ found. IfSome found (λ first. EquationsBelow n first.run.items)) }
    ensures none { IfOk result (λ found. IfNone found ((e : Equation) → is_instance_at core.now e ≡ true → ⊥)) }
    ensures least { steps.old + 1 ≤ steps.new }
    ensures most { steps.new ≤ steps.old + 3 }
{
    match by_order_or_form(alloc, core, known, steps)? {
        Some(equation) => {
            let found = with_run(alloc, core, known, steps, equation)?;
            Ok(Some(found))
        }
        None => by_table(alloc, core, steps),
    }
}
