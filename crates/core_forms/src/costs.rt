//! What a core costs.

ghost use Rattle.std.specs.Prelude.{◌≡◌, ◌^◌, ◌<◌, IfOk, length};
ghost use Rattle.core_cost.specs.Relations.{FitsInMemory};
ghost use Rattle.core_cost.specs.Saturated.{saturated};
ghost use Rattle.core_cost.specs.Sums.{cost_of_sum};
ghost use Rattle.core_forms.specs.WellFormed.{AreSound, abs_total, IsWellFormed};
ghost use Rattle.core_forms.specs.Shapes.{shapes_of};
ghost use Rattle.core_forms.specs.Cost.{cost_of, HasListsInMemory};

use crate::form::Core;
use crate::shapes::{members, shape, shapes, step_numbers, step_pairs, steps};
use core_cost::{
    all_diff_cost, amo_cost, clause_cost, comp_cost, conj_cost, count_cost, div_mod_cost, eq_cost,
    ladder_cost, leq_cost, lex_cost, max_cost, parity_cost, prod_cost, sum_cost, sum3_cost,
};
use order_ints::OrdInt;
use std::alloc::{AllocError, Global};

/// The cost of a sum of members.
fn members_cost(alloc: Global, ints: &[OrdInt]) -> Result<u128, AllocError>
    requires sound { AreSound ints.now }
    requires limit { abs_total ints.now < 2 ^ 100 }
    ensures cost { IfOk result (λ cost. cost ≡ saturated (cost_of_sum (shapes_of ints.now))) }
    ensures fits { FitsInMemory (length ints.now) }
{
    sum_cost(shapes(alloc, ints)?)
}

/// The cost of a core, form by form.
fn form_cost(alloc: Global, core: &Core) -> Result<u128, AllocError>
    requires { IsWellFormed core.now }
    ensures cost { IfOk result (λ cost. cost ≡ saturated (cost_of core.now)) }
    ensures fits { IfOk result (λ cost. HasListsInMemory core.now) }
{
    match core {
        Core::Ladder(a) => Ok(ladder_cost(steps(a.get()))),
        Core::Clause(atoms) => Ok(clause_cost(members(atoms.as_slice()))),
        Core::Parity(atoms, _) => Ok(parity_cost(members(atoms.as_slice()))),
        Core::Conj(_, atoms) => Ok(conj_cost(members(atoms.as_slice()))),
        Core::Comp(_, _, _, _) => Ok(comp_cost()),
        Core::LeqR(_, a, b) => Ok(leq_cost(steps(a.get()), steps(b.get()))),
        Core::EqR(_, a, b) => Ok(eq_cost(steps(a.get()), steps(b.get()))),
        Core::Sum3(a, b, c) => Ok(sum3_cost(shape(a.get()), shape(b.get()), steps(c.get()))),
        Core::Count(atoms, c) => Ok(count_cost(members(atoms.as_slice()), steps(c.get()))),
        Core::Sum(ints, _) => members_cost(alloc, ints.as_slice()),
        Core::Max(ints, c) => {
            let numbers = step_numbers(alloc, ints.as_slice())?;
            Ok(max_cost(numbers.as_slice(), steps(c.get())))
        }
        Core::AllDiff(ints, _) => {
            let numbers = step_numbers(alloc, ints.as_slice())?;
            Ok(all_diff_cost(numbers.as_slice()))
        }
        Core::Amo(atoms) => Ok(amo_cost(members(atoms.as_slice()))),
        Core::Prod(a, b, c) => Ok(prod_cost(steps(a.get()), steps(b.get()), steps(c.get()))),
        Core::DivMod(a, b, q, r) => Ok(div_mod_cost(
            steps(a.get()),
            steps(b.get()),
            steps(q.get()),
            steps(r.get()),
        )),
        Core::Lex(_, _, front, back) => {
            let pairs = step_pairs(alloc, front.get().as_slice(), back.get().as_slice())?;
            Ok(lex_cost(pairs.as_slice()))
        }
    }
}

/// The cost of a core: its fresh variables and the literals of its clauses. It takes one pass over the
/// core, a few hundred operations for each sum of two integers, and memory once, for the shapes of the
/// members of a list. It fits 128 bits whatever core is in memory.
pub fn cost(alloc: Global, core: &Core) -> Result<u128, AllocError>
    requires { IsWellFormed core.now }
    ensures { IfOk result (λ cost. cost ≡ cost_of core.now) }
{
    form_cost(alloc, core)
}
