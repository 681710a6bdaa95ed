//! The clauses of a core, form by form.

ghost use Rattle.std.specs.Prelude.{◌≡◌, ◌++◌, ℕ, ◌≤◌, IfOk, OnOk, IsTrue};
ghost use Rattle.order_ints.specs.Truth.{Valuation};
ghost use Rattle.order_ints.specs.AtomClauses.{atom_clauses_truth};
ghost use Rattle.order_ints.specs.Place.{AtomClausesBelow};
ghost use Rattle.core_forms.specs.Place.{CoreBelow};
ghost use Rattle.core_forms.specs.WellFormed.{IsWellFormed};
ghost use Rattle.core_forms.specs.Meaning.{core_truth};
ghost use Rattle.core_forms.specs.Basic.{is_basic_of};
ghost use Rattle.core_forms.specs.Cost.{cost_of};
ghost use Rattle.direct_encode.specs.Literals.{literals};
ghost use Rattle.direct_encode.specs.Clauses.{clauses_of};

use crate::atom_lists::{push_amo, push_comp, push_conj, push_parity};
use crate::clause::push_clause;
use crate::comparison::{push_differing, push_exceeding, push_reaching};
use crate::divisions::push_div_mod;
use crate::maxima::push_max;
use crate::order::{push_order, push_orders, push_orders_of, push_three_orders};
use crate::products::push_prod;
use crate::sums::push_sum3;
use bee_list::Sequence;
use core_forms::Core;
use order_ints::Atom;
use std::alloc::{AllocError, Global};

/// Puts the clauses of a basic core behind others, form by form.
fn push_clauses(clauses: &mut Vec<Sequence<Atom>>, core: &Core) -> Result<(), AllocError>
    requires basic { IsTrue (is_basic_of core.now) }
    requires well_formed { IsWellFormed core.now }
    ensures { OnOk result (clauses.new.items ≡ clauses.old.items ++ clauses_of core.now) }
{
    match core {
        Core::Ladder(a) => push_order(clauses, a.get()),
        Core::Clause(atoms) => push_clause(clauses, atoms.as_slice()),
        Core::Parity(atoms, odd) => push_parity(clauses, atoms.as_slice(), *odd),
        Core::Conj(r, atoms) => push_conj(clauses, *r, atoms.as_slice()),
        Core::Comp(a, b, hi, lo) => push_comp(clauses, *a, *b, *hi, *lo.get()),
        Core::Amo(atoms) => push_amo(clauses, atoms.as_slice()),
        Core::Max(ints, c) => {
            let (ints, c) = (ints.as_slice(), c.get());
            push_orders_of(clauses, ints)?;
            push_order(clauses, c)?;
            push_max(clauses, ints, c)
        }
        Core::LeqR(r, a, b) => {
            let (a, b) = (a.get(), b.get());
            push_orders(clauses, a, b)?;
            push_reaching(clauses, *r, a, b)?;
            push_exceeding(clauses, *r, a, b)
        }
        Core::EqR(r, a, b) => {
            let (a, b) = (a.get(), b.get());
            push_orders(clauses, a, b)?;
            push_reaching(clauses, *r, a, b)?;
            push_reaching(clauses, *r, b, a)?;
            push_differing(clauses, *r, a, b)
        }
        Core::Sum3(a, b, c) => {
            let (a, b, c) = (a.get(), b.get(), c.get());
            push_three_orders(clauses, a, b, c)?;
            push_sum3(clauses, a, b, c)
        }
        Core::Prod(a, b, c) => {
            let (a, b, c) = (a.get(), b.get(), c.get());
            push_three_orders(clauses, a, b, c)?;
            push_prod(clauses, a, b, c)
        }
        Core::DivMod(a, b, q, r) => {
            let (a, b, q, r) = (a.get(), b.get(), q.get(), r.get());
            push_orders(clauses, a, b)?;
            push_orders(clauses, q, r)?;
            push_div_mod(clauses, a, b, q, r)
        }
        _ => Ok(()),
    }
}

/// The clauses of a core in a basic form: first, for each of its integers, those that say that it is
/// ordered, and then those of the form. It takes time and memory linear in the literals that it writes
/// and in the steps of the integers.
pub fn clauses(alloc: Global, core: &Core) -> Result<Vec<Sequence<Atom>>, AllocError>
    requires basic { IsTrue (is_basic_of core.now) }
    requires well_formed { IsWellFormed core.now }
    ensures shape { IfOk result (λ cs. cs.items ≡ clauses_of core.now) }

    // A valuation makes all clauses true exactly where it meets the core.
    ensures meaning { IfOk result (λ cs. (σ : Valuation)
        → atom_clauses_truth σ cs.items ≡ core_truth σ core.now) }

    // They have at most as many literals as the core costs.
    ensures size { IfOk result (λ cs. literals cs.items ≤ cost_of core.now) }

    // No variable is in them that is not in the core.
    ensures below { IfOk result (λ cs. (n : ℕ) → CoreBelow n core.now → AtomClausesBelow n cs.items) }
{
    let mut clauses = Vec::new(alloc);
    push_clauses(&mut clauses, core)?;
    Ok(clauses)
}
