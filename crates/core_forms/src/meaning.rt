//! The meaning of a core under truth values of its variables.

mod atoms;
mod lists;
mod numbers;
mod sums;

ghost use Rattle.std.specs.Prelude.{◌≡◌, map};
ghost use Rattle.order_ints.specs.Truth.{Valuation, valuation_at};
ghost use Rattle.core_forms.specs.WellFormed.{IsWellFormed};
ghost use Rattle.core_forms.specs.Variables.{core_vars, AreAmong};
ghost use Rattle.core_forms.specs.Meaning.{core_truth};

use crate::form::Core;
use atoms::{are_all, are_compared, are_few, has_parity, is_some_true};
use lists::{are_apart, are_in_order, is_top};
use numbers::{is_equal, is_less, is_quotient};
use order_ints::{TruthRow, TruthValues};
use sums::{is_count, is_product, is_sum, is_total};

/// Whether truth values meet a core. It takes no memory, and two passes over each integer, for its order and for its
/// value; of an `AllDiff` one over what stands behind each true condition.
pub fn holds<T: TruthValues>(core: &Core, sigma: T) -> bool
    requires well_formed { IsWellFormed core.now }
    ensures { result ≡ core_truth (T.valuation sigma) core.now }
{
    match core {
        Core::Ladder(a) => a.get().is_ordered(sigma),
        Core::Clause(atoms) => is_some_true(atoms.as_slice(), sigma),
        Core::Parity(atoms, odd) => has_parity(atoms.as_slice(), *odd, sigma),
        Core::Conj(r, atoms) => are_all(*r, atoms.as_slice(), sigma),
        Core::Comp(a, b, hi, lo) => are_compared(*a, *b, *hi, *lo.get(), sigma),
        Core::LeqR(r, a, b) => is_less(*r, a.get(), b.get(), sigma),
        Core::EqR(r, a, b) => is_equal(*r, a.get(), b.get(), sigma),
        Core::Sum3(a, b, c) => is_sum(a.get(), b.get(), c.get(), sigma),
        Core::Count(atoms, c) => is_count(atoms.as_slice(), c.get(), sigma),
        Core::Sum(ints, k) => is_total(ints.as_slice(), *k.get(), sigma),
        Core::Max(ints, c) => is_top(ints.as_slice(), c.get(), sigma),
        Core::AllDiff(ints, conditions) => {
            are_apart(ints.as_slice(), conditions.get().as_slice(), sigma)
        }
        Core::Amo(atoms) => are_few(atoms.as_slice(), sigma),
        Core::Prod(a, b, c) => is_product(a.get(), b.get(), c.get(), sigma),
        Core::DivMod(a, b, q, r) => is_quotient(a.get(), b.get(), q.get(), r.get(), sigma),
        Core::Lex(r, strict, front, back) => {
            are_in_order(
                *r,
                *strict,
                front.get().as_slice(),
                back.get().as_slice(),
                sigma,
            )
        }
    }
}

/// Whether truth values of listed variables meet a core, each at the place of its variable. It takes no
/// memory, and the time of `holds` with a scan of the list for each literal.
pub fn holds_in_row(core: &Core, vars: &[u32], values: &[bool]) -> bool
    requires { IsWellFormed core.now }
    ensures shape { result ≡ core_truth (valuation_at vars.now values.now) core.now }

    // Where the core has no other variables, that is what each valuation with these values says.
    ensures meaning { (σ : Valuation)
        → AreAmong (core_vars core.now) vars.now → map σ vars.now ≡ values.now
        → result ≡ core_truth σ core.now }
{
    holds(core, TruthRow { vars, values })
}
