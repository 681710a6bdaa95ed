//! Trimming, form by form.

ghost use Rattle.std.specs.Prelude.{◌≡◌, IfOk};
ghost use Rattle.order_ints.specs.View.{resolve};
ghost use Rattle.core_forms.specs.WellFormed.{IsSound, IsWellFormed};
ghost use Rattle.core_forms.specs.Resolved.{map_int};
ghost use Rattle.core_forms.specs.Trimmed.{tidied_int, trimmed_core};

use super::atoms::{
    only_literals, resolved, trimmed_clause, trimmed_members, turns, without_false,
};
use super::ints::{lowered, trimmed_int, trimmed_ints};
use crate::form::Core;
use order_ints::{Atom, OrdInt, resolve};
use std::alloc::{AllocError, Global};

/// Two integers, trimmed.
fn trimmed_two(
    alloc: Global,
    a: &OrdInt,
    b: &OrdInt,
    view: &[Atom],
) -> Result<(OrdInt, OrdInt), AllocError>
    requires a { IsSound a.now }
    requires b { IsSound b.now }
    ensures a { IfOk result (λ t. t.0 ≡ tidied_int (map_int (resolve view.now) a.now)) }
    ensures b { IfOk result (λ t. t.1 ≡ tidied_int (map_int (resolve view.now) b.now)) }
{
    Ok((trimmed_int(alloc, a, view)?, trimmed_int(alloc, b, view)?))
}

/// Three integers, trimmed.
fn trimmed_three(
    alloc: Global,
    a: &OrdInt,
    b: &OrdInt,
    c: &OrdInt,
    view: &[Atom],
) -> Result<(OrdInt, OrdInt, OrdInt), AllocError>
    requires a { IsSound a.now }
    requires b { IsSound b.now }
    requires c { IsSound c.now }
    ensures a { IfOk result (λ t. t.0 ≡ tidied_int (map_int (resolve view.now) a.now)) }
    ensures b { IfOk result (λ t. t.1 ≡ tidied_int (map_int (resolve view.now) b.now)) }
    ensures c { IfOk result (λ t. t.2 ≡ tidied_int (map_int (resolve view.now) c.now)) }
{
    Ok((
        trimmed_int(alloc, a, view)?,
        trimmed_int(alloc, b, view)?,
        trimmed_int(alloc, c, view)?,
    ))
}

/// A core trimmed by a view, form by form.
pub(super) fn trimmed_form(alloc: Global, core: &Core, view: &[Atom]) -> Result<Core, AllocError>
    requires { IsWellFormed core.now }
    ensures { IfOk result (λ trimmed. trimmed ≡ trimmed_core view.now core.now) }
{
    match core {
        Core::Ladder(a) => Core::ladder(alloc, trimmed_int(alloc, a.get(), view)?),
        Core::Clause(atoms) => Ok(Core::Clause(trimmed_clause(alloc, atoms.as_slice(), view)?)),
        Core::Parity(atoms, odd) => {
            let (literals, trues) = only_literals(alloc, atoms.as_slice(), view)?;
            Ok(Core::Parity(literals, turns(trues, *odd)))
        }
        Core::Conj(r, atoms) => Ok(Core::Conj(
            resolve(view, *r),
            trimmed_members(alloc, atoms.as_slice(), view)?,
        )),
        Core::Comp(a, b, hi, lo) => Core::comp(
            alloc,
            resolve(view, *a),
            resolve(view, *b),
            resolve(view, *hi),
            resolve(view, *lo.get()),
        ),
        Core::LeqR(r, a, b) => {
            let (a, b) = trimmed_two(alloc, a.get(), b.get(), view)?;
            Core::leq_r(alloc, resolve(view, *r), a, b)
        }
        Core::EqR(r, a, b) => {
            let (a, b) = trimmed_two(alloc, a.get(), b.get(), view)?;
            Core::eq_r(alloc, resolve(view, *r), a, b)
        }
        Core::Sum3(a, b, c) => {
            let (a, b, c) = trimmed_three(alloc, a.get(), b.get(), c.get(), view)?;
            Core::sum3(alloc, a, b, c)
        }
        Core::Count(atoms, c) => {
            let (literals, trues) = only_literals(alloc, atoms.as_slice(), view)?;
            let c = lowered(trimmed_int(alloc, c.get(), view)?, trues);
            Core::count(alloc, literals, c)
        }
        Core::Sum(ints, k) => {
            let ints = trimmed_ints(alloc, ints.as_slice(), view)?;
            Core::sum(alloc, ints, *k.get())
        }
        Core::Max(ints, c) => {
            let ints = trimmed_ints(alloc, ints.as_slice(), view)?;
            Core::max(alloc, ints, trimmed_int(alloc, c.get(), view)?)
        }
        Core::AllDiff(ints, conditions) => {
            let ints = trimmed_ints(alloc, ints.as_slice(), view)?;
            let conditions = resolved(alloc, conditions.get().as_slice(), view)?;
            Core::all_diff(alloc, ints, conditions)
        }
        Core::Amo(atoms) => Ok(Core::Amo(without_false(alloc, atoms.as_slice(), view)?)),
        Core::Prod(a, b, c) => {
            let (a, b, c) = trimmed_three(alloc, a.get(), b.get(), c.get(), view)?;
            Core::prod(alloc, a, b, c)
        }
        Core::DivMod(a, b, q, r) => {
            let a = trimmed_int(alloc, a.get(), view)?;
            let (b, q, r) = trimmed_three(alloc, b.get(), q.get(), r.get(), view)?;
            Core::div_mod(alloc, a, b, q, r)
        }
        Core::Lex(r, strict, front, back) => {
            let front = trimmed_ints(alloc, front.get().as_slice(), view)?;
            let back = trimmed_ints(alloc, back.get().as_slice(), view)?;
            Core::lex(alloc, resolve(view, *r), *strict, front, back)
        }
    }
}
