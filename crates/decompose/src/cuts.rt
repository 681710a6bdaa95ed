//! Long sums and long orders of words, split at their front.

ghost use Rattle.std.specs.Prelude.{◌≡◌, ◌+◌, ◌^◌, ◌<◌, ◌≤◌, IfOk, IfSome};
ghost use Rattle.core_cost.specs.Sums.{fresh_sum_of, cost_of_sum};
ghost use Rattle.core_forms.specs.Cost.{cost_of};
ghost use Rattle.core_forms.specs.Shapes.{shape_of, shapes_of};
ghost use Rattle.core_forms.specs.WellFormed.{IsSound, AreSound, greatest_abs, abs_total, IsWellFormed};
ghost use Rattle.part_base.specs.Cuts.{IsCut};
ghost use Rattle.decompose.specs.CutsOf.{added_cut, sum_cut, compared_cut, lex_cut, cut_of};
ghost use Rattle.decompose.specs.PartsOf.{parts_of};

use crate::lex::{compared, decided};
use crate::sums::fresh_sum;
use bee_list::Sequence;
use core_forms::Core;
use order_ints::{Atom, OrdInt};
use part_base::{Coming, Cut, fresh_atom};
use std::alloc::{AllocError, Global};

/// How a sum is split whose first two members are these.
fn added_cut(alloc: Global, a: &OrdInt, b: &OrdInt, next_var: u32) -> Result<Cut, AllocError>
    requires a { IsSound a.now }
    requires b { IsSound b.now }
    requires limit { greatest_abs a.now + greatest_abs b.now < 2 ^ 100 }
    requires first { 1 ≤ next_var }
    requires room { next_var + (fresh_sum_of (shape_of a.now) (shape_of b.now)).steps ≤ 2 ^ 27 }
    ensures { IfOk result (λ cut. cut ≡ added_cut next_var a.now b.now) }
{
    let (sum, fresh) = fresh_sum(alloc, a, b, next_var)?;
    let first = Core::sum3(alloc, a.clone()?, b.clone()?, sum.clone()?)?;
    Ok(Cut {
        front: Sequence::from_vec(vec![in alloc; first]?),
        back: Sequence::from_vec(Vec::new(alloc)),
        coming: Coming::Integer(sum),
        head: Atom::True,
        fresh,
    })
}

/// How a sum is split, where it has four members or more.
fn sum_cut(alloc: Global, ints: &[OrdInt], next_var: u32) -> Result<Option<Cut>, AllocError>
    requires sound { AreSound ints.now }
    requires limit { abs_total ints.now < 2 ^ 100 }
    requires first { 1 ≤ next_var }
    requires room { next_var + cost_of_sum (shapes_of ints.now) ≤ 2 ^ 27 }
    ensures { IfOk result (λ made. made ≡ sum_cut next_var ints.now) }
{
    if ints.len() <= 3 {
        return Ok(None);
    }
    let cut = added_cut(alloc, &ints[0], &ints[1], next_var)?;
    Ok(Some(cut))
}

/// How an order of words is split whose first pair is this.
fn compared_cut(
    alloc: Global,
    r: Atom,
    a: &OrdInt,
    b: &OrdInt,
    next_var: u32,
) -> Result<Cut, AllocError>
    requires { next_var + 4 < 2 ^ 32 }
    ensures { IfOk result (λ cut. cut ≡ compared_cut next_var r a.now b.now) }
{
    let front = compared(alloc, a.clone()?, b.clone()?, next_var)?;
    let back = decided(alloc, r, next_var)?;
    Ok(Cut {
        front: Sequence::from_vec(front),
        back: Sequence::from_vec(back),
        coming: Coming::Nothing,
        head: fresh_atom(next_var + 2),
        fresh: 4,
    })
}

/// How an order of words is split, where its first pair is not the last.
fn lex_cut(
    alloc: Global,
    r: Atom,
    front: &[OrdInt],
    back: &[OrdInt],
    next_var: u32,
) -> Result<Option<Cut>, AllocError>
    requires { next_var + 4 < 2 ^ 32 }
    ensures { IfOk result (λ made. made ≡ lex_cut next_var r front.now back.now) }
{
    if front.len() <= 1 || back.is_empty() {
        return Ok(None);
    }
    let cut = compared_cut(alloc, r, &front[0], &back[0], next_var)?;
    Ok(Some(cut))
}

/// How a core is split, form by form.
fn form_cut(alloc: Global, core: &Core, next_var: u32) -> Result<Option<Cut>, AllocError>
    requires well_formed { IsWellFormed core.now }
    requires first { 1 ≤ next_var }
    requires room { next_var + cost_of core.now ≤ 2 ^ 27 }
    ensures { IfOk result (λ made. made ≡ cut_of core.now next_var) }
{
    match core {
        Core::Sum(ints, _) => sum_cut(alloc, ints.as_slice(), next_var),
        Core::Lex(r, _, front, back) => {
            let (front, back) = (front.get().as_slice(), back.get().as_slice());
            lex_cut(alloc, *r, front, back, next_var)
        }
        _ => Ok(None),
    }
}

/// How a core that is a long list is split at its front, where it is one: the parts but for the list itself, which
/// stays, and what comes behind it. They are those that `parts` makes. It takes the time and the memory of what leaves
/// and comes, and not of what stays.
pub fn cut(alloc: Global, core: &Core, next_var: u32) -> Result<Option<Cut>, AllocError>
    requires well_formed { IsWellFormed core.now }
    requires first { 1 ≤ next_var }
    requires room { next_var + cost_of core.now ≤ 2 ^ 27 }
    ensures { IfOk result (λ made. IfSome made (λ cut. IsCut next_var core.now (parts_of core.now next_var) cut)) }
{
    form_cut(alloc, core, next_var)
}
