//! The parts of all compound forms.

ghost use Rattle.std.specs.Prelude.{◌≡◌, ◌+◌, ◌≤◌, ◌^◌, true, IfOk, IfSome};
ghost use Rattle.core_forms.specs.Place.{CoreBelow};
ghost use Rattle.core_forms.specs.WellFormed.{IsWellFormed};
ghost use Rattle.core_forms.specs.Cost.{cost_of};
ghost use Rattle.part_base.specs.Cuts.{IsCut};
ghost use Rattle.core_parts.specs.Parts.{parts_at, is_compound_of};

use core_forms::{Core, is_basic};
use part_base::{Cut, Parts};
use std::alloc::{AllocError, Global};

/// Whether a core is compound.
pub fn is_compound(core: &Core) -> bool
    requires { IsWellFormed core.now }
    ensures { result ≡ is_compound_of core.now }
{
    !is_basic(core)
}

/// The parts of a compound core, which take over its integers, and the lists of a sum, of different members and of an
/// order of words. The fresh variables are those from one on.
pub fn parts(alloc: Global, core: Core, next_var: u32) -> Result<Parts, AllocError>
    requires compound { is_compound_of core ≡ true }
    requires well_formed { IsWellFormed core }
    requires below { CoreBelow next_var core }
    requires first { 1 ≤ next_var }
    requires room { next_var + cost_of core ≤ 2 ^ 27 }
    ensures { IfOk result (λ parts. parts ≡ parts_at next_var core) }
{
    match &core {
        Core::Sum(_, _) | Core::AllDiff(_, _) | Core::Lex(_, _, _, _) => {
            decompose::parts_from(alloc, core, next_var)
        }
        _ => network_encode::parts_from(alloc, core, next_var),
    }
}

/// The parts of a compound core that is kept, with copies of its lists. They are those that `parts` makes.
pub fn kept_parts(alloc: Global, core: &Core, next_var: u32) -> Result<Parts, AllocError>
    requires compound { is_compound_of core.now ≡ true }
    requires well_formed { IsWellFormed core.now }
    requires below { CoreBelow next_var core.now }
    requires first { 1 ≤ next_var }
    requires room { next_var + cost_of core.now ≤ 2 ^ 27 }
    ensures { IfOk result (λ parts. parts ≡ parts_at next_var core.now) }
{
    match core {
        Core::Sum(_, _) | Core::AllDiff(_, _) | Core::Lex(_, _, _, _) => {
            decompose::parts(alloc, core, next_var)
        }
        _ => network_encode::parts(alloc, core, next_var),
    }
}

/// How a compound core that is a long list is split at its front: the parts but for the list itself, which stays, and
/// what comes behind it. They are those that `parts` makes. It takes the time and the memory of what leaves and comes,
/// and not of what stays; `None` is for the other forms, and for short lists.
pub fn cut(alloc: Global, core: &Core, next_var: u32) -> Result<Option<Cut>, AllocError>
    requires compound { is_compound_of core.now ≡ true }
    requires well_formed { IsWellFormed core.now }
    requires below { CoreBelow next_var core.now }
    requires first { 1 ≤ next_var }
    requires room { next_var + cost_of core.now ≤ 2 ^ 27 }
    ensures { IfOk result (λ made. IfSome made (λ cut. IsCut next_var core.now (parts_at next_var core.now) cut)) }
{
    match core {
        Core::Parity(_, _) | Core::Amo(_) => network_encode::cut(alloc, core, next_var),
        Core::Sum(_, _) | Core::Lex(_, _, _, _) => decompose::cut(alloc, core, next_var),
        _ => Ok(None),
    }
}
