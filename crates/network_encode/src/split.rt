//! Splitting a core into its parts.

ghost use Rattle.std.specs.Prelude.{◌≡◌, ◌+◌, ◌≤◌, ◌^◌, false, IfOk};
ghost use Rattle.core_forms.specs.Place.{CoreBelow};
ghost use Rattle.core_forms.specs.WellFormed.{IsWellFormed};
ghost use Rattle.core_forms.specs.Taken.{taken_apart};
ghost use Rattle.core_forms.specs.Basic.{is_basic_of};
ghost use Rattle.part_base.specs.PartsFor.{ArePartsFor};
ghost use Rattle.network_encode.specs.NetworkParts.{parts_of, IsSplit, cost_by_parts, StandFor};
ghost use Rattle.network_encode.specs.TakenParts.{core_of};

use crate::counts::{of_count, of_lent_count};
use crate::members::{of_amo, of_parity};
use crate::merges::{of_lent_sum, of_sum};
use core_forms::{Core, Taken};
use part_base::{Parts, no_parts};
use std::alloc::{AllocError, Global};

/// The parts of a core, form by form.
fn form_parts(alloc: Global, core: &Core, next_var: u32) -> Result<Parts, AllocError>
    requires form { IsSplit core.now }
    requires well_formed { IsWellFormed core.now }
    requires least { 1 ≤ next_var }
    requires room { next_var + cost_by_parts core.now ≤ 2 ^ 27 }
    ensures { IfOk result (λ p. p ≡ parts_of next_var core.now) }
{
    match core {
        Core::Parity(atoms, odd) => of_parity(alloc, atoms.as_slice(), *odd, next_var),
        Core::Amo(atoms) => of_amo(alloc, atoms.as_slice(), next_var),
        Core::Count(atoms, c) => of_lent_count(alloc, atoms.as_slice(), c.get(), next_var),
        Core::Sum3(a, b, c) => of_lent_sum(alloc, a.get(), b.get(), c.get(), next_var),
        _ => Ok(no_parts(alloc)),
    }
}

/// The parts of a core that was taken apart, form by form. They take over its integers.
fn taken_parts(alloc: Global, taken: Taken, next_var: u32) -> Result<Parts, AllocError>
    requires taken { taken ≡ taken_apart (core_of taken) }
    requires form { IsSplit (core_of taken) }
    requires well_formed { IsWellFormed (core_of taken) }
    requires least { 1 ≤ next_var }
    requires room { next_var + cost_by_parts (core_of taken) ≤ 2 ^ 27 }
    ensures { IfOk result (λ p. p ≡ parts_of next_var (core_of taken)) }
{
    match taken {
        Taken::Xor(atoms, odd) => of_parity(alloc, atoms.as_slice(), odd, next_var),
        Taken::AtMostOne(atoms) => of_amo(alloc, atoms.as_slice(), next_var),
        Taken::Counted(atoms, c) => of_count(alloc, atoms.as_slice(), c, next_var),
        Taken::Added(a, b, c) => of_sum(alloc, a, b, c, next_var),
        _ => Ok(no_parts(alloc)),
    }
}

/// The parts of a core that is a parity of at least four members, at-most-one of at least five, a count, or
/// a sum of two integers that has a network. Its callers have no other core. The fresh variables are
/// `next_var` and those after it. The time and the memory that it takes are linear in the parts.
pub fn parts(alloc: Global, core: &Core, next_var: u32) -> Result<Parts, AllocError>
    requires form { IsSplit core.now }
    requires well_formed { IsWellFormed core.now }
    requires least { 1 ≤ next_var }
    requires below { CoreBelow next_var core.now }
    requires room { next_var + cost_by_parts core.now ≤ 2 ^ 27 }
    ensures shape { IfOk result (λ p. p ≡ parts_of next_var core.now) }

    // They stand for the core, and fit.
    ensures stand { IfOk result (λ p. StandFor core.now next_var p) }

    // Those of a compound core cost no more than it.
    ensures parts { is_basic_of core.now ≡ false → IfOk result (λ p. ArePartsFor core.now next_var p) }
{
    form_parts(alloc, core, next_var)
}

/// The parts of a core, as `parts` makes them, which take over the core's integers.
pub fn parts_from(alloc: Global, core: Core, next_var: u32) -> Result<Parts, AllocError>
    requires form { IsSplit core }
    requires well_formed { IsWellFormed core }
    requires least { 1 ≤ next_var }
    requires below { CoreBelow next_var core }
    requires room { next_var + cost_by_parts core ≤ 2 ^ 27 }
    ensures shape { IfOk result (λ p. p ≡ parts_of next_var core) }

    // They stand for the core, and fit.
    ensures stand { IfOk result (λ p. StandFor core next_var p) }

    // Those of a compound core cost no more than it.
    ensures parts { is_basic_of core ≡ false → IfOk result (λ p. ArePartsFor core next_var p) }
{
    taken_parts(alloc, core.take_apart(), next_var)
}
