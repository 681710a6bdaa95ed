//! Trimming of a core by a view.

mod atoms;
mod forms;
pub(crate) mod ints;
pub(crate) mod stable;

ghost use Rattle.std.specs.Prelude.{◌≡◌, ℕ, IfOk, IsTrue};
ghost use Rattle.order_ints.specs.Truth.{Valuation};
ghost use Rattle.order_ints.specs.Place.{AtomsBelow};
ghost use Rattle.order_ints.specs.OrderRange.{IsBounded};
ghost use Rattle.order_ints.specs.View.{MeetsView};
ghost use Rattle.core_forms.specs.Place.{CoreBelow};
ghost use Rattle.core_forms.specs.WellFormed.{IsWellFormed};
ghost use Rattle.core_forms.specs.Meaning.{core_truth};
ghost use Rattle.core_forms.specs.Stable.{IsStableCore};
ghost use Rattle.core_forms.specs.Trimmed.{trimmed_core, trimmed_int, IsTrimmed};

use crate::form::Core;
use forms::trimmed_form;
use ints::trimmed_int;
use order_ints::{Atom, OrdInt};
use stable::is_stable_form;
use std::alloc::{AllocError, Global};

/// A core trimmed by a view: each atom as the view has it, and what constants say worked in. It takes
/// one pass over the core, and memory once for each list of what it makes.
pub fn trim(alloc: Global, core: &Core, view: &[Atom]) -> Result<Core, AllocError>
    requires { IsWellFormed core.now }
    ensures shape { IfOk result (λ trimmed. trimmed ≡ trimmed_core view.now core.now) }

    // A valuation that meets the view meets what is made exactly where it meets the core.
    ensures meaning { IfOk result (λ trimmed. (n : ℕ) → (σ : Valuation)
        → CoreBelow n core.now → MeetsView σ view.now → core_truth σ trimmed ≡ core_truth σ core.now) }
    ensures well_formed { IfOk result (λ trimmed. IsWellFormed trimmed) }
    ensures trimmed { IfOk result (λ trimmed. IsTrimmed trimmed) }

    // Where the variables of the core and of the view's labels have a place, those of what is made have.
    ensures place { IfOk result (λ trimmed. (n : ℕ)
        → CoreBelow n core.now → AtomsBelow n view.now → CoreBelow n trimmed) }
{
    trimmed_form(alloc, core, view)
}

/// An integer trimmed by a view, as the integers of a core are: it has the same value under each valuation that
/// meets the view. It takes one pass over the steps, and memory once for those that are left.
pub fn trim_int(alloc: Global, a: &OrdInt, view: &[Atom]) -> Result<OrdInt, AllocError>
    requires { IsBounded a.now }
    ensures { IfOk result (λ trimmed. trimmed ≡ trimmed_int view.now a.now) }
{
    trimmed_int(alloc, a, view)
}

/// Whether trimming leaves a core as it is, and the order of its integers tells nothing. It takes one pass over the
/// core, up to the first atom that would change, and no memory. It looks at the forms that may have long lists, and
/// says of no other one that it stays.
pub fn is_stable(core: &Core, view: &[Atom]) -> bool
    ensures { IsTrue result → IsStableCore view.now core.now }
{
    is_stable_form(core, view)
}
