//! Laws of parts, for proofs of crates above. Each function does nothing; its contract is the law.

ghost use Rattle.std.specs.Prelude.{ℕ, ◌≤◌};
ghost use Rattle.core_forms.specs.declared.form.Core.{Core};
ghost use Rattle.core_forms.specs.Place.{CoreBelow};
ghost use Rattle.core_forms.specs.WellFormed.{IsWellFormed};
ghost use Rattle.part_base.specs.PartsFor.{ArePartsFor};
ghost use Rattle.decompose.specs.PartsOf.{HasParts, parts_of};

/// The parts of a core stand for it, fit, and cost no more than it.
pub fn parts_law()
    ensures { (core : Core) (next : ℕ) → HasParts core → 1 ≤ next → IsWellFormed core → CoreBelow next core
        → ArePartsFor core next (parts_of core next) }
{}
