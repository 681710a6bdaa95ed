//! What the parts of a core are, for proofs of crates above. The function does nothing; its contract is the law.

ghost use Rattle.std.specs.Prelude.{◌≡◌, ℕ, ◌+◌, ◌<◌, ◌≤◌, ◌^◌, true};
ghost use Rattle.core_forms.specs.declared.form.Core.{Core};
ghost use Rattle.core_forms.specs.Cost.{cost_of};
ghost use Rattle.core_forms.specs.Place.{CoreBelow};
ghost use Rattle.core_forms.specs.WellFormed.{IsWellFormed};
ghost use Rattle.part_base.specs.PartsFor.{ArePartsFor};
ghost use Rattle.core_parts.specs.Parts.{parts_at, is_compound_of};
ghost use Rattle.core_parts.specs.Size.{size_of, sizes_of};

/// The parts of a compound core stand for it, and are together smaller than it: the cost of each, and one and the
/// number of its members where it is a count, a sum, of different members or an order of words. So splitting comes to
/// an end.
pub fn parts_law()
    ensures stand { (core : Core) (next : ℕ) → is_compound_of core ≡ true → 1 ≤ next → IsWellFormed core
        → CoreBelow next core → next + cost_of core ≤ 2 ^ 27 → ArePartsFor core next (parts_at next core) }
    ensures smaller { (core : Core) (next : ℕ) → is_compound_of core ≡ true → 1 ≤ next → IsWellFormed core
        → CoreBelow next core → next + cost_of core ≤ 2 ^ 27
        → sizes_of (parts_at next core).cores < size_of core }
{}
