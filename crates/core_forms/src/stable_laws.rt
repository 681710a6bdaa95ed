//! Laws of stable cores, for proofs of crates above. The function does nothing; its contract is the law.

ghost use Rattle.std.specs.Prelude.{◌≡◌, ℕ, List};
ghost use Rattle.order_ints.specs.declared.atom.Atom.{Atom};
ghost use Rattle.order_ints.specs.Label.{with_own_labels};
ghost use Rattle.core_forms.specs.declared.form.Core.{Core};
ghost use Rattle.core_forms.specs.Place.{CoreBelow};
ghost use Rattle.core_forms.specs.Stable.{IsStableCore};
ghost use Rattle.core_forms.specs.Trimmed.{trimmed_core};

/// Trimming leaves a stable core as it is, and it stays stable when further variables come, also
/// where it has some of these.
pub fn stable_law()
    ensures trimmed { (view : List Atom) (core : Core)
        → IsStableCore view core → trimmed_core view core ≡ core }
    ensures further { (view : List Atom) (count n : ℕ) (core : Core)
        → CoreBelow n core → IsStableCore view core → IsStableCore (with_own_labels view count) core }
{}
