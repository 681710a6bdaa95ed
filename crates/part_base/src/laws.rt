//! Laws of parts, for proofs of crates above. Each function does nothing; its contract is the law.

ghost use Rattle.std.specs.Prelude.{◌≡◌, ℕ, ◌+◌, ◌≤◌, Bool};
ghost use Rattle.order_ints.specs.Label.{variable};
ghost use Rattle.order_ints.specs.Truth.{Valuation, Agree, atom_truth};
ghost use Rattle.core_forms.specs.declared.form.Core.{Core};
ghost use Rattle.core_forms.specs.Place.{CoreBelow};
ghost use Rattle.core_forms.specs.Meaning.{Meets};
ghost use Rattle.core_forms.specs.Cost.{cost_of};
ghost use Rattle.core_forms.specs.Cores.{MeetsAll, costs_of};
ghost use Rattle.part_base.specs.declared.parts.Parts.{Parts};
ghost use Rattle.part_base.specs.PartsFor.{DoFit, ArePartsFor};
ghost use Rattle.part_base.specs.FreshTruths.{with_fresh};

/// Parts are those of a core where they fit and cost no more, each valuation that meets them meets the
/// core, and each one that meets the core can be changed in the fresh variables so that it meets them.
pub fn parts_law()
    ensures { (core : Core) (next : ℕ) (parts : Parts)
        → CoreBelow next core → DoFit next parts → parts.fresh + costs_of parts.cores ≤ cost_of core
        → ((σ : Valuation) → MeetsAll σ parts.cores → Meets σ core)
        → ((σ : Valuation) → Meets σ core → (τ : Valuation) × Agree next σ τ × MeetsAll τ parts.cores)
        → ArePartsFor core next parts }
{}

/// A valuation with other truth values for fresh variables is as before below them, and a fresh variable
/// has the value that is given.
pub fn fresh_law()
    ensures agree { (next : ℕ) (σ : Valuation) (fresh : ℕ → Bool) → Agree next σ (with_fresh next σ fresh) }
    ensures truth { (next : ℕ) (σ : Valuation) (fresh : ℕ → Bool) (i : ℕ)
        → atom_truth (with_fresh next σ fresh) (variable (next + i)) ≡ fresh i }
{}
