//! Laws of the forms, for proofs of crates above. Each function does nothing; its contract is the law.

ghost use Rattle.std.specs.Prelude.{◌≡◌, ◌↔◌, ℕ, ◌+◌, ◌≤◌, ◌<◌, ◌*◌, ◌^◌, ℤ};
ghost use Rattle.std.specs.Prelude.{unsigned_abs, List, length, map, Contains};
ghost use Rattle.std.specs.List.Sorted.{IsStrictlyIncreasing};
ghost use Rattle.order_ints.specs.declared.atom.Atom.{Atom};
ghost use Rattle.order_ints.specs.Truth.{Valuation, valuation_at, Agree};
ghost use Rattle.order_ints.specs.Place.{AtomsBelow};
ghost use Rattle.order_ints.specs.declared.order_int.OrdInt.{OrdInt};
ghost use Rattle.order_ints.specs.OrderLevels.{values_of};
ghost use Rattle.order_ints.specs.View.{MeetsView};
ghost use Rattle.order_ints.specs.Label.{IsLabelled};
ghost use Rattle.core_forms.specs.declared.form.Core.{Core};
ghost use Rattle.core_forms.specs.Place.{CoreBelow};
ghost use Rattle.core_forms.specs.Variables.{core_vars, AreAmong, SameOn, IsLabelVar};
ghost use Rattle.core_forms.specs.OwnVars.{own_vars};
ghost use Rattle.core_forms.specs.WellFormed.{greatest_abs, HasSmallProducts, HasSmallDivisions, IsWellFormed};
ghost use Rattle.core_forms.specs.Meaning.{core_truth};
ghost use Rattle.core_forms.specs.Trimmed.{trimmed_core, composed_view, IsTrimmed};

/// A valuation that meets a view meets a core trimmed by it exactly where it meets the core.
pub fn trimming_law()
    ensures { (n : ℕ) (σ : Valuation) (view : List Atom) (core : Core)
        → CoreBelow n core → MeetsView σ view → core_truth σ (trimmed_core view core) ≡ core_truth σ core }
{}

/// The meaning of a core depends on its variables alone.
pub fn dependence_law()
    ensures vars { (σ τ : Valuation) (core : Core)
        → SameOn (core_vars core) σ τ → core_truth σ core ≡ core_truth τ core }
    ensures below { (n : ℕ) (σ τ : Valuation) (core : Core)
        → CoreBelow n core → Agree n σ τ → core_truth σ core ≡ core_truth τ core }
{}

/// A core is as true in a row of truth values as under each valuation with the values of the row, where
/// its variables are among the row's.
pub fn row_law()
    ensures { (σ : Valuation) (core : Core) (vars : List ℕ)
        → AreAmong (core_vars core) vars
        → core_truth σ core ≡ core_truth (valuation_at vars (map σ vars)) core }
{}

/// The own variables of a core are those that occur in it, ascending, each once.
pub fn own_vars_law()
    ensures ascending { (core : Core) → IsStrictlyIncreasing (own_vars core) }
    ensures exact { (core : Core) (v : ℕ) → Contains (own_vars core) v ↔ Contains (core_vars core) v }
{}

/// Trimming twice is trimming once by the composed view, where each variable of the core has a label in
/// the first one. It is idempotent where labels label themselves; and what it gives is trimmed.
pub fn composition_law()
    ensures composed { (first next : List Atom) (core : Core)
        → CoreBelow (length first + 1) core
        → trimmed_core next (trimmed_core first core) ≡ trimmed_core (composed_view first next) core }
    ensures idempotent { (view : List Atom) (core : Core)
        → IsLabelled view
        → trimmed_core view (trimmed_core view core) ≡ trimmed_core view core }
    ensures trimmed { (view : List Atom) (core : Core) → IsTrimmed (trimmed_core view core) }
{}

/// A trimmed core is well formed where the core is.
pub fn form_law()
    ensures { (view : List Atom) (core : Core) → IsWellFormed core → IsWellFormed (trimmed_core view core) }
{}

/// Where the variables of a core and of labels have a place, those of the trimmed core have; and the
/// variables have a place where each one that occurs has.
pub fn place_law()
    ensures trimmed { (n : ℕ) (view : List Atom) (core : Core)
        → CoreBelow n core → AtomsBelow n view → CoreBelow n (trimmed_core view core) }
    ensures vars { (n : ℕ) (core : Core)
        → CoreBelow n core ↔ ((v : ℕ) → Contains (core_vars core) v → (1 ≤ v) × (v < n)) }
    ensures more { (n m : ℕ) (core : Core) → n ≤ m → CoreBelow n core → CoreBelow m core }
{}

/// The variables of a trimmed core are those of labels of the core's variables.
pub fn label_law()
    ensures { (view : List Atom) (core : Core) (w : ℕ)
        → Contains (core_vars (trimmed_core view core)) w → IsLabelVar view (core_vars core) w }
{}

/// Limits on the greatest absolute values make a product or a division well formed.
pub fn limit_law()
    ensures value { (a : OrdInt) (v : ℤ) → Contains (values_of a) v → unsigned_abs v ≤ greatest_abs a }
    ensures products { (a b : OrdInt) → greatest_abs a * greatest_abs b < 2 ^ 100 → HasSmallProducts a b }
    ensures divisions { (b q r : OrdInt)
        → greatest_abs b * greatest_abs q + greatest_abs r < 2 ^ 100 → HasSmallDivisions b q r }
{}
