//! Laws of what stands in a core and of lists of cores, for proofs of crates above. Each function does
//! nothing; its contract is the law.

ghost use Rattle.std.specs.Prelude.{◌≡◌, ◌↔◌, ℕ, ◌+◌, ◌≤◌, ◌&&◌, ℤ, ◌+ℤ◌, List};
ghost use Rattle.std.specs.Prelude.{◌++◌, ◌⊎◌, Contains, IsTrue};
ghost use Rattle.order_ints.specs.declared.order_int.OrdInt.{OrdInt};
ghost use Rattle.order_ints.specs.Truth.{Valuation, Agree};
ghost use Rattle.core_forms.specs.declared.form.Core.{Core};
ghost use Rattle.core_forms.specs.Contents.{ints_of, atoms_of};
ghost use Rattle.core_forms.specs.Values.{all_ordered, values, total};
ghost use Rattle.core_forms.specs.Meaning.{Meets};
ghost use Rattle.core_forms.specs.Place.{IntsBelow};
ghost use Rattle.core_forms.specs.WellFormed.{AreSound, abs_total, IsWellFormed};
ghost use Rattle.core_forms.specs.Variables.{atoms_vars, ints_vars, core_vars};
ghost use Rattle.core_forms.specs.Cores.{cores_truth, CoresBelow, AreWellFormed, costs_of};

/// A core that is met has all of its integers ordered; those of a well formed core are sound; and the
/// variables of a core are those of its atoms and of its integers.
pub fn contents_law()
    ensures ordered { (σ : Valuation) (core : Core) → Meets σ core → IsTrue (all_ordered σ (ints_of core)) }
    ensures sound { (core : Core) → IsWellFormed core → AreSound (ints_of core) }
    ensures vars { (core : Core) (v : ℕ) → Contains (core_vars core) v
        ↔ (Contains (atoms_vars (atoms_of core)) v ⊎ Contains (ints_vars (ints_of core)) v) }
{}

/// Of integers of which some stand behind others: where their variables are, whether they are sound and
/// ordered, their values, and their absolute values added up.
pub fn ints_law()
    ensures below { (n : ℕ) (xs ys : List OrdInt)
        → IntsBelow n (xs ++ ys) ↔ (IntsBelow n xs × IntsBelow n ys) }
    ensures sound { (xs ys : List OrdInt) → AreSound (xs ++ ys) ↔ (AreSound xs × AreSound ys) }
    ensures ordered { (σ : Valuation) (xs ys : List OrdInt)
        → all_ordered σ (xs ++ ys) ≡ (all_ordered σ xs && all_ordered σ ys) }
    ensures values { (σ : Valuation) (xs ys : List OrdInt) → values σ (xs ++ ys) ≡ values σ xs ++ values σ ys }
    ensures total { (vs ws : List ℤ) → total (vs ++ ws) ≡ total vs +ℤ total ws }
    ensures abs { (xs ys : List OrdInt) → abs_total (xs ++ ys) ≡ abs_total xs + abs_total ys }
{}

/// Of cores of which some stand behind others: whether all are met, which depends on their variables
/// alone, where these are, whether they are well formed, and what they cost.
pub fn cores_law()
    ensures met { (σ : Valuation) (cs ds : List Core)
        → cores_truth σ (cs ++ ds) ≡ (cores_truth σ cs && cores_truth σ ds) }
    ensures agree { (n : ℕ) (σ τ : Valuation) (cs : List Core)
        → CoresBelow n cs → Agree n σ τ → cores_truth σ cs ≡ cores_truth τ cs }
    ensures below { (n : ℕ) (cs ds : List Core)
        → CoresBelow n (cs ++ ds) ↔ (CoresBelow n cs × CoresBelow n ds) }
    ensures more { (n m : ℕ) (cs : List Core) → n ≤ m → CoresBelow n cs → CoresBelow m cs }
    ensures well_formed { (cs ds : List Core)
        → AreWellFormed (cs ++ ds) ↔ (AreWellFormed cs × AreWellFormed ds) }
    ensures costs { (cs ds : List Core) → costs_of (cs ++ ds) ≡ costs_of cs + costs_of ds }
{}
