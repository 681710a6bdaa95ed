//! Laws of the clauses of cores, for proofs of crates above. Each function does nothing; its contract
//! is the law.

ghost use Rattle.std.specs.Prelude.{◌≡◌, ℕ, ◌≤◌, IsTrue};
ghost use Rattle.order_ints.specs.Truth.{Valuation};
ghost use Rattle.order_ints.specs.AtomClauses.{atom_clauses_truth};
ghost use Rattle.order_ints.specs.Place.{AtomClausesBelow};
ghost use Rattle.core_forms.specs.declared.form.Core.{Core};
ghost use Rattle.core_forms.specs.Place.{CoreBelow};
ghost use Rattle.core_forms.specs.WellFormed.{IsWellFormed};
ghost use Rattle.core_forms.specs.Meaning.{core_truth};
ghost use Rattle.core_forms.specs.Basic.{is_basic_of};
ghost use Rattle.core_forms.specs.Cost.{cost_of};
ghost use Rattle.direct_encode.specs.Literals.{literals};
ghost use Rattle.direct_encode.specs.Clauses.{clauses_of};

/// A valuation makes the clauses of a well formed basic core true together exactly where it meets the core.
pub fn meaning_law()
    ensures { (σ : Valuation) (core : Core)
        → IsTrue (is_basic_of core) → IsWellFormed core
        → atom_clauses_truth σ (clauses_of core) ≡ core_truth σ core }
{}

/// The clauses of a well formed basic core have at most as many literals as it costs.
pub fn size_law()
    ensures { (core : Core)
        → IsTrue (is_basic_of core) → IsWellFormed core → literals (clauses_of core) ≤ cost_of core }
{}

/// Below which bound the variables of a core are, those of its clauses are.
pub fn below_law()
    ensures { (n : ℕ) (core : Core) → CoreBelow n core → AtomClausesBelow n (clauses_of core) }
{}
