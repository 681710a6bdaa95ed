//! Laws of the views that trim a core, and of each atom of what they make, for proofs of crates above.
//! Each function does nothing; its contract is the law.

ghost use Rattle.std.specs.Prelude.{◌≡◌, ◌↔◌, ℕ, ◌+◌, ◌≤◌, Bool, List, length, IsTrue};
ghost use Rattle.order_ints.specs.declared.atom.Atom.{Atom};
ghost use Rattle.order_ints.specs.declared.atom.Atom.TheVariants.{True, False};
ghost use Rattle.order_ints.specs.Place.{AtomBelow};
ghost use Rattle.order_ints.specs.View.{resolve};
ghost use Rattle.core_forms.specs.declared.form.Core.{Core};
ghost use Rattle.core_forms.specs.Each.{EachAtom};
ghost use Rattle.core_forms.specs.Place.{CoreBelow};
ghost use Rattle.core_forms.specs.Variables.{core_vars, HaveSameLabels};
ghost use Rattle.core_forms.specs.WellFormed.{IsWellFormed};
ghost use Rattle.core_forms.specs.Trimmed.{trimmed_core, composed_view};
ghost use Rattle.core_forms.specs.Cost.{cost_of};

/// Views that resolve the atoms of a core alike trim it to the same core; so do views that give each
/// variable of it the same label.
pub fn congruence_law()
    ensures atoms { (view next : List Atom) (core : Core)
        → EachAtom (λ a. resolve view a ≡ resolve next a) core
        → trimmed_core view core ≡ trimmed_core next core }
    ensures labels { (view next : List Atom) (core : Core)
        → HaveSameLabels (core_vars core) view next
        → trimmed_core view core ≡ trimmed_core next core }
{}

/// After a further view a core is still well formed, and costs at most what it cost before it; and so it
/// is by the composed view.
pub fn further_law()
    ensures well_formed { (first next : List Atom) (core : Core)
        → IsWellFormed core → IsWellFormed (trimmed_core next (trimmed_core first core)) }
    ensures cost { (first next : List Atom) (core : Core) → IsWellFormed core
        → cost_of (trimmed_core next (trimmed_core first core)) ≤ cost_of (trimmed_core first core) }
    ensures composed { (first next : List Atom) (core : Core)
        → IsWellFormed core → CoreBelow (length first + 1) core
        → cost_of (trimmed_core (composed_view first next) core) ≤ cost_of (trimmed_core first core) }
{}

/// What a test says of the constants and of the labels of a core's atoms it says of each atom of the
/// trimmed core; what it says of each atom, a weaker test says too; and the variables of a core are
/// below n where those of each atom are. The lemmas behind these hold for every predicate.
pub fn each_law()
    ensures trimmed { (test : Atom → Bool) (view : List Atom) (core : Core)
        → IsTrue (test True) → IsTrue (test False) → EachAtom (λ a. IsTrue (test (resolve view a))) core
        → EachAtom (λ a. IsTrue (test a)) (trimmed_core view core) }
    ensures weaker { (test weaker : Atom → Bool) (core : Core)
        → ((a : Atom) → IsTrue (test a) → IsTrue (weaker a))
        → EachAtom (λ a. IsTrue (test a)) core → EachAtom (λ a. IsTrue (weaker a)) core }
    ensures below { (n : ℕ) (core : Core) → CoreBelow n core ↔ EachAtom (AtomBelow n) core }
{}
