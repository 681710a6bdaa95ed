//! Laws of cores that are stable but for their edge, for proofs of crates above. Each function does nothing; its
//! contract is the law.

ghost use Rattle.std.specs.Prelude.{◌≡◌, ◌<◌, ◌≤◌, ℕ, List};
ghost use Rattle.order_ints.specs.declared.literal.Lit.{Lit};
ghost use Rattle.order_ints.specs.declared.atom.Atom.{Atom};
ghost use Rattle.order_ints.specs.declared.atom.Atom.TheVariants.{Of};
ghost use Rattle.order_ints.specs.Label.{with_own_labels};
ghost use Rattle.order_ints.specs.Place.{AtomsBelow};
ghost use Rattle.order_ints.specs.View.{resolve};
ghost use Rattle.core_forms.specs.declared.edges.Edge.{Edge};
ghost use Rattle.core_forms.specs.declared.edges.Known.TheVariants.{ButLast, Plain};
ghost use Rattle.core_forms.specs.declared.form.Core.{Core};
ghost use Rattle.core_forms.specs.Edges.{settled_core, restored, IsStableInside, InsideBelow, IsKnown};
ghost use Rattle.core_forms.specs.Place.{CoreBelow};
ghost use Rattle.core_forms.specs.Stable.{IsStableCore};
ghost use Rattle.core_forms.specs.Trimmed.{trimmed_core};
ghost use Rattle.core_forms.specs.WellFormed.{IsWellFormed};

/// To settle the edge of a core that is stable inside is to trim it; so the core is still well formed, and its
/// variables have a place. Where it is plain besides, and the labels of the view label themselves, it is stable.
pub fn settled_law()
    ensures settled { (view : List Atom) (core : Core)
        → IsStableInside view core → settled_core view core ≡ trimmed_core view core }
    ensures well_formed { (view : List Atom) (core : Core)
        → IsStableInside view core → IsWellFormed core → IsWellFormed (settled_core view core) }
    ensures below { (view : List Atom) (core : Core)
        → IsStableInside view core → (n : ℕ) → CoreBelow n core → AtomsBelow n view
        → CoreBelow n (settled_core view core) }
    ensures whole { (view : List Atom) (core : Core)
        → ((a : Atom) → resolve view (resolve view a) ≡ resolve view a)
        → IsStableInside view core → IsKnown Plain (settled_core view core)
        → IsStableCore view (settled_core view core) }
{}

/// What is no edge of a core stays as it is where the edge is settled, or put back.
pub fn inside_law()
    ensures settled_stable { (view : List Atom) (core : Core)
        → IsStableInside view core → IsStableInside view (settled_core view core) }
    ensures settled_below { (view : List Atom) (n : ℕ) (core : Core)
        → InsideBelow n core → InsideBelow n (settled_core view core) }
    ensures restored_stable { (view : List Atom) (edge : Edge) (core : Core)
        → IsStableInside view core → IsStableInside view (restored edge core) }
    ensures restored_below { (edge : Edge) (n : ℕ) (core : Core)
        → InsideBelow n core → InsideBelow n (restored edge core) }
{}

/// A core that is stable inside is plain but for its edge, and stays stable inside when further variables come, also
/// where it has some of these, and in each view in which those of its variables there that label themselves still do.
/// A core that is stable, or has its variables below a bound, is so inside.
pub fn stable_inside_law()
    ensures plain { (view : List Atom) (core : Core) → IsStableInside view core → IsKnown ButLast core }
    ensures further { (view : List Atom) (count n : ℕ) (core : Core)
        → CoreBelow n core → IsStableInside view core → IsStableInside (with_own_labels view count) core }
    ensures kept { (view next : List Atom) (n : ℕ)
        → ((l : Lit) → 1 ≤ l.var → l.var < n → resolve view (Of l) ≡ Of l → resolve next (Of l) ≡ Of l)
        → (core : Core) → IsStableInside view core → InsideBelow n core → IsStableInside next core }
    ensures stable { (view : List Atom) (core : Core) → IsStableCore view core → IsStableInside view core }
    ensures below { (n : ℕ) (core : Core) → CoreBelow n core → InsideBelow n core }
    ensures more { (n m : ℕ) (core : Core) → n ≤ m → InsideBelow n core → InsideBelow m core }
{}
