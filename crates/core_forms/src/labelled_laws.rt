//! Laws of cores trimmed by views whose labels label themselves, one view after another, for proofs of
//! crates above. Each function does nothing; its contract is the law.

ghost use Rattle.std.specs.Prelude.{◌≡◌, ◌↔◌, ℕ, ◌+◌, List, length, Contains};
ghost use Rattle.order_ints.specs.declared.atom.Atom.{Atom};
ghost use Rattle.order_ints.specs.View.{resolve};
ghost use Rattle.order_ints.specs.Label.{IsOwnLabel, IsLabel, IsLabelled, IsLater};
ghost use Rattle.core_forms.specs.declared.form.Core.{Core};
ghost use Rattle.core_forms.specs.Place.{CoreBelow};
ghost use Rattle.core_forms.specs.Each.{EachAtom};
ghost use Rattle.core_forms.specs.Variables.{atom_vars, core_vars};
ghost use Rattle.core_forms.specs.Trimmed.{trimmed_core, composed_view};

/// The atoms of a core trimmed by a view whose labels label themselves resolve to themselves, and so does
/// each atom over its variables, which are their own labels. Where the core's variables are those of the
/// view, the atoms are labels.
pub fn labelled_law()
    ensures atoms { (view : List Atom) (core : Core)
        → IsLabelled view → EachAtom (λ a. resolve view a ≡ a) (trimmed_core view core) }
    ensures over_vars { (view : List Atom) (core : Core) (a : Atom)
        → IsLabelled view
        → ((v : ℕ) → Contains (atom_vars a) v → Contains (core_vars (trimmed_core view core)) v)
        → resolve view a ≡ a }
    ensures vars { (view : List Atom) (core : Core) (v : ℕ)
        → IsLabelled view → Contains (core_vars (trimmed_core view core)) v → IsOwnLabel view v }
    ensures labels { (view : List Atom) (core : Core)
        → IsLabelled view → CoreBelow (length view + 1) core
        → EachAtom (IsLabel view) (trimmed_core view core) }
{}

/// Trimming by a view and then by a later one, as after a merge, is trimming by the later one. Of two
/// views of one length the second is later where it is what composing the two gives.
pub fn later_trim_law()
    ensures trimmed { (n : ℕ) (old new : List Atom) (core : Core)
        → IsLater old new → CoreBelow n core
        → trimmed_core new (trimmed_core old core) ≡ trimmed_core new core }
    ensures composed { (old new : List Atom)
        → length old ≡ length new → IsLater old new ↔ (composed_view old new ≡ new) }
{}
