//! Laws of instances, for proofs of crates above. Each function does nothing; its contract is the law.

ghost use Rattle.std.specs.Prelude.{◌≡◌, ◌+◌, true, List, length};
ghost use Rattle.order_ints.specs.declared.atom.Atom.{Atom};
ghost use Rattle.order_ints.specs.Label.{IsLabel, IsLabelled};
ghost use Rattle.core_forms.specs.declared.equation.Equation.{Equation};
ghost use Rattle.core_forms.specs.declared.form.Core.{Core};
ghost use Rattle.core_forms.specs.Place.{CoreBelow};
ghost use Rattle.core_forms.specs.WellFormed.{IsWellFormed};
ghost use Rattle.core_forms.specs.Trimmed.{trimmed_core};
ghost use Rattle.rule_base.specs.Found.{IsImplied};
ghost use Rattle.core_rules.specs.Instances.{is_instance_at};

/// An instance is implied by its core where that is well formed, and its two atoms are different. At a core as a store
/// has it they are labels of the store, so that each is resolved.
pub fn instance_law()
    ensures implied { (core : Core) (e : Equation)
        → IsWellFormed core → is_instance_at core e ≡ true → IsImplied core e }
    ensures different { (core : Core) (e : Equation) → is_instance_at core e ≡ true → e.a ≡ e.b → ⊥ }
    ensures labels { (view : List Atom) (core : Core) (e : Equation)
        → IsLabelled view → CoreBelow (length view + 1) core
        → is_instance_at (trimmed_core view core) e ≡ true → IsLabel view e.a × IsLabel view e.b }
{}
