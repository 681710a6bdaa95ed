//! Laws of instances, for proofs of crates above. Each function does nothing; its contract is the law.

ghost use Rattle.std.specs.Prelude.{◌≡◌, ◌↔◌, ℕ, Bool, true, IsTrue};
ghost use Rattle.order_ints.specs.declared.atom.Atom.{Atom};
ghost use Rattle.order_ints.specs.Place.{AtomBelow};
ghost use Rattle.core_forms.specs.declared.equation.Equation.{Equation};
ghost use Rattle.core_forms.specs.declared.form.Core.{Core};
ghost use Rattle.core_forms.specs.Place.{CoreBelow};
ghost use Rattle.core_forms.specs.Each.{EachAtom};
ghost use Rattle.core_forms.specs.WellFormed.{IsWellFormed};
ghost use Rattle.rule_base.specs.Pairs.{IsClosed};
ghost use Rattle.rule_base.specs.Found.{IsImplied};
ghost use Rattle.alldiff_rules.specs.Instances.{IsInstance, is_instance_of};

/// The test over the list of equations says what an instance is, whatever the lengths of members and conditions.
pub fn exact_law()
    ensures { (core : Core) (e : Equation) → is_instance_of core e ≡ true ↔ IsInstance core e }
{}

/// An instance is implied: under each valuation that meets the core its two atoms are equally true.
pub fn implied_law()
    ensures { (core : Core) (e : Equation)
        → IsWellFormed core → IsInstance core e → IsImplied core e }
{}

/// What holds of True and False, of the negation of each atom of which it holds, and of each atom of the
/// core holds of both atoms of an instance. So these have a place where the core's variables have.
pub fn atoms_law()
    ensures test { (test : Atom → Bool) (core : Core) (e : Equation)
        → IsClosed (λ a. IsTrue (test a)) → EachAtom (λ a. IsTrue (test a)) core
        → IsInstance core e → IsTrue (test e.a) × IsTrue (test e.b) }
    ensures below { (n : ℕ) (core : Core) (e : Equation)
        → CoreBelow n core → IsInstance core e → AtomBelow n e.a × AtomBelow n e.b }
{}
