//! Laws of equations that rules state, for proofs of crates above. Each function does nothing; its
//! contract is the law.

ghost use Rattle.std.specs.Prelude.{◌≡◌, ◌↔◌, Bool, true, false, List, Option, IsNone, IfSome, IsTrue};
ghost use Rattle.order_ints.specs.declared.atom.Atom.{Atom};
ghost use Rattle.order_ints.specs.Truth.{Valuation};
ghost use Rattle.core_forms.specs.declared.equation.Rule.{Rule};
ghost use Rattle.core_forms.specs.declared.equation.Equation.{Equation};
ghost use Rattle.core_forms.specs.declared.form.Core.{Core};
ghost use Rattle.core_forms.specs.Meaning.{Meets};
ghost use Rattle.rule_base.specs.Pairs.{AreEqual, EachOfPairs, IsClosed};
ghost use Rattle.rule_base.specs.Found.{found_by, is_instance_by, IsImplied};

/// Of the equations that rules state, one that is found is an instance, and none is found exactly where
/// there is no instance.
pub fn found_law()
    ensures instance { (pairs : Rule → List (Atom × Atom))
        → IfSome (found_by pairs) (λ e. is_instance_by pairs e ≡ true) }
    ensures none { (pairs : Rule → List (Atom × Atom))
        → IsNone (found_by pairs) ↔ ((e : Equation) → is_instance_by pairs e ≡ false) }
{}

/// Where the equations that rules state of a core are implied by it, so is each instance.
pub fn implied_law()
    ensures { (pairs : Rule → List (Atom × Atom)) (core : Core)
        → ((σ : Valuation) (rule : Rule) → Meets σ core → AreEqual σ (pairs rule))
        → (e : Equation) → is_instance_by pairs e ≡ true → IsImplied core e }
{}

/// What holds of both atoms of each equation that rules state holds of both atoms of an instance.
pub fn atoms_law()
    ensures { (pairs : Rule → List (Atom × Atom)) (test : Atom → Bool)
        → ((rule : Rule) → EachOfPairs (λ a. IsTrue (test a)) (pairs rule))
        → (e : Equation) → is_instance_by pairs e ≡ true → IsTrue (test e.a) × IsTrue (test e.b) }
{}
