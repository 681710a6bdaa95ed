//! Laws of literals, atoms and integers in the order encoding, for proofs of crates above. Each
//! function does nothing; its contract is the law.

ghost use Rattle.std.specs.Prelude.{◌≡◌, ℕ, ◌+◌, ◌≤◌, Bool, not, ◌&&◌, ◌↔◌, ℤ, pos};
ghost use Rattle.std.specs.Prelude.{neg_ℤ, ◌+ℤ◌, ◌-ℤ◌, ◌*ℤ◌, ◌≤ℤ◌, ◌<ℤ◌, int_le};
ghost use Rattle.std.specs.Prelude.{List, ◌∷◌, ◌++◌, map, Contains, IsTrue};
ghost use Rattle.std.specs.List.{AllByRecursion};
ghost use Rattle.order_ints.specs.Label.{own_labels};
ghost use Rattle.order_ints.specs.declared.atom.Atom.{Atom};
ghost use Rattle.order_ints.specs.declared.atom.Atom.TheVariants.{True, False};
ghost use Rattle.order_ints.specs.declared.order_int.OrdInt.{OrdInt};
ghost use Rattle.order_ints.specs.Same.{same_atom, same_step, same_int};
ghost use Rattle.order_ints.specs.Truth.{Valuation, Agree, atom_truth, not_atom};
ghost use Rattle.order_ints.specs.Place.{AtomBelow};
ghost use Rattle.order_ints.specs.OrderValue.{value_of, in_order, IsOrdered};
ghost use Rattle.order_ints.specs.OrderRange.{low_of, high_of, AreRising, IntBelow};
ghost use Rattle.order_ints.specs.OrderLevels.{levels_of, values_of, at_of};
ghost use Rattle.order_ints.specs.OrderChange.{negated_of, shifted_of, scaled_of};
ghost use Rattle.order_ints.specs.Represents.{DependsBelow, Represents};

/// The negation of an atom is true exactly where the atom is not, and the negation of the negation
/// is the atom.
pub fn negated_atom_law()
    ensures truth { (σ : Valuation) (a : Atom)
        → atom_truth σ (not_atom a) ≡ not (atom_truth σ a) }
    ensures twice { (a : Atom) → not_atom (not_atom a) ≡ a }
{}

/// The value lies between the least and the greatest, and on an ordered integer it is one of the
/// values.
pub fn value_law()
    ensures low { (σ : Valuation) (a : OrdInt) → low_of a ≤ℤ value_of σ a }
    ensures high { (σ : Valuation) (a : OrdInt) → value_of σ a ≤ℤ high_of a }
    ensures listed { (σ : Valuation) (a : OrdInt)
        → IsOrdered σ a → Contains (values_of a) (value_of σ a) }
{}

/// The tests of equality, which `==` computes, tell it: of atoms, of steps, of integers.
pub fn equality_law()
    ensures atom { (a b : Atom) → IsTrue (same_atom a b) ↔ (a ≡ b) }
    ensures step { (s t : Atom × ℕ) → IsTrue (same_step s t) ↔ (s ≡ t) }
    ensures int { (a b : OrdInt) → IsTrue (same_int a b) ↔ (a ≡ b) }
{}

/// What an integer's atoms mean: on an ordered integer the atom at v is true exactly where the value
/// is at least v. It is that of the level at v, or of the next level above v; up to the least value it
/// is true, and above the greatest it is false.
pub fn at_law()
    ensures truth { (σ : Valuation) (a : OrdInt) (v : ℤ)
        → IsOrdered σ a → atom_truth σ (at_of a v) ≡ int_le v (value_of σ a) }
    ensures low { (a : OrdInt) (v : ℤ) → v ≤ℤ low_of a → at_of a v ≡ True }
    ensures high { (a : OrdInt) (v : ℤ) → high_of a <ℤ v → at_of a v ≡ False }
    ensures level { (a : OrdInt) (front back : List (ℤ × Atom)) (v : ℤ) (y : Atom)
        → AreRising a.steps → levels_of a ≡ front ++ (v, y) ∷ back → at_of a v ≡ y }
    ensures between { (a : OrdInt) (front back : List (ℤ × Atom)) (u v : ℤ) (x y : Atom) (t : ℤ)
        → levels_of a ≡ front ++ (u, x) ∷ (v, y) ∷ back → u <ℤ t → t ≤ℤ v → at_of a t ≡ y }
    ensures level_truth { (σ : Valuation) (a : OrdInt) (front back : List (ℤ × Atom)) (v : ℤ) (y : Atom)
        → AreRising a.steps → IsOrdered σ a → levels_of a ≡ front ++ (v, y) ∷ back
        → atom_truth σ y ≡ int_le v (value_of σ a) }
    ensures levels { (a : OrdInt)
        → AreRising a.steps → AllByRecursion (λ level. at_of a level.0 ≡ level.1) (levels_of a) }
    ensures levels_truth { (σ : Valuation) (a : OrdInt)
        → AreRising a.steps → IsOrdered σ a
        → AllByRecursion (λ level. atom_truth σ level.1 ≡ int_le level.0 (value_of σ a)) (levels_of a) }
{}

/// What the negation, a shift and a multiple are, by the integer.
pub fn change_law()
    ensures negated { (σ : Valuation) (a : OrdInt)
        → value_of σ (negated_of a) ≡ neg_ℤ (value_of σ a) }
    ensures shifted { (σ : Valuation) (a : OrdInt) (by : ℤ)
        → value_of σ (shifted_of a by) ≡ value_of σ a +ℤ by }
    ensures scaled { (σ : Valuation) (a : OrdInt) (by : ℤ)
        → value_of σ (scaled_of a by) ≡ by *ℤ value_of σ a }
    ensures negated_order { (σ : Valuation) (a : OrdInt)
        → in_order σ (negated_of a).steps ≡ in_order σ a.steps }
    ensures scaled_order { (σ : Valuation) (a : OrdInt) (by : ℤ)
        → IsOrdered σ a → IsOrdered σ (scaled_of a by) }
    ensures negated_at { (a : OrdInt) (v : ℤ)
        → at_of (negated_of a) v ≡ not_atom (at_of a (pos 1 -ℤ v)) }
    ensures shifted_at { (a : OrdInt) (by v : ℤ)
        → at_of (shifted_of a by) v ≡ at_of a (v -ℤ by) }
{}

/// Truth, value and order depend on the variables of the atom and of the integer alone.
pub fn integer_agreement_law()
    ensures atom { (n : ℕ) (σ τ : Valuation) (a : Atom)
        → Agree n σ τ → AtomBelow n a → atom_truth σ a ≡ atom_truth τ a }
    ensures value { (n : ℕ) (σ τ : Valuation) (a : OrdInt)
        → Agree n σ τ → IntBelow n a → value_of σ a ≡ value_of τ a }
    ensures order { (n : ℕ) (σ τ : Valuation) (a : OrdInt)
        → Agree n σ τ → IntBelow n a → in_order σ a.steps ≡ in_order τ a.steps }
{}

/// Below which bound the variables of what is made of an integer are.
pub fn below_law()
    ensures at { (n : ℕ) (a : OrdInt) (v : ℤ) → IntBelow n a → AtomBelow n (at_of a v) }
    ensures levels { (n : ℕ) (a : OrdInt)
        → IntBelow n a → AllByRecursion (λ level. AtomBelow n level.1) (levels_of a) }
    ensures negated { (n : ℕ) (a : OrdInt) → IntBelow n a → IntBelow n (negated_of a) }
    ensures scaled { (n : ℕ) (a : OrdInt) (by : ℤ) → IntBelow n a → IntBelow n (scaled_of a by) }
    ensures more { (n m : ℕ) (a : OrdInt) → n ≤ m → IntBelow n a → IntBelow m a }
{}

/// An integer over fresh variables, one for each step, has each of its values, in order, under a
/// valuation that is as a given one below those variables.
pub fn fresh_law()
    ensures { (σ : Valuation) (a : OrdInt) (first count : ℕ) (value : ℤ)
        → map (λ s. s.0) a.steps ≡ own_labels first count → Contains (values_of a) value
        → (τ : Valuation) × Agree first σ τ × (IsOrdered τ a × (value_of τ a ≡ value)) }
{}

/// Constraints that stand for a property do so where more variables may be there, and where fewer are
/// kept, down to a bound on which the property alone depends; and those that stand for two properties,
/// the second ones over fresh variables, stand together for both, said of pairs and again of one
/// test, which may be fed to the law once more. Here constraints and properties are tests; the lemmas have
/// the laws for any.
pub fn represents_law()
    ensures more { (n m k : ℕ) (meets holds : Valuation → Bool) → m ≤ k
        → Represents n m (λ σ. IsTrue (meets σ)) (λ σ. IsTrue (holds σ))
        → Represents n k (λ σ. IsTrue (meets σ)) (λ σ. IsTrue (holds σ)) }
    ensures fewer { (k n m : ℕ) (meets holds : Valuation → Bool) → k ≤ n
        → DependsBelow k (λ σ. IsTrue (holds σ))
        → Represents n m (λ σ. IsTrue (meets σ)) (λ σ. IsTrue (holds σ))
        → Represents k m (λ σ. IsTrue (meets σ)) (λ σ. IsTrue (holds σ)) }
    ensures both { (n m k : ℕ) (meets also holds too : Valuation → Bool)
        → Represents n m (λ σ. IsTrue (meets σ)) (λ σ. IsTrue (holds σ))
        → Represents m k (λ σ. IsTrue (also σ)) (λ σ. IsTrue (too σ))
        → DependsBelow n (λ σ. IsTrue (too σ))
        → Represents n k (λ σ. IsTrue (meets σ) × IsTrue (also σ))
        (λ σ. IsTrue (holds σ) × IsTrue (too σ)) }
    ensures both_tests { (n m k : ℕ) (meets also holds too : Valuation → Bool)
        → Represents n m (λ σ. IsTrue (meets σ)) (λ σ. IsTrue (holds σ))
        → Represents m k (λ σ. IsTrue (also σ)) (λ σ. IsTrue (too σ))
        → DependsBelow n (λ σ. IsTrue (too σ))
        → Represents n k (λ σ. IsTrue (meets σ && also σ)) (λ σ. IsTrue (holds σ && too σ)) }
    ensures through { (n m k : ℕ) (further meets holds : Valuation → Bool)
        → Represents n m (λ σ. IsTrue (meets σ)) (λ σ. IsTrue (holds σ))
        → Represents m k (λ σ. IsTrue (further σ)) (λ σ. IsTrue (meets σ))
        → Represents n k (λ σ. IsTrue (further σ)) (λ σ. IsTrue (holds σ)) }
{}
