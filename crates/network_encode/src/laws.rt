//! Laws of the parts of cores, for proofs of crates above. Each function does nothing; its contract is the
//! law.

ghost use Rattle.std.specs.Prelude.{◌≡◌, ℕ, ◌+◌, ◌≤◌, ◌^◌, Bool, false, List};
ghost use Rattle.order_ints.specs.declared.atom.Atom.{Atom};
ghost use Rattle.order_ints.specs.declared.order_int.OrdInt.{OrdInt};
ghost use Rattle.core_forms.specs.declared.form.Core.{Core};
ghost use Rattle.core_forms.specs.declared.form.Core.TheVariants.{Parity, Sum3, Amo};
ghost use Rattle.core_forms.specs.Place.{CoreBelow};
ghost use Rattle.core_forms.specs.WellFormed.{IsWellFormed};
ghost use Rattle.core_forms.specs.Cost.{cost_of};
ghost use Rattle.core_forms.specs.Basic.{is_basic_of};
ghost use Rattle.part_base.specs.PartsFor.{ArePartsFor};
ghost use Rattle.network_encode.specs.NetworkParts.{parts_of, IsSplit, cost_by_parts, StandFor};

/// The parts of a core stand for it, and fit. Those of a compound core cost no more than it.
pub fn parts_law()
    ensures stand { (core : Core) (next : ℕ) → IsSplit core → IsWellFormed core → 1 ≤ next
        → CoreBelow next core
        → next + cost_by_parts core ≤ 2 ^ 27 → StandFor core next (parts_of next core) }
    ensures parts { (core : Core) (next : ℕ) → is_basic_of core ≡ false → IsSplit core → IsWellFormed core
        → 1 ≤ next → CoreBelow next core → next + cost_of core ≤ 2 ^ 27
        → ArePartsFor core next (parts_of next core) }
{}

/// Of the forms that are split here the compound cores are split, and their cost by parts is their cost.
pub fn compound_law()
    ensures cost { (core : Core) → is_basic_of core ≡ false → cost_by_parts core ≡ cost_of core }
    ensures parity { (ls : List Atom) (odd : Bool) → is_basic_of (Parity ls odd) ≡ false
        → IsSplit (Parity ls odd) }
    ensures amo { (ls : List Atom) → is_basic_of (Amo ls) ≡ false → IsSplit (Amo ls) }
    ensures sum { (a b c : OrdInt) → is_basic_of (Sum3 a b c) ≡ false → IsSplit (Sum3 a b c) }
{}
