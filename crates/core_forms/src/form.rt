//! The forms of constraint.

ghost use Rattle.std.specs.Prelude.{◌≡◌};
ghost use Rattle.core_forms.specs.Taken.{taken_apart};

use crate::summands::Summands;
use crate::taken::Taken;
use crate::word::Word;
use bee_list::{Apart, Sequence};
use order_ints::{Atom, OrdInt};

/// A constraint over literals and integers in the order encoding, in one of sixteen forms. Each form
/// also says that all its integers are ordered. What only greater forms hold stands apart, so that a
/// core takes at most 48 bytes beside its lists and integers.
pub enum Core {
    /// The integer is ordered.
    Ladder(Apart<OrdInt>),
    /// Some member is true.
    Clause(Sequence<Atom>),
    /// The number of true members is odd, where the flag is true, and otherwise even.
    Parity(Sequence<Atom>, bool),
    /// The atom is true exactly where all members are.
    Conj(Atom, Sequence<Atom>),
    /// Of the first two atoms, the third is their disjunction and the fourth their conjunction.
    Comp(Atom, Atom, Atom, Apart<Atom>),
    /// The atom is the truth of the first integer being at most the second.
    LeqR(Atom, Apart<OrdInt>, Apart<OrdInt>),
    /// The atom is the truth of the integers being equal.
    EqR(Atom, Apart<OrdInt>, Apart<OrdInt>),
    /// The first two integers, added up, are the third.
    Sum3(Apart<OrdInt>, Apart<OrdInt>, Apart<OrdInt>),
    /// The integer is the number of true members.
    Count(Sequence<Atom>, Apart<OrdInt>),
    /// The members, added up, are the number.
    Sum(Summands, Apart<i128>),
    /// The integer is the greatest member.
    Max(Sequence<OrdInt>, Apart<OrdInt>),
    /// Members at two places with both conditions true differ.
    AllDiff(Sequence<OrdInt>, Apart<Sequence<Atom>>),
    /// At most one member is true.
    Amo(Sequence<Atom>),
    /// The first integer times the second is the third.
    Prod(Apart<OrdInt>, Apart<OrdInt>, Apart<OrdInt>),
    /// The first integer is the second times the third plus the fourth, which is from 0 and below the
    /// second: the third and fourth are quotient and rest.
    DivMod(Apart<OrdInt>, Apart<OrdInt>, Apart<OrdInt>, Apart<OrdInt>),
    /// The atom is the truth of the first list standing before the second in the order of words, where
    /// the flag is true, and otherwise before it or being equal.
    Lex(Atom, bool, Word, Word),
}

const _: () = prove!(size_of::<Core>() <= 48);

/// By hand, so that a function in which a core falls out of use need not tell its form.
impl Drop for Core {
    fn drop(self) {
        match self {
            Core::Ladder(a) => drop(a),
            Core::Clause(atoms) | Core::Parity(atoms, _) => drop(atoms),
            Core::Conj(_, atoms) | Core::Amo(atoms) => drop(atoms),
            Core::Comp(_, _, _, lo) => drop(lo),
            Core::LeqR(_, a, b) | Core::EqR(_, a, b) => drop((a, b)),
            Core::Sum3(a, b, c) | Core::Prod(a, b, c) => drop((a, b, c)),
            Core::Count(atoms, c) => drop((atoms, c)),
            Core::Sum(ints, k) => drop((ints, k)),
            Core::Max(ints, c) => drop((ints, c)),
            Core::AllDiff(ints, conditions) => drop((ints, conditions)),
            Core::DivMod(a, b, q, r) => drop((a, b, q, r)),
            Core::Lex(_, _, front, back) => drop((front, back)),
        }
    }
}

impl Core {
    /// What the core held. It takes constant time and no memory.
    pub fn take_apart(self) -> Taken
        ensures { result ≡ taken_apart self }
    {
        match self {
            Core::Parity(atoms, odd) => Taken::Xor(atoms, odd),
            Core::Sum3(a, b, c) => Taken::Added(a.into_inner(), b.into_inner(), c.into_inner()),
            Core::Count(atoms, c) => Taken::Counted(atoms, c.into_inner()),
            Core::Sum(ints, k) => Taken::Summed(ints.into_sequence(), k.into_inner()),
            Core::AllDiff(ints, conditions) => Taken::Differing(ints, conditions.into_inner()),
            Core::Amo(atoms) => Taken::AtMostOne(atoms),
            Core::Lex(r, strict, front, back) => {
                Taken::Words(r, strict, front.into_inner(), back.into_inner())
            }
            core => Taken::Other(core),
        }
    }
}
