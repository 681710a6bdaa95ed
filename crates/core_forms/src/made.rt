//! Cores made of their members, for the forms of which some stand apart. Each takes the members and
//! memory for these places; where there is none, the members are let go.

ghost use Rattle.std.specs.Prelude.{◌≡◌, IfOk};
ghost use Rattle.core_forms.specs.declared.form.Core.TheVariants.{Ladder, Comp, LeqR, EqR, Sum3, Count, Sum, Max};
ghost use Rattle.core_forms.specs.declared.form.Core.TheVariants.{AllDiff, Prod, DivMod, Lex};

use crate::form::Core;
use crate::summands::Summands;
use crate::word::Word;
use bee_list::{Apart, Sequence};
use order_ints::{Atom, OrdInt};
use std::alloc::{AllocError, Global};

impl Core {
    /// An integer is ordered.
    pub fn ladder(alloc: Global, a: OrdInt) -> Result<Core, AllocError>
        ensures { IfOk result (λ core. core ≡ Ladder a) }
    {
        Ok(Core::Ladder(Apart::new(alloc, a)?))
    }

    /// A disjunction and a conjunction of two atoms.
    pub fn comp(alloc: Global, a: Atom, b: Atom, hi: Atom, lo: Atom) -> Result<Core, AllocError>
        ensures { IfOk result (λ core. core ≡ Comp a b hi lo) }
    {
        Ok(Core::Comp(a, b, hi, Apart::new(alloc, lo)?))
    }

    /// An atom is the truth of an integer being at most another.
    pub fn leq_r(alloc: Global, r: Atom, a: OrdInt, b: OrdInt) -> Result<Core, AllocError>
        ensures { IfOk result (λ core. core ≡ LeqR r a b) }
    {
        Ok(Core::LeqR(r, Apart::new(alloc, a)?, Apart::new(alloc, b)?))
    }

    /// An atom is the truth of two integers being equal.
    pub fn eq_r(alloc: Global, r: Atom, a: OrdInt, b: OrdInt) -> Result<Core, AllocError>
        ensures { IfOk result (λ core. core ≡ EqR r a b) }
    {
        Ok(Core::EqR(r, Apart::new(alloc, a)?, Apart::new(alloc, b)?))
    }

    /// Two integers, added up, are a third.
    pub fn sum3(alloc: Global, a: OrdInt, b: OrdInt, c: OrdInt) -> Result<Core, AllocError>
        ensures { IfOk result (λ core. core ≡ Sum3 a b c) }
    {
        Ok(Core::Sum3(
            Apart::new(alloc, a)?,
            Apart::new(alloc, b)?,
            Apart::new(alloc, c)?,
        ))
    }

    /// An integer is the number of true members.
    pub fn count(alloc: Global, atoms: Sequence<Atom>, c: OrdInt) -> Result<Core, AllocError>
        ensures { IfOk result (λ core. core ≡ Count atoms c) }
    {
        Ok(Core::Count(atoms, Apart::new(alloc, c)?))
    }

    /// The members, added up, are a number.
    pub fn sum(alloc: Global, ints: Sequence<OrdInt>, k: i128) -> Result<Core, AllocError>
        ensures { IfOk result (λ core. core ≡ Sum ints k) }
    {
        Ok(Core::Sum(Summands::new(alloc, ints)?, Apart::new(alloc, k)?))
    }

    /// An integer is the greatest member.
    pub fn max(alloc: Global, ints: Sequence<OrdInt>, c: OrdInt) -> Result<Core, AllocError>
        ensures { IfOk result (λ core. core ≡ Max ints c) }
    {
        Ok(Core::Max(ints, Apart::new(alloc, c)?))
    }

    /// Members at two places with both conditions true differ.
    pub fn all_diff(
        alloc: Global,
        ints: Sequence<OrdInt>,
        conditions: Sequence<Atom>,
    ) -> Result<Core, AllocError>
        ensures { IfOk result (λ core. core ≡ AllDiff ints conditions) }
    {
        Ok(Core::AllDiff(ints, Apart::new(alloc, conditions)?))
    }

    /// An integer times another is a third.
    pub fn prod(alloc: Global, a: OrdInt, b: OrdInt, c: OrdInt) -> Result<Core, AllocError>
        ensures { IfOk result (λ core. core ≡ Prod a b c) }
    {
        Ok(Core::Prod(
            Apart::new(alloc, a)?,
            Apart::new(alloc, b)?,
            Apart::new(alloc, c)?,
        ))
    }

    /// Quotient and rest of an integer by another.
    pub fn div_mod(
        alloc: Global,
        a: OrdInt,
        b: OrdInt,
        q: OrdInt,
        r: OrdInt,
    ) -> Result<Core, AllocError>
        ensures { IfOk result (λ core. core ≡ DivMod a b q r) }
    {
        Ok(Core::DivMod(
            Apart::new(alloc, a)?,
            Apart::new(alloc, b)?,
            Apart::new(alloc, q)?,
            Apart::new(alloc, r)?,
        ))
    }

    /// An atom is the truth of a list standing before another, strictly or not.
    pub fn lex(
        alloc: Global,
        r: Atom,
        strict: bool,
        front: Sequence<OrdInt>,
        back: Sequence<OrdInt>,
    ) -> Result<Core, AllocError>
        ensures { IfOk result (λ core. core ≡ Lex r strict front back) }
    {
        Ok(Core::Lex(r, strict, Word::new(alloc, front)?, Word::new(alloc, back)?))
    }
}
