//! The cores of the lines over sums.

ghost use Rattle.std.specs.Prelude.{◌≡◌, ◌+◌, ◌<◌, ◌≤◌, ◌^◌, neg_ℤ, length, unsigned_abs};
ghost use Rattle.std.specs.Prelude.{IfOk};
ghost use Rattle.core_forms.specs.declared.form.Core.TheVariants.{Sum};
ghost use Rattle.model_meaning.specs.Limits.{AllInLimit, TermInLimit, TermsInLimit};
ghost use Rattle.statement_lower.specs.Terms.{integer_of, integers_of};
ghost use Rattle.statement_lower.specs.Entries.{AreInLimit};
ghost use Rattle.statement_lower.specs.Linear.{linear_made, AreSummands};
ghost use Rattle.statement_lower.specs.Lines.{scaled_truths, scaled_integers};

use crate::compared_sums::compared_made;
use crate::lowering::Lowering;
use crate::made::MadeCores;
use crate::summands::{Summands, linear_members, scaled_integers, scaled_truths};
use crate::terms::integers_of;
use bee_list::Sequence;
use core_forms::Core;
use model_meaning::{BoolTerm, IntTerm, Relation};
use order_ints::OrdInt;
use std::alloc::{AllocError, Global};

/// Minus a number.
fn minus(number: i128) -> i128
    requires { unsigned_abs number < 2 ^ 85 }
    ensures { result ≡ neg_ℤ number }
{
    -number
}

/// The core that says that members are 0, added up.
fn zero_sum(alloc: Global, members: Summands) -> Result<Core, AllocError>
    requires { unsigned_abs members.constant < 2 ^ 85 }
    ensures { IfOk result (λ core. core ≡ Sum members.ints.items (neg_ℤ members.constant)) }
{
    let Summands { ints, constant } = members;
    Core::sum(alloc, Sequence::from_vec(ints), minus(constant))
}

impl Lowering<'_> {
    /// A sum stands in a relation to the right side.
    fn linear_made(
        &self,
        relation: Relation,
        ints: Vec<OrdInt>,
        right: IntTerm,
    ) -> Result<MadeCores, AllocError>
        requires entries { AreInLimit self.now.entries.now }
        requires ints { AreSummands ints.items }
        requires few { length ints.items ≤ 16777216 }
        requires right { TermInLimit right }
        requires room { (linear_made self.now.vars relation ints.items
            (integer_of self.now.entries.now right)).vars < 2 ^ 27 }
        ensures { IfOk result (λ m. m ≡ linear_made self.now.vars relation ints.items
            (integer_of self.now.entries.now right)) }
    {
        let members = linear_members(self.alloc, self.entries, ints, right)?;
        match relation {
            Relation::Eq => MadeCores::of_core(
                self.alloc,
                self.vars,
                zero_sum(self.alloc, members)?,
            ),
            _ => compared_made(self.alloc, self.vars, relation, members),
        }
    }

    /// The coefficients of the true members, added up, stand in a relation to an integer.
    pub(crate) fn truths_made(
        &self,
        relation: Relation,
        coefficients: &[i64],
        members: &[BoolTerm],
        bound: IntTerm,
    ) -> Result<MadeCores, AllocError>
        requires entries { AreInLimit self.now.entries.now }
        requires coefficients { AllInLimit coefficients.now }
        requires few { length members.now ≤ 16777216 }
        requires bound { TermInLimit bound }
        requires room { (linear_made self.now.vars relation
            (scaled_truths self.now.entries.now coefficients.now members.now)
            (integer_of self.now.entries.now bound)).vars < 2 ^ 27 }
        ensures { IfOk result
            (λ m. m ≡ linear_made self.now.vars relation
            (scaled_truths self.now.entries.now coefficients.now members.now)
            (integer_of self.now.entries.now bound)) }
    {
        let ints = scaled_truths(self.alloc, self.entries, coefficients, members)?;
        self.linear_made(relation, ints, bound)
    }

    /// The members, added up, stand in a relation to an integer.
    pub(crate) fn sum_made(
        &self,
        relation: Relation,
        members: &[IntTerm],
        bound: IntTerm,
    ) -> Result<MadeCores, AllocError>
        requires entries { AreInLimit self.now.entries.now }
        requires members { TermsInLimit members.now }
        requires few { length members.now ≤ 16777216 }
        requires bound { TermInLimit bound }
        requires room { (linear_made self.now.vars relation (integers_of self.now.entries.now members.now)
            (integer_of self.now.entries.now bound)).vars < 2 ^ 27 }
        ensures { IfOk result
            (λ m. m ≡ linear_made self.now.vars relation (integers_of self.now.entries.now members.now)
            (integer_of self.now.entries.now bound)) }
    {
        let ints = integers_of(self.alloc, self.entries, members)?.into_vec();
        self.linear_made(relation, ints, bound)
    }

    /// The members, multiplied by their coefficients and added up, stand in a relation to an integer.
    pub(crate) fn multiples_made(
        &self,
        relation: Relation,
        coefficients: &[i64],
        members: &[IntTerm],
        bound: IntTerm,
    ) -> Result<MadeCores, AllocError>
        requires entries { AreInLimit self.now.entries.now }
        requires coefficients { AllInLimit coefficients.now }
        requires members { TermsInLimit members.now }
        requires few { length members.now ≤ 16777216 }
        requires bound { TermInLimit bound }
        requires room { (linear_made self.now.vars relation
            (scaled_integers self.now.entries.now coefficients.now members.now)
            (integer_of self.now.entries.now bound)).vars < 2 ^ 27 }
        ensures { IfOk result
            (λ m. m ≡ linear_made self.now.vars relation
            (scaled_integers self.now.entries.now coefficients.now members.now)
            (integer_of self.now.entries.now bound)) }
    {
        let ints = scaled_integers(self.alloc, self.entries, coefficients, members)?;
        self.linear_made(relation, ints, bound)
    }
}
