//! The cores of the lines over integers.

ghost use Rattle.std.specs.Prelude.{◌≡◌, ◌+◌, ◌<◌, ◌≤◌, ◌^◌, ◌∷◌, [], length, IfOk};
ghost use Rattle.model_meaning.specs.declared.statement.Arithmetic.TheVariants.{Div, Mod};
ghost use Rattle.core_forms.specs.declared.form.Core.TheVariants.{Max};
ghost use Rattle.model_meaning.specs.Limits.{TermInLimit, TermsInLimit};
ghost use Rattle.statement_lower.specs.Terms.{atom_of, atoms_of, integer_of, integers_of};
ghost use Rattle.statement_lower.specs.Entries.{AreInLimit};
ghost use Rattle.statement_lower.specs.Comparison.{comparison_core};
ghost use Rattle.statement_lower.specs.Lines.{made_here, bit_core, compared_count, count_made, most_remainder};
ghost use Rattle.statement_lower.specs.Lines.{most_quotient, least_core, operation_made, absolute_core, aggregate_made};

use crate::fresh::{fresh_range, most_quotient, most_remainder};
use crate::lowering::Lowering;
use crate::made::MadeCores;
use crate::terms::{
    atom_of, atoms_of, bounded_integer_of, integer_of, integers_of, negated_integer_of,
    negated_integers_of,
};
use bee_list::Sequence;
use core_forms::Core;
use model_meaning::{Aggregate, Arithmetic, BoolTerm, IntTerm, Relation};
use order_ints::{Atom, OrdInt};
use std::alloc::{AllocError, Global};

/// The core that says that an atom is the truth of a comparison.
pub(crate) fn comparison_core(
    alloc: Global,
    relation: Relation,
    truth: Atom,
    left: OrdInt,
    right: OrdInt,
) -> Result<Core, AllocError>
    ensures { IfOk result (λ core. core ≡ comparison_core relation truth left right) }
{
    match relation {
        Relation::Leq => Core::leq_r(alloc, truth, left, right),
        Relation::Geq => Core::leq_r(alloc, truth, right, left),
        Relation::Eq => Core::eq_r(alloc, truth, left, right),
        Relation::Lt => Core::leq_r(alloc, truth.not(), right, left),
        Relation::Gt => Core::leq_r(alloc, truth.not(), left, right),
        Relation::Neq => Core::eq_r(alloc, truth.not(), left, right),
    }
}

/// A fresh integer is the number of true members, and it is compared.
fn compared_count(
    alloc: Global,
    vars: u32,
    relation: Relation,
    atoms: Sequence<Atom>,
    bound: OrdInt,
) -> Result<MadeCores, AllocError>
    requires { (compared_count vars relation atoms bound).vars < 2 ^ 27 }
    ensures { IfOk result (λ m. m ≡ compared_count vars relation atoms bound) }
{
    let most = atoms.len() as u32;
    let counted = fresh_range(alloc, vars, most)?;
    let compared = fresh_range(alloc, vars, most)?;
    let first = Core::count(alloc, atoms, counted)?;
    let second = comparison_core(alloc, relation, Atom::True, compared, bound)?;
    Ok(MadeCores {
        vars: vars + most,
        cores: Sequence::from_vec(vec![in alloc; first, second]?),
    })
}

/// The core that says that an integer is the greater one of two.
fn greater_core(alloc: Global, a: OrdInt, b: OrdInt, c: OrdInt) -> Result<Core, AllocError>
    ensures { IfOk result (λ core. core ≡ Max (a ∷ b ∷ []) c) }
{
    let members = vec![in alloc; a, b]?;
    Core::max(alloc, Sequence::from_vec(members), c)
}

impl Lowering<'_> {
    /// An integer is 1 where a Boolean is true, and else 0.
    pub(crate) fn bit_made(&self, truth: BoolTerm, number: IntTerm) -> Result<MadeCores, AllocError>
        ensures { IfOk result
            (λ m. m ≡ made_here self.now.vars (bit_core (atom_of self.now.entries.now truth)
            (integer_of self.now.entries.now number) ∷ [])) }
    {
        let integer = integer_of(self.alloc, self.entries, number)?;
        let bit = OrdInt::of_atom(self.alloc, atom_of(self.entries, truth))?;
        MadeCores::of_core(
            self.alloc,
            self.vars,
            Core::eq_r(self.alloc, Atom::True, integer, bit)?,
        )
    }

    /// An atom is the truth of a comparison.
    pub(crate) fn comparison_made(
        &self,
        relation: Relation,
        truth: Atom,
        left: IntTerm,
        right: IntTerm,
    ) -> Result<MadeCores, AllocError>
        ensures { IfOk result
            (λ m. m
            ≡ made_here self.now.vars
            (comparison_core relation truth (integer_of self.now.entries.now left)
            (integer_of self.now.entries.now right) ∷ [])) }
    {
        let left = integer_of(self.alloc, self.entries, left)?;
        let right = integer_of(self.alloc, self.entries, right)?;
        let core = comparison_core(self.alloc, relation, truth, left, right)?;
        MadeCores::of_core(self.alloc, self.vars, core)
    }

    /// A Boolean is the truth of a comparison.
    pub(crate) fn reified_made(
        &self,
        relation: Relation,
        left: IntTerm,
        right: IntTerm,
        truth: BoolTerm,
    ) -> Result<MadeCores, AllocError>
        ensures { IfOk result
            (λ m. m
            ≡ made_here self.now.vars
            (comparison_core relation (atom_of self.now.entries.now truth) (integer_of self.now.entries.now left)
            (integer_of self.now.entries.now right) ∷ [])) }
    {
        let truth = atom_of(self.entries, truth);
        self.comparison_made(relation, truth, left, right)
    }

    /// The number of true members is compared.
    pub(crate) fn count_made(
        &self,
        relation: Relation,
        members: &[BoolTerm],
        bound: IntTerm,
    ) -> Result<MadeCores, AllocError>
        requires { (count_made self.now.vars relation (atoms_of self.now.entries.now members.now)
            (integer_of self.now.entries.now bound)).vars < 2 ^ 27 }
        ensures { IfOk result
            (λ m. m ≡ count_made self.now.vars relation (atoms_of self.now.entries.now members.now)
            (integer_of self.now.entries.now bound)) }
    {
        let atoms = atoms_of(self.alloc, self.entries, members)?;
        let bound = integer_of(self.alloc, self.entries, bound)?;
        match relation {
            Relation::Eq => MadeCores::of_core(
                self.alloc,
                self.vars,
                Core::count(self.alloc, atoms, bound)?,
            ),
            _ => compared_count(self.alloc, self.vars, relation, atoms, bound),
        }
    }

    /// The core that says that an integer is the lesser one of two.
    fn lesser_core(&self, left: IntTerm, right: IntTerm, value: IntTerm) -> Result<Core, AllocError>
        requires { AreInLimit self.now.entries.now }
        ensures { IfOk result
            (λ core. core
            ≡ least_core (integer_of self.now.entries.now left ∷ integer_of self.now.entries.now right ∷ [])
            (integer_of self.now.entries.now value)) }
    {
        let a = negated_integer_of(self.alloc, self.entries, left)?;
        let b = negated_integer_of(self.alloc, self.entries, right)?;
        let c = negated_integer_of(self.alloc, self.entries, value)?;
        greater_core(self.alloc, a, b, c)
    }

    /// The integers of three terms.
    fn three_integers(
        &self,
        first: IntTerm,
        second: IntTerm,
        third: IntTerm,
    ) -> Result<(OrdInt, OrdInt, OrdInt), AllocError>
        ensures first { IfOk result (λ t. t.0 ≡ integer_of self.now.entries.now first) }
        ensures second { IfOk result (λ t. t.1 ≡ integer_of self.now.entries.now second) }
        ensures third { IfOk result (λ t. t.2 ≡ integer_of self.now.entries.now third) }
    {
        let a = integer_of(self.alloc, self.entries, first)?;
        let b = integer_of(self.alloc, self.entries, second)?;
        let c = integer_of(self.alloc, self.entries, third)?;
        Ok((a, b, c))
    }

    /// The third integer is the quotient of the first two, beside a fresh remainder.
    fn quotient_made(
        &self,
        left: IntTerm,
        right: IntTerm,
        value: IntTerm,
    ) -> Result<MadeCores, AllocError>
        requires entries { AreInLimit self.now.entries.now }
        requires room { self.now.vars + most_remainder (integer_of self.now.entries.now left)
            (integer_of self.now.entries.now right) < 2 ^ 27 }
        ensures { IfOk result
            (λ m. m ≡ operation_made self.now.vars Div (integer_of self.now.entries.now left)
            (integer_of self.now.entries.now right) (integer_of self.now.entries.now value)) }
    {
        let a = bounded_integer_of(self.alloc, self.entries, left)?;
        let b = bounded_integer_of(self.alloc, self.entries, right)?;
        let quotient = integer_of(self.alloc, self.entries, value)?;
        let most = most_remainder(&a, &b) as u32;
        let remainder = fresh_range(self.alloc, self.vars, most)?;
        let core = Core::div_mod(self.alloc, a, b, quotient, remainder)?;
        MadeCores::of_core(self.alloc, self.vars + most, core)
    }

    /// The third integer is the remainder of the first two, beside a fresh quotient.
    fn remainder_made(
        &self,
        left: IntTerm,
        right: IntTerm,
        value: IntTerm,
    ) -> Result<MadeCores, AllocError>
        requires entries { AreInLimit self.now.entries.now }
        requires room { self.now.vars + most_quotient (integer_of self.now.entries.now left)
            (integer_of self.now.entries.now right) < 2 ^ 27 }
        ensures { IfOk result
            (λ m. m ≡ operation_made self.now.vars Mod (integer_of self.now.entries.now left)
            (integer_of self.now.entries.now right) (integer_of self.now.entries.now value)) }
    {
        let a = bounded_integer_of(self.alloc, self.entries, left)?;
        let b = bounded_integer_of(self.alloc, self.entries, right)?;
        let remainder = integer_of(self.alloc, self.entries, value)?;
        let most = most_quotient(&a, &b) as u32;
        let quotient = fresh_range(self.alloc, self.vars, most)?;
        let core = Core::div_mod(self.alloc, a, b, quotient, remainder)?;
        MadeCores::of_core(self.alloc, self.vars + most, core)
    }

    /// An operation on two integers gives the third.
    pub(crate) fn operation_made(
        &self,
        operation: Arithmetic,
        left: IntTerm,
        right: IntTerm,
        value: IntTerm,
    ) -> Result<MadeCores, AllocError>
        requires entries { AreInLimit self.now.entries.now }
        requires room { (operation_made self.now.vars operation (integer_of self.now.entries.now left)
            (integer_of self.now.entries.now right) (integer_of self.now.entries.now value)).vars < 2 ^ 27 }
        ensures { IfOk result
            (λ m. m ≡ operation_made self.now.vars operation (integer_of self.now.entries.now left)
            (integer_of self.now.entries.now right) (integer_of self.now.entries.now value)) }
    {
        let core = match operation {
            Arithmetic::Plus => {
                let (a, b, c) = self.three_integers(left, right, value)?;
                Core::sum3(self.alloc, a, b, c)?
            }
            Arithmetic::Times => {
                let (a, b, c) = self.three_integers(left, right, value)?;
                Core::prod(self.alloc, a, b, c)?
            }
            Arithmetic::Max => {
                let (a, b, c) = self.three_integers(left, right, value)?;
                greater_core(self.alloc, a, b, c)?
            }
            Arithmetic::Min => self.lesser_core(left, right, value)?,
            Arithmetic::Div => return self.quotient_made(left, right, value),
            Arithmetic::Mod => return self.remainder_made(left, right, value),
        };
        MadeCores::of_core(self.alloc, self.vars, core)
    }

    /// The second integer is the absolute value of the first.
    pub(crate) fn absolute_made(
        &self,
        operand: IntTerm,
        value: IntTerm,
    ) -> Result<MadeCores, AllocError>
        requires { AreInLimit self.now.entries.now }
        ensures { IfOk result
            (λ m. m
            ≡ made_here self.now.vars (absolute_core (integer_of self.now.entries.now operand)
            (integer_of self.now.entries.now value) ∷ [])) }
    {
        let a = integer_of(self.alloc, self.entries, operand)?;
        let b = negated_integer_of(self.alloc, self.entries, operand)?;
        let c = integer_of(self.alloc, self.entries, value)?;
        let core = greater_core(self.alloc, a, b, c)?;
        MadeCores::of_core(self.alloc, self.vars, core)
    }

    /// The core that says that an integer is the least member.
    fn least_core(&self, members: &[IntTerm], value: IntTerm) -> Result<Core, AllocError>
        requires { AreInLimit self.now.entries.now }
        ensures { IfOk result
            (λ core. core ≡ least_core (integers_of self.now.entries.now members.now)
            (integer_of self.now.entries.now value)) }
    {
        let ints = negated_integers_of(self.alloc, self.entries, members)?;
        let c = negated_integer_of(self.alloc, self.entries, value)?;
        Core::max(self.alloc, ints, c)
    }

    /// An operation on a list gives an integer.
    pub(crate) fn aggregate_made(
        &self,
        operation: Aggregate,
        members: &[IntTerm],
        value: IntTerm,
    ) -> Result<MadeCores, AllocError>
        requires entries { AreInLimit self.now.entries.now }
        requires members { TermsInLimit members.now }
        requires few { length members.now ≤ 16777216 }
        requires value { TermInLimit value }
        requires room { (aggregate_made self.now.vars operation (integers_of self.now.entries.now members.now)
            (integer_of self.now.entries.now value)).vars < 2 ^ 27 }
        ensures { IfOk result
            (λ m. m ≡ aggregate_made self.now.vars operation (integers_of self.now.entries.now members.now)
            (integer_of self.now.entries.now value)) }
    {
        match operation {
            Aggregate::Plus => self.sum_made(Relation::Eq, members, value),
            Aggregate::Max => {
                let ints = integers_of(self.alloc, self.entries, members)?;
                let c = integer_of(self.alloc, self.entries, value)?;
                MadeCores::of_core(self.alloc, self.vars, Core::max(self.alloc, ints, c)?)
            }
            Aggregate::Min => {
                let core = self.least_core(members, value)?;
                MadeCores::of_core(self.alloc, self.vars, core)
            }
        }
    }
}
