//! The cores of the lines over members that differ and lists in order.

ghost use Rattle.std.specs.Prelude.{◌≡◌, ◌<◌, ◌^◌, ◌∷◌, [], IfOk, map, Option};
ghost use Rattle.order_ints.specs.declared.atom.Atom.TheVariants.{True};
ghost use Rattle.order_ints.specs.OrderMade.{integer_of_atom};
ghost use Rattle.statement_lower.specs.Terms.{atoms_of, integers_of, atom_or_true, word_of};
ghost use Rattle.statement_lower.specs.Lines.{made_here, different_made, order_core};

use crate::lowering::Lowering;
use crate::made::MadeCores;
use crate::pair_lines::difference_made;
use crate::terms::{atom_of, atoms_of, integers_of};
use bee_list::{Apart, Sequence};
use core_forms::Core;
use model_meaning::{AllDifferent, BoolTerm, IntTerm, Order, OrderLists};
use order_ints::{Atom, MapValue, OrdInt};
use std::alloc::{AllocError, Global};

/// As many conditions as there are integers, all of them True.
fn true_conditions(alloc: Global, ints: &[OrdInt]) -> Result<Sequence<Atom>, AllocError>
    ensures { IfOk result (λ cs. cs ≡ map (λ _. True) ints.now) }
{
    let mut conditions = Vec::with_capacity(alloc, ints.len())?;
    for _int in ints {
        conditions.push(Atom::True)?;
    }
    Ok(Sequence::from_vec(conditions))
}

/// Booleans as integers, each 1 where it is true and else 0.
fn bits_of(
    alloc: Global,
    entries: &[MapValue],
    terms: &[BoolTerm],
) -> Result<Sequence<OrdInt>, AllocError>
    ensures { IfOk result (λ ints. ints ≡ map integer_of_atom (atoms_of entries.now terms.now)) }
{
    let mut ints = Vec::with_capacity(alloc, terms.len())?;
    for term in terms {
        ints.push(OrdInt::of_atom(alloc, atom_of(entries, *term))?)?;
    }
    Ok(Sequence::from_vec(ints))
}

/// The atom of a Boolean term that may be left out.
pub(crate) fn atom_or_true(entries: &[MapValue], term: &Option<Apart<BoolTerm>>) -> Atom
    ensures { result ≡ atom_or_true entries.now term.now }
{
    match term {
        Some(term) => atom_of(entries, *term.get()),
        None => Atom::True,
    }
}

impl Lowering<'_> {
    /// Members differ, all of them, or an atom is the truth of that, or those with true conditions differ.
    pub(crate) fn different_made(
        &self,
        kind: AllDifferent,
        members: &[IntTerm],
        truth: Atom,
        conditions: &[BoolTerm],
    ) -> Result<MadeCores, AllocError>
        requires room { (different_made self.now.vars kind (integers_of self.now.entries.now members.now) truth
            (atoms_of self.now.entries.now conditions.now)).vars < 2 ^ 27 }
        ensures { IfOk result
            (λ m. m ≡ different_made self.now.vars kind (integers_of self.now.entries.now members.now) truth
            (atoms_of self.now.entries.now conditions.now)) }
    {
        let ints = integers_of(self.alloc, self.entries, members)?;
        match kind {
            AllDifferent::Plain => {
                let conditions = true_conditions(self.alloc, ints.as_slice())?;
                MadeCores::of_core(
                    self.alloc,
                    self.vars,
                    Core::all_diff(self.alloc, ints, conditions)?,
                )
            }
            AllDifferent::Reified => difference_made(self.alloc, self.vars, ints.as_slice(), truth),
            AllDifferent::Conditional => {
                let conditions = atoms_of(self.alloc, self.entries, conditions)?;
                MadeCores::of_core(
                    self.alloc,
                    self.vars,
                    Core::all_diff(self.alloc, ints, conditions)?,
                )
            }
        }
    }

    /// A list as integers.
    fn word_of(
        &self,
        of_booleans: bool,
        truths: &[BoolTerm],
        numbers: &[IntTerm],
    ) -> Result<Sequence<OrdInt>, AllocError>
        ensures { IfOk result (λ ints. ints ≡ word_of self.now.entries.now of_booleans truths.now numbers.now) }
    {
        if of_booleans {
            bits_of(self.alloc, self.entries, truths)
        } else {
            integers_of(self.alloc, self.entries, numbers)
        }
    }

    /// An atom is the truth of the order of two lists, or they are in order.
    pub(crate) fn order_made(
        &self,
        order: Order,
        lists: &OrderLists<'_>,
        truth: &Option<Apart<BoolTerm>>,
    ) -> Result<MadeCores, AllocError>
        ensures { IfOk result
            (λ m. m
            ≡ made_here self.now.vars
            (order_core self.now.entries.now order lists.now.left_truths.now lists.now.right_truths.now
            lists.now.left_numbers.now
            lists.now.right_numbers.now truth.now ∷ [])) }
    {
        let booleans = order.of_booleans;
        let front = self.word_of(booleans, lists.left_truths, lists.left_numbers)?;
        let back = self.word_of(booleans, lists.right_truths, lists.right_numbers)?;
        let atom = if order.reified {
            atom_or_true(self.entries, truth)
        } else {
            Atom::True
        };
        let core = Core::lex(self.alloc, atom, order.strict, front, back)?;
        MadeCores::of_core(self.alloc, self.vars, core)
    }
}
