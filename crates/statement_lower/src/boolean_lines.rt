//! The cores of the lines over Booleans alone.

ghost use Rattle.std.specs.Prelude.{◌≡◌, ◌+◌, ◌<◌, ◌^◌, ◌∷◌, ◌++◌, [], IfOk};
ghost use Rattle.statement_lower.specs.Terms.{atom_of, atoms_of};
ghost use Rattle.statement_lower.specs.Fresh.{fresh_atom, second_fresh_atom};
ghost use Rattle.statement_lower.specs.Lines.{equal_core, equal_cores, array_cores, all_equal_cores, made_here};
ghost use Rattle.statement_lower.specs.Lines.{operator_made};

use crate::lowering::Lowering;
use crate::made::MadeCores;
use crate::terms::{atom_of, atoms_of, negated_atoms};
use bee_list::Sequence;
use core_forms::Core;
use model_meaning::{BoolTerm, Operator};
use order_ints::{Atom, Lit};
use std::alloc::{AllocError, Global};

/// The core that says that two atoms are equal.
fn equal_core(alloc: Global, x: Atom, y: Atom) -> Result<Core, AllocError>
    ensures { IfOk result (λ core. core ≡ equal_core x y) }
{
    let atoms = vec![in alloc; x, y]?;
    Ok(Core::Parity(Sequence::from_vec(atoms), false))
}

/// The cores that say that each further atom equals the first one.
fn equal_cores(alloc: Global, atoms: &[Atom]) -> Result<Sequence<Core>, AllocError>
    ensures { IfOk result (λ cores. cores ≡ equal_cores atoms.now) }
{
    let mut cores = Vec::new(alloc);
    if let Some((first, others)) = atoms.split_first() {
        for other in others {
            cores.push(equal_core(alloc, *first, *other)?)?;
        }
    }
    Ok(Sequence::from_vec(cores))
}

/// Whether all are true, whether none is, and that an atom is the truth of one of these.
fn all_equal_cores(
    alloc: Global,
    all: Atom,
    none: Atom,
    atoms: Sequence<Atom>,
    truth: Atom,
) -> Result<Sequence<Core>, AllocError>
    ensures { IfOk result (λ cores. cores ≡ all_equal_cores all none atoms truth) }
{
    let negated = negated_atoms(alloc, atoms.as_slice())?;
    let neither = vec![in alloc; all.not(), none.not()]?;
    let first = Core::Conj(all, atoms);
    let second = Core::Conj(none, negated);
    let third = Core::Conj(truth.not(), Sequence::from_vec(neither));
    Ok(Sequence::from_vec(vec![in alloc; first, second, third]?))
}

/// The atoms, and one more behind them.
fn with_last(atoms: Sequence<Atom>, last: Atom) -> Result<Sequence<Atom>, AllocError>
    ensures { IfOk result (λ all. all ≡ atoms ++ last ∷ []) }
{
    let mut all = atoms.into_vec();
    all.push(last)?;
    Ok(Sequence::from_vec(all))
}

/// An atom is the truth of an operator of a list.
fn operator_made(
    alloc: Global,
    vars: u32,
    operator: Operator,
    atoms: Sequence<Atom>,
    truth: Atom,
) -> Result<MadeCores, AllocError>
    requires room { (operator_made vars operator atoms truth).vars < 2 ^ 27 }
    ensures { IfOk result (λ m. m ≡ operator_made vars operator atoms truth) }
{
    match operator {
        Operator::Or => {
            let negated = negated_atoms(alloc, atoms.as_slice())?;
            MadeCores::of_core(alloc, vars, Core::Conj(truth.not(), negated))
        }
        Operator::And => MadeCores::of_core(alloc, vars, Core::Conj(truth, atoms)),
        Operator::Xor => {
            let all = with_last(atoms, truth)?;
            MadeCores::of_core(alloc, vars, Core::Parity(all, false))
        }
        Operator::Iff => {
            let all = Atom::Of(Lit::of(vars + 1, true));
            let none = Atom::Of(Lit::of(vars + 2, true));
            let cores = all_equal_cores(alloc, all, none, atoms, truth)?;
            Ok(MadeCores {
                vars: vars + 2,
                cores,
            })
        }
    }
}

impl Lowering<'_> {
    /// Two Booleans are equal.
    pub(crate) fn equal_made(
        &self,
        left: BoolTerm,
        right: BoolTerm,
    ) -> Result<MadeCores, AllocError>
        ensures { IfOk result
            (λ m. m ≡ made_here self.now.vars (equal_core (atom_of self.now.entries.now left)
            (atom_of self.now.entries.now right) ∷ [])) }
    {
        let core = equal_core(
            self.alloc,
            atom_of(self.entries, left),
            atom_of(self.entries, right),
        )?;
        MadeCores::of_core(self.alloc, self.vars, core)
    }

    /// An operator of a list is true.
    pub(crate) fn array_made(
        &self,
        operator: Operator,
        members: &[BoolTerm],
    ) -> Result<MadeCores, AllocError>
        ensures { IfOk result (λ m. m ≡ made_here self.now.vars
            (array_cores operator (atoms_of self.now.entries.now members.now))) }
    {
        let atoms = atoms_of(self.alloc, self.entries, members)?;
        match operator {
            Operator::Or => MadeCores::of_core(self.alloc, self.vars, Core::Clause(atoms)),
            Operator::And => MadeCores::of_core(
                self.alloc,
                self.vars,
                Core::Conj(Atom::True, atoms),
            ),
            Operator::Xor => MadeCores::of_core(self.alloc, self.vars, Core::Parity(atoms, true)),
            Operator::Iff => {
                let cores = equal_cores(self.alloc, atoms.as_slice())?;
                Ok(MadeCores {
                    vars: self.vars,
                    cores,
                })
            }
        }
    }

    /// A Boolean is an operator of two.
    pub(crate) fn pair_made(
        &self,
        operator: Operator,
        left: BoolTerm,
        right: BoolTerm,
        truth: BoolTerm,
    ) -> Result<MadeCores, AllocError>
        requires room { (operator_made self.now.vars operator
            (atom_of self.now.entries.now left ∷ atom_of self.now.entries.now right ∷ [])
            (atom_of self.now.entries.now truth)).vars < 2 ^ 27 }
        ensures { IfOk result
            (λ m. m ≡ operator_made self.now.vars operator
            (atom_of self.now.entries.now left ∷ atom_of self.now.entries.now right ∷ [])
            (atom_of self.now.entries.now truth)) }
    {
        let atoms = vec![in self.alloc; atom_of(self.entries, left), atom_of(self.entries, right)]?;
        let truth = atom_of(self.entries, truth);
        operator_made(
            self.alloc,
            self.vars,
            operator,
            Sequence::from_vec(atoms),
            truth,
        )
    }

    /// A Boolean is an operator of a list.
    pub(crate) fn truth_made(
        &self,
        operator: Operator,
        members: &[BoolTerm],
        truth: BoolTerm,
    ) -> Result<MadeCores, AllocError>
        requires room { (operator_made self.now.vars operator (atoms_of self.now.entries.now members.now)
            (atom_of self.now.entries.now truth)).vars < 2 ^ 27 }
        ensures { IfOk result
            (λ m. m ≡ operator_made self.now.vars operator (atoms_of self.now.entries.now members.now)
            (atom_of self.now.entries.now truth)) }
    {
        let atoms = atoms_of(self.alloc, self.entries, members)?;
        operator_made(
            self.alloc,
            self.vars,
            operator,
            atoms,
            atom_of(self.entries, truth),
        )
    }
}
