//! The cores of a statement whether all members differ: a fresh atom for each two of them.

ghost use Rattle.std.specs.Prelude.{◌≡◌, ◌+◌, ◌<◌, ◌^◌, ◌∷◌, ◌++◌, [], map, IfOk, OnOk};
ghost use Rattle.order_ints.specs.Truth.{not_atom};
ghost use Rattle.core_forms.specs.declared.form.Core.TheVariants.{EqR};
ghost use Rattle.statement_lower.specs.Fresh.{fresh_atom};
ghost use Rattle.statement_lower.specs.Pairs.{each_vars, each_atoms, each_equal, pairs_vars, pairs_atoms, pairs_equal};
ghost use Rattle.statement_lower.specs.Pairs.{difference_made};

use crate::made::MadeCores;
use bee_list::Sequence;
use core_forms::Core;
use order_ints::{Atom, Lit, OrdInt};
use std::alloc::{AllocError, Global};

/// Some of the members' pairs, each with a fresh atom.
#[derive(Drop)]
struct Pairs {
    /// How many variables there are, the fresh ones among them.
    vars: u32,
    /// The fresh atoms, negated.
    apart: Vec<Atom>,
    /// Each fresh atom is the truth of two members being equal.
    cores: Vec<Core>,
}

impl Pairs {
    /// No pair yet.
    fn new(alloc: Global, vars: u32) -> Pairs
        ensures vars { result.vars ≡ vars }
        ensures apart { result.apart.items ≡ [] }
        ensures cores { result.cores.items ≡ [] }
    {
        Pairs {
            vars,
            apart: Vec::new(alloc),
            cores: Vec::new(alloc),
        }
    }

    /// Adds two members.
    fn add(&mut self, alloc: Global, a: &OrdInt, b: &OrdInt) -> Result<(), AllocError>
        requires room { self.old.vars + 1 < 2 ^ 27 }
        ensures vars { OnOk result (self.new.vars ≡ self.old.vars + 1) }
        ensures apart { OnOk result (self.new.apart.items ≡ self.old.apart.items ++ not_atom (fresh_atom self.old.vars)
            ∷ []) }
        ensures cores { OnOk result (self.new.cores.items ≡ self.old.cores.items
            ++ EqR (fresh_atom self.old.vars) a.now b.now ∷ []) }
    {
        let equal = Atom::Of(Lit::of(self.vars + 1, true));
        let core = Core::eq_r(alloc, equal, a.clone()?, b.clone()?)?;
        self.apart.push(equal.not())?;
        self.cores.push(core)?;
        self.vars += 1;
        Ok(())
    }

    /// Adds one member beside each of others.
    fn add_each(&mut self, alloc: Global, a: &OrdInt, others: &[OrdInt]) -> Result<(), AllocError>
        requires room { each_vars self.old.vars others.now < 2 ^ 27 }
        ensures vars { OnOk result (self.new.vars ≡ each_vars self.old.vars others.now) }
        ensures apart { OnOk result (self.new.apart.items ≡ self.old.apart.items
            ++ map not_atom (each_atoms self.old.vars others.now)) }
        ensures cores { OnOk result (self.new.cores.items ≡ self.old.cores.items
            ++ each_equal self.old.vars a.now others.now) }
    {
        let mut rest = others;
        while let Some((b, later)) = rest.split_first() {
            self.add(alloc, a, b)?;
            rest = later;
        }
        Ok(())
    }

    /// Adds each two of the members.
    fn add_all(&mut self, alloc: Global, ints: &[OrdInt]) -> Result<(), AllocError>
        requires room { pairs_vars self.old.vars ints.now < 2 ^ 27 }
        ensures vars { OnOk result (self.new.vars ≡ pairs_vars self.old.vars ints.now) }
        ensures apart { OnOk result (self.new.apart.items ≡ self.old.apart.items
            ++ map not_atom (pairs_atoms self.old.vars ints.now)) }
        ensures cores { OnOk result
            (self.new.cores.items ≡ self.old.cores.items ++ pairs_equal self.old.vars ints.now) }
    {
        let mut rest = ints;
        while let Some((a, later)) = rest.split_first() {
            self.add_each(alloc, a, later)?;
            rest = later;
        }
        Ok(())
    }
}

/// An atom is the truth of all members being different. There is a core for each two members, so the time is that of
/// their number times the length of the integers.
pub(crate) fn difference_made(
    alloc: Global,
    vars: u32,
    ints: &[OrdInt],
    truth: Atom,
) -> Result<MadeCores, AllocError>
    requires room { pairs_vars vars ints.now < 2 ^ 27 }
    ensures { IfOk result (λ m. m ≡ difference_made vars ints.now truth) }
{
    let mut pairs = Pairs::new(alloc, vars);
    pairs.add_all(alloc, ints)?;
    let Pairs {
        vars,
        apart,
        mut cores,
    } = pairs;
    cores.push(Core::Conj(truth, Sequence::from_vec(apart)))?;
    Ok(MadeCores {
        vars,
        cores: Sequence::from_vec(cores),
    })
}
