//! A sum that is compared: the first two members make way for a fresh integer behind the others, which is their sum,
//! until two are left.

ghost use Rattle.std.specs.Prelude.{◌≡◌, ◌+◌, ◌<◌, ◌^◌, ◌∷◌, ◌++◌, [], drop, unsigned_abs};
ghost use Rattle.std.specs.Prelude.{IfOk, OnOk};
ghost use Rattle.order_ints.specs.declared.atom.Atom.TheVariants.{True};
ghost use Rattle.order_ints.specs.OrderRange.{IsBounded};
ghost use Rattle.order_ints.specs.OrderChange.{shifted_of, negated_of};
ghost use Rattle.core_forms.specs.declared.form.Core.TheVariants.{Sum3};
ghost use Rattle.core_forms.specs.WellFormed.{IsSound, AreSound, greatest_abs, abs_total};
ghost use Rattle.statement_lower.specs.Comparison.{comparison_core};
ghost use Rattle.statement_lower.specs.Queue.{fresh_sum, vars_behind_sum, first_or_zero};
ghost use Rattle.statement_lower.specs.Linear.{compared_made};

use crate::integer_lines::comparison_core;
use crate::made::MadeCores;
use crate::summands::Summands;
use bee_list::Sequence;
use core_forms::{Core, sums};
use model_meaning::Relation;
use order_ints::{Atom, OrdInt};
use std::alloc::{AllocError, Global};
use std::collections::VecDeque;

/// A fresh integer for the sum of two, with the variables behind so many.
fn fresh_sum(alloc: Global, vars: u32, a: &OrdInt, b: &OrdInt) -> Result<OrdInt, AllocError>
    requires a { IsSound a.now }
    requires b { IsSound b.now }
    requires limit { greatest_abs a.now + greatest_abs b.now < 2 ^ 100 }
    requires room { vars_behind_sum vars a.now b.now < 2 ^ 27 }
    ensures { IfOk result (λ z. z ≡ fresh_sum vars a.now b.now) }
{
    let values = sums(alloc, a, b)?;
    OrdInt::from_values(alloc, &values, vars + 1)
}

/// The first member, which is taken out, and 0 where there is none.
fn take_first(alloc: Global, members: &mut VecDeque<OrdInt>) -> Result<OrdInt, AllocError>
    ensures first { IfOk result (λ a. a ≡ first_or_zero members.old.items) }
    ensures rest { OnOk result (members.new.items ≡ drop 1 members.old.items) }
{
    match members.pop_front() {
        Some(first) => Ok(first),
        None => OrdInt::constant(alloc, 0),
    }
}

/// Members that are added up.
#[derive(Drop)]
struct Queue {
    /// How many variables there are, the fresh ones among them.
    vars: u32,
    /// The members that are left, the fresh ones last.
    members: VecDeque<OrdInt>,
    /// Each fresh integer is the sum of two members.
    cores: Vec<Core>,
}

impl Queue {
    /// Puts a fresh integer behind the members, which is the sum of two.
    fn add(&mut self, alloc: Global, a: OrdInt, b: OrdInt) -> Result<(), AllocError>
        requires a { IsSound a }
        requires b { IsSound b }
        requires limit { greatest_abs a + greatest_abs b < 2 ^ 100 }
        requires room { vars_behind_sum self.old.vars a b < 2 ^ 27 }
        ensures vars { OnOk result (self.new.vars ≡ vars_behind_sum self.old.vars a b) }
        ensures members { OnOk result (self.new.members.items ≡ self.old.members.items ++ fresh_sum self.old.vars a b
            ∷ []) }
        ensures cores { OnOk result (self.new.cores.items
            ≡ self.old.cores.items ++ Sum3 a b (fresh_sum self.old.vars a b) ∷ []) }
    {
        let sum = fresh_sum(alloc, self.vars, &a, &b)?;
        self.vars += sum.steps.len() as u32;
        self.members.push_back(sum.clone()?)?;
        self.cores.push(Core::sum3(alloc, a, b, sum)?)?;
        Ok(())
    }
}

/// The core that says that two integers and a number, added up, stand in a relation to 0.
fn last_core(
    alloc: Global,
    relation: Relation,
    a: &OrdInt,
    b: &OrdInt,
    constant: i128,
) -> Result<Core, AllocError>
    requires a { IsBounded a.now }
    requires b { IsBounded b.now }
    requires limit { IsBounded (shifted_of a.now constant) }
    ensures { IfOk result
        (λ core. core ≡ comparison_core relation True (shifted_of a.now constant) (negated_of b.now)) }
{
    comparison_core(
        alloc,
        relation,
        Atom::True,
        a.shifted(constant)?,
        b.negated()?,
    )
}

/// Members and a number, added up, stand in a relation to 0. Each member is moved, and a fresh one is copied once.
pub(crate) fn compared_made(
    alloc: Global,
    vars: u32,
    relation: Relation,
    members: Summands,
) -> Result<MadeCores, AllocError>
    requires sound { AreSound members.ints.items }
    requires limit { abs_total members.ints.items + unsigned_abs members.constant < 2 ^ 100 }
    requires room { (compared_made vars relation members.constant members.ints.items).vars < 2 ^ 27 }
    ensures { IfOk result (λ m. m ≡ compared_made vars relation members.constant members.ints.items) }
{
    let Summands { ints, constant } = members;
    let mut queue = Queue {
        vars,
        members: VecDeque::from(ints),
        cores: Vec::new(alloc),
    };
    while queue.members.len() > 2 {
        let first = take_first(alloc, &mut queue.members)?;
        let second = take_first(alloc, &mut queue.members)?;
        queue.add(alloc, first, second)?;
    }
    let first = take_first(alloc, &mut queue.members)?;
    let second = take_first(alloc, &mut queue.members)?;
    let core = last_core(alloc, relation, &first, &second, constant)?;
    queue.cores.push(core)?;
    Ok(MadeCores {
        vars: queue.vars,
        cores: Sequence::from_vec(queue.cores),
    })
}
