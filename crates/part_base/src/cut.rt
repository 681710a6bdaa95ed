//! A core that is a long list, split at its front.

ghost use Rattle.std.specs.Prelude.{◌≡◌, OnOk, OnErr};
ghost use Rattle.core_forms.specs.declared.form.Core.{Core};
ghost use Rattle.part_base.specs.declared.cut.Coming.{Coming};
ghost use Rattle.part_base.specs.Cuts.{CanCome, with_member, with_integer, longer_of, shorter_of};

use bee_list::Sequence;
use core_forms::{Core, Summands};
use order_ints::{Atom, OrdInt};
use std::alloc::AllocError;

/// What comes behind the members of a list.
#[derive(Drop)]
pub enum Coming {
    /// A member of a parity or of at-most-one.
    Member(Atom),
    /// A member of a sum.
    Integer(OrdInt),
    /// Nothing comes.
    Nothing,
}

/// The parts of a core that is a long list, but for the list itself: that part is made of the core once it is used up,
/// without a copy. A list of n members is split some n times, so each of them costs what leaves and what comes, and not
/// what stays.
#[derive(Drop)]
pub struct Cut {
    /// The parts before what is left of the list, in order.
    pub front: Sequence<Core>,
    /// The parts behind it, in order.
    pub back: Sequence<Core>,
    /// What comes behind the list's members.
    pub coming: Coming,
    /// The truth of what is left of an order of words. The other forms have none.
    pub head: Atom,
    /// How many fresh variables there are.
    pub fresh: u32,
}

/// A list of atoms takes what comes behind it.
fn put_member(atoms: &mut Sequence<Atom>, coming: Coming) -> Result<(), AllocError>
    ensures longer { OnOk result (atoms.new ≡ with_member atoms.old coming) }
    ensures stays { OnErr result (atoms.new ≡ atoms.old) }
{
    match coming {
        Coming::Member(atom) => atoms.push(atom),
        Coming::Integer(_) | Coming::Nothing => Ok(()),
    }
}

/// A list of integers takes what comes behind it.
fn put_integer(ints: &mut Summands, coming: Coming) -> Result<(), AllocError>
    ensures longer { OnOk result (ints.new ≡ with_integer ints.old coming) }
    ensures stays { OnErr result (ints.new ≡ ints.old) }
{
    match coming {
        Coming::Integer(int) => ints.push(int),
        Coming::Member(_) | Coming::Nothing => Ok(()),
    }
}

/// The list takes what comes behind its members. For want of memory it stays. It takes constant time, but where the
/// list's memory is moved to grow.
pub fn put_behind(core: &mut Core, coming: Coming) -> Result<(), AllocError>
    ensures longer { OnOk result (core.new ≡ longer_of coming core.old) }
    ensures stays { OnErr result (core.new ≡ core.old) }
{
    match core {
        Core::Parity(atoms, _) => put_member(atoms, coming),
        Core::Amo(atoms) => put_member(atoms, coming),
        Core::Sum(ints, _) => put_integer(ints, coming),
        _ => Ok(()),
    }
}

/// What came behind the members of a list last is taken away again.
pub fn take_behind(core: &mut Core)
    ensures { (coming : Coming) (before : Core) → CanCome coming before
        → core.old ≡ longer_of coming before → core.new ≡ before }
{
    match core {
        Core::Parity(atoms, _) => atoms.drop_last(),
        Core::Amo(atoms) => atoms.drop_last(),
        Core::Sum(ints, _) => ints.drop_last(),
        _ => {}
    }
}

/// The first members of a list leave: two of a parity or a sum, three of at-most-one, and the first pair of an order of
/// words, whose truth becomes another atom. It takes constant time.
pub fn drop_before(core: &mut Core, head: Atom)
    ensures { core.new ≡ shorter_of head core.old }
{
    match core {
        Core::Parity(atoms, _) => atoms.drop_front(2),
        Core::Amo(atoms) => atoms.drop_front(3),
        Core::Sum(ints, _) => ints.drop_front(2),
        Core::Lex(truth, _, front, back) => {
            *truth = head;
            front.drop_front(1);
            back.drop_front(1);
        }
        _ => {}
    }
}
