//! A core of few variables.

ghost use Rattle.std.specs.Prelude.{◌≡◌, ◌<◌, ◌≤◌, ◌-◌, ◌++◌, length, take, drop, nat_lt, []};
ghost use Rattle.std.specs.Prelude.{◌∷◌, IfSome, IfNone, IsTrue};
ghost use Rattle.std.specs.List.{prefix_len};
ghost use Rattle.core_forms.specs.Variables.{atom_vars, atoms_vars, int_vars, ints_vars, core_vars};
ghost use Rattle.core_forms.specs.OwnVars.{with_var, with_vars, own_vars, if_few};

use crate::contents::Members;
use crate::form::Core;
use order_ints::{Atom, OrdInt};
use std::marker::Model;
use std::slice::from_ref;

/// So many members at the end of a list are looked at first: in what is left of a list that was cut, fresh variables
/// stand there, and nine of them settle it.
const LAST: usize = 16;

/// At most eight variables, ascending. They take no memory, and a clause sees them as a list.
#[derive(Drop)]
pub struct FewVars {
    vars: [u32; 8],
    count: usize,
}

impl Model for FewVars {
    ghost use Rattle.std.specs.Prelude.{List, ℕ, ◌≤◌, take};

    ghost Value = { List ℕ };

    ghost view = { λ few. take few.count few.vars };

    ghost invariant = { λ few. few.count ≤ 8 };
}

/// How many of the first variables are below another one.
fn count_below(vars: &[u32], var: u32) -> usize
    ensures { result ≡ prefix_len (λ other. nat_lt other var) vars.now }
{
    vars.iter().take_while(|other| **other < var).count()
}

/// The place of a variable among ascending ones; `None` where it is there.
fn place_for(vars: &[u32], var: u32) -> Option<usize>
    ensures range { IfSome result (λ place. place ≤ length vars.now) }
    ensures place { IfSome result (λ place. take place vars.now ++ var ∷ drop place vars.now ≡ with_var var vars.now) }
    ensures there { IfNone result (vars.now ≡ with_var var vars.now) }
{
    let place = count_below(vars, var);
    if place < vars.len() && vars[place] == var {
        None
    } else {
        Some(place)
    }
}

/// Puts a variable at a place, each one behind it a place further; the last one leaves.
fn put_between(vars: &mut [u32], place: usize, var: u32)
    requires { place < length vars.old }
    ensures { vars.new ≡ take place vars.old ++ var ∷ drop place (take (length vars.old - 1) vars.old) }
{
    let last = vars.len() - 1;
    vars[last] = var;
    vars[place..].rotate_right(1);
}

impl FewVars {
    /// No variable.
    pub(crate) fn none() -> FewVars
        ensures { result ≡ [] }
    {
        FewVars {
            vars: [0; 8],
            count: 0,
        }
    }

    /// The variables.
    pub fn as_slice(&self) -> &[u32]
        ensures list { result.now ≡ self.now }
        ensures few { length self.now ≤ 8 }
    {
        &self.vars[..self.count]
    }

    /// Puts a variable at a place, each one behind it a place further; `None` where it would be the ninth.
    fn put_at(&mut self, place: usize, var: u32) -> Option<()>
        requires { place ≤ length self.old }
        ensures put { IfSome result (λ _. self.new ≡ take place self.old ++ var ∷ drop place self.old) }
        ensures full { IfNone result (8 ≤ length self.old) }
    {
        if self.count == 8 {
            return None;
        }
        self.count += 1;
        put_between(&mut self.vars[..self.count], place, var);
        Some(())
    }

    /// Puts a variable among them; `None` where it would be the ninth.
    pub(crate) fn put(&mut self, var: u32) -> Option<()>
        ensures put { IfSome result (λ _. self.new ≡ with_var var self.old) }
        ensures full { IfNone result (8 < length (with_var var self.old)) }
    {
        match place_for(self.as_slice(), var) {
            None => Some(()),
            Some(place) => self.put_at(place, var),
        }
    }

    /// Puts the variable of an atom among them.
    fn put_atom(&mut self, atom: Atom) -> Option<()>
        ensures put { IfSome result (λ _. self.new ≡ with_vars (atom_vars atom) self.old) }
        ensures full { IfNone result (8 < length (with_vars (atom_vars atom) self.old)) }
    {
        match atom {
            Atom::True | Atom::False => Some(()),
            Atom::Of(literal) => self.put(literal.var()),
        }
    }

    /// Puts the variables of an integer among them.
    fn put_int(&mut self, a: &OrdInt) -> Option<()>
        ensures put { IfSome result (λ _. self.new ≡ with_vars (int_vars a.now) self.old) }
        ensures full { IfNone result (8 < length (with_vars (int_vars a.now) self.old)) }
    {
        for step in a.steps.as_slice() {
            self.put_atom(step.0)?;
        }
        Some(())
    }
}

/// Puts the variables of atoms among others.
fn put_atoms(vars: &mut FewVars, atoms: Members<'_, Atom>) -> Option<()>
    ensures put { IfSome result (λ _. vars.new ≡ with_vars (atoms_vars atoms.entry) vars.old) }
    ensures full { IfNone result (8 < length (with_vars (atoms_vars atoms.entry) vars.old)) }
{
    for atom in atoms {
        vars.put_atom(*atom)?;
    }
    Some(())
}

/// Puts the variables of integers among others.
fn put_ints(vars: &mut FewVars, ints: Members<'_, OrdInt>) -> Option<()>
    ensures put { IfSome result (λ _. vars.new ≡ with_vars (ints_vars ints.entry) vars.old) }
    ensures full { IfNone result (8 < length (with_vars (ints_vars ints.entry) vars.old)) }
{
    for a in ints {
        vars.put_int(a)?;
    }
    Some(())
}

/// The different variables of atoms and integers, ascending, where there are at most eight.
fn few_of(atoms: Members<'_, Atom>, ints: Members<'_, OrdInt>) -> Option<FewVars>
    ensures { result ≡ if_few (with_vars (atoms_vars atoms.entry ++ ints_vars ints.entry) []) }
{
    let mut vars = FewVars::none();
    put_atoms(&mut vars, atoms)?;
    put_ints(&mut vars, ints)?;
    let _known = &vars.count;
    Some(vars)
}

/// Whether the last of many atoms have nine different variables.
fn have_many_at_end(atoms: &[Atom]) -> bool
    ensures { IsTrue result → 8 < length (with_vars (atoms_vars atoms.now) []) }
{
    if atoms.len() <= LAST {
        return false;
    }
    let (_, last) = atoms.split_at(atoms.len() - LAST);
    put_atoms(&mut FewVars::none(), Members::of(last)).is_none()
}

/// Whether the last of many integers have nine different variables.
fn have_many_steps_at_end(ints: &[OrdInt]) -> bool
    ensures { IsTrue result → 8 < length (with_vars (ints_vars ints.now) []) }
{
    if ints.len() <= LAST {
        return false;
    }
    let (_, last) = ints.split_at(ints.len() - LAST);
    put_ints(&mut FewVars::none(), Members::of(last)).is_none()
}

/// Whether the last members of a core have nine different variables, where it is cut as a list.
fn has_many_at_end(core: &Core) -> bool
    ensures { IsTrue result → 8 < length (own_vars core.now) }
{
    match core {
        Core::Parity(atoms, _) | Core::Amo(atoms) => have_many_at_end(atoms.as_slice()),
        Core::Sum(ints, _) => have_many_steps_at_end(ints.as_slice()),
        _ => false,
    }
}

/// The different variables of a core, ascending, where there are at most eight. It takes no memory and one pass over
/// the core, which ends at the ninth; nine at the end of a long parity, at-most-one or sum end it at once.
pub fn few_variables(core: &Core) -> Option<FewVars>
    ensures { result ≡ if_few (own_vars core.now) }
{
    if has_many_at_end(core) {
        return None;
    }
    few_of(core.atoms(), core.ints())
}

/// The different variables of an atom and of two lists of integers, ascending, where there are at most eight. It takes
/// no memory and one pass, which ends at the ninth.
pub fn few_of_words(truth: Atom, front: &[OrdInt], back: &[OrdInt]) -> Option<FewVars>
    ensures { result ≡ if_few (with_vars (atom_vars truth ++ (ints_vars front.now ++ ints_vars back.now)) []) }
{
    few_of(Members::of(from_ref(&truth)), Members::of_two(front, back))
}
