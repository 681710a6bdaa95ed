//! What is wished of the declared names, as literals. They are decided first where any solution is sought, so that one
//! with these values is found where there is one; and nothing is promised of it.

use crate::solved::Names;
use order_ints::{Atom, Lit, MapValue, OrdInt, resolve};
use std::alloc::AllocError;

/// Adds the literal of an atom as the store has it, unless that decides it.
fn push_atom(out: &mut Vec<Lit>, view: &[Atom], atom: Atom) -> Result<(), AllocError> {
    match resolve(view, atom) {
        Atom::Of(literal) => out.push(literal)?,
        Atom::True | Atom::False => {}
    }
    Ok(())
}

/// Adds the literals of an integer's last step up to a number and of its first one above it.
fn push_number(
    out: &mut Vec<Lit>,
    view: &[Atom],
    integer: &OrdInt,
    number: i128,
) -> Result<(), AllocError> {
    let mut value = integer.base;
    let mut last = Atom::True;
    for step in integer.steps.as_slice() {
        value = value.saturating_add_unsigned(step.1);
        if value > number {
            push_atom(out, view, step.0.not())?;
            break;
        }
        last = step.0;
    }
    push_atom(out, view, last)
}

/// Adds the literals that say that a name has a number.
fn push_wished(
    out: &mut Vec<Lit>,
    view: &[Atom],
    named: &MapValue,
    number: i64,
) -> Result<(), AllocError> {
    match named {
        MapValue::Bool(atom) if number == 0 => push_atom(out, view, atom.not()),
        MapValue::Bool(atom) => push_atom(out, view, *atom),
        MapValue::Int(integer) => push_number(out, view, integer, i128::from(number)),
    }
}

/// The literals that say that the names have the numbers that are wished for.
pub fn wished_literals(names: &Names<'_>) -> Result<Vec<Lit>, AllocError> {
    let mut out = Vec::new(names.alloc);
    for (named, wished) in names.map.entries.as_slice().iter().zip(names.wish.iter()) {
        if let Some(number) = wished {
            push_wished(&mut out, names.view, named, *number)?;
        }
    }
    Ok(out)
}
