//! Cores put into words: the form's name with its flag, the atoms, the integers, and the number of a sum, with blanks
//! between them. An integer is its base and its steps in brackets; a step is its atom, with `:` and the weight behind
//! it where that is not 1.

use bee_text::{push_blank, push_bytes, push_number, push_signed};
use core_forms::Core;
use ledger_text::push_atom;
use order_ints::{Atom, OrdInt};
use std::alloc::{AllocError, Global};

/// Puts a step behind a text.
fn push_step(text: &mut Vec<u8>, atom: Atom, weight: u128) -> Result<(), AllocError> {
    push_blank(text)?;
    push_atom(text, atom)?;
    if weight == 1 {
        return Ok(());
    }
    push_bytes(text, b":")?;
    push_number(text, weight)
}

/// Puts an integer behind a text.
pub fn push_int(text: &mut Vec<u8>, a: &OrdInt) -> Result<(), AllocError> {
    push_bytes(text, b"(")?;
    push_signed(text, a.base)?;
    for step in a.steps.as_slice() {
        push_step(text, step.0, step.1)?;
    }
    push_bytes(text, b")")
}

/// The name of a form, and its flag.
fn name(core: &Core) -> &'static [u8] {
    match core {
        Core::Ladder(_) => b"Ladder",
        Core::Clause(_) => b"Clause",
        Core::Parity(_, true) => b"Parity odd",
        Core::Parity(_, false) => b"Parity even",
        Core::Conj(_, _) => b"Conj",
        Core::Comp(_, _, _, _) => b"Comp",
        Core::LeqR(_, _, _) => b"LeqR",
        Core::EqR(_, _, _) => b"EqR",
        Core::Sum3(_, _, _) => b"Sum3",
        Core::Count(_, _) => b"Count",
        Core::Sum(_, _) => b"Sum",
        Core::Max(_, _) => b"Max",
        Core::AllDiff(_, _) => b"AllDiff",
        Core::Amo(_) => b"Amo",
        Core::Prod(_, _, _) => b"Prod",
        Core::DivMod(_, _, _, _) => b"DivMod",
        Core::Lex(_, true, _, _) => b"Lex strict",
        Core::Lex(_, false, _, _) => b"Lex or",
    }
}

/// Puts the integers of a core behind a text.
fn push_ints(text: &mut Vec<u8>, core: &Core) -> Result<(), AllocError> {
    for a in core.ints() {
        push_blank(text)?;
        push_int(text, a)?;
    }
    Ok(())
}

/// Puts a core behind a text.
pub fn push_core(text: &mut Vec<u8>, core: &Core) -> Result<(), AllocError> {
    push_bytes(text, name(core))?;
    for atom in core.atoms() {
        push_blank(text)?;
        push_atom(text, *atom)?;
    }
    push_ints(text, core)?;
    if let Core::Sum(_, total) = core {
        push_blank(text)?;
        push_signed(text, *total.get())?;
    }
    Ok(())
}

/// A core in words.
pub fn core_text(alloc: Global, core: &Core) -> Result<Vec<u8>, AllocError> {
    let mut text = Vec::new(alloc);
    push_core(&mut text, core)?;
    Ok(text)
}
