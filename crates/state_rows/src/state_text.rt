//! States in words, whole: the number of variables and their labels; each pending core with its id, as it was made
//! and, where it is another one now, as the store has it; the next id; the least pending id and the least one whose
//! core is compound; bottom; and the CNF, its number of variables and its clauses.

use bee_text::{push_blank, push_bytes, push_number};
use core_forms::Core;
use core_words::core_text;
use ledger_text::{push_atom, push_literal};
use order_ints::{Cnf, Lit};
use std::alloc::{AllocError, Global};
use step_kernel::State;

/// Puts a pending core behind a text.
fn put_pending(
    text: &mut Vec<u8>,
    alloc: Global,
    id: u64,
    made: &Core,
    now: &Core,
) -> Result<(), AllocError> {
    let made = core_text(alloc, made)?;
    let now = core_text(alloc, now)?;
    push_bytes(text, b"; #")?;
    push_number(text, u128::from(id))?;
    push_blank(text)?;
    push_bytes(text, made.as_slice())?;
    if made.as_slice() != now.as_slice() {
        push_bytes(text, b" is ")?;
        push_bytes(text, now.as_slice())?;
    }
    Ok(())
}

/// Puts the pending cores of a state behind a text.
fn put_cores(text: &mut Vec<u8>, alloc: Global, state: &State) -> Result<(), AllocError> {
    for place in 0..state.ids() {
        let id = place + 1;
        let now = state.trimmed(alloc, id)?;
        if let (Some(made), Some(now)) = (state.core(id), now.as_ref()) {
            put_pending(text, alloc, id, made, now)?;
        }
    }
    Ok(())
}

/// Puts an id behind a text.
fn put_id(text: &mut Vec<u8>, id: Option<u64>) -> Result<(), AllocError> {
    push_blank(text)?;
    match id {
        Some(id) => push_number(text, u128::from(id)),
        None => push_bytes(text, b"none"),
    }
}

/// Puts the next id of a state and its least ones behind a text.
fn put_ids(text: &mut Vec<u8>, state: &State) -> Result<(), AllocError> {
    push_bytes(text, b"; next ")?;
    push_number(text, u128::from(state.ids()).saturating_add(1))?;
    push_bytes(text, b"; least")?;
    put_id(text, state.least())?;
    put_id(text, state.least_compound()?)
}

/// Puts a clause behind a text.
fn put_clause(text: &mut Vec<u8>, clause: &[Lit]) -> Result<(), AllocError> {
    push_bytes(text, b" (")?;
    for (place, literal) in clause.iter().enumerate() {
        if 0 < place {
            push_blank(text)?;
        }
        push_literal(text, *literal)?;
    }
    push_bytes(text, b")")
}

/// Puts a CNF behind a text.
fn put_cnf(text: &mut Vec<u8>, cnf: &Cnf) -> Result<(), AllocError> {
    push_bytes(text, b"; cnf ")?;
    push_number(text, u128::from(cnf.vars))?;
    for clause in cnf.clauses.as_slice() {
        put_clause(text, clause.as_slice())?;
    }
    Ok(())
}

/// Puts the labels of a state behind a text.
fn put_labels(text: &mut Vec<u8>, state: &State) -> Result<(), AllocError> {
    push_number(text, u128::from(state.vars()))?;
    push_bytes(text, b":")?;
    for label in state.view() {
        push_blank(text)?;
        push_atom(text, *label)?;
    }
    Ok(())
}

/// A state in words.
pub(super) fn state_text(alloc: Global, state: &State) -> Result<Vec<u8>, AllocError> {
    let mut text = Vec::new(alloc);
    put_labels(&mut text, state)?;
    put_cores(&mut text, alloc, state)?;
    put_ids(&mut text, state)?;
    if state.bottom() {
        push_bytes(&mut text, b"; bottom")?;
    }
    let cnf = state.cnf()?;
    put_cnf(&mut text, &cnf)?;
    Ok(text)
}
