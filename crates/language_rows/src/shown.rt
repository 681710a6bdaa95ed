//! What a model is lowered to, as a text.

use bee_text::{push_blank, push_bytes, push_number};
use core_words::{push_core, push_int};
use ledger_text::push_atom;
use model_lower::Lowered;
use order_ints::MapValue;
use std::alloc::AllocError;

/// Puts what a name stands for behind a text.
fn push_entry(text: &mut Vec<u8>, entry: &MapValue) -> Result<(), AllocError> {
    push_blank(text)?;
    match entry {
        MapValue::Bool(atom) => push_atom(text, *atom),
        MapValue::Int(integer) => push_int(text, integer),
    }
}

/// Puts what a model is lowered to behind a text: how many variables there are, the entries of the map, and the cores.
pub(super) fn push_lowered(text: &mut Vec<u8>, lowered: &Lowered) -> Result<(), AllocError> {
    push_number(text, u128::from(lowered.vars))?;
    push_bytes(text, b":")?;
    for entry in lowered.map.entries.as_slice() {
        push_entry(text, entry)?;
    }
    for core in lowered.cores.as_slice() {
        push_bytes(text, b"; ")?;
        push_core(text, core)?;
    }
    Ok(())
}
