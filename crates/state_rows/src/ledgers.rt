//! A ledger and the state to which it leads, in words, as a row has them.

use crate::steps_made::{shown, started};
use bee_text::push_bytes;
use ledger_text::{Line, write_step};
use std::alloc::{AllocError, Global};
use std::io;
use std::process::Abort;
use step_kernel::{ApplyFault, State};

/// The number of variables, cores in words, the ledger's lines, and the state at the end.
pub(super) type Row = (u32, &'static [&'static str], &'static str, &'static str);

/// The lines of a ledger, with a semicolon between them.
fn ledger_words(alloc: Global, ledger: &[Line]) -> Result<Vec<u8>, AllocError> {
    let mut text = Vec::new(alloc);
    for (place, line) in ledger.iter().enumerate() {
        if 0 < place {
            push_bytes(&mut text, b"; ")?;
        }
        push_bytes(&mut text, write_step(alloc, line)?.as_slice())?;
    }
    Ok(text)
}

/// A ledger in words. Where memory is refused it is asked for once more.
fn shown_ledger(alloc: Global, ledger: &[Line]) -> Result<Vec<u8>, AllocError> {
    match ledger_words(alloc, ledger) {
        Ok(text) => Ok(text),
        Err(_) => ledger_words(alloc, ledger),
    }
}

/// Asserts that a ledger leads from the state at the start to the one in words.
fn replay(rt: &impl Abort, alloc: Global, row: Row, ledger: &[Line]) -> io::Result<()> {
    let (vars, cores, _, wanted) = row;
    let mut state = started(rt, alloc, vars, cores)?;
    for line in ledger {
        let mut answer = state.apply(line);
        if answer == Err(ApplyFault::Memory) {
            answer = state.apply(line);
        }
        assert_eq!(rt; answer, Ok(()));
    }
    let found = shown(alloc, &state)?;
    assert_eq!(rt; found.as_slice(), wanted.as_bytes());
    Ok(())
}

/// Asserts that a ledger and a state are those of a row, and that the ledger leads to the state.
pub(super) fn compare(
    rt: &impl Abort,
    alloc: Global,
    row: Row,
    state: &State,
    ledger: &[Line],
) -> io::Result<()> {
    let (_, _, wanted_ledger, wanted_state) = row;
    let found = shown_ledger(alloc, ledger)?;
    assert_eq!(rt;
        found.as_slice(),
        wanted_ledger.as_bytes(),
        "{wanted_ledger}"
    );
    let found = shown(alloc, state)?;
    assert_eq!(rt; found.as_slice(), wanted_state.as_bytes(), "{wanted_state}");
    replay(rt, alloc, row, ledger)
}
