//! Which pending cores a state lends as it has them, since trimming would leave them as they were made; which with
//! their edge as the store has it; and which are cut at their front.

use crate::step_faults::apply;
use crate::steps_made::started;
use bee_text::{push_blank, push_bytes, push_number};
use core_words::core_text;
use std::alloc::{AllocError, Global};
use std::io;
use std::process::Abort;
use step_kernel::State;

/// Lines, and the ids that are lent behind each. The cores are `Parity even 1 2`, `Parity odd 2 3 4 5`,
/// `Amo 3 4 5`, `Sum (0 6) (0 7) 1`, `Lex or T (0 3) (0 4)`, `Clause 3`, whose form is not looked at, and
/// `Parity odd 6 7`; the parts of the second one are `Parity even 1 3 8` and `Parity odd 4 5 8`.
static LENT: [(&str, &str); 6] = [
    ("start", " 1 2 3 4 5 7"),
    ("eq 1 form 1 2", " 3 4 5 7"),
    ("split 2", " 3 4 5 7 8 9"),
    ("enc 3", " 4 5 7 8 9"),
    ("eq 7 form 6 -7", " 5 8 9"),
    ("eq 6 form 3 T", " 9"),
];

/// The ids of the cores that are lent.
fn lent(alloc: Global, state: &mut State) -> Result<Vec<u8>, AllocError> {
    let mut text = Vec::new(alloc);
    for place in 0..state.ids() {
        let id = place + 1;
        if state.mark_stable(id) {
            push_blank(&mut text)?;
            push_number(&mut text, u128::from(id))?;
        }
    }
    Ok(text)
}

#[test]
fn stable_cores_are_lent(rt: HostRuntime) -> io::Result<()> {
    let alloc = rt.alloc();
    let cores = [
        "Parity even 1,2",
        "Parity odd 2,3,4,5",
        "Amo 3,4,5",
        "Sum 0..1@6;0..1@7 1",
        "Lex or T 0..1@3 0..1@4",
        "Clause 3",
        "Parity odd 6,7",
    ];
    let mut state = started(&rt, alloc, 7, &cores)?;
    for (text, ids) in &LENT {
        if *text != "start" {
            assert_eq!(rt; apply(&rt, &mut state, text), Ok(()), "{text}");
        }
        let found = lent(alloc, &mut state)?;
        assert_eq!(rt; found.as_slice(), ids.as_bytes(), "{text}");
    }
    Ok(())
}

/// Lines, and the cores that are lent with their edge as the store has it behind each. The cores are a sum, an order of
/// words, and clauses of one atom.
static SETTLED: [(&str, &str); 4] = [
    (
        "start",
        "; Sum (0 1) (0 2) (0 3) 1; Lex strict 4 (0 1) (0 2)",
    ),
    (
        "eq 3 form 3 T",
        "; Sum (0 1) (0 2) (1) 1; Lex strict 4 (0 1) (0 2)",
    ),
    (
        "eq 4 form 4 T",
        "; Sum (0 1) (0 2) (1) 1; Lex strict T (0 1) (0 2)",
    ),
    ("eq 5 form 1 T", ""),
];

/// Puts a core behind a text, as it stands once its edge is settled, and puts the edge back.
fn put_settled(text: &mut Vec<u8>, state: &mut State, id: u64) -> Result<(), AllocError> {
    let alloc = *text.allocator();
    let Some(edge) = state.settle(id)? else {
        return Ok(());
    };
    let core = settled(alloc, state, id);
    state.unsettle(id, edge);
    push_bytes(text, b"; ")?;
    push_bytes(text, core?.as_slice())
}

/// A core in words, as it stands.
fn settled(alloc: Global, state: &State, id: u64) -> Result<Vec<u8>, AllocError> {
    match state.core(id) {
        Some(core) => core_text(alloc, core),
        None => Ok(Vec::new(alloc)),
    }
}

/// The cores that are lent with their edge as the store has it.
fn all_settled(alloc: Global, state: &mut State) -> Result<Vec<u8>, AllocError> {
    let mut text = Vec::new(alloc);
    for place in 0..state.ids() {
        put_settled(&mut text, state, place + 1)?;
    }
    Ok(text)
}

#[test]
fn edges_are_settled(rt: HostRuntime) -> io::Result<()> {
    let alloc = rt.alloc();
    let cores = [
        "Sum 0..1@1;0..1@2;0..1@3 1",
        "Lex strict 4 0..1@1 0..1@2",
        "Clause 3",
        "Clause 4",
        "Clause 1",
    ];
    let mut state = started(&rt, alloc, 4, &cores)?;
    for (text, lent) in &SETTLED {
        if *text != "start" {
            assert_eq!(rt; apply(&rt, &mut state, text), Ok(()), "{text}");
        }
        let found = all_settled(alloc, &mut state)?;
        assert_eq!(rt; found.as_slice(), lent.as_bytes(), "{text}");
    }
    Ok(())
}

/// Compound cores that are stable, and whether they are cut: lists of the least lengths, and others.
static CUT: [(&str, bool); 7] = [
    ("Parity odd 1,2,3,4", true),
    ("Amo 1,2,3,4,5", true),
    ("Sum 0..1@1;0..1@2;0..1@3;0..1@4 2", true),
    ("Lex strict 5 0..1@1;0..1@2 0..1@3;0..1@4", true),
    ("Sum 0..1@1;0..1@2;0..1@3 2", false),
    ("Lex strict 5 0..1@1 0..1@3", false),
    ("AllDiff 0..2@1;0..2@3 5,6", false),
];

/// Whether a core over six variables is cut.
fn is_cut(rt: &impl Abort, alloc: Global, core: &str) -> io::Result<bool> {
    let mut state = started(rt, alloc, 6, &[core])?;
    assert!(rt; state.mark_stable(1), "{core}");
    let cut = state.cut_of(1)?;
    Ok(cut.is_some())
}

#[test]
fn long_lists_are_cut(rt: HostRuntime) -> io::Result<()> {
    for row in &CUT {
        let cut = is_cut(&rt, rt.alloc(), row.0)?;
        assert_eq!(rt; cut, row.1, "{}", row.0);
    }
    Ok(())
}
