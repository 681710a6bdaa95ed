//! Which atoms, integers and variables a core has.

use core_forms::{Core, variables};
use core_words::{core_of, core_text};
use std::alloc::{AllocError, Global};
use std::io;
use std::process::Abort;

/// A core, and what it has.
type Row = (&'static str, &'static str);

/// A core, and its variables, with a blank behind each.
static VARIABLES: [Row; 3] = [
    ("Count -8,2,T,8 3..5@4", "2 4 5 8 "),
    ("Conj F T,-3", "3 "),
    ("Clause F,T", ""),
];

/// A core, and its form, its atoms and its integers.
static MEMBERS: [Row; 9] = [
    ("Conj 3 -1,T", "Conj 3 -1 T"),
    ("Comp 1 -2 3 T", "Comp 1 -2 3 T"),
    ("LeqR 9 0 1..2@3", "LeqR 9 (0) (1 3)"),
    ("Sum3 0 1 1..2@3", "Sum3 (0) (1) (1 3)"),
    ("Count -8,2 3..5@4", "Count -8 2 (3 4 5)"),
    ("Max 1;2..3@5 4", "Max (1) (2 5) (4)"),
    ("AllDiff 0;1 T,7", "AllDiff T 7 (0) (1)"),
    ("DivMod 5 2 3 1", "DivMod (5) (2) (3) (1)"),
    ("Lex strict 9 0;1 2;3", "Lex strict 9 (0) (1) (2) (3)"),
];

/// The variables of a core, with a blank behind each.
fn variables_text(alloc: Global, core: &Core) -> Result<String, AllocError> {
    let mut out = String::new(alloc);
    for variable in variables(alloc, core)?.as_slice() {
        write!(out, "{variable} ")?;
    }
    Ok(out)
}

/// Asserts the variables of a core.
fn has_variables(rt: &impl Abort, alloc: Global, row: &Row) -> io::Result<()> {
    let core = core_of(alloc, row.0)?;
    let found = variables_text(alloc, &core)?;
    assert_eq!(rt; found.as_str(), row.1, "{}", row.0);
    Ok(())
}

#[test]
fn variables_are_told_once_and_ascending(rt: HostRuntime) -> io::Result<()> {
    for row in &VARIABLES {
        has_variables(&rt, rt.alloc(), row)?;
    }
    Ok(())
}

/// Asserts the members of a core.
fn has_members(rt: &impl Abort, alloc: Global, row: &Row) -> io::Result<()> {
    let core = core_of(alloc, row.0)?;
    let found = core_text(alloc, &core)?;
    assert_eq!(rt; found.as_slice(), row.1.as_bytes(), "{}", row.0);
    Ok(())
}

#[test]
fn atoms_and_integers_are_told_in_their_order(rt: HostRuntime) -> io::Result<()> {
    for row in &MEMBERS {
        has_members(&rt, rt.alloc(), row)?;
    }
    Ok(())
}
