//! Two checkers that take the same lines, and what they answer.

use crate::clauses::{cnf, literals};
use proof_check::{Checker, LineRoom, ProofFault, TakeFault, read_line};
use std::alloc::{AllocError, Global};
use std::process::Abort;
use std::test::Fail;

/// An answer in words.
fn told(alloc: Global, answer: Result<(), TakeFault>) -> Result<String, AllocError> {
    match answer {
        Ok(()) => format!(in alloc; "ok"),
        Err(TakeFault::Memory) => format!(in alloc; "memory"),
        Err(TakeFault::Proof(ProofFault::Id)) => format!(in alloc; "id"),
        Err(TakeFault::Proof(ProofFault::Lit(place))) => format!(in alloc; "lit {place}"),
        Err(TakeFault::Proof(ProofFault::Rat)) => format!(in alloc; "rat"),
        Err(TakeFault::Proof(ProofFault::Absent(id))) => format!(in alloc; "absent {id}"),
        Err(TakeFault::Proof(ProofFault::Hint(place))) => format!(in alloc; "hint {place}"),
    }
}

/// Takes a line whose lists are lent.
fn take_lent<R: Abort>(
    rt: &R,
    room: &mut LineRoom,
    checker: &mut Checker,
    line: &str,
) -> Result<(), TakeFault> {
    match room.read_bytes(line.as_bytes()) {
        Ok(head) => checker.take_read(head, room),
        Err(_) => panic!(rt; "no line: {line}"),
    }
}

/// Takes a line that is owned.
fn take_owned<R: Abort>(
    rt: &R,
    alloc: Global,
    checker: &mut Checker,
    line: &str,
) -> Result<(), TakeFault> {
    let text = format!(in alloc; "{line}\n")?;
    match read_line(alloc, text.as_bytes()) {
        Ok(owned) => checker.take(&owned),
        Err(_) => panic!(rt; "no line: {line}"),
    }
}

/// Takes lines in both ways, `LINE: ANSWER` with a semicolon between two, which come to the same, and compares each
/// answer.
pub(super) fn take_row<R: Abort>(
    rt: &R,
    alloc: Global,
    lent: &mut Checker,
    owned: &mut Checker,
    table: &str,
) -> Result<(), Fail> {
    let mut room = LineRoom::new(alloc);
    for row in table.split(';') {
        let Some((line, want)) = row.split_once(": ") else {
            panic!(rt; "no row: {row}");
        };
        let first = told(alloc, take_lent(rt, &mut room, lent, line))?;
        assert_eq!(rt; first.as_str(), want, "{line}");
        let second = told(alloc, take_owned(rt, alloc, owned, line))?;
        assert_eq!(rt; second.as_str(), want, "{line}");
    }
    Ok(())
}

/// Asks which clauses are known, `CLAUSE: ANSWER` with a semicolon between two.
fn known_row<R: Abort>(rt: &R, alloc: Global, checker: &Checker, table: &str) -> Result<(), Fail> {
    for row in table.split(';') {
        let Some((clause, want)) = row.split_once(": ") else {
            panic!(rt; "no row: {row}");
        };
        let lits = literals(rt, alloc, clause)?;
        let answer = if checker.known(&lits) { "yes" } else { "no" };
        assert_eq!(rt; answer, want, "{clause}");
    }
    Ok(())
}

/// Takes lines over a CNF, and asks which clauses are known then. The answer is how many were added, and the last id.
pub(super) fn check_row<R: Abort>(
    rt: &R,
    alloc: Global,
    vars: u32,
    clauses: &str,
    lines: &str,
    known: &str,
) -> Result<(u64, u64), Fail> {
    let cnf = cnf(rt, alloc, vars, clauses)?;
    let mut lent = Checker::with(alloc, &cnf)?;
    let mut owned = Checker::with(alloc, &cnf)?;
    take_row(rt, alloc, &mut lent, &mut owned, lines)?;
    known_row(rt, alloc, &owned, known)?;
    Ok((lent.added(), lent.last_id()))
}
