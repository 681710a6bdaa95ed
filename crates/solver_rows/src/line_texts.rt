//! Texts of proof lines, both ways.

use bee_list::Sequence;
use order_ints::Lit;
use proof_check::{
    LineHead, LineRoom, ProofLine, ProofTextFault, push_deletion, push_line, read_line, write_line,
};
use std::alloc::{AllocError, Global};
use std::process::Abort;
use std::test::Fail;

/// Lines, with a bar between two.
const LINES: &str =
    "5 1 -2 0 3 -4 0\n|5 0 1 0\n|5 1 0 0\n|5 0 0\n|5 d 1 18446744073709551615 0\n|5 d 0\n|0 d 1 2 0\n|\
    18446744073709551615 134217728 -134217728 0 9223372036854775807 -9223372036854775808 0\n";

/// What is no line, with a bar between two.
const MISFITS: &str =
    "|\n|5\n|5 1 0 1 0|5 1 0 1 0\n\n|5 1 0 1 0\r\n| 5 1 0 1 0\n|5  1 0 1 0\n|5 1 0 1 0 \n|\
    5\t1 0 1 0\n|05 1 0 1 0\n|+5 1 0 1 0\n|-5 1 0 1 0\n|0 1 0 1 0\n|5 1\n|5 1 0\n|5 1 0 1\n|5 1 0 1 0 0\n|\
    5 01 0 1 0\n|5 -0 0 1 0\n|5 1 0 -0 0\n|5 134217729 0 0\n|18446744073709551616 0 0\n|\
    5 0 9223372036854775808 0\n|5 0 -9223372036854775809 0\n|00 d 1 0\n|0 d 0 1 0\n|5 d 1\n|5 d 1 0 0\n|5 d -1 0\n|\
    5 d 18446744073709551616 0\n|18446744073709551616 d 1 0\n|5 D 1 0\n|5 d d 0\n|d 5 0\n|5 1 0 1 0\n6 0 5 0\n";

/// A line is read, and written again it is the same.
fn line_row<R: Abort>(rt: &R, alloc: Global, text: &str) -> Result<(), Fail> {
    let line = read_line(alloc, text.as_bytes())?;
    let written = write_line(alloc, &line)?;
    assert_eq!(rt; written.as_slice(), text.as_bytes(), "{text}");
    Ok(())
}

/// What is no line is read as none, in both ways.
fn misfit_row<R: Abort>(rt: &R, alloc: Global, text: &str) {
    let owned = match read_line(alloc, text.as_bytes()) {
        Ok(_) => false,
        Err(e) => e == ProofTextFault::Form(1),
    };
    assert!(rt; owned, "{text}");
    let mut room = LineRoom::new(alloc);
    let lent = room.read_text(text.as_bytes());
    assert_eq!(rt; lent, Err(ProofTextFault::Form(1)), "{text}");
}

#[test]
fn lines(rt: HostRuntime) -> Result<(), Fail> {
    for text in LINES.split('|') {
        line_row(&rt, rt.alloc(), text)?;
    }
    for text in MISFITS.split('|') {
        misfit_row(&rt, rt.alloc(), text);
    }
    Ok(())
}

/// An addition with the hint 0, which can't be read.
fn zero(alloc: Global) -> Result<ProofLine, AllocError> {
    Ok(ProofLine::Add {
        id: 8,
        lits: Sequence::from_vec(vec![in alloc; Lit::of(3, false)]?),
        hints: Sequence::from_vec(vec![in alloc; 0]?),
    })
}

// Room is used again, and lines are written one behind another, also those that can't be read.
#[test]
fn rooms(rt: HostRuntime) -> Result<(), Fail> {
    let mut room = LineRoom::new(rt.alloc());
    assert_eq!(rt; room.read_bytes(b"5 1 -2 0 3 -4 0")?, LineHead::Addition(5));
    assert_eq!(rt; room.lits.len(), 2);
    assert_eq!(rt; room.read_text(b"6 0 7 0\n")?, LineHead::Addition(6));
    assert_eq!(rt; room.lits.len(), 0);
    assert_eq!(rt; room.hints.as_slice(), [7].as_slice());
    assert_eq!(rt; room.read_bytes(b"7 d 5 6 0")?, LineHead::Deletion(7));
    let mut out = Vec::new(rt.alloc());
    push_deletion(&mut out, 7, &room.ids)?;
    push_line(&mut out, &zero(rt.alloc())?)?;
    assert_eq!(rt; out.as_slice(), b"7 d 5 6 0\n8 -3 0 0 0\n".as_slice());
    Ok(())
}
