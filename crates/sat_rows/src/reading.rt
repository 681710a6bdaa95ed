//! Texts of plain CNFs, and what is read from them.

use order_ints::Cnf;
use sat_front::{CnfFault, read_cnf};
use std::alloc::{AllocError, Global};
use std::process::Abort;
use std::test::Fail;

/// A CNF in words: how many variables there are, and behind a comma the literals of each clause.
fn shown(alloc: Global, cnf: &Cnf) -> Result<String, AllocError> {
    let mut text = format!(in alloc; "{}", cnf.vars)?;
    for clause in cnf.clauses.as_slice() {
        text.push_str(",")?;
        for literal in clause.as_slice() {
            let sign = if literal.positive() { "" } else { "-" };
            let word = format!(in alloc; " {sign}{}", literal.var())?;
            text.push_str(word.as_str())?;
        }
    }
    Ok(text)
}

/// What reading answers, in words.
fn told(alloc: Global, read: Result<Cnf, CnfFault>) -> Result<String, AllocError> {
    match read {
        Ok(cnf) => shown(alloc, &cnf),
        Err(CnfFault::Form(line)) => format!(in alloc; "line {line}"),
        Err(CnfFault::Memory) => format!(in alloc; "memory"),
    }
}

/// Reads a text, and compares what is told.
fn read_row<R: Abort>(rt: &R, alloc: Global, text: &str, want: &str) -> Result<(), Fail> {
    let found = told(alloc, read_cnf(alloc, text.as_bytes()))?;
    assert_eq!(rt; found.as_str(), want, "{text}");
    Ok(())
}

/// Texts that list clauses, and the clauses put in order.
static LISTED: [(&str, &str); 22] = [
    (
        "p cnf 2 4\n1 2 0\n1 -2 0\n-1 2 0\n-1 -2 0\n",
        "2, 1 2, 1 -2, -1 2, -1 -2",
    ),
    ("p cnf 0 0\n", "0"),
    ("p cnf 67108864 9223372036854775807\n", "67108864"),
    // No line feed at the end, behind the header, a clause and the end of a clause.
    ("p cnf 3 0", "3"),
    ("p cnf 2 1\n1 2 0", "2, 1 2"),
    ("p cnf 2 1\n1 2\n0", "2, 1 2"),
    // A clause over three lines, with others between them that say nothing, two clauses on a line, and the end of one
    // before another.
    ("p cnf 3 1\n1\n2\n3 0\n", "3, 1 2 3"),
    ("p cnf 3 1\n1\nc 2 0\n\n \t\r\n3 0\n", "3, 1 3"),
    ("p cnf 3 2\n1 2 0 -3 0\n", "3, 1 2, -3"),
    ("p cnf 3 2\n1\n2 0 -3\n0\n", "3, 1 2, -3"),
    // The number of clauses says nothing.
    ("p cnf 2 7\n1 0\n", "2, 1"),
    ("p cnf 2 0\n1 0\n-2 0\n", "2, 1, -2"),
    // The empty clause.
    ("p cnf 2 1\n0\n", "2,"),
    ("p cnf 2 2\n0 0\n1 0\n", "2,, 1"),
    // What is put in order: literals by their variables, each once, no clause twice, and none with a literal and its
    // negation.
    ("p cnf 3 4\n3 -1 3 0\n1 -1 0\n-1 3 0\n2 0\n", "3, -1 3, 2"),
    // Words apart by any blanks, and lines that end in carriage returns.
    ("c\r\np  cnf\t2  1\r\n 1\t2  0 \r\n", "2, 1 2"),
    // Lines before the header that say nothing.
    ("c p cnf 9 9\n\np cnf 1 1\n1 0\n", "1, 1"),
    // The end of the text, and what stands behind it.
    ("p cnf 2 1\n1 2 0\n%\n0\n", "2, 1 2"),
    ("p cnf 2 1\n1 2 0\n% 3\np cnf\n\0x 9 9", "2, 1 2"),
    ("p cnf 2 1\n1 2 0\n%", "2, 1 2"),
    ("p cnf 2 0\n%\n1 0\n", "2"),
    // A comment whose word is no more than that.
    ("c\nc 1\np cnf 1 1\nc\n1 0\nc", "1, 1"),
];

/// Texts that list none, and the first line that doesn't fit.
static FAILING: [(&str, &str); 34] = [
    // No header, before anything, behind lines that say nothing, and behind the end.
    ("", "line 1"),
    ("\n", "line 2"),
    ("c p cnf 1 1\n", "line 2"),
    ("c p cnf 1 1", "line 2"),
    ("1 0\np cnf 1 1\n", "line 1"),
    ("0\n", "line 1"),
    ("%\n", "line 2"),
    ("%\np cnf 1 0\n", "line 2"),
    // Twice.
    ("p cnf 1 0\np cnf 1 0\n", "line 2"),
    // Another one.
    ("p cnf 1\n", "line 1"),
    ("p cnf 1 1 1\n", "line 1"),
    ("p dnf 1 1\n", "line 1"),
    ("P cnf 1 1\n", "line 1"),
    ("p\n", "line 1"),
    ("p cnf 67108865 0\n", "line 1"),
    ("p cnf 1 9223372036854775808\n", "line 1"),
    (
        "p cnf 99999999999999999999999999999999999999999999 0\n",
        "line 1",
    ),
    ("p cnf 01 0\n", "line 1"),
    ("p cnf +1 0\n", "line 1"),
    ("p cnf -1 0\n", "line 1"),
    ("\n\np cnf 1 x\n", "line 3"),
    // A variable above their number, and words that are no literals.
    ("p cnf 2 1\n1 3 0\n", "line 2"),
    ("p cnf 2 1\n1 0\n-3 0\n1 0\n", "line 3"),
    ("p cnf 0 1\n1 0\n", "line 2"),
    ("p cnf 2 1\n1 x 0\n", "line 2"),
    ("p cnf 2 1\n+1 0\n", "line 2"),
    ("p cnf 2 1\n01 0\n", "line 2"),
    ("p cnf 2 1\n1 -0\n", "line 2"),
    ("p cnf 2 1\n1 00\n", "line 2"),
    ("p cnf 2 1\n1 0 %\n", "line 2"),
    ("p cnf 2 1\n1 0\ncomment\n", "line 3"),
    // A clause that is open at the end.
    ("p cnf 2 1\n1 0\n1 2\n", "line 4"),
    ("p cnf 2 1\n1 2", "line 3"),
    ("p cnf 2 1\n1 2\n%\n0\n", "line 4"),
];

#[test]
fn texts_list_clauses_or_fail_at_a_line(rt: HostRuntime) -> Result<(), Fail> {
    let alloc = rt.alloc();
    for (text, want) in &LISTED {
        read_row(&rt, alloc, text, want)?;
    }
    for (text, want) in &FAILING {
        read_row(&rt, alloc, text, want)?;
    }
    Ok(())
}
