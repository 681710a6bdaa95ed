//! Texts of proofs from plain CNFs, and what is told of them.

use drup_check::{DrupFault, check_drup};
use sat_front::read_cnf;
use std::alloc::{AllocError, Global};
use std::process::Abort;
use std::test::Fail;

/// What checking answers, in words.
fn told(alloc: Global, listed: &str, proof: &[u8]) -> Result<String, AllocError> {
    match read_cnf(alloc, listed.as_bytes()) {
        Ok(cnf) => match check_drup(alloc, &cnf, proof) {
            Ok(()) => format!(in alloc; "accepted"),
            Err(DrupFault::Refused(line)) => format!(in alloc; "line {line}"),
            Err(DrupFault::Memory) => format!(in alloc; "memory"),
        },
        Err(_) => format!(in alloc; "no CNF"),
    }
}

/// Checks a proof from the clauses that a text lists, and compares what is told.
fn check_row<R: Abort>(
    rt: &R,
    alloc: Global,
    listed: &str,
    proof: &[u8],
    want: &str,
) -> Result<(), Fail> {
    let found = told(alloc, listed, proof)?;
    assert_eq!(rt; found.as_str(), want, "{listed} {proof:?}");
    Ok(())
}

/// Each clause of two variables.
static ALL_TWO: &str = "p cnf 2 4\n1 2 0\n1 -2 0\n-1 2 0\n-1 -2 0\n";

/// Proofs from these.
static OF_TWO: [(&str, &str); 41] = [
    ("d 1 2 0\n1 0\n0\n", "accepted"),
    ("d 1 2 0\n", "line 2"),
    ("", "line 1"),
    // The empty clause need not be added, only shown.
    ("1 0\n", "accepted"),
    ("0\n", "line 1"),
    // No line feed at the end.
    ("1 0\n0", "accepted"),
    ("1 0", "accepted"),
    ("c", "line 2"),
    // Deletions have no effect.
    (
        "d 1 2 0\nd 1 -2 0\nd -1 2 0\nd -1 -2 0\n1 0\n0\n",
        "accepted",
    ),
    ("d 1 0\n1 0\nd 1 0\n0\n", "accepted"),
    // What was deleted shows the empty clause behind the last line, and a line is refused only with all of it.
    ("d 2 -1 0\n1 0\n", "accepted"),
    ("d 2 1 0\nd 1 -2 0\n0\n", "line 3"),
    ("d 0\n", "line 2"),
    // Lines that say nothing, and words apart by any blanks.
    ("c 0\n\n \t\r\n\t1  0 \r\nc", "accepted"),
    ("\nc\n0\n", "line 3"),
    // A literal and its negation, and a literal more than once.
    ("1 -1 0\n1 0\n", "accepted"),
    ("1 -1 0\n-2 1 2 0\n", "line 3"),
    ("2 2 0\n", "accepted"),
    ("1 2 1 2 1 0\n", "line 2"),
    // Behind the empty clause only the form and the variables are tested.
    ("1 0\n0\n2 -1 2 0\nd 2 0\n0\n0\n", "accepted"),
    ("1 0\n3 0\n", "line 2"),
    ("1 0\n0\n1 -3 0\n", "line 3"),
    ("1 0\n0\nd -3 0\n", "line 3"),
    ("1 0\n0\n1\n", "line 3"),
    ("1 0\n0\nx\n", "line 3"),
    // A variable above their number.
    ("3 0\n", "line 1"),
    ("3 -3 0\n", "line 1"),
    ("d 3 0\n1 0\n", "line 1"),
    // Words that spell no clause.
    ("1\n0\n", "line 1"),
    ("1 0 0\n", "line 1"),
    ("1 0 2 0\n", "line 1"),
    ("d\n", "line 1"),
    ("d d 1 0\n", "line 1"),
    ("d1 0\n", "line 1"),
    ("1 d 0\n", "line 1"),
    ("01 0\n", "line 1"),
    ("+1 0\n", "line 1"),
    ("1 -0\n", "line 1"),
    ("1 00\n", "line 1"),
    ("% 0\n", "line 1"),
    ("p cnf 2 4\n", "line 1"),
];

/// Other CNFs, and proofs from them.
static OF_OTHERS: [(&str, &str, &str); 14] = [
    // The empty clause is shown from the start.
    ("p cnf 0 1\n0\n", "", "accepted"),
    ("p cnf 1 2\n1 0\n-1 0\n", "", "accepted"),
    ("p cnf 3 4\n1 0\n-3 0\n-2 3 0\n-1 2 0\n", "", "accepted"),
    ("p cnf 1 2\n1 0\n-1 0\n", "2 0\n", "line 1"),
    // No clause at all.
    ("p cnf 0 0\n", "", "line 1"),
    ("p cnf 1 0\n", "1 -1 0\n0\n", "line 2"),
    // Clauses that may be added by their other literals, but that aren't shown.
    ("p cnf 2 1\n1 2 0\n", "1 0\n", "line 1"),
    ("p cnf 3 2\n1 2 0\n-1 -2 0\n", "1 2 0\n3 0\n", "line 2"),
    ("p cnf 3 1\n1 2 0\n", "3 -1 0\n", "line 1"),
    // What is shown, but not the empty clause.
    ("p cnf 2 2\n1 2 0\n1 -2 0\n", "1 0\n", "line 2"),
    ("p cnf 2 2\n1 2 0\n1 -2 0\n", "1 0\n0\n", "line 2"),
    ("p cnf 2 2\n1 2 0\n1 -2 0\n", "1 0\n1 2 0\n-2 1 0", "line 4"),
    // Each clause of three variables: a clause is shown by one that was added.
    (
        "p cnf 3 8\n1 2 3 0 1 2 -3 0\n1 -2 3 0 1 -2 -3 0\n-1 2 3 0 -1 2 -3 0\n-1 -2 3 0 -1 -2 -3 0\n",
        "1 2 0\n1 0\n2 0\n0\n",
        "accepted",
    ),
    (
        "p cnf 3 8\n1 2 3 0 1 2 -3 0\n1 -2 3 0 1 -2 -3 0\n-1 2 3 0 -1 2 -3 0\n-1 -2 3 0 -1 -2 -3 0\n",
        "1 0\n1 2 0\n2 0\n0\n",
        "line 1",
    ),
];

/// A proof that is cut at each byte.
static CUT: &[u8] = b"d 1 2 0\n1 0\n0\n";

/// What is told of so many bytes of it.
fn want_at(cut: usize) -> &'static str {
    if cut < 7 {
        "line 1"
    } else if cut < 11 {
        "line 2"
    } else {
        "accepted"
    }
}

#[test]
fn proofs_are_accepted_or_refused_at_a_line(rt: HostRuntime) -> Result<(), Fail> {
    let alloc = rt.alloc();
    for (proof, want) in &OF_TWO {
        check_row(&rt, alloc, ALL_TWO, proof.as_bytes(), want)?;
    }
    for (listed, proof, want) in &OF_OTHERS {
        check_row(&rt, alloc, listed, proof.as_bytes(), want)?;
    }
    for cut in 0..CUT.len() + 1 {
        check_row(&rt, alloc, ALL_TWO, &CUT[..cut], want_at(cut))?;
    }
    Ok(())
}
