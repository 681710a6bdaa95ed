//! Which lines a checker takes, and the first fault of those that it doesn't.

use crate::checks::check_row;
use crate::clauses::cnf;
use bee_list::Sequence;
use order_ints::Lit;
use proof_check::{Checker, ProofFault, ProofLine, TakeFault};
use std::alloc::{AllocError, Global};
use std::test::Fail;

/// Two variables with all four clauses, and one more variable.
const SQUARE: &str = "1 2,1 -2,-1 2,-1 -2";

/// Each refused line has a fault and, behind it, later ones; it leaves nothing behind.
const FAULTS: &str = "4 9 9 0 -1 9 0: id;5 1 9 1 0 -1 9 0: lit 2;5 1 1 0 -1 9 0: lit 2;\
    5 3 1 -1 9 0 -1 9 0: lit 3;5 1 0 -7 9 0: rat;5 1 0 9 -7 0: absent 9;5 1 0 3 9 -7 0: hint 1;\
    5 1 0 1 9 -7 0: absent 9;5 1 0 1 2 1 0: hint 2;5 1 0 1 1 0: hint 2;5 1 0 1 0: hint 1;\
    5 1 0 3 0: hint 1;5 3 0 3 0: hint 1;5 1 0 0: hint 1;5 1 0 1 2 0: ok;6 0 3 5 4 0: hint 1;\
    6 0 5 3 4 0: ok";

/// What is known then.
const KNOWN: &str = ".: yes;1: yes;-1: no;2 1: yes;1 1: yes;1 2 3: no;3: no";

/// Ids skip, fall and repeat; clauses are deleted, of the CNF too, all of a line or none.
const DELETIONS: &str = "7 1 0 1 2 0: ok;6 0 7 3 4 0: id;7 0 7 3 4 0: id;9 1 3 0 7 0: ok;9 d 0: ok;\
    1 d 2 9 0: ok;9 d 9 0: absent 9;10 1 0 1 2 0: absent 2;10 d 3 8 4 0: absent 8;\
    10 d 4 3 4 0: absent 4;10 0 7 3 4 0: ok;11 d 1 3 4 7 10 0: ok;\
    18446744073709551615 0 10 0: absent 10";

#[test]
fn takes(rt: HostRuntime) -> Result<(), Fail> {
    let alloc = rt.alloc();
    let faults = check_row(&rt, alloc, 3, SQUARE, FAULTS, KNOWN)?;
    assert_eq!(rt; faults, (2, 6));
    let deletions = check_row(
        &rt,
        alloc,
        3,
        SQUARE,
        DELETIONS,
        ".: yes;1 -2: yes;3 1: yes;3: no",
    )?;
    assert_eq!(rt; deletions, (3, 10));
    let nothing = check_row(&rt, alloc, 0, "", "1 0 0: hint 1", ".: no")?;
    assert_eq!(rt; nothing, (0, 0));
    let empty = check_row(&rt, alloc, 0, ".", "2 0 1 0: ok", ".: yes")?;
    assert_eq!(rt; empty, (1, 2));
    Ok(())
}

/// An addition with the id 0, which has no text.
fn nameless(alloc: Global) -> Result<ProofLine, AllocError> {
    Ok(ProofLine::Add {
        id: 0,
        lits: Sequence::from_vec(Vec::new(alloc)),
        hints: Sequence::from_vec(Vec::new(alloc)),
    })
}

// Values that have no text.
#[test]
fn zeros(rt: HostRuntime) -> Result<(), Fail> {
    let cnf = cnf(&rt, rt.alloc(), 3, SQUARE)?;
    let mut checker = Checker::with(rt.alloc(), &cnf)?;
    let line = nameless(rt.alloc())?;
    assert_eq!(rt; checker.take(&line), Err(TakeFault::Proof(ProofFault::Id)));
    let literal = checker.take_addition(5, &[Lit::of(0, true)], &[1]);
    assert_eq!(rt; literal, Err(TakeFault::Proof(ProofFault::Lit(1))));
    let hint = checker.take_addition(5, &[Lit::of(1, true)], &[0]);
    assert_eq!(rt; hint, Err(TakeFault::Proof(ProofFault::Absent(0))));
    let deletion = checker.take_deletion(&[1, 0]);
    assert_eq!(rt; deletion, Err(TakeFault::Proof(ProofFault::Absent(0))));
    Ok(())
}
