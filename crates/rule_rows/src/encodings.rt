//! Clauses of cores, worked out by hand.

ghost use Rattle.core_forms.specs.WellFormed.{IsWellFormed};

use bee_list::Sequence;
use bee_text::{push_blank, push_bytes};
use core_forms::{Core, is_basic};
use core_words::core_of;
use direct_encode::clauses;
use ledger_text::push_atom;
use order_ints::Atom;
use std::alloc::{AllocError, Global};
use std::process::Abort;
use std::test::Fail;

/// A core, and its clauses: each atom has a blank behind it, and each clause a bar and a blank.
type Row = (&'static str, &'static str);

/// Forms over atoms.
static ATOMS: [Row; 13] = [
    ("Clause 1,-2,1", "1 -2 1 | "),
    ("Parity odd none", "| "),
    ("Parity even none", ""),
    ("Parity even 1", "-1 | "),
    ("Parity odd 1,-2", "1 -2 | -1 2 | "),
    ("Parity even 1,2", "1 -2 | -1 2 | "),
    ("Parity odd 1,2,3", "1 2 3 | 1 -2 -3 | -1 2 -3 | -1 -2 3 | "),
    (
        "Parity even 1,2,3",
        "1 2 -3 | 1 -2 3 | -1 2 3 | -1 -2 -3 | ",
    ),
    ("Conj 1 2,-3", "-1 2 | -1 -3 | 1 -2 3 | "),
    ("Conj -1 none", "-1 | "),
    (
        "Comp 1 2 3 4",
        "-1 3 | -2 3 | -3 1 2 | -4 1 | -4 2 | 4 -1 -2 | ",
    ),
    ("Amo 1", ""),
    ("Amo 1,-2,3", "-1 2 | -1 -3 | 2 -3 | "),
];

/// Orders, comparisons and maxima.
static INTEGERS: [Row; 8] = [
    ("Ladder 0,1,2,3", "1 -2 | 2 -3 | "),
    ("LeqR T 0,1@1 0,1@2", "F F T | F -1 2 | T F 1 | T -2 F | "),
    (
        "LeqR 5 0,2,5 1,4@3",
        "1 -2 | -5 F T | -5 -1 3 | -5 -2 F | 5 F 1 | 5 -3 2 | ",
    ),
    (
        "LeqR 3 1 0,1,2",
        "1 -2 | -3 F 1 | 3 F T | 3 -1 F | 3 -2 F | ",
    ),
    (
        "EqR F 0,1,2 1",
        "1 -2 | T F T | T -1 T | T -2 F | T F 1 | F -1 2 F F | ",
    ),
    ("EqR 3 0,2 1,3@2", "-3 F T | -3 -1 2 | -3 F 1 | -3 -2 F | "),
    (
        "EqR 4 0,2,5 2,5@3",
        "1 -2 | -4 F T | -4 -1 T | -4 -2 3 | -4 F 1 | -4 -3 2 | 4 -1 2 F 3 | 4 -2 F -3 F | ",
    ),
    (
        "Max -1,2@1;0,4@2 -1,2,4@3",
        "3 -4 | F T | -1 3 | F 3 | -2 4 | F T T | -3 1 2 | -4 F 2 | ",
    ),
];

/// A sum has the clauses that hold from a pair of values on, and those that hold up to it; one is left out
/// where the place beside it has the same atom.
static SUMS: [Row; 2] = [
    (
        "Sum3 0,1@1 0,1@2 0,1,2@3",
        "3 -4 | F F T | 1 2 -3 | F -2 3 | 1 F -4 | -1 F 3 | F 2 -4 | -1 -2 4 | F F T | ",
    ),
    (
        "Sum3 0,2@1 -1,2@2 -1,4@3",
        "F F T | F -2 3 | 1 F -3 | -1 F 3 | F 2 -3 | F F T | ",
    ),
];

/// A product has the clauses from a pair of values on and up to it, or where a value may be negative those at
/// the pair alone; quotient and rest have the latter.
static PRODUCTS: [Row; 3] = [
    (
        "Prod 0,1@1 0,2@2 0,2@3",
        "F F T | 1 2 -3 | F -2 T | 1 F -3 | -1 F T | F 2 -3 | -1 -2 3 | F F T | ",
    ),
    (
        "Prod -1,1@1 1 -1,1@2",
        "F 1 F F T | F 1 F F -2 | -1 F F F 2 | -1 F F F T | ",
    ),
    (
        "DivMod 3,5@1 1,2@2 1,2,3,5@3 0,1@6",
        "3 -4 | 4 -5 | F 1 F 2 4 | F 1 F 2 -5 | F 1 F 2 T | F 1 F 2 -6 | F 1 -2 F T | F 1 -2 F -3 | F 1 -2 F 6 | \
        F 1 -2 F T | -1 F F 2 5 | -1 F F 2 T | -1 F F 2 T | -1 F F 2 -6 | -1 F -2 F 3 | -1 F -2 F -4 | -1 F -2 F 6 | \
        -1 F -2 F T | ",
    ),
];

/// Puts a clause behind a text.
fn push_clause(text: &mut Vec<u8>, clause: &Sequence<Atom>) -> Result<(), AllocError> {
    for atom in clause.as_slice() {
        push_atom(text, *atom)?;
        push_blank(text)?;
    }
    push_bytes(text, b"| ")
}

/// The clauses of a core.
fn shown(rt: &impl Abort, alloc: Global, core: &Core) -> Result<Vec<u8>, AllocError>
    requires { IsWellFormed core.now }
{
    let basic = is_basic(core);
    assert!(rt; basic);
    let mut text = Vec::new(alloc);
    for clause in clauses(alloc, core)?.iter() {
        push_clause(&mut text, clause)?;
    }
    Ok(text)
}

#[test]
fn clauses_are_those_of_the_form(rt: HostRuntime) -> Result<(), Fail> {
    for rows in [
        ATOMS.as_slice(),
        INTEGERS.as_slice(),
        SUMS.as_slice(),
        PRODUCTS.as_slice(),
    ] {
        for (text, wanted) in rows {
            let core = core_of(rt.alloc(), text)?;
            let found = shown(&rt, rt.alloc(), &core)?;
            assert_eq!(rt; found.as_slice(), wanted.as_bytes(), "{text}");
        }
    }
    Ok(())
}
