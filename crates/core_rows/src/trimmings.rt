//! How a core is trimmed by one view, compared whole; which cores are seen to stay as they are; and what stands at the
//! edge of one.

use core_forms::{is_edge_stable, is_stable, trim};
use core_words::{core_of, core_text};
use order_ints::{Atom, Lit};
use std::alloc::Global;
use std::io;
use std::process::Abort;

/// A core, and what it is trimmed to.
type Row = (&'static str, &'static str);

const FOUR: Atom = Atom::Of(Lit {
    var: 4,
    positive: true,
});

const FIVE: Atom = Atom::Of(Lit {
    var: 5,
    positive: true,
});

const NOT_FIVE: Atom = Atom::Of(Lit {
    var: 5,
    positive: false,
});

/// The view in which variables 1 to 8 are True, variable 4 thrice, variable 5, False, the negation of
/// variable 5, and False.
static VIEW: [Atom; 8] = [
    Atom::True,
    FOUR,
    FOUR,
    FOUR,
    FIVE,
    Atom::False,
    NOT_FIVE,
    Atom::False,
];

/// Forms over atoms.
static ATOMS: [Row; 11] = [
    ("Clause 2,1,6", "Clause T"),
    ("Clause 6,2,-1,7,3", "Clause 4 -5 4"),
    ("Clause 6,-1", "Clause"),
    ("Parity odd 1,2,6", "Parity even 4"),
    ("Parity odd -6,7,T", "Parity odd -5"),
    ("Parity even -7,1,4,3", "Parity odd 5 4 4"),
    ("Conj -2 1,2,6", "Conj -4 F"),
    ("Conj 6 1,2,-8,3", "Conj F 4 4"),
    ("Conj 7 1,-6", "Conj -5"),
    ("Comp 1 6 7 -3", "Comp T F -5 -4"),
    ("Amo 1,2,6,7,-1,4", "Amo T 4 -5 4"),
];

/// Forms over a few integers.
static INTEGERS: [Row; 10] = [
    ("Ladder 3..9@1", "Ladder (4 4:3 5)"),
    ("Ladder 0..4@5", "Ladder (0 5 F -5)"),
    ("Ladder -5..-4@1", "Ladder (-4)"),
    ("Ladder -5..-4@6", "Ladder (-5)"),
    ("LeqR 7 0..6@1 -2..1@4", "LeqR -5 (1 4:3 5) (-2 4 5)"),
    ("EqR -2 0..4@5 7..10@1", "EqR -4 (0 5 F -5) (8 4:2)"),
    ("Sum3 0..6@1 0..1@6 -5..-1@1", "Sum3 (1 4:3 5) (0) (-4 4:3)"),
    ("Count 1,2,6,7,-8 0..6@1", "Count 4 -5 (-1 4:3 5)"),
    ("Prod 0..6@1 2..3@6 0..2@2", "Prod (1 4:3 5) (2) (0 4:2)"),
    (
        "DivMod 4..7@1 2..5@4 1..2@1 0..4@5",
        "DivMod (5 4:2) (2 4 5) (2) (0 5 F -5)",
    ),
];

/// Forms over lists of integers.
static LISTS: [Row; 5] = [
    ("Sum 0..6@1;3..4@6 -9", "Sum (1 4:3 5) (3) -9"),
    ("Max 0..3@1;0..3@4 1..7@1", "Max (1 4:2) (0 4 5) (2 4:3 5)"),
    ("AllDiff 0..6@1;0..2@2 1,6", "AllDiff T F (1 4:3 5) (0 4:2)"),
    (
        "Lex strict 7 0..2@1;0..1@3 0..2@4;0..1@6",
        "Lex strict -5 (1 4) (0 4) (0 4 5) (0)",
    ),
    ("Lex or 1 none none", "Lex or T"),
];

/// Cores, and whether they are seen to stay. Of the first eight variables 4 and 5 alone do.
static STABLE: [(&str, bool); 20] = [
    ("Parity odd 4,-5,9", true),
    ("Parity even none", true),
    ("Parity odd 4,9,3", false),
    ("Parity even 4,9,F", false),
    ("Amo 9,-4,10,5", true),
    ("Amo T,4", false),
    ("Count 4,9 0..2@10", true),
    ("Count 4,7 0..2@10", false),
    ("Count 4,9 0..2@2", false),
    ("Sum 3..5@4;0..1@9;2..2@1 -9", true),
    ("Sum 0..2@9;0..1@6 0", false),
    ("Sum 0^9,4,-9;0..1@10 0", true),
    // Neighbouring steps with one atom, and with an atom and its negation.
    ("Sum 0^9,9,4;0..1@10 0", false),
    ("Sum 0^4,9,-9;0..1@10 0", false),
    ("AllDiff 0..2@4;0..2@9 T,10", true),
    ("AllDiff 0..2@4;0..2@9 T,1", false),
    ("Lex strict T 0..2@4;0..1@9 0..2@10;0..1@12", true),
    ("Lex or -7 0..2@4 0..2@10", false),
    ("Lex or 9 0..2@10 0..2@3", false),
    // Forms that are not looked at.
    ("Clause 4,9", false),
];

/// Tests a row.
fn check(rt: &impl Abort, alloc: Global, row: &Row) -> io::Result<()> {
    let core = core_of(alloc, row.0)?;
    let trimmed = trim(alloc, &core, &VIEW)?;
    let found = core_text(alloc, &trimmed)?;
    assert_eq!(rt; found.as_slice(), row.1.as_bytes(), "{}", row.0);
    Ok(())
}

#[test]
fn forms_are_trimmed(rt: HostRuntime) -> io::Result<()> {
    for rows in [ATOMS.as_slice(), INTEGERS.as_slice(), LISTS.as_slice()] {
        for row in rows {
            check(&rt, rt.alloc(), row)?;
        }
    }
    Ok(())
}

/// Tests a row of what stays.
fn check_stable(rt: &impl Abort, alloc: Global, row: &(&'static str, bool)) -> io::Result<()> {
    let core = core_of(alloc, row.0)?;
    assert_eq!(rt; is_stable(&core, &VIEW), row.1, "{}", row.0);
    Ok(())
}

#[test]
fn stable_cores_are_seen(rt: HostRuntime) -> io::Result<()> {
    for row in &STABLE {
        check_stable(&rt, rt.alloc(), row)?;
    }
    Ok(())
}

/// Cores, and each with its edge as the view has it, the last member of a sum and the truth of an order of words; and
/// whether the edge is seen to stay.
static EDGES: [(&str, &str, bool); 7] = [
    ("Sum 3..5@9;0..4@5 -9", "Sum (3 9 10) (0 5 F -5) -9", false),
    ("Sum 0..4@5;3..5@9 -9", "Sum (0 5 6 7 8) (3 9 10) -9", true),
    ("Sum 0..1@6 1", "Sum (0) 1", false),
    (
        "Lex strict 7 0..2@9 0..2@1",
        "Lex strict -5 (0 9 10) (0 1 2)",
        false,
    ),
    ("Lex or 4 0..1@1 0..1@9", "Lex or 4 (0 1) (0 9)", true),
    ("Amo 1,2,6", "Amo 1 2 6", true),
    (
        "Max 0..2@1;0..1@6 0..2@4",
        "Max (0 1 2) (0 6) (0 4 5)",
        true,
    ),
];

/// Tests a row of edges: the core is as it was once its edge is put back.
fn check_edge(
    rt: &impl Abort,
    alloc: Global,
    row: &(&'static str, &'static str, bool),
) -> io::Result<()> {
    let mut core = core_of(alloc, row.0)?;
    assert_eq!(rt; is_edge_stable(&core, &VIEW), row.2, "{}", row.0);
    let made = core_text(alloc, &core)?;
    let edge = core.settle(alloc, &VIEW)?;
    let settled = core_text(alloc, &core)?;
    assert_eq!(rt; settled.as_slice(), row.1.as_bytes(), "{}", row.0);
    core.unsettle(edge);
    let back = core_text(alloc, &core)?;
    assert_eq!(rt; back.as_slice(), made.as_slice(), "{}", row.0);
    Ok(())
}

#[test]
fn edges_are_settled_and_put_back(rt: HostRuntime) -> io::Result<()> {
    for row in &EDGES {
        check_edge(&rt, rt.alloc(), row)?;
    }
    Ok(())
}

/// Cores, a variable, and whether the edge has it.
static AT_EDGE: [(&str, u32, bool); 5] = [
    ("Sum 3..5@9;0..4@5 -9", 6, true),
    ("Sum 3..5@9;0..4@5 -9", 9, false),
    ("Lex strict 7 0..2@9 0..2@1", 7, true),
    ("Lex strict 7 0..2@9 0..2@1", 9, false),
    ("Amo 1,2,6", 1, false),
];

/// Tests a row of variables at an edge.
fn check_at_edge(
    rt: &impl Abort,
    alloc: Global,
    row: &(&'static str, u32, bool),
) -> io::Result<()> {
    let core = core_of(alloc, row.0)?;
    assert_eq!(rt; core.has_at_edge(row.1), row.2, "{} {}", row.0, row.1);
    Ok(())
}

#[test]
fn variables_stand_at_edges(rt: HostRuntime) -> io::Result<()> {
    for row in &AT_EDGE {
        check_at_edge(&rt, rt.alloc(), row)?;
    }
    Ok(())
}
