//! The three kinds of step, worked out by hand: a line, and the whole state after it.

use crate::steps_made::walk_both;
use std::io;

/// Equations by the form of a core. Each is named by the labels of its atoms, in either order.
static BY_FORM: [(&str, &str); 4] = [
    (
        "start",
        "5: 1 2 3 4 5; #1 Parity even 1 2; #2 Clause -3; #3 Parity odd 2 5; next 4; least 1 none; cnf 5",
    ),
    (
        "eq 1 form 1 2",
        "5: 1 1 3 4 5; #1 Parity even 1 2 is Parity even 1 1; #2 Clause -3; #3 Parity odd 2 5 is Parity odd 1 5; \
        next 4; least 1 none; cnf 5",
    ),
    (
        "eq 2 form T -3",
        "5: 1 1 F 4 5; #1 Parity even 1 2 is Parity even 1 1; #2 Clause -3 is Clause T; \
        #3 Parity odd 2 5 is Parity odd 1 5; next 4; least 1 none; cnf 5",
    ),
    (
        "eq 3 form -5 1",
        "5: 1 1 F 4 -1; #1 Parity even 1 2 is Parity even 1 1; #2 Clause -3 is Clause T; \
        #3 Parity odd 2 5 is Parity odd 1 -1; next 4; least 1 none; cnf 5",
    ),
];

/// Equations by the order of an integer. The smaller class gets the other's label, and a class that becomes constant
/// loses the steps of the integer.
static BY_ORDER: [(&str, &str); 4] = [
    (
        "start",
        "4: 1 2 3 4; #1 Ladder (0 2 3); #2 Parity odd 2 3; #3 Parity even 1 3; next 4; least 1 none; cnf 4",
    ),
    (
        "eq 2 form 2 -3",
        "4: 1 2 -2 4; #1 Ladder (0 2 3) is Ladder (0 2 -2); #2 Parity odd 2 3 is Parity odd 2 -2; \
        #3 Parity even 1 3 is Parity even 1 -2; next 4; least 1 none; cnf 4",
    ),
    (
        "eq 3 form 1 -2",
        "4: -2 2 -2 4; #1 Ladder (0 2 3) is Ladder (0 2 -2); #2 Parity odd 2 3 is Parity odd 2 -2; \
        #3 Parity even 1 3 is Parity even -2 -2; next 4; least 1 none; cnf 4",
    ),
    (
        "eq 1 order 2 T",
        "4: F T F 4; #1 Ladder (0 2 3) is Ladder (1); #2 Parity odd 2 3 is Parity even; \
        #3 Parity even 1 3 is Parity even; next 4; least 1 none; cnf 4",
    ),
];

/// Equations that the truth table of a core alone tells: a member and its negation, an integer added to itself, and one
/// member twice. Neither their order nor their form states one.
static BY_TABLE: [(&str, &str); 5] = [
    (
        "start",
        "6: 1 2 3 4 5 6; #1 Conj 1 -1 2; #2 Sum3 (0 3) (0 3) (0 4 5); #3 Clause 6 6; next 4; least 1 none; cnf 6",
    ),
    (
        "eq 1 table T -1",
        "6: F 2 3 4 5 6; #1 Conj 1 -1 2 is Conj F 2; #2 Sum3 (0 3) (0 3) (0 4 5); #3 Clause 6 6; next 4; \
        least 1 none; cnf 6",
    ),
    (
        "eq 2 table 5 4",
        "6: F 2 3 4 4 6; #1 Conj 1 -1 2 is Conj F 2; #2 Sum3 (0 3) (0 3) (0 4 5) is Sum3 (0 3) (0 3) (0 4:2); \
        #3 Clause 6 6; next 4; least 1 none; cnf 6",
    ),
    (
        "eq 2 table -3 -4",
        "6: F 2 4 4 4 6; #1 Conj 1 -1 2 is Conj F 2; #2 Sum3 (0 3) (0 3) (0 4 5) is Sum3 (0 4) (0 4) (0 4:2); \
        #3 Clause 6 6; next 4; least 1 none; cnf 6",
    ),
    (
        "eq 3 table 6 T",
        "6: F 2 4 4 4 T; #1 Conj 1 -1 2 is Conj F 2; #2 Sum3 (0 3) (0 3) (0 4 5) is Sum3 (0 4) (0 4) (0 4:2); \
        #3 Clause 6 6 is Clause T; next 4; least 1 none; cnf 6",
    ),
];

/// Parts have the next ids in their order, and the fresh variables are the next ones.
static SPLITS: [(&str, &str); 5] = [
    (
        "start",
        "6: 1 2 3 4 5 6; #1 Clause 6; #2 Parity odd 1 2 3 4 5; #3 Amo 1 2 3 4 5; next 4; least 1 2; cnf 6",
    ),
    (
        "split 2",
        "7: 1 2 3 4 5 6 7; #1 Clause 6; #3 Amo 1 2 3 4 5; #4 Parity even 1 2 7; #5 Parity odd 3 4 5 7; next 6; \
        least 1 3; cnf 7",
    ),
    (
        "split 5",
        "8: 1 2 3 4 5 6 7 8; #1 Clause 6; #3 Amo 1 2 3 4 5; #4 Parity even 1 2 7; #6 Parity even 3 4 8; \
        #7 Parity odd 5 7 8; next 8; least 1 3; cnf 8",
    ),
    (
        "split 3",
        "9: 1 2 3 4 5 6 7 8 9; #1 Clause 6; #4 Parity even 1 2 7; #6 Parity even 3 4 8; #7 Parity odd 5 7 8; \
        #8 Amo 1 2 3 -9; #9 Amo 4 5 9; next 10; least 1 none; cnf 9",
    ),
    (
        "enc 1",
        "9: 1 2 3 4 5 6 7 8 9; #4 Parity even 1 2 7; #6 Parity even 3 4 8; #7 Parity odd 5 7 8; #8 Amo 1 2 3 -9; \
        #9 Amo 4 5 9; next 10; least 4 none; cnf 9 (6)",
    ),
];

/// A count, and an order of words; two of the splits have no fresh variable.
static SPLITS_OF_INTEGERS: [(&str, &str); 5] = [
    (
        "start",
        "7: 1 2 3 4 5 6 7; #1 Count 1 2 3 (0 4 5 6); #2 Lex strict 7 (0 1) (0 2) (0 3) (0 4); next 3; least 1 1; cnf 7",
    ),
    (
        "split 1",
        "9: 1 2 3 4 5 6 7 8 9; #2 Lex strict 7 (0 1) (0 2) (0 3) (0 4); #3 Count 1 2 (0 8 9); #4 Sum3 (0 8 9) (0 3) \
        (0 4 5 6); next 5; least 2 2; cnf 9",
    ),
    (
        "split 2",
        "13: 1 2 3 4 5 6 7 8 9 10 11 12 13; #3 Count 1 2 (0 8 9); #4 Sum3 (0 8 9) (0 3) (0 4 5 6); #5 LeqR 10 (0 1) \
        (0 3); #6 LeqR 11 (0 3) (0 1); #7 Lex strict 12 (0 2) (0 4); #8 Conj -13 11 -12; #9 Conj 7 10 13; next 10; \
        least 3 3; cnf 13",
    ),
    (
        "split 7",
        "13: 1 2 3 4 5 6 7 8 9 10 11 12 13; #3 Count 1 2 (0 8 9); #4 Sum3 (0 8 9) (0 3) (0 4 5 6); #5 LeqR 10 (0 1) \
        (0 3); #6 LeqR 11 (0 3) (0 1); #8 Conj -13 11 -12; #9 Conj 7 10 13; #10 LeqR -12 (0 4) (0 2); next 11; \
        least 3 3; cnf 13",
    ),
    (
        "split 3",
        "13: 1 2 3 4 5 6 7 8 9 10 11 12 13; #4 Sum3 (0 8 9) (0 3) (0 4 5 6); #5 LeqR 10 (0 1) (0 3); #6 LeqR 11 (0 3) \
        (0 1); #8 Conj -13 11 -12; #9 Conj 7 10 13; #10 LeqR -12 (0 4) (0 2); #11 Sum3 (0 1) (0 2) (0 8 9); next 12; \
        least 4 none; cnf 13",
    ),
];

/// A sum that is split at its front, and its rest once a member has another label.
static SPLITS_OF_SUMS: [(&str, &str); 4] = [
    (
        "start",
        "5: 1 2 3 4 5; #1 Sum (0 1) (0 2) (0 3) (0 4) (0 5) 2; #2 Parity even 1 4; next 3; least 1 1; cnf 5",
    ),
    (
        "split 1",
        "7: 1 2 3 4 5 6 7; #2 Parity even 1 4; #3 Sum3 (0 1) (0 2) (0 6 7); #4 Sum (0 3) (0 4) (0 5) (0 6 7) 2; \
        next 5; least 2 4; cnf 7",
    ),
    (
        "eq 2 form 1 4",
        "7: 1 2 3 1 5 6 7; #2 Parity even 1 4 is Parity even 1 1; #3 Sum3 (0 1) (0 2) (0 6 7); #4 Sum (0 3) (0 4) \
        (0 5) (0 6 7) 2 is Sum (0 3) (0 1) (0 5) (0 6 7) 2; next 5; least 2 4; cnf 7",
    ),
    (
        "split 4",
        "9: 1 2 3 1 5 6 7 8 9; #2 Parity even 1 4 is Parity even 1 1; #3 Sum3 (0 1) (0 2) (0 6 7); #5 Sum3 (0 3) \
        (0 1) (0 8 9); #6 Sum (0 5) (0 6 7) (0 8 9) 2; next 7; least 2 6; cnf 9",
    ),
];

/// The core that is split is the one that the store has, and a fresh variable is its own label.
static SPLIT_AS_THE_STORE_HAS_IT: [(&str, &str); 4] = [
    (
        "start",
        "6: 1 2 3 4 5 6; #1 Clause 1; #2 Parity odd 1 2 3 4 5; #3 Parity even 2 6; next 4; least 1 2; cnf 6",
    ),
    (
        "eq 1 form 1 T",
        "6: T 2 3 4 5 6; #1 Clause 1 is Clause T; #2 Parity odd 1 2 3 4 5 is Parity even 2 3 4 5; #3 Parity even 2 6; \
        next 4; least 1 2; cnf 6",
    ),
    (
        "eq 3 form 2 6",
        "6: T 2 3 4 5 2; #1 Clause 1 is Clause T; #2 Parity odd 1 2 3 4 5 is Parity even 2 3 4 5; \
        #3 Parity even 2 6 is Parity even 2 2; next 4; least 1 2; cnf 6",
    ),
    (
        "split 2",
        "7: T 2 3 4 5 2 7; #1 Clause 1 is Clause T; #3 Parity even 2 6 is Parity even 2 2; #4 Parity even 2 3 7; \
        #5 Parity even 4 5 7; next 6; least 1 none; cnf 7",
    ),
];

/// Clauses come behind those that are there, and one that stood before is kept once.
static ENCODINGS: [(&str, &str); 5] = [
    (
        "start",
        "5: 1 2 3 4 5; #1 Clause 2 -1; #2 Conj 3 1 2; #3 Ladder (0 4 5); #4 Clause -1 2; next 5; least 1 none; cnf 5",
    ),
    (
        "enc 2",
        "5: 1 2 3 4 5; #1 Clause 2 -1; #3 Ladder (0 4 5); #4 Clause -1 2; next 5; least 1 none; cnf 5 (1 -3) (2 -3) \
        (-1 -2 3)",
    ),
    (
        "enc 1",
        "5: 1 2 3 4 5; #3 Ladder (0 4 5); #4 Clause -1 2; next 5; least 3 none; cnf 5 (1 -3) (2 -3) (-1 -2 3) (-1 2)",
    ),
    (
        "enc 4",
        "5: 1 2 3 4 5; #3 Ladder (0 4 5); next 5; least 3 none; cnf 5 (1 -3) (2 -3) (-1 -2 3) (-1 2)",
    ),
    (
        "enc 3",
        "5: 1 2 3 4 5; next 5; least none none; cnf 5 (1 -3) (2 -3) (-1 -2 3) (-1 2) (4 -5)",
    ),
];

/// An equation behind an encoding changes the clauses that are there.
static ENCODINGS_BEFORE_EQUATIONS: [(&str, &str); 7] = [
    (
        "start",
        "4: 1 2 3 4; #1 Conj 3 1 2; #2 Clause 1 2 4; #3 Parity even 1 2; #4 Clause -3; next 5; least 1 none; cnf 4",
    ),
    (
        "enc 1",
        "4: 1 2 3 4; #2 Clause 1 2 4; #3 Parity even 1 2; #4 Clause -3; next 5; least 2 none; cnf 4 (1 -3) (2 -3) \
        (-1 -2 3)",
    ),
    (
        "enc 2",
        "4: 1 2 3 4; #3 Parity even 1 2; #4 Clause -3; next 5; least 3 none; cnf 4 (1 -3) (2 -3) (-1 -2 3) (1 2 4)",
    ),
    (
        "eq 3 form 1 2",
        "4: 1 1 3 4; #3 Parity even 1 2 is Parity even 1 1; #4 Clause -3; next 5; least 3 none; cnf 4 (1 -3) (-1 3) \
        (1 4)",
    ),
    (
        "eq 4 form -3 T",
        "4: 1 1 F 4; #3 Parity even 1 2 is Parity even 1 1; #4 Clause -3 is Clause T; next 5; least 3 none; \
        cnf 4 (-1) (1 4)",
    ),
    (
        "enc 3",
        "4: 1 1 F 4; #4 Clause -3 is Clause T; next 5; least 4 none; cnf 4 (-1) (1 4)",
    ),
    (
        "enc 4",
        "4: 1 1 F 4; next 5; least none none; cnf 4 (-1) (1 4)",
    ),
];

/// A compound core becomes basic by an equation, and is encoded as the store has it.
static ENCODING_AS_THE_STORE_HAS_IT: [(&str, &str); 3] = [
    (
        "start",
        "4: 1 2 3 4; #1 Parity odd 1 2 3 4; #2 Clause -4; next 3; least 1 1; cnf 4",
    ),
    (
        "eq 2 form -4 T",
        "4: 1 2 3 F; #1 Parity odd 1 2 3 4 is Parity odd 1 2 3; #2 Clause -4 is Clause T; next 3; least 1 none; cnf 4",
    ),
    (
        "enc 1",
        "4: 1 2 3 F; #2 Clause -4 is Clause T; next 3; least 2 none; cnf 4 (1 2 3) (1 -2 -3) (-1 2 -3) (-1 -2 3)",
    ),
];

/// An integer whose two steps have become one gives the clauses of that one.
static ENCODING_OF_A_MERGED_INTEGER: [(&str, &str); 3] = [
    (
        "start",
        "5: 1 2 3 4 5; #1 LeqR 1 (0 2 3) (0 4 5); #2 Parity even 2 3; next 3; least 1 none; cnf 5",
    ),
    (
        "eq 2 form 2 3",
        "5: 1 2 2 4 5; #1 LeqR 1 (0 2 3) (0 4 5) is LeqR 1 (0 2:2) (0 4 5); #2 Parity even 2 3 is Parity even 2 2; \
        next 3; least 1 none; cnf 5",
    ),
    (
        "enc 1",
        "5: 1 2 2 4 5; #2 Parity even 2 3 is Parity even 2 2; next 3; least 2 none; cnf 5 (4 -5) (-1 -2 5) (1 2) \
        (1 2 -4) (1 -5)",
    ),
];

/// No variable and no core.
static NOTHING: [(&str, &str); 1] = [("start", "0:; next 1; least none none; cnf 0")];

/// A sum is basic, and compound once it is constant.
static SUM_BECOMES_COMPOUND: [(&str, &str); 2] = [
    (
        "start",
        "25: 1 2 3 4 5 6 7 8 9 10 11 12 13 14 15 16 17 18 19 20 21 22 23 24 25; #1 Clause 25; \
        #2 Sum3 (0 1 2 3 4 5 6 7 8 9 10) (0 11 12 13 14 15 16 17 18 19 20 21 22 23 24) (0 25); next 3; least 1 none; \
        cnf 25",
    ),
    (
        "eq 1 form 25 T",
        "25: 1 2 3 4 5 6 7 8 9 10 11 12 13 14 15 16 17 18 19 20 21 22 23 24 T; #1 Clause 25 is Clause T; \
        #2 Sum3 (0 1 2 3 4 5 6 7 8 9 10) (0 11 12 13 14 15 16 17 18 19 20 21 22 23 24) (0 25) \
        is Sum3 (0 1 2 3 4 5 6 7 8 9 10) (0 11 12 13 14 15 16 17 18 19 20 21 22 23 24) (1); next 3; least 1 2; cnf 25",
    ),
];

#[test]
fn equations(rt: HostRuntime) -> io::Result<()> {
    let alloc = rt.alloc();
    let by_form = ["Parity even 1,2", "Clause -3", "Parity odd 2,5"];
    walk_both(&rt, alloc, 5, &by_form, &BY_FORM)?;
    let by_order = ["Ladder 0..2@2", "Parity odd 2,3", "Parity even 1,3"];
    walk_both(&rt, alloc, 4, &by_order, &BY_ORDER)?;
    let by_table = ["Conj 1 -1,2", "Sum3 0..1@3 0..1@3 0..2@4", "Clause 6,6"];
    walk_both(&rt, alloc, 6, &by_table, &BY_TABLE)
}

#[test]
fn splits(rt: HostRuntime) -> io::Result<()> {
    let alloc = rt.alloc();
    let atoms = ["Clause 6", "Parity odd 1,2,3,4,5", "Amo 1,2,3,4,5"];
    walk_both(&rt, alloc, 6, &atoms, &SPLITS)?;
    let integers = [
        "Count 1,2,3 0..3@4",
        "Lex strict 7 0..1@1;0..1@2 0..1@3;0..1@4",
    ];
    walk_both(&rt, alloc, 7, &integers, &SPLITS_OF_INTEGERS)?;
    let sums = [
        "Sum 0..1@1;0..1@2;0..1@3;0..1@4;0..1@5 2",
        "Parity even 1,4",
    ];
    walk_both(&rt, alloc, 5, &sums, &SPLITS_OF_SUMS)?;
    let stored = ["Clause 1", "Parity odd 1,2,3,4,5", "Parity even 2,6"];
    walk_both(&rt, alloc, 6, &stored, &SPLIT_AS_THE_STORE_HAS_IT)
}

#[test]
fn encodings(rt: HostRuntime) -> io::Result<()> {
    let alloc = rt.alloc();
    let cores = ["Clause 2,-1", "Conj 3 1,2", "Ladder 0..2@4", "Clause -1,2"];
    walk_both(&rt, alloc, 5, &cores, &ENCODINGS)?;
    let before = ["Conj 3 1,2", "Clause 1,2,4", "Parity even 1,2", "Clause -3"];
    walk_both(&rt, alloc, 4, &before, &ENCODINGS_BEFORE_EQUATIONS)?;
    let stored = ["Parity odd 1,2,3,4", "Clause -4"];
    walk_both(&rt, alloc, 4, &stored, &ENCODING_AS_THE_STORE_HAS_IT)?;
    let merged = ["LeqR 1 0..2@2 0..2@4", "Parity even 2,3"];
    walk_both(&rt, alloc, 5, &merged, &ENCODING_OF_A_MERGED_INTEGER)
}

#[test]
fn least_ids(rt: HostRuntime) -> io::Result<()> {
    let alloc = rt.alloc();
    walk_both(&rt, alloc, 0, &[], &NOTHING)?;
    let cores = ["Clause 25", "Sum3 0..10@1 0..14@11 0..1@25"];
    walk_both(&rt, alloc, 25, &cores, &SUM_BECOMES_COMPOUND)
}
