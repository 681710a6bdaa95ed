//! Equations by the form of a core and by the order of an integer, worked out by hand.

use crate::equations::Row;

pub(super) static ATOMS: [Row; 21] = [
    (
        "Clause none",
        "Form T F",
        "Form T F;Form F T",
        "Order T F;Table T F;Form 1 T",
    ),
    ("Clause -3", "Form -3 T", "Form T -3", "Form 3 T;Form -3 F"),
    ("Clause T", "none", "", "Form T T;Form T F"),
    ("Clause 1,2", "none", "", "Form 1 T;Form 2 T"),
    ("Parity odd none", "Form T F", "Form F T", "Form T T"),
    ("Parity even none", "none", "", "Form T F"),
    ("Parity odd 4", "Form 4 T", "Form T 4", "Form 4 F"),
    ("Parity even 4", "Form 4 F", "Form F 4", "Form 4 T"),
    (
        "Parity odd 1,2",
        "Form 1 -2",
        "Form -2 1",
        "Form 1 2;Form -1 2",
    ),
    (
        "Parity even 1,2",
        "Form 1 2",
        "Form 2 1",
        "Form 1 -2;Form -1 -2",
    ),
    ("Parity odd 1,2,3", "none", "", "Form 1 T;Form 1 -2"),
    ("Conj 1 none", "Form 1 T", "Form T 1", "Form 1 F"),
    ("Conj 1 -2", "Form 1 -2", "Form -2 1", "Form 1 2"),
    ("Conj 1 F", "Form 1 F", "Form F 1", "Form 1 T"),
    ("Conj T 2,-3", "Form 2 T", "Form -3 T", "Form 3 T;Form 2 -3"),
    ("Conj F 2,3", "none", "", "Form 2 F;Form 2 T"),
    (
        "Amo 1,2,T",
        "Form 1 F",
        "Form 2 F;Form F 2",
        "Form T F;Form 1 2",
    ),
    ("Amo T,1", "Form 1 F", "Form F 1", "Form T F"),
    ("Amo T,T", "Form T F", "Form F T", "Form T T"),
    ("Amo T", "none", "", "Form T F"),
    ("Amo 1,2", "none", "", "Form 1 F;Form 1 -2"),
];

pub(super) static COMPARISONS: [Row; 20] = [
    (
        "LeqR T 0,1,2 0,1@3",
        "Form 2 F",
        "Form F 2",
        "Form 1 F;Form 3 T",
    ),
    (
        "LeqR F 0,1,2 0,1@3",
        "Form 1 T",
        "Form T 1",
        "Form 2 T;Form 3 F",
    ),
    (
        "LeqR F -3,-1 -2,0@2",
        "Form 1 T",
        "Form 2 F",
        "Form 1 F;Form 2 T",
    ),
    (
        "LeqR T -3,-1 -2,0@2",
        "none",
        "",
        "Form 1 F;Form 2 T;Form 1 2",
    ),
    ("LeqR 5 0,1 1,2@2", "Form 5 T", "Form T 5", "Form 5 F"),
    ("LeqR 5 2,3 0,1@2", "Form 5 F", "Form F 5", "Form 5 T"),
    ("LeqR 5 1,2 0,1@2", "none", "", "Form 5 T;Form 5 F"),
    ("LeqR 5 1 0,1,2@2", "Form 5 2", "Form 2 5", "Form 5 3"),
    (
        "LeqR 5 0,1,2 1",
        "Form 5 -2",
        "Form -2 5",
        "Form 5 -1;Form 5 2",
    ),
    (
        "EqR T 0,1,2 0,2@3",
        "Form 1 3",
        "Form 2 3;Form 3 2",
        "Form 1 2;Form 1 T",
    ),
    ("EqR T 0,2@3 0,1,2", "Form 3 2", "Form 3 1", "Form 1 2"),
    ("EqR F 0,1,2 1", "Form 1 2", "Form 2 1", "Form 1 F;Form 2 T"),
    ("EqR 5 0,1 3,4@2", "Form 5 F", "Form F 5", "Form 5 T"),
    ("EqR 5 0,2 1", "Form 5 F", "Form F 5", "Form 5 1"),
    ("EqR 5 0,1,2 1", "none", "", "Form 5 F;Form 5 1"),
    ("EqR 5 0,1 0", "Form 5 -1", "Form -1 5", "Form 5 1"),
    ("EqR 5 1 0,1@2", "Form 5 2", "Form 2 5", "Form 5 -2"),
    ("EqR 5 0,1,2 0,1,2", "Form 5 T", "Form T 5", "Form 5 F"),
    ("EqR 5 3 3", "Form 5 T", "Form T 5", "Form 5 F"),
    ("EqR 5 0,1,2 0,1,2@3", "none", "", "Form 5 T;Form 1 3"),
];

pub(super) static LADDERS: [Row; 6] = [
    ("Ladder 0,1,2", "none", "", "Order 1 T;Order 2 F;Form 1 2"),
    (
        "Ladder -1^1,2,T",
        "Order 2 T",
        "Order T 2",
        "Order 1 T;Form 2 T",
    ),
    ("Ladder 0^F,1,2", "Order 1 F", "Order F 1", "Order 2 F"),
    (
        "Ladder 0^1,2,-2",
        "Order 2 T",
        "Order T 2",
        "Order 1 T;Order -2 F",
    ),
    ("LeqR 5 0,1 9^7,8,-8", "Order 8 T", "Form 5 T", "Order 7 T"),
    ("LeqR 5 9^7,-7,8 0,1", "Order 7 T", "Form 5 F", "Order 8 F"),
];
