//! Equations by the truth table of a core, worked out by hand.

use crate::equations::Row;

/// Each form once with an equation that the other rules do not give, and once with none.
pub(super) static FORMS: [Row; 32] = [
    (
        "Ladder 0^1,2,-1",
        "Table T 1",
        "Table -1 F",
        "Table 2 T;Form T 1;Order T 1",
    ),
    ("Ladder 0,1,2", "none", "", "Table 1 2;Table 1 T;Table 2 F"),
    (
        "Clause 1,1",
        "Table T 1",
        "Table 1 T;Table F -1",
        "Table 1 F;Table T T;Table 2 T",
    ),
    ("Clause 1,2", "none", "", "Table 1 T;Table 1 -2"),
    (
        "Parity odd 1,1,2",
        "Table T 2",
        "Table 2 T",
        "Table 1 T;Table 1 2",
    ),
    ("Parity odd 1,2,3", "none", "", "Table 1 2;Table 1 -2"),
    (
        "Conj 1 -1,2",
        "Table T -1",
        "Table 2 F;Table 1 2;Table -1 -2",
        "Table 1 -2",
    ),
    ("Conj 1 2,3", "none", "", "Table 1 2;Table 2 3"),
    (
        "Comp 1 2 3 3",
        "Table 1 2",
        "Table 1 3;Table -3 -2",
        "Table 1 T;Table 1 -2",
    ),
    ("Comp 1 2 3 4", "none", "", "Table 1 2;Table 3 4"),
    (
        "LeqR 5 0,1,2,3 0,1,2,3",
        "Table T 5",
        "Table -5 F",
        "Table 5 F;Table 1 2",
    ),
    ("LeqR 5 0,1 0,1@2", "none", "", "Table 5 T;Table 1 2"),
    ("EqR 5 0,2 1,3@2", "Table T -5", "Table 5 F", "Table 1 2"),
    ("EqR 5 0,1 0,1@2", "none", "", "Table 1 2;Table 5 T"),
    (
        "Sum3 0,1 0,2@2 0,1,2,3@3",
        "Table 2 4",
        "Table -4 -2",
        "Table 1 3;Table 1 5",
    ),
    ("Sum3 0,1 0,1@2 0,1,2@3", "none", "", "Table 1 3;Table 2 4"),
    (
        "Count 1,1 0,1,2@3",
        "Table 1 3",
        "Table 1 4;Table 3 4",
        "Table 1 -3",
    ),
    ("Count 1,2 0,1,2@3", "none", "", "Table 1 3;Table 2 4"),
    (
        "Sum 0,2;0,2@2 2",
        "Table 1 -2",
        "Table 2 -1;Table -1 2",
        "Table 1 2",
    ),
    ("Sum 0,1;0,1@2;0,1@3 1", "none", "", "Table 1 -2;Table 1 F"),
    (
        "Max 0,2;0,2@2 0,1,2@3",
        "Table 3 4",
        "Table 4 3",
        "Table 1 3;Table 3 T",
    ),
    ("Max 0,1;0,1@2 0,1@3", "none", "", "Table 1 3;Table 2 3"),
    (
        "AllDiff 0,1;1,2@2;0,2@3 T,T,T",
        "Table 1 2",
        "Table 1 -3;Table 3 -2",
        "Table 1 3;Table 1 T",
    ),
    ("AllDiff 0,1;0,1@2 3,4", "none", "", "Table 1 -2;Table 3 F"),
    (
        "Amo 1,-1,2",
        "Table T -2",
        "Table 2 F",
        "Table 1 T;Table 1 F",
    ),
    ("Amo 1,2,3", "none", "", "Table 1 F;Table 1 -2"),
    (
        "Prod 1,2 0,3@2 0,3,6@3",
        "Table 2 3",
        "Table 3 2",
        "Table 1 4;Table 2 4",
    ),
    ("Prod 0,1 0,1@2 0,1@3", "none", "", "Table 1 3;Table 2 3"),
    (
        "DivMod 0,1 2 0 0,1@3",
        "Table 1 3",
        "Table 3 1",
        "Table 1 T",
    ),
    (
        "DivMod 0,1 1,2@2 0,1@3 0,1@4",
        "none",
        "",
        "Table 1 3;Table 1 4;Table 3 -4",
    ),
    (
        "Lex or 5 0,1 0,1",
        "Table T 5",
        "Table 5 T",
        "Table 1 T;Table 5 F",
    ),
    ("Lex or 5 0,1 0,1@2", "none", "", "Table 5 T;Table 1 2"),
];

/// Eight variables and nine, none, cores that no valuation meets, and literals of opposite sign.
pub(super) static LIMITS: [Row; 9] = [
    (
        "Conj 8 1,-1,2,3,4,5,6,7",
        "Table T -8",
        "Table 8 F",
        "Table 7 F;Table 9 F",
    ),
    (
        "Conj 9 1,-1,2,3,4,5,6,7,8",
        "none",
        "",
        "Table 9 F;Table T -9",
    ),
    (
        "Conj 80 70,-70,9,33,44",
        "Table T -80",
        "Table 80 F",
        "Table 70 T;Table 1 F",
    ),
    (
        "Clause none",
        "Table T F",
        "Table F T",
        "Table T T;Table 1 F",
    ),
    ("Clause T", "none", "", "Table T F;Table T T"),
    (
        "Conj 1 -1",
        "Table T F",
        "Table 1 T;Table 1 F;Table 1 -1",
        "Table 1 1;Table 2 T",
    ),
    (
        "Parity odd 1,2",
        "Table 1 -2",
        "Table -1 2;Table 2 -1",
        "Table 1 2;Table -1 -2",
    ),
    (
        "Parity even 1,2",
        "Table 1 2",
        "Table -1 -2;Table -2 -1",
        "Table 1 -2",
    ),
    (
        "Clause 7,8",
        "none",
        "",
        "Table 7 8;Table 7 -8;Table 7 T;Table 8 T",
    ),
];
