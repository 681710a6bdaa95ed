//! Equations of members that differ and of orders of words, worked out by hand.

use crate::equations::Row;

/// Fewer values than members or as many, a value that one member alone has, and neither.
pub(super) static COUNTED: [Row; 11] = [
    (
        "AllDiff 0;1;0,1 T,T,T",
        "Form T F",
        "Form T 1;Form F 1",
        "Form T -1;Form T T;Table T F;Order T F",
    ),
    (
        "AllDiff 0;1;0,1 T,T,2",
        "none",
        "",
        "Form T F;Form T 1;Form 2 F",
    ),
    (
        "AllDiff 0,1,2,3;0,1@4;0,1,2@5;0,2@7 T,T,T,T",
        "Form 3 T",
        "Form T 3",
        "Form 1 T;Form 2 T;Form 3 F;Form 6 T",
    ),
    (
        "AllDiff 0,1,3;0,2@3;0,2,3@4;2,3@6 T,T,T,T",
        "Form 1 T",
        "Form 2 F;Form F 2",
        "Form 1 2;Form 1 F;Form 4 T;Form T F",
    ),
    (
        "AllDiff 0,1,3;0,2@3;0,2,3@4;2,3@6 T,T,T,9",
        "none",
        "",
        "Form 1 T;Form 2 F;Form 9 T",
    ),
    ("AllDiff 0,1;1 T,T", "Form 1 F", "Form F 1", "Form 1 T"),
    (
        "AllDiff 0,1;1,2@2;0,2@3 T,T,T",
        "none",
        "",
        "Form T F;Form 1 -2;Form 1 T;Form 3 F",
    ),
    (
        "AllDiff 0,1;1,2@2;0,3@3 T,T,T",
        "none",
        "",
        "Form 2 T;Form 3 T;Form T F",
    ),
    ("AllDiff none none", "none", "", "Form T F;Form T T"),
    ("AllDiff 4 T", "none", "", "Form T F;Form T T"),
    ("AllDiff 0,1 T", "none", "", "Form 1 T;Form 1 F"),
];

/// Constants, and members with two values, with conditions and without.
pub(super) static NARROW: [Row; 15] = [
    (
        "AllDiff 1;0,1,2 T,T",
        "Form 1 2",
        "Form 2 1",
        "Form 1 F;Form T 1;Form 1 -2;Order 1 2",
    ),
    ("AllDiff 1;0,1,2 3,T", "none", "", "Form 1 2;Form 3 F"),
    ("AllDiff 1;0,1,2 T,3", "none", "", "Form 1 2;Form 3 F"),
    ("AllDiff 5;0,1,2 T,T", "none", "", "Form 1 2;Form 2 F"),
    (
        "AllDiff 3;3 T,4",
        "Form 4 F",
        "Form F 4",
        "Form 4 T;Form T F",
    ),
    ("AllDiff 3;3 4,T", "Form 4 F", "Form F 4", "Form T F"),
    ("AllDiff 3;3 4,5", "none", "", "Form 4 F;Form 5 F;Form 4 -5"),
    ("AllDiff 3;4 T,5", "none", "", "Form 5 F;Form 5 T"),
    ("AllDiff 3;3 T,T", "Form T F", "Form F T", "Form T T"),
    (
        "AllDiff 0,1;0,1@2;0,1@3 T,T,T",
        "Form 1 -2",
        "Form -2 1;Form 2 -1;Form 1 -3;Form 3 -2;Form T F;Form T 3;Form 3 F;Form 1 F",
        "Form 1 2;Form 1 -1;Form 4 T",
    ),
    (
        "AllDiff 0,1;0,1@2;0,1@3 T,T,4",
        "Form 1 -2",
        "Form 2 -1",
        "Form T F;Form 1 -3;Form T 3;Form 3 F;Form T 1;Form 4 F",
    ),
    (
        "AllDiff 0,2;0,2@2;0,1,2@3 T,T,T",
        "Form 1 -2",
        "Form T 3;Form 4 F;Form F 4",
        "Form 3 4;Form 1 2;Form 4 T;Form 1 F;Form T 1",
    ),
    (
        "AllDiff 0,1;0,2@2 T,T",
        "none",
        "",
        "Form 1 -2;Form 2 -1;Form T F",
    ),
    ("AllDiff 0,1;0,1 T,T", "Form 1 -1", "Form -1 1", "Form T F"),
    (
        "AllDiff 0,1;0,1@2;0,1@3;0,1@4;0,1@5 T,T,T,T,T",
        "Form 1 -2",
        "Form 4 -5;Form -4 5;Form 5 -1;Form T 5",
        "Form 4 5;Form -4 -5;Form 5 -5",
    ),
];

/// Lists of no members, strict and not, orders that are true, false and open, and forms without a rule here.
pub(super) static ORDERS: [Row; 14] = [
    ("Lex strict 5 none none", "Form 5 F", "Form F 5", "Form 5 T"),
    ("Lex or 5 none none", "Form 5 T", "Form T 5", "Form 5 F"),
    ("Lex strict T none none", "Form T F", "Form F T", "Form T T"),
    ("Lex or T none none", "none", "", "Form T T;Form T F"),
    ("Lex or F none none", "Form F T", "Form T F", "Form F F"),
    ("Lex strict F none none", "none", "", "Form T F"),
    (
        "Lex or T 0,1,2 0,1@3",
        "Form 2 F",
        "Form F 2",
        "Form 1 F;Form 3 T;Form T T",
    ),
    (
        "Lex strict T 1,2 0,1,3@2",
        "Form 2 T",
        "Form T 2",
        "Form 3 T;Form 1 F",
    ),
    (
        "Lex or T 0,2;5 1;0,1@2",
        "Form 1 F",
        "Form F 1",
        "Form 2 T;Form 2 F",
    ),
    ("Lex or T 0,1 0,1@2", "none", "", "Form 1 2;Form 1 F"),
    ("Lex or F 0,1,2 0,1@3", "none", "", "Form 2 F;Form 2 T"),
    ("Lex or 5 0,1,2 0,1@3", "none", "", "Form 2 F;Form 5 T"),
    ("Clause 3", "none", "", "Form 3 T"),
    ("Amo 1,T", "none", "", "Form 1 F"),
];
