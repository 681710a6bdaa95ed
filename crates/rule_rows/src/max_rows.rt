//! Equations of greatest members, worked out by hand.

use crate::equations::Row;

/// One member, several of which one alone reaches the top, equal ones, values that no member reaches, and ends
/// that bound the others.
pub(super) static MAXIMA: [Row; 17] = [
    // at a value that a member has and the greatest lacks, the atom of the greatest stands first too
    ("Max 0,2,4@2;0 0,4@3", "Form 3 2", "Form 2 3", "Form 2 T"),
    (
        "Max 0,1,2 0,1,2@3",
        "Form 3 1",
        "Form 1 3;Form 4 2;Form 2 4",
        "Form 3 2;Form 3 T;Form 3 -1",
    ),
    (
        "Max 0,1,3;0,2@3 0,1,2,3@4",
        "Form 6 2",
        "Form 2 6",
        "Form 5 2;Form 4 1;Form 5 3;Form 6 3;Form 6 T",
    ),
    (
        "Max 0,1;0,2,4@2 0,1,2,4@5",
        "Form 6 2",
        "Form 7 3;Form 3 7",
        "Form 5 2;Form 5 1;Form 7 2",
    ),
    (
        "Max 0,1;0,2,3@2 0,1,3@5",
        "Form 6 3",
        "Form 2 6;Form 6 2;Form 3 6",
        "Form 5 2;Form 2 3;Form 6 T",
    ),
    ("Max 0,1;0,1 0,1@2", "none", "", "Form 2 1;Form 1 2"),
    ("Max 0,2;1,2@2 1,2@3", "none", "", "Form 3 1;Form 3 2"),
    (
        "Max 0,3;0,3@2;0,1@3 0,1,3@5",
        "none",
        "",
        "Form 6 1;Form 6 2;Form 5 3",
    ),
    (
        "Max 2,3;1 0,1,2,3@5",
        "Form 6 T",
        "Form 5 T;Form 7 1;Form 1 7;Form T 6",
        "Form 7 T;Form 5 1;Form 6 1",
    ),
    (
        "Max 0,1,2,3;0,1@4 0,1,2@5",
        "Form 3 F",
        "Form F 3;Form 6 2",
        "Form 2 F;Form 5 1;Form 6 T",
    ),
    (
        "Max 0,1@4;0,1,2,3 0,1,2@5",
        "Form 3 F",
        "Form F 3;Form 6 2",
        "Form 2 F;Form 5 1;Form 5 4",
    ),
    (
        "Max 0,1;0 0,1,2,4@5",
        "Form 6 F",
        "Form 7 F;Form F 7;Form 5 1;Form F 6",
        "Form 5 F;Form 1 F;Form 6 1",
    ),
    (
        "Max 0,1;0,1@2 0,3@5",
        "Form 5 F",
        "Form F 5",
        "Form 1 F;Form 5 T",
    ),
    (
        "Max -3,-1;-2,1@2 -2,-1,1@3",
        "Form 4 2",
        "Form 2 4",
        "Form 3 1;Form 3 2;Form 4 1",
    ),
    ("Max 1;2 2", "none", "", "Form T F"),
    ("Max 1;2 3", "Form T F", "Form F T", "Form T T"),
    ("Max 1;2 1", "Form F T", "Form T F", "Form T T"),
];
