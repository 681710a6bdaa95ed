//! Equations of sums and counts, worked out by hand.

use crate::equations::Row;

/// Sums of two integers: bounds of the sum and of each summand, a constant at each place, negative values, and
/// values that have no partner.
pub(super) static SUMS_OF_TWO: [Row; 18] = [
    // at a value that the sum has and the summand lacks, the atom of the summand stands first too
    ("Sum3 2 0,4@3 2,4,6@2", "Form 3 2", "Form 2 3", "Form 3 T"),
    ("Sum3 0,1 0,1@2 0,1,2@3", "none", "", "Form 3 T;Form 1 3"),
    (
        "Sum3 1,2 1,3@2 1,2,3,4@3",
        "Form 3 T",
        "Form T 3",
        "Form 4 T;Form 5 F;Form 2 F;Form 3 F",
    ),
    (
        "Sum3 0,1 0,1@2 0,2,3,5@3",
        "Form 4 F",
        "Form F 4",
        "Form 3 F;Form 5 F;Form 4 T",
    ),
    (
        "Sum3 0,1,2,3 0,1@4 2,3@5",
        "Form 1 T",
        "Form T 1",
        "Form 2 T;Form 3 F;Form 4 T",
    ),
    (
        "Sum3 0,1,2,3 0,1@4 0,1@5",
        "Form 2 F",
        "Form F 2",
        "Form 1 F;Form 3 F;Form 4 F",
    ),
    (
        "Sum3 0,1@4 0,1,2,3 2,3@5",
        "Form 1 T",
        "Form T 1",
        "Form 2 T",
    ),
    (
        "Sum3 0,1@4 0,1,2,3 0,1@5",
        "Form 2 F",
        "Form F 2",
        "Form 1 F;Form 3 F",
    ),
    (
        "Sum3 3 -1,0,2 2,3,5@4",
        "Form 1 4",
        "Form 4 1;Form 2 5",
        "Form 1 5;Form 2 4;Form 1 T",
    ),
    (
        "Sum3 1 0,2 1,2,3@4",
        "Form 1 5",
        "Form 5 1;Form 4 1;Form 1 4",
        "Form 4 5;Form 1 T;Form 1 -4",
    ),
    (
        "Sum3 -1,0,2 3 2,3,5@4",
        "Form 1 4",
        "Form 5 2",
        "Form 1 5;Form 2 4",
    ),
    (
        "Sum3 0,2 1 1,2,3@4",
        "Form 1 5",
        "Form 4 1",
        "Form 4 5;Form 1 T",
    ),
    (
        "Sum3 -2 0,1 -2,-1@2",
        "Form 1 2",
        "Form 2 1",
        "Form 1 -2;Form 1 T",
    ),
    (
        "Sum3 0,1,2 0,1,2@3 2",
        "Form 1 -4",
        "Form -4 1;Form 2 -3",
        "Form 1 4;Form 2 -4;Form 1 -3;Form 2 3",
    ),
    (
        "Sum3 0,1,2 0,2@3 2",
        "Form 1 -3",
        "Form 2 -3",
        "Form 1 2;Form 1 3;Form 1 T",
    ),
    (
        "Sum3 -2,0,3 -3,1@3 -1",
        "Form 2 F",
        "Form F 2;Form 1 -3;Form 2 -3",
        "Form 1 3;Form 1 F;Form 2 3",
    ),
    ("Sum3 1 2 3", "none", "", "Form T F"),
    ("Sum3 1 2 4", "Form T F", "Form F T", "Form T T;Form 1 F"),
];

/// Counts: none and all of the members true, numbers that no members give, and no members.
pub(super) static COUNTS: [Row; 12] = [
    (
        "Count 1,2,3 0,1,2,3@4",
        "none",
        "",
        "Form 1 T;Form 1 F;Form 4 T;Form 6 F",
    ),
    (
        "Count 1,2 -1,0,1,2,3@4",
        "Form 4 T",
        "Form 7 F;Form F 7",
        "Form 5 T;Form 6 F;Form 1 T",
    ),
    (
        "Count 1,-2,3 3",
        "Form 1 T",
        "Form -2 T;Form T 3",
        "Form 2 T;Form 1 F;Form 1 3",
    ),
    (
        "Count 1,2 2,3@4",
        "Form 4 F",
        "Form 1 T;Form 2 T",
        "Form 4 T;Form 1 F",
    ),
    ("Count 1,2 1,2@4", "none", "", "Form 1 T;Form 4 T"),
    (
        "Count 1,-2 0",
        "Form 1 F",
        "Form -2 F;Form F 1",
        "Form 2 F;Form 1 T",
    ),
    (
        "Count 1,2 -1,0@4",
        "Form 4 T",
        "Form 1 F;Form 2 F",
        "Form 1 T;Form 4 F",
    ),
    ("Count T,1 2", "Form 1 T", "Form T 1", "Form 1 F;Form T F"),
    ("Count F,1 2", "Form F T", "Form T F;Form 1 T", "Form 1 F"),
    ("Count none 0", "none", "", "Form T F"),
    (
        "Count none 0,1@4",
        "Form 4 F",
        "Form F 4",
        "Form 4 T;Form T F",
    ),
    ("Count none 1", "Form T F", "Form F T", "Form T T"),
];

/// Sums of listed members: none, one, and what several leave of the number.
pub(super) static SUMS: [Row; 10] = [
    ("Sum none 0", "none", "", "Form T F"),
    ("Sum none 3", "Form T F", "Form F T", "Form T T;Form 1 T"),
    ("Sum none -1", "Form T F", "Form F T", "Form T T"),
    (
        "Sum 0,1,2 1",
        "Form 1 T",
        "Form 2 F;Form F 2",
        "Form 1 F;Form 2 T;Form 1 2",
    ),
    ("Sum 0,2 1", "Form 1 T", "Form 1 F", "Form T F"),
    (
        "Sum 0,1,2;0,1@3;0,1@4 1",
        "Form 2 F",
        "Form F 2",
        "Form 1 F;Form 3 F;Form 3 T",
    ),
    (
        "Sum -3,0,4;-1,2@3 3",
        "Form 2 T",
        "Form T 2",
        "Form 1 T;Form 3 T;Form 3 F",
    ),
    (
        "Sum 0,1;0,1,3@2 4",
        "Form 1 T",
        "Form 3 T;Form T 3",
        "Form 2 T;Form 3 F",
    ),
    ("Sum 0,1;0,1@2 5", "Form F T", "Form T F", "Form 1 T"),
    (
        "Sum -2,-1;-2,0@2 -3",
        "Form 2 F",
        "Form F 2",
        "Form 1 F;Form 1 T;Form 2 T",
    ),
];
