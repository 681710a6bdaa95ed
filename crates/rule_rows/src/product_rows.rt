//! Equations of products and of divisions, worked out by hand.

use crate::equations::Row;

/// The ranges of a product and of its factors.
pub(super) static RANGES: [Row; 8] = [
    // the corners are 2, -8, -3 and 12
    (
        "Prod -2,3@1 -1,4@2 -9,-8,-3,2,12,13@3",
        "Form 3 T",
        "Form T 3;Form 7 F;Form F 7",
        "Form 4 T;Form 6 F;Form 3 F;Order 3 T",
    ),
    // both below 0: 15, 3, 10 and 2
    (
        "Prod -3,-2@1 -5,-1@2 1,2,15,16@3",
        "Form 3 T",
        "Form 5 F",
        "Form 4 T;Form 4 F",
    ),
    // factors that may be 0, and a gap above the greatest product
    (
        "Prod 0,3@1 0,2@2 0,5,6,9@3",
        "Form 5 F",
        "Form F 5",
        "Form 4 F;Form 3 F;Form 1 T;Form 2 T",
    ),
    // 4 by 3 is rounded up
    (
        "Prod 0,1,2,3@1 2,3@4 4,5,6@5",
        "Form 2 T",
        "Form T 2",
        "Form 1 T;Form 3 F;Form 3 T;Form 4 T",
    ),
    // 7 by 2 is rounded down
    (
        "Prod 1,2,3,4@1 2,3@4 2,3,7@5",
        "Form 3 F",
        "Form F 3",
        "Form 2 F;Form 4 F;Form 4 T",
    ),
    // the second factor
    (
        "Prod 2,3@1 0,1,2,3@2 4,5,6@5",
        "Form 3 T",
        "Form T 3",
        "Form 2 T;Form 4 F;Form 1 T",
    ),
    // the product may be below 0: nothing of a factor's range
    ("Prod 0,1,2@1 1,2@3 -1,1@4", "Form 4 T", "", "Form 2 F"),
    ("Prod 2 3 5", "Form F T", "Form T F", "Form T T"),
];

/// A constant factor of either sign, 1 and 0 too.
pub(super) static CONSTANTS: [Row; 13] = [
    (
        "Prod 2 0,1,3@1 -1,0,1,2,5,6,7@3",
        "Form 3 T",
        "Form 8 F;Form 1 5;Form 2 7;Form 4 1;Form 6 2",
        "Form 1 3;Form 1 6;Form 2 5;Form 1 2;Form 4 T;Form 1 -5",
    ),
    (
        "Prod 3 -1,0,2@1 -3,0,6@3",
        "Form 3 1",
        "Form 2 4;Form 1 3",
        "Form 1 4;Form 2 3;Form 1 T",
    ),
    // -3 by 2 is rounded up to -1
    (
        "Prod 2 -2,-1,1@1 -4,-3,-2,2@3",
        "Form 4 1",
        "Form 2 5;Form 3 1;Form 1 4",
        "Form 3 T;Form 1 5;Form 2 4",
    ),
    (
        "Prod 0,2@1 2 0,3,4@2",
        "Form 3 1",
        "Form 1 3;Form 2 1;Form 1 2",
        "Form 2 3;Form 1 T",
    ),
    // one goes down as the other goes up; -3 by -2 is rounded down to 1
    (
        "Prod -2 0,1,3@1 -6,-3,-2,0@3",
        "Form 5 -1",
        "Form -1 5;Form 4 -2;Form 3 -2",
        "Form 5 1;Form 4 -1;Form 3 -1;Form 5 -2",
    ),
    (
        "Prod -1,1,2@1 -3 -6,-4,-3,3@3",
        "Form 5 -1",
        "Form 4 -2;Form 3 -2",
        "Form 5 1;Form 4 -1;Form 3 -1",
    ),
    // 4 by -3 is rounded down to -2
    (
        "Prod -2,-1,0@1 -3 0,3,4,6@3",
        "Form 5 -1",
        "Form 3 -2;Form 4 -1",
        "Form 4 -2;Form 3 -1;Form 5 -2",
    ),
    ("Prod 1 0,1@1 0,1@2", "Form 2 1", "Form 1 2", "Form 1 -2"),
    ("Prod -1 0,1@1 -1,0@2", "Form 2 -1", "Form -1 2", "Form 2 1"),
    (
        "Prod 0 0,1,2@1 -1,0,1@3",
        "Form 3 T",
        "Form 4 F",
        "Form 1 T;Form 2 F;Form 1 3",
    ),
    (
        "Prod 0 1,2@1 0,1@2",
        "Form 2 F",
        "",
        "Form 1 F;Form 1 T;Form 1 2",
    ),
    (
        "Prod 0,1@1 0 0,1@2",
        "Form 2 F",
        "",
        "Form 1 F;Form 1 T;Form 1 2",
    ),
    ("Prod 2 3 6", "none", "", "Form T F"),
];

/// A number by another is a quotient and a rest.
pub(super) static DIVISIONS: [Row; 8] = [
    // 7 by 3 and 9 by 2 are rounded down, and the rest is below the greatest divisor
    (
        "DivMod 7,9@1 2,3@2 1,2,3,4,5@3 -1,0,1,2,3@7",
        "Form 3 T",
        "Form 6 F;Form 7 T;Form 10 F",
        "Form 4 T;Form 5 F;Form 8 T;Form 9 F;Form 3 F",
    ),
    // the rest is at most the dividend
    (
        "DivMod 0,1@1 5,7@2 0 0,1,2,6,7@3",
        "Form 6 F",
        "Form 4 F",
        "Form 5 F;Form 3 F;Form 1 T",
    ),
    // 3 times 2 plus 0, and 3 times 3 plus 2
    (
        "DivMod 0,5,6,11,12@1 2,3@5 3 0,2@6",
        "Form 2 T",
        "Form 4 F",
        "Form 3 T;Form 3 F;Form 1 T",
    ),
    // by 1
    (
        "DivMod 0,1,2@1 1 0,1,2,3@3 0,1@6",
        "Form 5 F",
        "Form 6 F",
        "Form 4 F;Form 6 T;Form 1 3",
    ),
    // the quotient may be below 0: nothing of the dividend's range
    (
        "DivMod 2,9@1 2 -1,1@2 0",
        "Form 2 T",
        "",
        "Form 1 F;Form 1 T",
    ),
    (
        "DivMod 7 3 0,2,3@1 0,1,2@3",
        "Form 1 T",
        "Form 2 F",
        "Form 3 T;Form 4 F",
    ),
    ("DivMod 7 3 3 0", "Form T F", "Form F T", "Form F F"),
    ("DivMod 7 3 2 1", "none", "", "Form T F"),
];
