//! Parts of forms that have networks, worked out by hand.

use crate::splits::Row;

/// Parities, members of which one at most is true, and counts.
pub(super) static FORMS: [Row; 9] = [
    (
        "Parity odd 1,-2,3,4",
        "1; Parity even 1 -2 20; Parity odd 3 4 20",
    ),
    (
        "Parity even 1,2,3,4,5,6,7",
        "1; Parity even 1 2 20; Parity even 3 4 5 6 7 20",
    ),
    ("Amo 1,2,3,4,5", "1; Amo 1 2 3 -20; Amo 4 5 20"),
    (
        "Amo 1,2,3,4,5,6,7,8,9",
        "1; Amo 1 2 3 -20; Amo 4 5 6 7 8 9 20",
    ),
    ("Count none 0,1@7", "0; Sum3 (0) (0) (0 7)"),
    ("Count -3 0,1@7", "0; Sum3 (0 -3) (0) (0 7)"),
    ("Count 1,2 0,1,2@7", "0; Sum3 (0 1) (0 2) (0 7 8)"),
    (
        "Count 1,2,3 1,2@7",
        "2; Count 1 2 (0 20 21); Sum3 (0 20 21) (0 3) (1 7)",
    ),
    (
        "Count 1,2,3,4,5 2",
        "5; Count 1 2 3 (0 20 21 22); Count 4 5 (0 23 24); Sum3 (0 20 21 22) (0 23 24) (2)",
    ),
];

/// Networks that merge the steps of two integers.
pub(super) static NETWORKS: [Row; 5] = [
    (
        "Sum3 0,1 0,1,2@2 0,1,2,3@4",
        "5; Ladder (0 1); Ladder (0 2 3); Sum3 (0 1) (0 2) (0 20 21); Sum3 (0) (0 3) (0 22); Comp 21 22 23 24; \
        EqR T (0 20 23 24) (0 4 5 6)",
    ),
    (
        "Sum3 0,1,2 1,2,3@3 2",
        "6; Ladder (0 1 2); Ladder (1 3 4); Sum3 (0 1) (0 3) (0 20 21); Sum3 (0 2) (0 4) (0 22 23); Comp 21 22 24 25; \
        EqR T (1 20 24 25 23) (2)",
    ),
    (
        "Sum3 0,1,2,3 0,1,2@4 0,1,2,3@6",
        "9; Ladder (0 1 2 3); Ladder (0 4 5); Sum3 (0 1 3) (0 4) (0 20 21 22); Sum3 (0 2) (0 5) (0 23 24); \
        Comp 21 23 25 26; Comp 22 24 27 28; EqR T (0 20 25 26 27 28) (0 6 7 8)",
    ),
    (
        "Sum3 0,1,2,3 0,1@4 3",
        "6; Ladder (0 1 2 3); Ladder (0 4); Sum3 (0 1 3) (0 4) (0 20 21 22); Sum3 (0 2) (0) (0 23); Comp 21 23 24 25; \
        EqR T (0 20 24 25 22) (3)",
    ),
    (
        "Sum3 0,4,6 -1,5@3 0,3,6@4",
        "10; Ladder (0 1:4 2:2); Ladder (-1 3:6); Sum3 (0 1 2) (0 3 3) (0 20 21 22 23); Sum3 (0 1) (0 3) (0 24 25); \
        Comp 21 24 26 27; Comp 22 25 28 29; EqR T (-1 20:2 26:2 27:2 28:2 29:2 23:2) (0 4:3 5:3)",
    ),
];
