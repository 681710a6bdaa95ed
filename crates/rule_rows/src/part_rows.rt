//! Parts of forms over lists of integers, worked out by hand.

use crate::splits::Row;

/// The first two members are added up.
pub(super) static SUMS: [Row; 7] = [
    ("Sum none 0", "0; Sum3 (0) (0) (0)"),
    ("Sum none 5", "0; Sum3 (0) (0) (5)"),
    ("Sum 0,2@3 2", "0; Sum3 (0 3:2) (0) (2)"),
    ("Sum 0,1@1;2,5@2 4", "0; Sum3 (0 1) (0) (-1 -2:3)"),
    ("Sum 0,1@1;0,1@2;0,1,2@3 2", "0; Sum3 (0 1) (0 2) (0 -4 -3)"),
    (
        "Sum 0,1@1;0,1@2;0,1@3;0,1@4 2",
        "2; Sum3 (0 1) (0 2) (0 20 21); Sum (0 3) (0 4) (0 20 21) 2",
    ),
    (
        "Sum 0,3@1;1,6@2;0,1@3;0,1@4;0,1@5 4",
        "3; Sum3 (0 1:3) (1 2:5) (1 20:3 21:2 22:3); Sum (0 3) (0 4) (0 5) (1 20:3 21:2 22:3) 4",
    ),
];

/// Each member has a mark for each of its values.
pub(super) static DIFFERENCES: [Row; 8] = [
    ("AllDiff none none", "0"),
    (
        "AllDiff 0,1@1 T",
        "2; Ladder (0 1); Conj 20 T -1 T; Conj 21 1 T T; Amo 20; Amo 21",
    ),
    // As many values as members, and all conditions are true.
    (
        "AllDiff 0,1@1;0,1@2 T,T",
        "4; Ladder (0 1); Ladder (0 2); Conj 20 T -1 T; Conj 21 1 T T; Conj 22 T -2 T; Conj 23 2 T T; Amo 20 22; \
        Amo 21 23; Clause 20 22; Clause 21 23",
    ),
    // So many values, but one condition may be false.
    (
        "AllDiff 0,1@1;0,1@2 T,-5",
        "4; Ladder (0 1); Ladder (0 2); Conj 20 T -1 T; Conj 21 1 T T; Conj 22 T -2 -5; Conj 23 2 T -5; Amo 20 22; \
        Amo 21 23",
    ),
    // More values than members.
    (
        "AllDiff 0,1@1;1,3@2 T,T",
        "4; Ladder (0 1); Ladder (1 2:2); Conj 20 T -1 T; Conj 21 1 T T; Conj 22 T -2 T; Conj 23 2 T T; Amo 20; \
        Amo 21 22; Amo 23",
    ),
    // The values go upwards, and those of one value stay in the order of the members.
    (
        "AllDiff 5@1;1,5@1;1,3@2 T,T,T",
        "5; Ladder (5); Ladder (1 1:4); Ladder (1 2:2); Conj 20 T T T; Conj 21 T -1 T; Conj 22 1 T T; Conj 23 T -2 T; \
        Conj 24 2 T T; Amo 21 23; Amo 24; Amo 20 22; Clause 21 23; Clause 24; Clause 20 22",
    ),
    (
        "AllDiff 0,1,2@1;0,1,2@3;0,1,2@5 T,-9,F",
        "9; Ladder (0 1 2); Ladder (0 3 4); Ladder (0 5 6); Conj 20 T -1 T; Conj 21 1 -2 T; Conj 22 2 T T; \
        Conj 23 T -3 -9; Conj 24 3 -4 -9; Conj 25 4 T -9; Conj 26 T -5 F; Conj 27 5 -6 F; Conj 28 6 T F; \
        Amo 20 23 26; Amo 21 24 27; Amo 22 25 28",
    ),
    // Fewer values than members.
    (
        "AllDiff 0,1@1;0,1@2;0,1@3;0,1@4 T,T,T,T",
        "8; Ladder (0 1); Ladder (0 2); Ladder (0 3); Ladder (0 4); Conj 20 T -1 T; Conj 21 1 T T; Conj 22 T -2 T; \
        Conj 23 2 T T; Conj 24 T -3 T; Conj 25 3 T T; Conj 26 T -4 T; Conj 27 4 T T; Amo 20 22 24 26; Amo 21 23 25 27",
    ),
];

/// The first members are compared, and the rest.
pub(super) static ORDERS: [Row; 7] = [
    ("Lex strict 9 none none", "0; Clause -9"),
    ("Lex or 9 none none", "0; Clause 9"),
    ("Lex strict 9 0,1@1 0,1@2", "0; LeqR -9 (0 2) (0 1)"),
    ("Lex or 9 0,1@1 0,1@2", "0; LeqR 9 (0 1) (0 2)"),
    (
        "Lex strict 9 0,1@1;0,1@2 0,1@3;0,1@4",
        "4; LeqR 20 (0 1) (0 3); LeqR 21 (0 3) (0 1); Lex strict 22 (0 2) (0 4); Conj -23 21 -22; Conj 9 20 23",
    ),
    (
        "Lex or T 0,1@1;0,1@2;0,2@3 0,1@4;0,1@5;0,1@6",
        "4; LeqR 20 (0 1) (0 4); LeqR 21 (0 4) (0 1); Lex or 22 (0 2) (0 3:2) (0 5) (0 6); Conj -23 21 -22; \
        Conj T 20 23",
    ),
    (
        "Lex or -9 0,1@1;0,1@2;0,1@3;0,1@4 0,1@5;0,1@6;0,1@7;0,1@8",
        "4; LeqR 20 (0 1) (0 5); LeqR 21 (0 5) (0 1); Lex or 22 (0 2) (0 3) (0 4) (0 6) (0 7) (0 8); Conj -23 21 -22; \
        Conj -9 20 23",
    ),
];
