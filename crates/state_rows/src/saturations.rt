//! What a worklist tells of cores, worked out by hand: the lines of its ledger, and the state they lead to.

use crate::ledgers::Row;

/// Equations by the order of integers, by the form of cores, and by their truth tables.
pub(super) static TOLD: [Row; 9] = [
    (
        4,
        &["Parity even 1,2", "Parity odd 2,3", "Clause -4"],
        "eq 1 form 1 2; eq 2 form 1 -3; eq 3 form -4 T",
        "4: 1 1 -1 F; #1 Parity even 1 2 is Parity even 1 1; #2 Parity odd 2 3 is Parity odd 1 -1; \
        #3 Clause -4 is Clause T; next 4; least 1 none; cnf 4",
    ),
    (
        3,
        &["Clause 1,2", "Clause 3,-2", "Clause -1"],
        "eq 3 form -1 T; eq 1 form 2 T; eq 2 form 3 T",
        "3: F T T; #1 Clause 1 2 is Clause T; #2 Clause 3 -2 is Clause T; #3 Clause -1 is Clause T; next 4; \
        least 1 none; cnf 3",
    ),
    (
        3,
        &["Parity even 1,2", "Parity odd 1,2", "Clause 3"],
        "eq 1 form 1 2; eq 2 form 1 -1",
        "3: 1 1 3; #1 Parity even 1 2 is Parity even 1 1; #2 Parity odd 1 2 is Parity odd 1 1; #3 Clause 3; next 4; \
        least 1 none; bottom; cnf 3 ()",
    ),
    (
        5,
        &[
            "Ladder 0..2@2",
            "LeqR 1 0..2@2 0..2@4",
            "Clause 1",
            "Clause 3",
        ],
        "eq 3 form 1 T; eq 4 form 3 T; eq 2 order 2 T; eq 2 form 5 T; eq 2 order 4 T",
        "5: T T T T T; #1 Ladder (0 2 3) is Ladder (2); #2 LeqR 1 (0 2 3) (0 4 5) is LeqR T (2) (2); \
        #3 Clause 1 is Clause T; #4 Clause 3 is Clause T; next 5; least 1 none; cnf 5",
    ),
    (
        2,
        &["Conj 1 -1,2"],
        "eq 1 table T -1; eq 1 form F 2",
        "2: F F; #1 Conj 1 -1 2 is Conj F F; next 2; least 1 none; cnf 2",
    ),
    (
        4,
        &["Sum3 0..1@1 0..1@1 0..2@2", "Parity even 3,4"],
        "eq 1 table 1 2; eq 1 table 1 3; eq 2 form 1 4",
        "4: 1 1 1 1; #1 Sum3 (0 1) (0 1) (0 2 3) is Sum3 (0 1) (0 1) (0 1:2); #2 Parity even 3 4 is Parity even 1 1; \
        next 3; least 1 none; cnf 4",
    ),
    // A class of three members gets a new label, and each member stands in a clause of its own.
    (
        6,
        &[
            "Parity even 1,2",
            "Parity even 2,5",
            "Clause 2,3",
            "Clause 1,4",
            "Clause 5,6",
            "Clause -1",
        ],
        "eq 1 form 1 2; eq 2 form 1 5; eq 6 form -1 T; eq 4 form 4 T; eq 5 form 6 T; eq 3 form 3 T",
        "6: F F T T F T; #1 Parity even 1 2 is Parity even; #2 Parity even 2 5 is Parity even; \
        #3 Clause 2 3 is Clause T; #4 Clause 1 4 is Clause T; #5 Clause 5 6 is Clause T; #6 Clause -1 is Clause T; \
        next 7; least 1 none; cnf 6",
    ),
    (0, &[], "", "0:; next 1; least none none; cnf 0"),
    // A sum is asked with its last member as the store has it, and stands as it was made behind that.
    (
        3,
        &["Sum 0..1@1;0..1@2;0..1@3 1", "Clause 3"],
        "eq 2 form 3 T; eq 1 form 1 F; eq 1 form 2 F",
        "3: F F T; #1 Sum (0 1) (0 2) (0 3) 1 is Sum (0) (0) (1) 1; #2 Clause 3 is Clause T; next 3; \
        least 1 1; cnf 3",
    ),
];

/// Nothing is told.
pub(super) static SILENT: [Row; 1] = [(
    2,
    &["Parity even 1,2", "Clause 1"],
    "",
    "2: 1 2; #1 Parity even 1 2; #2 Clause 1; next 3; least 1 none; cnf 2",
)];

/// The equation that is told is taken at the first core that tells it, and no other one, although rules state more.
pub(super) static TOLD_ONCE: [Row; 2] = [
    (
        4,
        &[
            "Parity even 1,2",
            "Clause 2",
            "Clause 1",
            "Clause 1",
            "Conj 4 3",
        ],
        "eq 3 form 1 T",
        "4: T 2 3 4; #1 Parity even 1 2 is Parity odd 2; #2 Clause 2; #3 Clause 1 is Clause T; \
        #4 Clause 1 is Clause T; #5 Conj 4 3; next 6; least 1 none; cnf 4",
    ),
    (
        2,
        &["Clause 2", "Clause -1", "Clause 1,2"],
        "",
        "2: 1 2; #1 Clause 2; #2 Clause -1; #3 Clause 1 2; next 4; least 1 none; cnf 2",
    ),
];
