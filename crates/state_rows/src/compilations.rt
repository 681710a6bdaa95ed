//! Compilations from cores to clauses, worked out by hand: the lines of the ledger, and the last state. Each split is
//! that of the least compound core, what its parts tell comes behind it, and each encoding is that of the least core.

use crate::ledgers::Row;

pub(super) static BY_TABLES: [Row; 6] = [
    // The first split hands the occurrences of its core on. Then an atom is told False that the core had and its rest
    // has not, and one that the rest has.
    (
        39,
        &[
            "Amo 14,15,16,1,2,3,4,5,6,7,8,9,10,11,12,13,17,18,19,20",
            "Lex or T 3;0,1,2,3,4,5,6,7,8,9,10@5 3;0,1,2,3,4,5,6,7,8,9@21",
            "Lex or T 3;0,1,2,3,4,5,6,7,8,9,10@4 3;0,1,2,3,4,5,6,7,8,9@31",
        ],
        "split 1; split 2; eq 6 form 41 T; eq 7 form 42 T; eq 9 form -44 -43; eq 10 form 43 T; eq 8 form 14 F; \
        split 3; eq 11 form 45 T; eq 12 form 46 T; eq 14 form -48 -47; eq 15 form 47 T; eq 13 form 13 F; split 5; \
        split 8; split 13; split 17; split 21; split 23; split 25; split 27; split 29; enc 4; enc 6; enc 7; enc 9; \
        enc 10; enc 11; enc 12; enc 14; enc 15; enc 16; enc 18; enc 19; enc 20; enc 22; enc 24; enc 26; enc 28; \
        enc 30; enc 31",
        "55: 1 2 3 4 5 6 7 8 9 10 11 12 F F 15 16 17 18 19 20 21 22 23 24 25 26 27 28 29 30 31 32 33 34 35 36 37 38 \
        39 40 T T T T T T T T 49 50 51 52 53 54 55; next 32; least none none; cnf 55 (-15 -16) (-15 40) (-16 40) \
        (-1 -2) (-1 -3) (-1 49) (-2 -3) (-2 49) (-3 49) (5 -6) (6 -7) (7 -8) (8 -9) (9 -10) (10 -11) (11 -12) \
        (21 -22) (22 -23) (23 -24) (24 -25) (25 -26) (26 -27) (27 -28) (28 -29) (-5 21) (-6 22) (-7 23) (-8 24) \
        (-9 25) (-10 26) (-11 27) (-12 28) (4 -5) (31 -32) (32 -33) (33 -34) (34 -35) (35 -36) (36 -37) (37 -38) \
        (38 -39) (-4 31) (-5 32) (-6 33) (-7 34) (-8 35) (-9 36) (-10 37) (-11 38) (-12 39) (-4 -5) (-4 -6) (-4 50) \
        (-5 -6) (-5 50) (-6 50) (-7 -8) (-7 -9) (-7 51) (-8 -9) (-8 51) (-9 51) (-10 -11) (-10 -12) (-10 52) \
        (-11 -12) (-11 52) (-12 52) (-17 -18) (-17 -19) (-17 53) (-18 -19) (-18 53) (-19 53) (-20 -40) (-20 -49) \
        (-20 54) (-40 -49) (-40 54) (-49 54) (-50 -51) (-50 -52) (-50 55) (-51 -52) (-51 55) (-52 55) (-53 -54) \
        (-53 -55) (-54 -55)",
    ),
    (
        5,
        &["Parity odd 1,2,3,4,5"],
        "split 1; split 3; enc 2; enc 4; enc 5",
        "7: 1 2 3 4 5 6 7; next 6; least none none; cnf 7 (1 2 -6) (1 -2 6) (-1 2 6) (-1 -2 -6) (3 4 -7) (3 -4 7) \
        (-3 4 7) (-3 -4 -7) (5 6 7) (5 -6 -7) (-5 6 -7) (-5 -6 7)",
    ),
    (
        4,
        &["Count 1,2,3 0..1@4"],
        "split 1; eq 3 form 6 F; split 2; enc 3; enc 4",
        "6: 1 2 3 4 5 F; next 5; least none none; cnf 6 (3 -4 5) (-3 4) (4 -5) (-3 -5) (1 2 -5) (-2 5) (-1 5) (-1 -2)",
    ),
    (
        6,
        &["Amo 1,2,3,4,5", "Clause 6"],
        "eq 2 form 6 T; split 1; enc 2; enc 3; enc 4",
        "7: 1 2 3 4 5 T 7; next 5; least none none; cnf 7 (-1 -2) (-1 -3) (-1 7) (-2 -3) (-2 7) (-3 7) (-4 -5) \
        (-4 -7) (-5 -7)",
    ),
    (
        5,
        &["Amo 1,2,3,4,5", "Parity odd 1,2", "Parity even 1,2"],
        "eq 2 form 1 -2; eq 3 form 1 -1",
        "5: 1 -1 3 4 5; #1 Amo 1 2 3 4 5 is Amo 1 -1 3 4 5; #2 Parity odd 1 2 is Parity odd 1 -1; \
        #3 Parity even 1 2 is Parity even 1 -1; next 4; least 1 1; bottom; cnf 5 ()",
    ),
    (0, &[], "", "0:; next 1; least none none; cnf 0"),
];

/// Where nothing is told, the cores are split and encoded as they stand. A clause of no member ends nothing then.
pub(super) static BY_SILENCE: [Row; 4] = [
    (
        2,
        &["Clause -1", "Parity even 1,2"],
        "enc 1; enc 2",
        "2: 1 2; next 3; least none none; cnf 2 (-1) (1 -2) (-1 2)",
    ),
    (
        2,
        &["Ladder 0..2@1", "EqR F 0..2@1 1"],
        "enc 1; enc 2",
        "2: 1 2; next 3; least none none; cnf 2 (1 -2) (-1 2)",
    ),
    (
        2,
        &["Count 1,2 1"],
        "split 1; enc 2",
        "2: 1 2; next 3; least none none; cnf 2 (1 2) (-1 -2)",
    ),
    (
        1,
        &["Clause none", "Clause 1"],
        "enc 1; enc 2",
        "1: 1; next 3; least none none; cnf 1 () (1)",
    ),
];
