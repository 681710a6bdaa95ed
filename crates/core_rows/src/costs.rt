//! What cores cost, and which of them are basic: a row for each form, and further ones where a form
//! changes from basic to compound.

use core_forms::{cost, is_basic};
use core_words::core_of;
use std::alloc::Global;
use std::io;
use std::process::Abort;

/// A core, its cost, and whether it is basic.
type Row = (&'static str, u128, bool);

/// Each form.
static FORMS: [Row; 17] = [
    ("Ladder 0..3", 4, true),
    ("Clause 1,2,3", 3, true),
    ("Parity odd 1,2,3", 12, true),
    ("Parity odd 1,2,3,4", 25, false),
    ("Conj 9 1,2,3", 10, true),
    ("Comp 1 2 3 4", 14, true),
    ("Amo 1,2,3,4", 12, true),
    ("Amo 1,2,3,4,5", 19, false),
    ("LeqR 9 0..2 -4..-1", 27, true),
    ("EqR 9 0..2 -4..-1", 42, true),
    // Two halves of 2 and 26, and 58 for their sum.
    ("Count 1,2,3,4 2", 114, false),
    // A fresh sum of two steps: 2 and 26, and 26 for the sum of it and two further steps.
    ("Sum 0..1;0..1;0..1;0..1 2", 54, false),
    ("Max 0..2;1 0..3", 26, true),
    ("AllDiff 0..2;1 T,7", 78, false),
    ("Prod -1..1 0..3 -3..1", 132, true),
    ("DivMod 0..2 1..4 0..1 0..2", 248, true),
    // 18 and twice 27 for the first pair, and 9 for the second.
    ("Lex strict 9 0..2;0 0..3;0..1", 81, false),
];

/// Sums of two integers, by tables and by networks.
static SUMS_OF_TWO: [Row; 4] = [
    // Two ladders of 4, and a table of 6 * 4 * 4.
    ("Sum3 0..3 0..3 3", 104, true),
    // Two ladders of 20, and a table of 864, where the network costs 887.
    ("Sum3 0..11 0..11 5", 904, true),
    // Two ladders of 22, and a network of 1,001, where the table costs 1,014.
    ("Sum3 0..12 0..12 5", 1045, false),
    // Two ladders of 38, and a network of 2,153, where the table costs 2,646.
    ("Sum3 0..20 0..20 20", 2229, false),
];

/// Tests a row.
fn check(rt: &impl Abort, alloc: Global, row: &Row) -> io::Result<()> {
    let core = core_of(alloc, row.0)?;
    let found = cost(alloc, &core)?;
    assert_eq!(rt; found, row.1, "{}", row.0);
    assert_eq!(rt; is_basic(&core), row.2, "{}", row.0);
    Ok(())
}

#[test]
fn forms_cost(rt: HostRuntime) -> io::Result<()> {
    for rows in [FORMS.as_slice(), SUMS_OF_TWO.as_slice()] {
        for row in rows {
            check(&rt, rt.alloc(), row)?;
        }
    }
    Ok(())
}
