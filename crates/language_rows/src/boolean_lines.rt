//! What the statements on Booleans mean.

use crate::meanings::{Row, hold};
use std::test::Fail;

const X_I: &str = "new_bool(x) new_int(i,-1,2)";

const X: &str = "new_bool(x)";

const X_Y: &str = "new_bool(x) new_bool(y)";

const X_Y_Z: &str = "new_bool(x) new_bool(y) new_bool(z)";

/// Booleans as integers, and operators of two.
static OPERATORS: [Row; 17] = [
    // Booleans as integers.
    (X_I, "bool2int(x,i)", "1 1; 0 0", "1 0; 0 1; 1 2; 0 -1"),
    (X_I, "bool2int(-x,i)", "1 0; 0 1", "1 1; 0 0; 0 2"),
    (X_I, "bool2int(true,i)", "0 1; 1 1", "0 0; 1 2"),
    (X_I, "bool2int(false,i)", "0 0; 1 0", "0 1; 1 -1"),
    // Booleans as new integers.
    (X, "bool2int(x,i)", "1 1; 0 0", "1 0; 0 1"),
    (X, "bool2int(-x,i)", "1 0; 0 1", "1 1; 0 0"),
    (X, "bool2int(true,i)", "0 1; 1 1", "0 0; 1 0"),
    // Equal booleans.
    (X_Y, "bool_eq(x,y)", "1 1; 0 0", "1 0; 0 1"),
    (X_Y, "bool_eq(x,-y)", "1 0; 0 1", "1 1; 0 0"),
    (X_Y, "bool_eq(-x,-y)", "1 1; 0 0", "1 0; 0 1"),
    (X_Y, "bool_eq(x,true)", "1 0; 1 1", "0 0; 0 1"),
    (X_Y, "bool_eq(false,y)", "0 0; 1 0", "0 1; 1 1"),
    // Operators of two.
    (
        X_Y_Z,
        "bool_or_reif(x,y,z)",
        "0 0 0; 1 0 1; 0 1 1; 1 1 1",
        "0 0 1; 1 0 0; 0 1 0; 1 1 0",
    ),
    (
        X_Y_Z,
        "bool_and_reif(x,y,z)",
        "0 0 0; 1 0 0; 0 1 0; 1 1 1",
        "0 0 1; 1 0 1; 0 1 1; 1 1 0",
    ),
    (
        X_Y_Z,
        "bool_xor_reif(x,y,z)",
        "0 0 0; 1 0 1; 0 1 1; 1 1 0",
        "0 0 1; 1 0 0; 0 1 0; 1 1 1",
    ),
    (
        X_Y_Z,
        "bool_iff_reif(x,y,z)",
        "0 0 1; 1 0 0; 0 1 0; 1 1 1",
        "0 0 0; 1 0 1; 0 1 1; 1 1 0",
    ),
    (
        X_Y_Z,
        "bool_and_reif(-x,true,-z)",
        "0 0 0; 1 1 1",
        "0 1 1; 1 0 0",
    ),
];

/// Operators of lists.
static LISTS: [Row; 22] = [
    (
        X_Y_Z,
        "bool_array_or([x,y])",
        "1 0 0; 0 1 0; 1 1 1",
        "0 0 0; 0 0 1",
    ),
    (X_Y_Z, "bool_array_or([-x])", "0 0 0; 0 1 1", "1 0 0; 1 1 1"),
    (
        X_Y_Z,
        "bool_array_and([x,y])",
        "1 1 0; 1 1 1",
        "1 0 0; 0 1 1; 0 0 0",
    ),
    (
        X_Y_Z,
        "bool_array_and([x,-y,true])",
        "1 0 0; 1 0 1",
        "1 1 0; 0 0 1",
    ),
    (
        X_Y_Z,
        "bool_array_xor([x,y,z])",
        "1 0 0; 0 1 0; 0 0 1; 1 1 1",
        "0 0 0; 1 1 0; 1 0 1; 0 1 1",
    ),
    (X_Y_Z, "bool_array_xor([x,x])", "", "0 0 0; 1 0 0"),
    (
        X_Y_Z,
        "bool_array_iff([x,y,z])",
        "0 0 0; 1 1 1",
        "1 0 0; 0 1 0; 1 1 0; 0 1 1",
    ),
    (X_Y_Z, "bool_array_iff([x])", "0 1 0; 1 0 0", ""),
    // Operators of empty lists.
    (X_Y_Z, "bool_array_or([])", "", "0 0 0; 1 1 1"),
    (X_Y_Z, "bool_array_and([])", "0 0 0; 1 1 1", ""),
    (X_Y_Z, "bool_array_xor([])", "", "0 0 0; 1 1 1"),
    (X_Y_Z, "bool_array_iff([])", "0 0 0; 1 1 1", ""),
    (
        X_Y_Z,
        "bool_array_or_reif([],z)",
        "0 0 0; 1 1 0",
        "0 0 1; 1 1 1",
    ),
    (
        X_Y_Z,
        "bool_array_and_reif([],z)",
        "0 0 1; 1 1 1",
        "0 0 0; 1 1 0",
    ),
    (
        X_Y_Z,
        "bool_array_xor_reif([],z)",
        "0 0 0; 1 1 0",
        "0 0 1; 1 1 1",
    ),
    (
        X_Y_Z,
        "bool_array_iff_reif([],z)",
        "0 0 1; 1 1 1",
        "0 0 0; 1 1 0",
    ),
    // Truths of operators of lists.
    (
        X_Y_Z,
        "bool_array_or_reif([x,y],z)",
        "0 0 0; 1 0 1; 0 1 1; 1 1 1",
        "0 0 1; 1 0 0; 0 1 0; 1 1 0",
    ),
    (
        X_Y_Z,
        "bool_array_and_reif([x,y],z)",
        "0 0 0; 1 0 0; 0 1 0; 1 1 1",
        "0 0 1; 1 0 1; 0 1 1; 1 1 0",
    ),
    (
        X_Y_Z,
        "bool_array_xor_reif([x,y],z)",
        "0 0 0; 1 0 1; 0 1 1; 1 1 0",
        "0 0 1; 1 0 0; 0 1 0; 1 1 1",
    ),
    (
        X_Y_Z,
        "bool_array_xor_reif([x,y,true],z)",
        "0 0 1; 1 1 1; 1 0 0",
        "0 0 0; 1 1 0; 1 0 1",
    ),
    (
        X_Y_Z,
        "bool_array_iff_reif([x,y],z)",
        "0 0 1; 1 0 0; 0 1 0; 1 1 1",
        "0 0 0; 1 0 1; 0 1 1; 1 1 0",
    ),
    (
        X_Y_Z,
        "bool_array_iff_reif([x,y,false],z)",
        "0 0 1; 1 0 0; 1 1 0",
        "0 0 0; 1 1 1; 0 1 1",
    ),
];

#[test]
fn boolean_lines(rt: HostRuntime) -> Result<(), Fail> {
    for rows in [OPERATORS.as_slice(), LISTS.as_slice()] {
        hold(&rt, rt.alloc(), rows)?;
    }
    Ok(())
}
