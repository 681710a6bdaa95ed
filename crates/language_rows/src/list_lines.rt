//! What it means that the members of a list differ, and that two lists are in order.

use crate::meanings::{Row, hold};
use std::test::Fail;

const I_J_K: &str = "new_int(i,-9,9) new_int(j,-9,9) new_int(k,-9,9)";

const I_J_K_Z: &str = "new_int(i,-9,9) new_int(j,-9,9) new_int(k,-9,9) new_bool(z)";

const X_Y_Z_I_J_K: &str =
    "new_bool(x) new_bool(y) new_bool(z) new_int(i,-9,9) new_int(j,-9,9) new_int(k,-9,9)";

const X_Y_Z_W: &str = "new_bool(x) new_bool(y) new_bool(z) new_bool(w)";

const I_J_K_M: &str = "new_int(i,-9,9) new_int(j,-9,9) new_int(k,-9,9) new_int(m,-9,9)";

const X_Y_Z: &str = "new_bool(x) new_bool(y) new_bool(z)";

const I_J_Z: &str = "new_int(i,-9,9) new_int(j,-9,9) new_bool(z)";

/// Different members.
static DIFFERENT: [Row; 10] = [
    (
        I_J_K,
        "int_array_allDiff([i,j,k])",
        "1 2 3; 0 -1 1",
        "1 2 1; 1 1 2; 3 2 2; 0 0 0",
    ),
    (I_J_K, "int_array_allDiff([])", "1 1 1; 0 0 0", ""),
    (I_J_K, "int_array_allDiff([i])", "1 1 1; 0 0 0", ""),
    (I_J_K, "int_array_allDiff([i,i])", "", "1 2 3; 0 1 2"),
    (
        I_J_K,
        "int_array_allDiff([i,4,j])",
        "1 2 3; 3 5 0",
        "4 2 3; 1 4 0; 2 2 0",
    ),
    // Truths of different members.
    (
        I_J_K_Z,
        "int_array_allDiff_reif([i,j,k],z)",
        "1 2 3 1; 1 1 2 0; 2 1 2 0",
        "1 2 3 0; 1 1 2 1; 1 2 1 1",
    ),
    (
        I_J_K_Z,
        "int_array_allDiff_reif([],z)",
        "1 1 1 1; 0 0 0 1",
        "1 1 1 0; 0 0 0 0",
    ),
    // Different members with conditions.
    (
        X_Y_Z_I_J_K,
        "int_array_allDiffCond([i,j,k],[x,y,z])",
        "1 1 1 1 2 3; 1 0 1 1 1 2; 0 0 0 1 1 1; 1 1 0 1 2 1; 1 0 0 1 1 1",
        "1 1 0 1 1 3; 1 0 1 1 2 1; 0 1 1 3 2 2; 1 1 1 1 1 1",
    ),
    (
        X_Y_Z_I_J_K,
        "int_array_allDiffCond([i,j],[true,-x])",
        "1 0 0 1 1 0; 0 0 0 1 2 0",
        "0 0 0 1 1 0; 0 1 1 2 2 2",
    ),
    (
        X_Y_Z_I_J_K,
        "int_array_allDiffCond([],[])",
        "1 1 1 1 1 1; 0 0 0 0 0 0",
        "",
    ),
];

/// Orders of lists.
static ORDERS: [Row; 10] = [
    // Orders of booleans.
    (
        X_Y_Z_W,
        "bool_arrays_lex([x,y],[z,w])",
        "0 1 1 0; 0 0 0 0; 1 0 1 1; 1 1 1 1",
        "1 0 0 1; 1 1 1 0; 0 1 0 0",
    ),
    (
        X_Y_Z_W,
        "bool_arrays_lexLt([x,y],[z,w])",
        "0 1 1 0; 1 0 1 1",
        "0 0 0 0; 1 1 1 1; 1 0 0 1; 1 1 1 0",
    ),
    (X_Y_Z_W, "bool_arrays_lex([],[])", "0 0 0 0; 1 1 1 1", ""),
    (X_Y_Z_W, "bool_arrays_lexLt([],[])", "", "0 0 0 0; 1 1 1 1"),
    (
        X_Y_Z_W,
        "bool_arrays_lexLt([-x,false],[y,true])",
        "0 1 0 0; 1 1 0 0; 1 0 0 0",
        "0 0 0 0; 0 0 1 1",
    ),
    // Orders of integers.
    (
        I_J_K_M,
        "int_arrays_lex([i,j],[k,m])",
        "1 9 2 0; 1 2 1 2; 1 2 1 3; -1 0 0 -9",
        "2 0 1 9; 1 3 1 2; 0 0 -1 9",
    ),
    (
        I_J_K_M,
        "int_arrays_lexLt([i,j],[k,m])",
        "1 9 2 0; 1 2 1 3",
        "1 2 1 2; 2 0 1 9; 1 3 1 2",
    ),
    (I_J_K_M, "int_arrays_lex([],[])", "0 0 0 0; 1 1 1 1", ""),
    (I_J_K_M, "int_arrays_lexLt([],[])", "", "0 0 0 0; 1 1 1 1"),
    (
        I_J_K_M,
        "int_arrays_lex([i,3],[0,j])",
        "-1 0 0 0; 0 3 0 0",
        "0 2 0 0; 1 9 0 0",
    ),
];

/// Truths of orders.
static TRUTHS: [Row; 8] = [
    // Truths of orders of booleans.
    (
        X_Y_Z,
        "bool_arrays_lex_reif([x],[y],z)",
        "0 1 1; 0 0 1; 1 0 0; 1 1 1",
        "0 1 0; 0 0 0; 1 0 1; 1 1 0",
    ),
    (
        X_Y_Z,
        "bool_arrays_lexLt_reif([x],[y],z)",
        "0 1 1; 0 0 0; 1 0 0; 1 1 0",
        "0 1 0; 0 0 1; 1 0 1; 1 1 1",
    ),
    (
        X_Y_Z,
        "bool_arrays_lex_reif([],[],z)",
        "0 0 1; 1 1 1",
        "0 0 0; 1 1 0",
    ),
    (
        X_Y_Z,
        "bool_arrays_lexLt_reif([],[],z)",
        "0 0 0; 1 1 0",
        "0 0 1; 1 1 1",
    ),
    // Truths of orders of integers.
    (
        I_J_Z,
        "int_arrays_lex_reif([i,j],[j,i],z)",
        "1 2 1; 2 1 0; 3 3 1",
        "1 2 0; 2 1 1; 3 3 0",
    ),
    (
        I_J_Z,
        "int_arrays_lexLt_reif([i,j],[j,i],z)",
        "1 2 1; 2 1 0; 3 3 0",
        "1 2 0; 2 1 1; 3 3 1",
    ),
    (
        I_J_Z,
        "int_arrays_lex_reif([],[],z)",
        "0 0 1; 1 1 1",
        "0 0 0; 1 1 0",
    ),
    (
        I_J_Z,
        "int_arrays_lexLt_reif([],[],z)",
        "0 0 0; 1 1 0",
        "0 0 1; 1 1 1",
    ),
];

#[test]
fn list_lines(rt: HostRuntime) -> Result<(), Fail> {
    for rows in [DIFFERENT.as_slice(), ORDERS.as_slice(), TRUTHS.as_slice()] {
        hold(&rt, rt.alloc(), rows)?;
    }
    Ok(())
}
