//! What comparisons of two integers, and operations on integers, mean.

use crate::meanings::{Row, hold};
use std::test::Fail;

const I_J: &str = "new_int(i,-9,9) new_int(j,-9,9)";

const I_J_Z: &str = "new_int(i,-9,9) new_int(j,-9,9) new_bool(z)";

const I_J_K: &str = "new_int(i,-9,9) new_int(j,-9,9) new_int(k,-9,9)";

const NUMERATOR_DENOMINATOR: &str = "new_int(i,0,9) new_int(j,1,9) new_int(k,-9,9)";

/// Comparisons.
static COMPARISONS: [Row; 16] = [
    (I_J, "int_leq(i,j)", "1 2; 1 1; -3 0", "2 1; 1 -1"),
    (I_J, "int_geq(i,j)", "2 1; 1 1; -1 -3", "1 2; -1 0"),
    (I_J, "int_eq(i,j)", "1 1; -4 -4", "1 2; 1 -1"),
    (I_J, "int_lt(i,j)", "1 2; -2 -1", "1 1; 2 1"),
    (I_J, "int_gt(i,j)", "2 1; -1 -2", "1 1; 1 2"),
    (I_J, "int_neq(i,j)", "1 2; 1 -1", "1 1; -9 -9"),
    (I_J, "int_leq(3,j)", "0 3; 0 4", "0 2; 0 -3"),
    (I_J, "int_gt(i,-2)", "-1 0; 9 0", "-2 0; -3 0"),
    (I_J, "int_lt(i,i)", "", "0 1; 5 9"),
    // Truths of comparisons.
    (
        I_J_Z,
        "int_leq_reif(i,j,z)",
        "1 2 1; 1 1 1; 2 1 0",
        "1 2 0; 1 1 0; 2 1 1",
    ),
    (
        I_J_Z,
        "int_geq_reif(i,j,z)",
        "2 1 1; 1 1 1; 1 2 0",
        "2 1 0; 1 1 0; 1 2 1",
    ),
    (
        I_J_Z,
        "int_eq_reif(i,j,z)",
        "1 1 1; 1 2 0; 1 -1 0",
        "1 1 0; 1 2 1; 1 -1 1",
    ),
    (
        I_J_Z,
        "int_lt_reif(i,j,z)",
        "1 2 1; 1 1 0; 2 1 0",
        "1 2 0; 1 1 1; 2 1 1",
    ),
    (
        I_J_Z,
        "int_gt_reif(i,j,z)",
        "2 1 1; 1 1 0; 1 2 0",
        "2 1 0; 1 1 1; 1 2 1",
    ),
    (
        I_J_Z,
        "int_neq_reif(i,j,z)",
        "1 2 1; 1 -1 1; 1 1 0",
        "1 2 0; 1 -1 0; 1 1 1",
    ),
    (I_J_Z, "int_lt_reif(i,j,-z)", "1 2 0; 2 1 1", "1 2 1; 2 1 0"),
];

/// Operations.
static OPERATIONS: [Row; 18] = [
    (I_J_K, "int_plus(i,j,k)", "1 2 3; 1 -2 -1", "1 2 2; 1 2 0"),
    (
        I_J_K,
        "int_times(i,j,k)",
        "2 3 6; -2 3 -6; -2 -3 6; 0 5 0",
        "2 3 5; -2 3 6; 0 5 5",
    ),
    (
        I_J_K,
        "int_max(i,j,k)",
        "1 2 2; -1 -2 -1; 3 3 3",
        "1 2 1; 1 2 3; -1 -2 -2",
    ),
    (
        I_J_K,
        "int_min(i,j,k)",
        "1 2 1; -1 -2 -2; 3 3 3",
        "1 2 2; 1 2 0; -1 -2 -1",
    ),
    (I_J_K, "int_plus(i,-3,k)", "4 0 1; 0 0 -3", "4 0 7; 0 0 3"),
    // Divisions.
    (
        NUMERATOR_DENOMINATOR,
        "int_div(i,j,k)",
        "7 2 3; 1 2 0; 9 3 3; 0 5 0",
        "7 2 4; 7 2 2; 1 2 1; 7 2 -3",
    ),
    (
        NUMERATOR_DENOMINATOR,
        "int_mod(i,j,k)",
        "7 2 1; 4 2 0; 3 5 3",
        "7 2 0; 7 2 3; 4 2 2; 7 2 -1",
    ),
    (
        NUMERATOR_DENOMINATOR,
        "int_div(i,4,k)",
        "9 1 2; 3 1 0",
        "9 1 3; 3 1 1",
    ),
    (
        NUMERATOR_DENOMINATOR,
        "int_mod(9,j,k)",
        "0 5 4; 0 9 0",
        "0 5 -1; 0 9 9",
    ),
    // Absolute values.
    (I_J, "int_abs(i,j)", "-1 1; 2 2; 0 0", "-1 -1; 1 2; 2 -2"),
    (I_J, "int_abs(-7,j)", "0 7; 9 7", "0 -7; 0 6"),
    // Operations on lists.
    (
        I_J_K,
        "int_array_plus([i,j],k)",
        "1 2 3; 1 -2 -1",
        "1 2 2; 1 2 0",
    ),
    (
        I_J_K,
        "int_array_plus([],k)",
        "0 0 0; 1 2 0",
        "0 0 1; 1 2 3",
    ),
    (
        I_J_K,
        "int_array_max([i,j],k)",
        "1 2 2; -1 -2 -1; 3 3 3",
        "1 2 1; 1 2 3; -1 -2 -2",
    ),
    (
        I_J_K,
        "int_array_max([i],k)",
        "4 0 4; -4 0 -4",
        "4 0 5; 4 0 -4",
    ),
    (
        I_J_K,
        "int_array_min([i,j],k)",
        "1 2 1; -1 -2 -2; 3 3 3",
        "1 2 2; 1 2 0; -1 -2 -1",
    ),
    (
        I_J_K,
        "int_array_min([i],k)",
        "4 0 4; -4 0 -4",
        "4 0 3; 4 0 -4",
    ),
    (
        I_J_K,
        "int_array_min([i,j,0],k)",
        "1 2 0; -1 2 -1",
        "1 2 1; -1 2 0",
    ),
];

#[test]
fn integer_lines(rt: HostRuntime) -> Result<(), Fail> {
    for rows in [COMPARISONS.as_slice(), OPERATIONS.as_slice()] {
        hold(&rt, rt.alloc(), rows)?;
    }
    Ok(())
}
