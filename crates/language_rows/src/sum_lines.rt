//! What the sums compared with an integer mean.

use crate::meanings::{Row, hold};
use std::test::Fail;

const X_Y_Z_I: &str = "new_bool(x) new_bool(y) new_bool(z) new_int(i,-9,9)";

const I_J_K: &str = "new_int(i,-9,9) new_int(j,-9,9) new_int(k,-9,9)";

/// Counts.
static COUNTS: [Row; 13] = [
    (
        X_Y_Z_I,
        "bool_array_sum_leq([x,y,z],i)",
        "1 1 0 2; 1 0 0 2; 0 0 0 0",
        "1 1 1 2; 1 0 0 0; 0 0 0 -1",
    ),
    (
        X_Y_Z_I,
        "bool_array_sum_geq([x,y,z],i)",
        "1 1 0 2; 1 1 1 2; 0 0 0 -1",
        "1 0 0 2; 0 0 0 1",
    ),
    (
        X_Y_Z_I,
        "bool_array_sum_eq([x,y,z],i)",
        "1 1 0 2; 0 0 0 0; 1 1 1 3",
        "1 0 0 2; 1 1 1 2; 0 0 0 -1",
    ),
    (
        X_Y_Z_I,
        "bool_array_sum_lt([x,y,z],i)",
        "1 0 0 2; 0 0 0 1",
        "1 1 0 2; 1 1 1 2",
    ),
    (
        X_Y_Z_I,
        "bool_array_sum_gt([x,y,z],i)",
        "1 1 1 2; 1 1 0 1",
        "1 1 0 2; 0 0 0 0",
    ),
    (
        X_Y_Z_I,
        "bool_array_sum_neq([x,y,z],i)",
        "1 0 0 2; 1 1 1 2",
        "1 1 0 2; 0 0 0 0",
    ),
    (
        X_Y_Z_I,
        "bool_array_sum_eq([-x,true,x],i)",
        "0 0 0 2; 1 0 0 2",
        "0 0 0 1; 1 0 0 3",
    ),
    // Counts of empty lists.
    (
        X_Y_Z_I,
        "bool_array_sum_leq([],i)",
        "0 0 0 0; 1 1 1 4",
        "0 0 0 -1; 1 1 1 -2",
    ),
    (
        X_Y_Z_I,
        "bool_array_sum_geq([],i)",
        "0 0 0 0; 1 1 1 -4",
        "0 0 0 1; 1 1 1 3",
    ),
    (
        X_Y_Z_I,
        "bool_array_sum_eq([],i)",
        "0 0 0 0; 1 1 1 0",
        "0 0 0 1; 1 1 1 3",
    ),
    (
        X_Y_Z_I,
        "bool_array_sum_lt([],i)",
        "0 0 0 1; 1 1 1 2",
        "0 0 0 0; 1 1 1 -1",
    ),
    (
        X_Y_Z_I,
        "bool_array_sum_gt([],i)",
        "0 0 0 -1; 1 1 1 -2",
        "0 0 0 0; 0 0 0 1",
    ),
    (
        X_Y_Z_I,
        "bool_array_sum_neq([],i)",
        "0 0 0 1; 0 0 0 -1",
        "0 0 0 0; 1 1 1 0",
    ),
];

/// Weights.
static WEIGHTS: [Row; 12] = [
    (
        X_Y_Z_I,
        "bool_array_pb_leq([1,-2,3],[x,y,z],i)",
        "1 0 1 4; 0 1 0 -2; 1 1 0 0",
        "1 0 1 3; 0 1 0 -3",
    ),
    (
        X_Y_Z_I,
        "bool_array_pb_geq([1,-2,3],[x,y,z],i)",
        "1 0 1 4; 0 1 0 -2; 0 0 1 2",
        "1 0 1 5; 0 1 0 -1",
    ),
    (
        X_Y_Z_I,
        "bool_array_pb_eq([1,-2,3],[x,y,z],i)",
        "1 0 1 4; 0 1 0 -2; 1 1 1 2",
        "1 0 1 3; 0 1 0 2; 1 1 1 6",
    ),
    (
        X_Y_Z_I,
        "bool_array_pb_lt([1,-2,3],[x,y,z],i)",
        "1 0 1 5; 0 1 0 -1",
        "1 0 1 4; 0 1 0 -2",
    ),
    (
        X_Y_Z_I,
        "bool_array_pb_gt([1,-2,3],[x,y,z],i)",
        "1 0 1 3; 0 1 0 -3",
        "1 0 1 4; 0 1 0 -2",
    ),
    (
        X_Y_Z_I,
        "bool_array_pb_neq([1,-2,3],[x,y,z],i)",
        "1 0 1 3; 0 1 0 2",
        "1 0 1 4; 0 1 0 -2",
    ),
    // Weights of empty lists.
    (
        X_Y_Z_I,
        "bool_array_pb_leq([],[],i)",
        "0 0 0 0; 1 1 1 4",
        "0 0 0 -1; 1 1 1 -2",
    ),
    (
        X_Y_Z_I,
        "bool_array_pb_geq([],[],i)",
        "0 0 0 0; 1 1 1 -4",
        "0 0 0 1; 1 1 1 3",
    ),
    (
        X_Y_Z_I,
        "bool_array_pb_eq([],[],i)",
        "0 0 0 0; 1 1 1 0",
        "0 0 0 1; 1 1 1 3",
    ),
    (
        X_Y_Z_I,
        "bool_array_pb_lt([],[],i)",
        "0 0 0 1; 1 1 1 2",
        "0 0 0 0; 1 1 1 -1",
    ),
    (
        X_Y_Z_I,
        "bool_array_pb_gt([],[],i)",
        "0 0 0 -1; 1 1 1 -2",
        "0 0 0 0; 0 0 0 1",
    ),
    (
        X_Y_Z_I,
        "bool_array_pb_neq([],[],i)",
        "0 0 0 1; 0 0 0 -1",
        "0 0 0 0; 1 1 1 0",
    ),
];

/// Sums.
static SUMS: [Row; 13] = [
    (
        I_J_K,
        "int_array_sum_leq([i,j],k)",
        "1 2 3; 1 -2 0; -4 -5 -9",
        "1 2 2; 1 1 0",
    ),
    (
        I_J_K,
        "int_array_sum_geq([i,j],k)",
        "1 2 3; 1 2 2; -1 -1 -2",
        "1 -2 0; 1 1 9",
    ),
    (
        I_J_K,
        "int_array_sum_eq([i,j],k)",
        "1 2 3; 1 -2 -1",
        "1 2 2; 1 2 0",
    ),
    (
        I_J_K,
        "int_array_sum_lt([i,j],k)",
        "1 2 4; 1 -2 0",
        "1 2 3; 1 2 2",
    ),
    (
        I_J_K,
        "int_array_sum_gt([i,j],k)",
        "1 2 2; 1 2 -1",
        "1 2 3; 1 2 4",
    ),
    (
        I_J_K,
        "int_array_sum_neq([i,j],k)",
        "1 2 2; 1 2 4",
        "1 2 3; 1 -2 -1",
    ),
    (
        I_J_K,
        "int_array_sum_eq([i,5,-2],k)",
        "1 0 4; -3 0 0",
        "1 0 1; 0 0 -3",
    ),
    // Sums of empty lists.
    (
        I_J_K,
        "int_array_sum_leq([],k)",
        "0 0 0; 1 1 4",
        "0 0 -1; 1 1 -2",
    ),
    (
        I_J_K,
        "int_array_sum_geq([],k)",
        "0 0 0; 1 1 -4",
        "0 0 1; 1 1 3",
    ),
    (
        I_J_K,
        "int_array_sum_eq([],k)",
        "0 0 0; 1 1 0",
        "0 0 1; 1 1 2",
    ),
    (
        I_J_K,
        "int_array_sum_lt([],k)",
        "0 0 1; 1 1 2",
        "0 0 0; 1 1 -1",
    ),
    (
        I_J_K,
        "int_array_sum_gt([],k)",
        "0 0 -1; 1 1 -2",
        "0 0 0; 0 0 1",
    ),
    (
        I_J_K,
        "int_array_sum_neq([],k)",
        "0 0 1; 0 0 -1",
        "0 0 0; 1 1 0",
    ),
];

/// Linear sums.
static LINEAR_SUMS: [Row; 12] = [
    (
        I_J_K,
        "int_array_lin_leq([2,-3],[i,j],k)",
        "1 1 -1; 3 1 3; 0 2 0",
        "3 1 2; 1 1 -2",
    ),
    (
        I_J_K,
        "int_array_lin_geq([2,-3],[i,j],k)",
        "3 1 3; 1 1 -2; 3 0 6",
        "3 1 4; 0 2 0",
    ),
    (
        I_J_K,
        "int_array_lin_eq([2,-3],[i,j],k)",
        "3 1 3; 1 1 -1; -1 -1 1",
        "3 1 2; 1 1 5; 0 1 3",
    ),
    (
        I_J_K,
        "int_array_lin_lt([2,-3],[i,j],k)",
        "3 1 4; 0 1 0",
        "3 1 3; 1 1 -2",
    ),
    (
        I_J_K,
        "int_array_lin_gt([2,-3],[i,j],k)",
        "3 1 2; 1 1 -2",
        "3 1 3; 0 1 0",
    ),
    (
        I_J_K,
        "int_array_lin_neq([2,-3],[i,j],k)",
        "3 1 2; 1 1 5",
        "3 1 3; 1 1 -1",
    ),
    // Linear sums of empty lists.
    (
        I_J_K,
        "int_array_lin_leq([],[],k)",
        "0 0 0; 1 1 4",
        "0 0 -1; 1 1 -2",
    ),
    (
        I_J_K,
        "int_array_lin_geq([],[],k)",
        "0 0 0; 1 1 -4",
        "0 0 1; 1 1 3",
    ),
    (
        I_J_K,
        "int_array_lin_eq([],[],k)",
        "0 0 0; 1 1 0",
        "0 0 1; 1 1 2",
    ),
    (
        I_J_K,
        "int_array_lin_lt([],[],k)",
        "0 0 1; 1 1 2",
        "0 0 0; 1 1 -1",
    ),
    (
        I_J_K,
        "int_array_lin_gt([],[],k)",
        "0 0 -1; 1 1 -2",
        "0 0 0; 0 0 1",
    ),
    (
        I_J_K,
        "int_array_lin_neq([],[],k)",
        "0 0 1; 0 0 -1",
        "0 0 0; 1 1 0",
    ),
];

#[test]
fn sum_lines(rt: HostRuntime) -> Result<(), Fail> {
    for rows in [
        COUNTS.as_slice(),
        WEIGHTS.as_slice(),
        SUMS.as_slice(),
        LINEAR_SUMS.as_slice(),
    ] {
        hold(&rt, rt.alloc(), rows)?;
    }
    Ok(())
}
