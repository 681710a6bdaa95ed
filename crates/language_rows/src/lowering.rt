//! Models with what they are lowered to, worked out by hand.

ghost use Rattle.std.specs.Prelude.{IfOk};
ghost use Rattle.model_meaning.specs.WellTyped.{WellTyped};
ghost use Rattle.model_meaning.specs.Limits.{InLimits};

use crate::shown::push_lowered;
use bee_text::push_bytes;
use bumblebee_reader::read_model;
use model_lower::{LowerFault, lower, lower_owned};
use model_meaning::{Model, in_limits};
use std::alloc::{AllocError, Global};
use std::process::Abort;
use std::test::Fail;
use typed_model::check_types;

/// A model that is in the limits of a text.
fn small_model(alloc: Global, text: &str) -> Result<Model, Fail>
    ensures typed { IfOk result WellTyped }
    ensures limits { IfOk result InLimits }
{
    let syntax = read_model(alloc, text.as_bytes())?;
    let model = check_types(alloc, &syntax)?;
    if !in_limits(&model) {
        return Err(Fail::from("too great a numeral"));
    }
    Ok(model)
}

/// Why a model is not lowered.
fn push_fault(alloc: Global, text: &mut Vec<u8>, fault: &LowerFault) -> Result<(), AllocError> {
    let told = format!(in alloc; "{fault}")?;
    push_bytes(text, told.as_bytes())
}

/// What a model is lowered to, or why it is not.
fn lowered(alloc: Global, text: &str) -> Result<Vec<u8>, Fail> {
    let model = small_model(alloc, text)?;
    let mut found = Vec::new(alloc);
    match lower(alloc, &model) {
        Ok(lowered) => push_lowered(&mut found, &lowered)?,
        Err(fault) => push_fault(alloc, &mut found, &fault)?,
    }
    Ok(found)
}

/// The same where the model is used up, behind how many declarations are kept.
fn lowered_owned(alloc: Global, text: &str) -> Result<(usize, Vec<u8>), Fail> {
    let model = small_model(alloc, text)?;
    let mut found = Vec::new(alloc);
    match lower_owned(alloc, model) {
        Ok(model) => {
            push_lowered(&mut found, &model.lowered)?;
            Ok((model.decls.len(), found))
        }
        Err(fault) => {
            push_fault(alloc, &mut found, &fault)?;
            Ok((0, found))
        }
    }
}

const MIXED: &str =
    "new_bool(x) new_int(i,2,4) bool_array_or([x,-x]) new_int(j,7,7) int_leq(i,j) int_neq(i,i) new_bool(y) \
    bool_array_or([y,-x]) int_leq(3,i) solve satisfy";

const CORES: &str =
    "4: 1 (2 2 3) (7) 4; Ladder (2 2 3); Clause 1 -1; Ladder (7); LeqR T (2 2 3) (7); EqR F (2 2 3) (2 2 3); \
    Clause 4 -1; LeqR T (3) (2 2 3)";

/// Models of different kinds of items, in different orders, lent and used up.
static MODELS: [(&str, usize, &str); 7] = [
    (MIXED, 4, CORES),
    ("bool_array_or([]) solve satisfy", 0, "0:; Clause"),
    (
        "new_bool(x) bool_array_xor([x]) bool_eq(x,x) solve satisfy",
        1,
        "1: 1; Parity odd 1; Parity even 1 1",
    ),
    (
        "new_int(i,0,2) int_neq(i,1) int_plus(i,i,2) solve satisfy",
        1,
        "2: (0 1 2); Ladder (0 1 2); EqR F (0 1 2) (1); Sum3 (0 1 2) (0 1 2) (2)",
    ),
    (
        "new_bool(x) bool2int(-x,i) int_leq(1,i) new_bool(y) bool2int(y,i) solve satisfy",
        3,
        "2: 1 (0 -1) 2; LeqR T (1) (0 -1); EqR T (0 -1) (0 2)",
    ),
    (
        "new_bool(x) bool2int(x,i) bool2int(-x,j) solve satisfy",
        3,
        "1: 1 (0 1) (0 -1)",
    ),
    (
        "bool_array_and([true]) bool_array_or([false]) new_bool(x) solve satisfy",
        1,
        "1: 1; Conj T T; Clause F",
    ),
];

/// An integer with n values but its least weighs 3n - 2.
static HEAVY: [(&str, &str); 3] = [
    (
        "new_int(x,-1000000000,1000000000) solve satisfy",
        "weight 5999999998",
    ),
    ("new_int(i,0,22369623) solve satisfy", "weight 67108867"),
    (
        "new_bool(x) new_int(i,0,22369622) solve satisfy",
        "weight 67108865",
    ),
];

/// Lines over Booleans: x, y and z are variables 1, 2 and 3.
static BOOLEANS: [(&str, &str); 11] = [
    ("bool_eq(x,-y)", "3: 1 2 3; Parity even 1 -2"),
    ("bool_array_and([x,-y])", "3: 1 2 3; Conj T 1 -2"),
    (
        "bool_array_iff([-x,y,z])",
        "3: 1 2 3; Parity even -1 2; Parity even -1 3",
    ),
    ("bool_array_iff([])", "3: 1 2 3"),
    ("bool_or_reif(x,-y,-z)", "3: 1 2 3; Conj 3 -1 2"),
    ("bool_and_reif(x,-y,-z)", "3: 1 2 3; Conj -3 1 -2"),
    ("bool_xor_reif(x,-y,-z)", "3: 1 2 3; Parity even 1 -2 -3"),
    (
        "bool_iff_reif(x,-y,-z)",
        "5: 1 2 3; Conj 4 1 -2; Conj 5 -1 2; Conj 3 -4 -5",
    ),
    ("bool_array_or_reif([x,true],z)", "3: 1 2 3; Conj -3 -1 F"),
    ("bool_array_and_reif([],z)", "3: 1 2 3; Conj 3"),
    (
        "bool_array_iff_reif([x],z) new_bool(u) bool_eq(u,x)",
        "6: 1 2 3 6; Conj 4 1; Conj 5 -1; Conj -3 -4 -5; Parity even 6 1",
    ),
];

/// Lines over integers, and the number of variables: i is 0 or 1 by variable 1, j is 2 or 3 by variable 2, x is
/// variable 3. Their cores stand behind those of i and j.
static INTEGERS: [(&str, u32, &str); 14] = [
    ("bool2int(-x,i)", 3, "EqR T (0 1) (0 -3)"),
    ("int_geq(i,j)", 3, "LeqR T (2 2) (0 1)"),
    ("int_eq(i,j)", 3, "EqR T (0 1) (2 2)"),
    ("int_lt(i,j)", 3, "LeqR F (2 2) (0 1)"),
    ("int_gt(i,j)", 3, "LeqR F (0 1) (2 2)"),
    ("int_leq_reif(i,1,-x)", 3, "LeqR -3 (0 1) (1)"),
    ("int_neq_reif(i,j,x)", 3, "EqR -3 (0 1) (2 2)"),
    ("int_gt_reif(i,j,-x)", 3, "LeqR 3 (0 1) (2 2)"),
    ("int_times(i,-2,j)", 3, "Prod (0 1) (-2) (2 2)"),
    ("int_max(i,j,3)", 3, "Max (0 1) (2 2) (3)"),
    ("int_min(i,j,3)", 3, "Max (-1 -1) (-3 -2) (-3)"),
    ("int_abs(i,j)", 3, "Max (0 1) (-1 -1) (2 2)"),
    ("int_array_max([i],j)", 3, "Max (0 1) (2 2)"),
    ("int_array_min([j,1],i)", 3, "Max (-3 -2) (-1) (-1 -1)"),
];

/// Fresh integers, or a fresh atom for each two members.
static FRESH: [(&str, u32, &str); 7] = [
    ("int_div(i,j,3)", 4, "DivMod (0 1) (2 2) (3) (0 4)"),
    ("int_div(7,j,j)", 5, "DivMod (7) (2 2) (2 2) (0 4 5)"),
    ("int_mod(i,j,i)", 3, "DivMod (0 1) (2 2) (0) (0 1)"),
    ("int_mod(5,j,i)", 5, "DivMod (5) (2 2) (0 4 5) (0 1)"),
    ("int_array_allDiff_reif([],x)", 3, "Conj 3"),
    (
        "int_array_allDiff_reif([i,j],-x)",
        4,
        "EqR 4 (0 1) (2 2); Conj -3 -4",
    ),
    (
        "int_array_allDiff_reif([i,j,1],x)",
        6,
        "EqR 4 (0 1) (2 2); EqR 5 (0 1) (1); EqR 6 (2 2) (1); Conj 3 -4 -5 -6",
    ),
];

/// Cores that may be split.
static SPLIT: [(&str, u32, &str); 16] = [
    ("bool_array_xor([x,-x,true])", 3, "Parity odd 3 -3 T"),
    (
        "bool_array_xor_reif([x,x,true],-x)",
        3,
        "Parity even 3 3 T -3",
    ),
    ("bool_array_sum_eq([x,-x,true],i)", 3, "Count 3 -3 T (0 1)"),
    (
        "bool_array_sum_geq([x,x],j)",
        5,
        "Count 3 3 (0 4 5); LeqR T (2 2) (0 4 5)",
    ),
    (
        "bool_array_pb_eq([2,-3],[x,true],i)",
        3,
        "Sum (0 3:2) (-3 F:3) (-1 -1) 0",
    ),
    ("int_array_sum_eq([i,3],j)", 3, "Sum (0 1) (-3 -2) -3"),
    (
        "int_array_lin_eq([2,-1],[i,j],1)",
        3,
        "Sum (0 1:2) (-3 -2) 1",
    ),
    (
        "int_array_sum_leq([i,j,j],7)",
        5,
        "Sum3 (0 1) (2 2) (2 4 5); LeqR T (-5 2) (-4 -5 -4)",
    ),
    (
        "bool_array_pb_lt([2,-3],[x,true],i)",
        6,
        "Sum3 (0 3:2) (-3 F:3) (-3 4:2 5 6:2); LeqR F (-2 -6:2 -5 -4:2) (-1 -1)",
    ),
    ("int_array_sum_neq([],0)", 3, "EqR F (0) (0)"),
    ("int_plus(i,j,3)", 3, "Sum3 (0 1) (2 2) (3)"),
    ("int_array_plus([i,j],3)", 3, "Sum (0 1) (2 2) 3"),
    (
        "int_array_allDiff([i,j,1])",
        3,
        "AllDiff T T T (0 1) (2 2) (1)",
    ),
    (
        "int_array_allDiffCond([i,j],[x,-x])",
        3,
        "AllDiff 3 -3 (0 1) (2 2)",
    ),
    (
        "int_arrays_lex([i,1],[j,i])",
        3,
        "Lex or T (0 1) (1) (2 2) (0 1)",
    ),
    (
        "bool_arrays_lexLt_reif([x],[true],-x)",
        3,
        "Lex strict -3 (0 3) (0 T)",
    ),
];

/// Asserts what a text is lowered to.
fn check(rt: &impl Abort, alloc: Global, text: &str, want: &str) -> Result<(), Fail> {
    let found = lowered(alloc, text)?;
    assert_eq!(rt; found.as_slice(), want.as_bytes(), "{text}");
    Ok(())
}

/// Asserts it where the model is used up, and how many declarations are kept.
fn check_used_up(
    rt: &impl Abort,
    alloc: Global,
    text: &str,
    kept: usize,
    want: &str,
) -> Result<(), Fail> {
    let (found_kept, found) = lowered_owned(alloc, text)?;
    assert_eq!(rt; found.as_slice(), want.as_bytes(), "{text}");
    assert_eq!(rt; found_kept, kept, "{text}");
    Ok(())
}

/// Asserts both of a row, and how many declarations are kept.
fn check_both(rt: &impl Abort, alloc: Global, row: &(&str, usize, &str)) -> Result<(), Fail> {
    check(rt, alloc, row.0, row.2)?;
    check_used_up(rt, alloc, row.0, row.1, row.2)
}

#[test]
fn models_are_lowered(rt: HostRuntime) -> Result<(), Fail> {
    for row in &MODELS {
        check_both(&rt, rt.alloc(), row)?;
    }
    for (text, want) in &HEAVY {
        check_both(&rt, rt.alloc(), &(*text, 0, *want))?;
    }
    Ok(())
}

/// Asserts the cores of a line over Booleans.
fn check_booleans(rt: &impl Abort, alloc: Global, statement: &str, want: &str) -> Result<(), Fail> {
    let text = format!(in alloc; "new_bool(x) new_bool(y) new_bool(z) {statement} solve satisfy")?;
    check(rt, alloc, text.as_str(), want)
}

/// Asserts the cores of a line over integers, and the number of variables.
fn check_integers(
    rt: &impl Abort,
    alloc: Global,
    statement: &str,
    vars: u32,
    want: &str,
) -> Result<(), Fail> {
    let text = format!(in alloc;
        "new_int(i,0,1) new_int(j,2,3) new_bool(x) {statement} solve satisfy"
    )?;
    let want = format!(in alloc; "{vars}: (0 1) (2 2) 3; Ladder (0 1); Ladder (2 2); {want}")?;
    check(rt, alloc, text.as_str(), want.as_str())
}

#[test]
fn statements_have_these_cores(rt: HostRuntime) -> Result<(), Fail> {
    for (statement, want) in &BOOLEANS {
        check_booleans(&rt, rt.alloc(), statement, want)?;
    }
    for rows in [INTEGERS.as_slice(), FRESH.as_slice(), SPLIT.as_slice()] {
        for (statement, vars, want) in rows {
            check_integers(&rt, rt.alloc(), statement, *vars, want)?;
        }
    }
    Ok(())
}
