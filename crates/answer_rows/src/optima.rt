//! Models of each goal, and what their answers say.

use crate::answers::{Asked, answered};
use search_options::SearchOptions;
use std::alloc::{AllocError, Global};
use std::process::Abort;

/// A model, and what its answer says.
type Row = (&'static str, &'static str);

/// Rows whose answer is one alone.
static ANSWERS: [Row; 18] = [
    ("solve satisfy", "SATISFIABLE:"),
    ("bool_array_or([]) solve satisfy", "UNSATISFIABLE"),
    (
        "new_int(x,-2,2) int_times(x,x,4) int_lt(x,0) solve satisfy",
        "SATISFIABLE: -2",
    ),
    (
        "new_int(x,2,6) new_int(y,2,6) int_times(x,y,12) int_lt(x,y) solve minimize x",
        "OPTIMUM 2: 2 6",
    ),
    (
        "new_int(x,2,6) new_int(y,2,6) int_times(x,y,12) int_lt(x,y) solve maximize x",
        "OPTIMUM 3: 3 4",
    ),
    (
        "new_bool(x) bool2int(x,i) solve maximize i",
        "OPTIMUM 1: 1 1",
    ),
    (
        "new_bool(x) bool2int(x,i) solve minimize i",
        "OPTIMUM 0: 0 0",
    ),
    // One value, negative values, listed values.
    ("new_int(x,5,5) solve minimize x", "OPTIMUM 5: 5"),
    ("new_int(x,5,5) solve maximize x", "OPTIMUM 5: 5"),
    ("new_int(x,-7,-3) solve minimize x", "OPTIMUM -7: -7"),
    ("new_int(x,-7,-3) solve maximize x", "OPTIMUM -3: -3"),
    ("new_int(x,[4,9]) solve minimize x", "OPTIMUM 4: 4"),
    (
        "new_int(x,[-20,4,9,30]) int_lt(x,30) solve maximize x",
        "OPTIMUM 9: 9",
    ),
    // Fixed by equations alone.
    (
        "new_int(x,0,2) int_neq(x,0) int_neq(x,2) solve minimize x",
        "OPTIMUM 1: 1",
    ),
    // No solution.
    (
        "new_int(x,0,1) new_int(y,0,1) new_int(z,0,1) int_array_allDiff([x,y,z]) solve minimize x",
        "UNSATISFIABLE",
    ),
    (
        "new_int(x,0,3) int_lt(x,0) solve maximize x then x",
        "UNSATISFIABLE",
    ),
    // Two objectives.
    (
        "new_int(x,0,2) new_int(y,0,2) int_plus(x,y,2) solve minimize x then y",
        "OPTIMUM 0 2: 0 2",
    ),
    (
        "new_int(x,0,2) new_int(y,0,2) new_int(s,0,4) int_plus(x,y,s) int_leq(s,3) solve maximize s then y",
        "OPTIMUM 3 2: 1 2 3",
    ),
];

/// Pigeons that find no hole: a search is needed.
const PIGEONS: &str =
    "new_bool(p11) new_bool(p12) new_bool(p13) new_bool(p21) new_bool(p22) new_bool(p23) new_bool(p31) new_bool(p32) \
    new_bool(p33) new_bool(p41) new_bool(p42) new_bool(p43) bool_array_or([p11,p12,p13]) bool_array_or([p21,p22,p23]) \
    bool_array_or([p31,p32,p33]) bool_array_or([p41,p42,p43]) bool_array_or([-p11,-p21]) bool_array_or([-p11,-p31]) \
    bool_array_or([-p11,-p41]) bool_array_or([-p21,-p31]) bool_array_or([-p21,-p41]) bool_array_or([-p31,-p41]) \
    bool_array_or([-p12,-p22]) bool_array_or([-p12,-p32]) bool_array_or([-p12,-p42]) bool_array_or([-p22,-p32]) \
    bool_array_or([-p22,-p42]) bool_array_or([-p32,-p42]) bool_array_or([-p13,-p23]) bool_array_or([-p13,-p33]) \
    bool_array_or([-p13,-p43]) bool_array_or([-p23,-p33]) bool_array_or([-p23,-p43]) bool_array_or([-p33,-p43]) \
    solve satisfy";

/// A ruler with four marks, the first at 0, as short as there is one.
const RULER: &str =
    "new_int(a,1,9) new_int(b,1,9) new_int(c,1,9) int_lt(a,b) int_lt(b,c) new_int(p,1,8) int_plus(a,p,b) \
    new_int(q,1,8) int_plus(a,q,c) new_int(r,1,8) int_plus(b,r,c) int_array_allDiff([a,b,c,p,q,r]) solve minimize c";

/// Two objectives, for each of which a search must learn: three values that differ, and three pigeons in two holes,
/// unless u is 1.
const TWO_SEARCHES: &str =
    "new_int(a,0,2) new_int(b,0,2) new_int(c,0,2) new_int(d,0,3) new_int(t,0,9) new_int(u,0,3) \
    int_array_allDiff([a,b,c]) int_array_plus([a,b,c,d],t) new_bool(p11) new_bool(p12) new_bool(p21) new_bool(p22) \
    new_bool(p31) new_bool(p32) new_bool(q) bool_array_or([p11,p12]) bool_array_or([p21,p22]) \
    bool_array_or([p31,p32]) bool_array_or([-p11,-p21,q]) bool_array_or([-p11,-p31,q]) bool_array_or([-p21,-p31,q]) \
    bool_array_or([-p12,-p22,q]) bool_array_or([-p12,-p32,q]) bool_array_or([-p22,-p32,q]) bool2int(q,u) \
    solve minimize t then u";

/// Models and budgets, with restarts or without, and the verdict. The pigeons take six learned clauses, and two
/// searches eight together, where no round aims at a much better value: without restarts none does.
static BUDGETS: [(&str, u64, bool, &str); 12] = [
    (PIGEONS, 1, true, "UNKNOWN 1"),
    (PIGEONS, 1, false, "UNKNOWN 1"),
    (PIGEONS, 5, true, "UNKNOWN 5"),
    (PIGEONS, 6, true, "UNSATISFIABLE"),
    (PIGEONS, 4_096, false, "UNSATISFIABLE"),
    (PIGEONS, 53_248, true, "UNSATISFIABLE"),
    (RULER, 2, false, "UNKNOWN 2, best 8"),
    (TWO_SEARCHES, 1, false, "UNKNOWN 1, best 3 1"),
    (TWO_SEARCHES, 3, false, "UNKNOWN 3, best 3 1"),
    (TWO_SEARCHES, 7, false, "UNKNOWN 7, best 3 1"),
    (TWO_SEARCHES, 8, false, "OPTIMUM 3 1"),
    (TWO_SEARCHES, 1_000, true, "OPTIMUM 3 1"),
];

/// Asserts the rows.
fn check(rt: &impl Abort, alloc: Global, asked: Asked, rows: &[Row]) -> Result<(), AllocError> {
    let options = SearchOptions {
        budget: 1_000_000,
        restart: true,
    };
    for (text, wanted) in rows {
        let found = answered(alloc, text, options, asked)?;
        assert_eq!(rt; found.as_slice(), wanted.as_bytes(), "{text}");
    }
    Ok(())
}

#[test]
fn models_have_these_answers(rt: HostRuntime) -> Result<(), AllocError> {
    check(&rt, rt.alloc(), Asked::AllRules, &ANSWERS)
}

#[test]
fn answers_need_no_equations(rt: HostRuntime) -> Result<(), AllocError> {
    check(&rt, rt.alloc(), Asked::Silence, &ANSWERS)
}

#[test]
fn budgets_are_spent_or_suffice(rt: HostRuntime) -> Result<(), AllocError> {
    for (model, budget, restart, wanted) in BUDGETS {
        if budget > 0 && budget < 1_000_000 {
            let options = SearchOptions { budget, restart };
            let found = answered(rt.alloc(), model, options, Asked::AllRules)?;
            assert!(rt; found.as_slice().starts_with(wanted.as_bytes()), "{budget}");
        }
    }
    Ok(())
}
