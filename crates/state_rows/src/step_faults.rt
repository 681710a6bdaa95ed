//! What stands against a step, worked out by hand, each fault where those behind it are there too; a clash, and what
//! each call answers behind it.

use crate::steps_made::{line_of, shown, started, walk_both};
use std::alloc::{AllocError, Global};
use std::io;
use std::process::Abort;
use step_kernel::{ApplyFault, State, StepFault};

/// Lines, and what stands against each; a step is made where nothing does. The cores are `Clause 1 2`,
/// `Parity odd 1 2 3 4`, `Parity even 5 6` and `Parity odd 5 6`.
static FAULTS: [(&str, Option<StepFault>); 32] = [
    ("enc 1", None),
    // Ids that are gone, or not there: an instance of another core, no compound core, no basic one.
    ("eq 1 form 5 6", Some(StepFault::NoSuch(1))),
    ("split 1", Some(StepFault::NoSuch(1))),
    ("enc 1", Some(StepFault::NoSuch(1))),
    ("enc 0", Some(StepFault::NoSuch(0))),
    ("eq 5 form 5 6", Some(StepFault::NoSuch(5))),
    ("split 5", Some(StepFault::NoSuch(5))),
    ("enc 5", Some(StepFault::NoSuch(5))),
    (
        "eq 18446744073709551615 form 5 6",
        Some(StepFault::NoSuch(u64::MAX)),
    ),
    // An instance of another core, another rule, another sign, one atom twice, a variable that isn't there.
    ("eq 2 form 5 6", Some(StepFault::NotInstance)),
    ("eq 3 order 5 6", Some(StepFault::NotInstance)),
    ("eq 3 form 5 -6", Some(StepFault::NotInstance)),
    ("eq 3 form 5 5", Some(StepFault::NotInstance)),
    ("eq 3 form 5 99", Some(StepFault::NotInstance)),
    ("split 3", Some(StepFault::NotCompound)),
    ("enc 2", Some(StepFault::NotBasic)),
    // Variable 6 then has another label, and no equation names it.
    ("eq 3 table 6 5", None),
    ("eq 3 form 5 6", Some(StepFault::NotInstance)),
    ("eq 4 form 5 -6", Some(StepFault::NotInstance)),
    ("eq 4 form 5 -5", None),
    // Behind a clash: ids that are gone or not there, what would be no step, and what would be one.
    ("eq 1 form 5 6", Some(StepFault::AfterBottom)),
    ("split 1", Some(StepFault::AfterBottom)),
    ("enc 1", Some(StepFault::AfterBottom)),
    ("eq 9 form 5 6", Some(StepFault::AfterBottom)),
    ("eq 2 form 5 6", Some(StepFault::AfterBottom)),
    ("split 3", Some(StepFault::AfterBottom)),
    ("enc 2", Some(StepFault::AfterBottom)),
    ("eq 4 form 5 -5", Some(StepFault::AfterBottom)),
    ("split 2", Some(StepFault::AfterBottom)),
    ("enc 3", Some(StepFault::AfterBottom)),
    ("enc 4", Some(StepFault::AfterBottom)),
    ("split 18446744073709551615", Some(StepFault::AfterBottom)),
];

/// Applies a line. Where memory is refused it is asked for once more.
pub(super) fn apply(rt: &impl Abort, state: &mut State, text: &str) -> Result<(), ApplyFault> {
    let line = line_of(rt, text);
    match state.apply(&line) {
        Err(ApplyFault::Memory) => state.apply(&line),
        answer => answer,
    }
}

/// Asserts that a line meets a fault, which leaves the state as it was, or that it makes a step.
fn meet(
    rt: &impl Abort,
    alloc: Global,
    state: &mut State,
    text: &str,
    fault: Option<StepFault>,
) -> Result<(), AllocError> {
    let before = shown(alloc, state)?;
    let answer = apply(rt, state, text);
    match fault {
        Some(fault) => {
            assert_eq!(rt; answer, Err(ApplyFault::Step(fault)), "{text}");
            let after = shown(alloc, state)?;
            assert_eq!(rt; after.as_slice(), before.as_slice(), "{text}");
        }
        None => assert_eq!(rt; answer, Ok(()), "{text}"),
    }
    Ok(())
}

/// Walks a table of faults.
fn meet_all(
    rt: &impl Abort,
    alloc: Global,
    cores: &[&str],
    rows: &[(&str, Option<StepFault>)],
) -> io::Result<()> {
    let mut state = started(rt, alloc, 6, cores)?;
    for (text, fault) in rows {
        meet(rt, alloc, &mut state, text, *fault)?;
    }
    Ok(())
}

#[test]
fn faults(rt: HostRuntime) -> io::Result<()> {
    let cores = [
        "Clause 1,2",
        "Parity odd 1,2,3,4",
        "Parity even 5,6",
        "Parity odd 5,6",
    ];
    meet_all(&rt, rt.alloc(), &cores, &FAULTS)
}

/// A clash sets bottom and leaves all else as it was, but that the CNF is the empty clause alone.
static CLASH: [(&str, &str); 4] = [
    (
        "start",
        "5: 1 2 3 4 5; #1 Parity odd 1 2; #2 Parity even 1 2; #3 Amo 1 2 3 4 5; #4 Clause 3 -1; next 5; least 1 3; \
        cnf 5",
    ),
    (
        "enc 4",
        "5: 1 2 3 4 5; #1 Parity odd 1 2; #2 Parity even 1 2; #3 Amo 1 2 3 4 5; next 5; least 1 3; cnf 5 (-1 3)",
    ),
    (
        "eq 1 form 1 -2",
        "5: 1 -1 3 4 5; #1 Parity odd 1 2 is Parity odd 1 -1; #2 Parity even 1 2 is Parity even 1 -1; \
        #3 Amo 1 2 3 4 5 is Amo 1 -1 3 4 5; next 5; least 1 3; cnf 5 (-1 3)",
    ),
    (
        "eq 2 form 1 -1",
        "5: 1 -1 3 4 5; #1 Parity odd 1 2 is Parity odd 1 -1; #2 Parity even 1 2 is Parity even 1 -1; \
        #3 Amo 1 2 3 4 5 is Amo 1 -1 3 4 5; next 5; least 1 3; bottom; cnf 5 ()",
    ),
];

/// A core that nothing meets states that the constants are equal.
static CLASH_OF_CONSTANTS: [(&str, &str); 2] = [
    ("start", "1: 1; #1 Clause; next 2; least 1 none; cnf 1"),
    (
        "eq 1 form F T",
        "1: 1; #1 Clause; next 2; least 1 none; bottom; cnf 1 ()",
    ),
];

#[test]
fn clashes(rt: HostRuntime) -> io::Result<()> {
    let alloc = rt.alloc();
    let cores = [
        "Parity odd 1,2",
        "Parity even 1,2",
        "Amo 1,2,3,4,5",
        "Clause 3,-1",
    ];
    walk_both(&rt, alloc, 5, &cores, &CLASH)?;
    walk_both(&rt, alloc, 1, &["Clause none"], &CLASH_OF_CONSTANTS)
}
