//! Worklists and compilations: the lines of the ledger, and the state they lead to. Where memory is refused it is asked
//! for once more, and the ledger must still lead to the state.

ghost use Rattle.std.specs.Prelude.{◌≡◌, ◌<◌};

use crate::compilations::{BY_SILENCE, BY_TABLES};
use crate::ledgers::{Row, compare};
use crate::saturations::{SILENT, TOLD, TOLD_ONCE};
use crate::steps_made::started;
use crate::told_once::{Asked, ToldOnce};
use fixpoint_queue::{Oracle, Runner, Silent};
use ledger_text::Line;
use rule_base::Steps;
use rule_oracle::TableP;
use state_compile::compile_state;
use std::alloc::{AllocError, Global};
use std::io;
use std::marker::Brand;
use std::process::Abort;
use std::sync::ledger::{Blank, Ledger};
use step_kernel::State;

/// What is done with a state: its worklist is saturated, or it is compiled to the end.
#[derive(Clone, Copy, Debug)]
enum Work {
    Saturate,
    Compile,
}

/// The state and the ledger at the end of a work. A worklist for which memory is refused is asked for once more.
fn worked<F: Oracle<L>, L: Ledger>(
    alloc: Global,
    state: State,
    work: Work,
    oracle: F,
    steps: &mut Steps<L>,
) -> Result<(State, Vec<Line>), AllocError> {
    match work {
        Work::Saturate => {
            let mut runner = Runner::with(alloc, state, oracle)?;
            if runner.saturate(steps).is_err() {
                runner.saturate(steps)?;
            }
            Ok(runner.finish())
        }
        Work::Compile => {
            let compiled = compile_state(alloc, state, oracle, steps)?;
            Ok((compiled.state, compiled.ledger.into_vec()))
        }
    }
}

/// The end of a work, with a counter of its own.
fn ended_with<L: Ledger>(
    alloc: Global,
    blank: Blank,
    state: State,
    work: Work,
    asked: Asked,
) -> Result<(State, Vec<Line>), AllocError>
    requires name { blank.name ≡ L.name }
    requires parts { blank.parts ≡ L.parts }
    requires some { 0 < L.parts }
{
    let mut steps = Steps::<L>::open(blank);
    match asked {
        Asked::AllRules => worked(alloc, state, work, TableP, &mut steps),
        Asked::Silence => worked(alloc, state, work, Silent, &mut steps),
        Asked::OneEquation => worked(alloc, state, work, ToldOnce, &mut steps),
    }
}

/// The end of a work on the cores of a row.
fn ended(
    rt: &impl Abort,
    alloc: Global,
    work: Work,
    asked: Asked,
    row: Row,
) -> io::Result<(State, Vec<Line>)> {
    let (vars, cores, _, _) = row;
    let state = started(rt, alloc, vars, cores)?;
    Ok(ended_with::<Brand>(alloc, Blank::new(1), state, work, asked)?)
}

/// Tests a row. Where memory is refused, the work is done once more.
fn check(rt: &impl Abort, alloc: Global, work: Work, asked: Asked, row: Row) -> io::Result<()> {
    let (state, ledger) = match ended(rt, alloc, work, asked, row) {
        Ok(end) => end,
        Err(_) => ended(rt, alloc, work, asked, row)?,
    };
    compare(rt, alloc, row, &state, ledger.as_slice())
}

#[test]
fn works_lead_to_their_ends(rt: HostRuntime) -> io::Result<()> {
    for (work, asked, rows) in [
        (Work::Saturate, Asked::AllRules, TOLD.as_slice()),
        (Work::Saturate, Asked::Silence, SILENT.as_slice()),
        (Work::Saturate, Asked::OneEquation, TOLD_ONCE.as_slice()),
        (Work::Compile, Asked::AllRules, BY_TABLES.as_slice()),
        (Work::Compile, Asked::Silence, BY_SILENCE.as_slice()),
    ] {
        for row in rows {
            check(&rt, rt.alloc(), work, asked, *row)?;
        }
    }
    Ok(())
}
