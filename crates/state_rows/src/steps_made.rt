//! Steps of a state, made by `apply` or by the calls for steps that are known to be steps. Where memory is refused the
//! state must stay as it was, and the step is made again; so each table of steps can be walked with
//! `rt try --test --fail-alloc N`, for each N.

ghost use Rattle.std.specs.Prelude.{◌≡◌, true, Some, IfOk, IfSome, IsTrue};
ghost use Rattle.core_forms.specs.WellFormed.{IsWellFormed};
ghost use Rattle.step_kernel.specs.Kernel.{trimmed_at};
ghost use Rattle.step_kernel.specs.SplitAt.{ArePartsAt};
ghost use Rattle.core_rules.specs.Instances.{is_instance_at};

use crate::starts::start;
use crate::state_text::state_text;
use core_forms::{Core, Equation};
use part_base::Parts;
use std::alloc::{AllocError, Global};
use std::io;
use std::process::Abort;
use step_kernel::{ApplyFault, Line, State, is_compound, read_step};

/// A state in words. Where memory is refused it is asked for once more.
pub(super) fn shown(alloc: Global, state: &State) -> Result<Vec<u8>, AllocError> {
    match state_text(alloc, state) {
        Ok(text) => Ok(text),
        Err(_) => state_text(alloc, state),
    }
}

/// The state of cores in words. Where memory is refused it is asked for once more.
pub(super) fn started(
    rt: &impl Abort,
    alloc: Global,
    vars: u32,
    texts: &[&str],
) -> io::Result<State> {
    match start(rt, alloc, vars, texts) {
        Ok(state) => Ok(state),
        Err(_) => start(rt, alloc, vars, texts),
    }
}

/// The line of a ledger.
pub(super) fn line_of(rt: &impl Abort, text: &str) -> Line {
    match read_step(text.as_bytes()) {
        Some(line) => line,
        None => panic!(rt; "no line: {text}"),
    }
}

/// The pending core with an id, as the store has it.
fn core_at(rt: &impl Abort, alloc: Global, state: &State, id: u64) -> Result<Core, AllocError>
    ensures there { IfOk result (λ core. trimmed_at state.now id ≡ Some core) }
    ensures well_formed { IfOk result (λ core. IsWellFormed core) }
{
    match state.trimmed(alloc, id)? {
        Some(core) => Ok(core),
        None => panic!(rt; "no core: {id}"),
    }
}

/// Whether an equation is one that a rule states of a core by its order, its form or its truth table.
fn is_told(core: &Core, e: &Equation) -> bool
    requires { IsWellFormed core.now }
    ensures { IsTrue result → is_instance_at core.now e.now ≡ true }
{
    equi_rules::is_instance(core, e) || table_rules::is_instance(core, e)
}

/// Makes the step of an equation that is told to be one.
fn equate(
    rt: &impl Abort,
    alloc: Global,
    state: &mut State,
    id: u64,
    e: &Equation,
) -> Result<(), ApplyFault> {
    assert!(rt; !state.bottom());
    let core = core_at(rt, alloc, state, id)?;
    assert!(rt; is_told(&core, e));
    state.equate_told(id, e);
    Ok(())
}

/// The parts of a compound core that is lent.
fn parts_of_lent(rt: &impl Abort, state: &State, id: u64, core: &Core) -> Result<Parts, AllocError>
    requires there { trimmed_at state.now id ≡ Some core.now }
    requires well_formed { IsWellFormed core.now }
    ensures { IfOk result (λ parts. ArePartsAt state.now id parts) }
{
    assert!(rt; is_compound(core));
    state.parts_of_lent(id, core)
}

/// The parts of a compound core: of the core itself where it is lent, and else of a copy.
fn parts_at(rt: &impl Abort, alloc: Global, state: &mut State, id: u64) -> Result<Parts, AllocError>
    ensures parts { IfOk result (λ parts. ArePartsAt state.old id parts) }
    ensures stays { state.new ≡ state.old }
{
    if state.mark_stable(id) {
        if let Some(core) = state.core(id) {
            return parts_of_lent(rt, state, id, core);
        }
    }
    let core = core_at(rt, alloc, state, id)?;
    assert!(rt; is_compound(&core));
    state.parts_of(id, core)
}

/// Makes the step of a split whose parts are made before, but for what is left of a list that is cut.
fn split(rt: &impl Abort, alloc: Global, state: &mut State, id: u64) -> Result<(), ApplyFault> {
    assert!(rt; !state.bottom());
    if let Some(cut) = state.cut_of(id)? {
        state.split_cut(id, cut)?;
        return Ok(());
    }
    let parts = parts_at(rt, alloc, state, id)?;
    state.split_into(id, parts)?;
    Ok(())
}

/// Makes a step by the calls for steps that are known to be steps, where there is one.
fn make_told(
    rt: &impl Abort,
    alloc: Global,
    state: &mut State,
    line: &Line,
) -> Result<(), ApplyFault> {
    match line {
        Line::Equate { id, e } => equate(rt, alloc, state, *id, e),
        Line::Split { id } => split(rt, alloc, state, *id),
        Line::Encode { id: _ } => state.apply(line),
    }
}

/// Makes a step.
fn make(
    rt: &impl Abort,
    alloc: Global,
    state: &mut State,
    line: &Line,
    told: bool,
) -> Result<(), ApplyFault> {
    if told {
        make_told(rt, alloc, state, line)
    } else {
        state.apply(line)
    }
}

/// Asserts that a state is the one in words.
fn compare(rt: &impl Abort, alloc: Global, state: &State, wanted: &str) -> Result<(), AllocError> {
    let found = shown(alloc, state)?;
    assert_eq!(rt; found.as_slice(), wanted.as_bytes());
    Ok(())
}

/// Makes a step, which leads from one state to another. Where memory is refused, the state stays as it was.
fn take_step(
    rt: &impl Abort,
    alloc: Global,
    state: &mut State,
    text: &str,
    told: bool,
    before: &str,
) -> Result<(), AllocError> {
    let line = line_of(rt, text);
    let mut answer = make(rt, alloc, state, &line, told);
    if answer == Err(ApplyFault::Memory) {
        compare(rt, alloc, state, before)?;
        answer = make(rt, alloc, state, &line, told);
    }
    assert_eq!(rt; answer, Ok(()), "{text}");
    Ok(())
}

/// Walks a table: its first row is the state at the start, and each other one a line and the state after it.
fn walk(
    rt: &impl Abort,
    alloc: Global,
    vars: u32,
    cores: &[&str],
    rows: &[(&str, &str)],
    told: bool,
) -> io::Result<()> {
    let mut state = started(rt, alloc, vars, cores)?;
    let mut before = "";
    for (text, after) in rows {
        if *text != "start" {
            take_step(rt, alloc, &mut state, text, told, before)?;
        }
        compare(rt, alloc, &state, after)?;
        before = after;
    }
    Ok(())
}

/// Walks a table by `apply`, and by the calls for steps that are known.
pub(super) fn walk_both(
    rt: &impl Abort,
    alloc: Global,
    vars: u32,
    cores: &[&str],
    rows: &[(&str, &str)],
) -> io::Result<()> {
    walk(rt, alloc, vars, cores, rows, false)?;
    walk(rt, alloc, vars, cores, rows, true)
}
