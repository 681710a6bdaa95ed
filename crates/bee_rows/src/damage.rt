//! Runs in which one call of the outside fails, each call in turn.

ghost use Rattle.std.specs.Prelude.{◌≤◌};

use crate::comparison::Wanted;
use crate::outside::{AMPLE, Call, Outside, Shown};
use std::alloc::{AllocError, Global};

/// The calls that fail, of the shelf, of the sink and of that for errors.
#[derive(Clone, Copy, Debug)]
struct Failing<'a> {
    shelf: &'a [u64],
    sink: &'a [u64],
    err: &'a [u64],
}

/// How many calls give so many bytes and see the end, or take them and flush.
fn calls(length: usize, step: usize) -> u64
    requires { 1 ≤ step }
{
    (length.div_ceil(step) as u64).saturating_add(1)
}

/// How many calls read the texts of a run.
fn readings(call: &Call<'_>, step: usize) -> u64
    requires { 1 ≤ step }
{
    let mut all: u64 = 0;
    for (_, text) in call.texts.as_slice() {
        all = all.saturating_add(calls(text.len(), step));
    }
    all
}

/// What comes of a run otherwise than it is to be, where calls fail. A sink for errors that fails takes nothing, and
/// changes nothing else.
fn failing_run(
    alloc: Global,
    call: &Call<'_>,
    step: usize,
    failing: Failing<'_>,
    wanted: Wanted<'_>,
) -> Result<Option<String>, AllocError>
    requires { 1 ≤ step }
{
    let outside = Outside {
        step,
        room: AMPLE.room,
        shelf_failing: failing.shelf,
        sink_failing: failing.sink,
        err_failing: failing.err,
    };
    let told = if failing.err.is_empty() {
        wanted.err
    } else {
        b"".as_slice()
    };
    let run = call.run(alloc, outside)?;
    let wanted = Wanted {
        err: told,
        ..wanted
    };
    match run.difference(alloc, &wanted)? {
        Some(told) => Ok(Some(format!(in alloc; "{told}, with {failing:?}")?)),
        None => Ok(None),
    }
}

/// What comes otherwise of a run where a reading fails, or a call that is never made.
fn readings_fail(
    alloc: Global,
    call: &Call<'_>,
    step: usize,
    whole: Wanted<'_>,
    err: &[u64],
) -> Result<Option<String>, AllocError>
    requires { 1 ≤ step }
{
    let made = readings(call, step);
    let unread = Wanted {
        end: "4 read",
        out: b"",
        goes_on: false,
        err: b"bee: read fault\n",
    };
    for number in 1..made.saturating_add(2) {
        let failing = Failing {
            shelf: &[number],
            sink: &[],
            err,
        };
        let wanted = if number <= made { unread } else { whole };
        let told = failing_run(alloc, call, step, failing, wanted)?;
        if told.is_some() {
            return Ok(told);
        }
    }
    Ok(None)
}

/// What comes otherwise of a run where a writing fails, or a call that is never made.
fn writings_fail(
    alloc: Global,
    call: &Call<'_>,
    step: usize,
    whole: Wanted<'_>,
    err: &[u64],
) -> Result<Option<String>, AllocError>
    requires { 1 ≤ step }
{
    let made = calls(whole.out.len(), step);
    let mut taken: usize = 0;
    for number in 1..made.saturating_add(2) {
        let failing = Failing {
            shelf: &[],
            sink: &[number],
            err,
        };
        let unwritten = Wanted {
            end: "5 write",
            out: &whole.out[..taken.min(whole.out.len())],
            goes_on: false,
            err: b"bee: write fault\n",
        };
        let wanted = if number <= made { unwritten } else { whole };
        let told = failing_run(alloc, call, step, failing, wanted)?;
        if told.is_some() {
            return Ok(told);
        }
        taken = taken.saturating_add(step);
    }
    Ok(None)
}

/// What comes otherwise of a run that ends well where one of its calls fails, each in turn, and those for errors do or
/// don't.
pub fn calls_fail(
    alloc: Global,
    call: &Call<'_>,
    step: usize,
    run: &Shown,
) -> Result<Option<String>, AllocError>
    requires { 1 ≤ step }
{
    let whole = Wanted {
        end: "0 done",
        out: run.out.taken(),
        goes_on: false,
        err: b"",
    };
    let mute: &[u64] = &[1, 2, 3];
    for err in [&[], mute] {
        let told = readings_fail(alloc, call, step, whole, err)?;
        if told.is_some() {
            return Ok(told);
        }
        let told = writings_fail(alloc, call, step, whole, err)?;
        if told.is_some() {
            return Ok(told);
        }
    }
    Ok(None)
}
