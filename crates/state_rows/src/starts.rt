//! States that begin with cores in words.

ghost use Rattle.std.specs.Prelude.{◌≤◌, IfOk, IsTrue};
ghost use Rattle.core_forms.specs.Cores.{CoresBelow, AreWellFormed, costs_of};

use core_forms::{Core, cost};
use core_words::{cores_of, is_core_below};
use std::alloc::{AllocError, Global};
use std::io;
use std::process::Abort;
use step_kernel::State;

/// Whether cores have their variables below a bound and cost at most so much together.
fn may_start(alloc: Global, cores: &[Core], n: u32, room: u128) -> Result<bool, AllocError>
    requires { AreWellFormed cores.now }
    ensures below { IfOk result (λ may. IsTrue may → CoresBelow n cores.now) }
    ensures small { IfOk result (λ may. IsTrue may → costs_of cores.now ≤ room) }
{
    let Some((first, rest)) = cores.split_first() else {
        return Ok(true);
    };
    let cost = cost(alloc, first)?;
    if room < cost || !is_core_below(first, n) {
        return Ok(false);
    }
    may_start(alloc, rest, n, room - cost)
}

/// The state of cores in words over so many variables.
pub(super) fn start(
    rt: &impl Abort,
    alloc: Global,
    vars: u32,
    texts: &[&str],
) -> io::Result<State> {
    assert!(rt; vars < 1_000);
    let cores = cores_of(alloc, texts)?;
    let may = may_start(alloc, cores.as_slice(), vars + 1, 1_000_000)?;
    assert!(rt; may);
    Ok(State::start(alloc, vars, cores)?)
}
