//! How many queries a worklist makes: each core is asked when it is made, and again where one of its variables got a
//! new label.

ghost use Rattle.std.specs.Prelude.{◌≡◌, ◌<◌};

use crate::steps_made::started;
use core_forms::{Core, Known};
use core_rules::FoundRun;
use fixpoint_queue::{Oracle, Runner};
use rule_base::Steps;
use rule_oracle::TableP;
use std::alloc::{AllocError, Global};
use std::cell::Cell;
use std::io;
use std::marker::Brand;
use std::process::Abort;
use std::sync::ledger::{Blank, Ledger};
use step_kernel::State;

/// Tells what all rules tell, and counts how often it is asked.
#[derive(Clone, Copy)]
struct Counting<'a> {
    asked: &'a Cell<u64>,
}

impl<L: Ledger> Oracle<L> for Counting<'_> {
    ghost use Rattle.std.specs.Prelude.{◌≡◌, true};
    ghost use Rattle.core_rules.specs.Instances.{is_instance_at};

    ghost told = { λ core e. is_instance_at core e ≡ true };

    fn ask(
        &self,
        alloc: Global,
        core: &Core,
        known: Known,
        steps: &mut Steps<L>,
    ) -> Result<Option<FoundRun>, AllocError> {
        self.asked.set(self.asked.get().saturating_add(1));
        TableP.ask(alloc, core, known, steps)
    }
}

/// How many queries are made until no core tells an equation.
fn asked_of<L: Ledger>(alloc: Global, blank: Blank, state: State) -> Result<u64, AllocError>
    requires name { blank.name ≡ L.name }
    requires parts { blank.parts ≡ L.parts }
    requires some { 0 < L.parts }
{
    let mut steps = Steps::<L>::open(blank);
    let asked = Cell::new(0);
    let mut runner = Runner::with(alloc, state, Counting { asked: &asked })?;
    runner.saturate(&mut steps)?;
    Ok(asked.get())
}

/// How many queries are made of the cores of a row.
fn questions(rt: &impl Abort, alloc: Global, vars: u32, cores: &[&str]) -> io::Result<u64> {
    let state = started(rt, alloc, vars, cores)?;
    Ok(asked_of::<Brand>(alloc, Blank::new(1), state)?)
}

/// Variables, cores, and the queries.
static ASKED: [(u32, &[&str], u64); 4] = [
    // Nothing is told.
    (4, &["Parity even 1,2,3", "Clause 3,4"], 2),
    // Each core tells one equation, and is asked once more behind it.
    (
        5,
        &[
            "Parity even 1,2",
            "Parity even 2,3",
            "Parity even 3,4",
            "Parity even 4,5",
        ],
        8,
    ),
    // The last core tells its equation to the one before.
    (3, &["Parity even 1,2,3", "Clause 3"], 5),
    // A core that has no variable with a new label is not asked again.
    (
        6,
        &["Clause 1", "Parity even 2,3,4", "Parity even 4,5,6"],
        4,
    ),
];

#[test]
fn questions_are_few(rt: HostRuntime) -> io::Result<()> {
    for (vars, cores, wanted) in &ASKED {
        let asked = questions(&rt, rt.alloc(), *vars, cores)?;
        assert_eq!(rt; asked, *wanted, "{cores:?}");
    }
    Ok(())
}
