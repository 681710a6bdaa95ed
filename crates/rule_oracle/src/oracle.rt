//! The oracle that tells what the rules state.

use crate::finding::find;
use core_forms::{Core, Known};
use core_rules::FoundRun;
use fixpoint_queue::Oracle;
use rule_base::Steps;
use std::alloc::{AllocError, Global};
use std::sync::ledger::Ledger;

/// Tells each instance of each rule: it asks the rules Order, Form and Table in this order.
#[derive(Clone, Copy)]
pub struct TableP;

impl<L: Ledger> Oracle<L> for TableP {
    ghost use Rattle.std.specs.Prelude.{◌≡◌, true};
    ghost use Rattle.core_rules.specs.Instances.{is_instance_at};

    ghost told = { λ core e. is_instance_at core e ≡ true };

    fn ask(
        &self,
        alloc: Global,
        core: &Core,
        known: Known,
        steps: &mut Steps<L>,
    ) -> Result<Option<FoundRun>, AllocError> {
        find(alloc, core, known, steps)
    }
}
