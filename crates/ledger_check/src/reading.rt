//! How far the text of an answer was read.

use crate::part::Part;
use answer_document::Verdict;
use ledger_replay::Replay;
use name_map::NameMap;
use proof_check::Checker;

/// What is kept of the lines that were read: the part that comes next, the verdict, the values, the state of the
/// compilation, what the names stand for in the lowered model, and the checkers of the derivations.
#[derive(Drop)]
pub(crate) struct Reading {
    pub(crate) part: Part,
    pub(crate) verdict: Verdict,
    pub(crate) values: Vec<i64>,
    pub(crate) state: Replay,
    pub(crate) map: NameMap,
    pub(crate) first: Option<Checker>,
    pub(crate) second: Option<Checker>,
}
