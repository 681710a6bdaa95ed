//! Checks a proof with hints.

ghost use Rattle.std.specs.Prelude.{◌+◌, ◌<◌, ◌≤◌, ◌^◌, IfOk};
ghost use Rattle.order_ints.specs.Place.{InRange};
ghost use Rattle.lrat_check.specs.Stored.{IsEnded, IsLratEnd};

use crate::store::{HintedLine, LratStore};
use order_ints::Cnf;
use proof_check::LineRoom;
use sat_front::cut_line;
use std::alloc::{AllocError, Global};

/// What a text is.
#[derive(Drop)]
pub enum LratEnd {
    /// A proof, with the clauses that it adds and the hints that they used.
    Proof(Vec<HintedLine>),
    /// No proof: this line is the first that fails, counted from 1.
    Refused(u64),
}

/// What a text is of which all lines were taken, so many.
fn ended(alloc: Global, store: LratStore, read: u64) -> Result<LratEnd, AllocError>
    requires { read + 1 < 2 ^ 64 }
    ensures { IfOk result (IsEnded store.refuted read) }
{
    if store.refuted {
        Ok(LratEnd::Proof(store.into_lines(alloc)?))
    } else {
        Ok(LratEnd::Refused(read + 1))
    }
}

/// Checks a proof from a CNF by clauses with hints, one of which is the empty clause. Where the CNF has it, each text
/// of such lines is a proof. Deletions have no effect. A line takes the time of its own words and of the clauses that
/// its hints name; each clause stays in memory to the end.
pub fn check_lrat(alloc: Global, cnf: &Cnf, text: &[u8]) -> Result<LratEnd, AllocError>
    requires few { cnf.now.vars ≤ 2 ^ 27 }
    requires in_range { InRange cnf.now }
    ensures { IfOk result (IsLratEnd cnf.now text.now) }
{
    let mut store = LratStore::with(alloc, cnf)?;
    let mut room = LineRoom::new(alloc);
    let mut rest = text;
    let mut read: u64 = 0;
    while let Some((line, behind)) = cut_line(rest) {
        read += 1;
        if !store.take_line(alloc, cnf, &mut room, line)? {
            return Ok(LratEnd::Refused(read));
        }
        rest = behind;
    }
    ended(alloc, store, read)
}
