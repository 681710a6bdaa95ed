//! Moves of a clause store in no order, beside a plain program that looks at every clause.

use crate::bench::{Bench, Move};
use crate::numbers::Numbers;
use crate::words::cnf;
use clause_rings::ClauseDb;
use std::alloc::{AllocError, Global};
use std::process::Abort;
use std::test::Fail;

/// How many variables there are.
const VARS: i32 = 6;

/// Numbers of literals in no order, of ascending variables up to a greatest one; about one of so many is taken.
pub(super) fn some_clause(
    alloc: Global,
    numbers: &mut Numbers,
    vars: i32,
    one_of: u32,
) -> Result<Vec<i32>, AllocError> {
    let mut clause = Vec::new(alloc);
    for k in 0..vars {
        if one_of == 0 || numbers.below(one_of) == 0 {
            let var = k + 1;
            clause.push(if numbers.below(2) == 0 { var } else { -var })?;
        }
    }
    Ok(clause)
}

/// Makes moves from a store of no clause on.
fn sequence(alloc: Global, numbers: &mut Numbers) -> Result<(), Fail> {
    let cnf = cnf(alloc, VARS as u32, &[])?;
    let mut bench = Bench::of(alloc, ClauseDb::with(alloc, &cnf)?)?;
    for id in 1..25 {
        let clause = some_clause(alloc, numbers, VARS, 3)?;
        let number = (numbers.below(6) + 1) as i32;
        let step = match numbers.below(10) {
            0..=3 => Move::Add(id, &clause),
            4 => Move::Delete(u64::from(numbers.below(12)) + 1),
            5 => Move::Decide(number),
            6 | 7 => Move::Decide(-number),
            8 => Move::Back(numbers.below(3)),
            _ => Move::Propagate,
        };
        let _made = bench.play(alloc, step)?;
    }
    Ok(())
}

#[test]
fn random_sequences(rt: HostRuntime) -> Result<(), Fail> {
    let mut numbers = Numbers { last: 45 };
    for _ in 0..10_000 {
        sequence(rt.alloc(), &mut numbers)?;
    }
    assert!(rt; numbers.last != 45);
    Ok(())
}
