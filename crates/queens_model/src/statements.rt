//! The statements of the rows, and that their integers differ.

ghost use Rattle.std.specs.Prelude.{◌≡◌, ◌≤◌, ◌<◌, ◌++◌, ◌+◌, ◌∷◌, [], IfOk, OnOk};
ghost use Rattle.queens_model.specs.Queens.{sum_is, row_sums, sums_of, differ, members_of, queens};

use crate::integers::signed;
use bee_list::Sequence;
use bumblebee_reader::Name;
use model_meaning::{AllDifferent, Arithmetic, IntTerm, Stmt, What};
use std::alloc::{AllocError, Global};

/// That an integer and a number are another integer.
fn sum_is(
    alloc: Global,
    number: u64,
    left: usize,
    shift: i64,
    value: usize,
) -> Result<Stmt, AllocError>
    ensures { IfOk result (λ s. s ≡ sum_is number left shift value) }
{
    Ok(Stmt {
        number,
        what: What::IntOp {
            name: Name::from_slice(alloc, b"int_plus")?,
            operation: Arithmetic::Plus,
            left: IntTerm::Of(left),
            right: IntTerm::Number(shift),
            value: IntTerm::Of(value),
        },
    })
}

/// Adds the statements of a row.
fn push_row(alloc: Global, stmts: &mut Vec<Stmt>, row: u64) -> Result<(), AllocError>
    requires { row < 24 }
    ensures { OnOk result (stmts.new.items ≡ stmts.old.items ++ row_sums row) }
{
    let first = 5 * row;
    let column = 3 * row as usize;
    let shift = signed(row + 1);
    let sum = sum_is(alloc, first + 3, column, shift, column + 1)?;
    let difference = sum_is(alloc, first + 5, column, -shift, column + 2)?;
    stmts.push(sum)?;
    stmts.push(difference)?;
    Ok(())
}

/// The integers of one letter.
fn members(alloc: Global, letter: usize, size: u64) -> Result<Vec<IntTerm>, AllocError>
    requires size { size ≤ 24 }
    requires letter { letter < 3 }
    ensures { IfOk result (λ is. is.items ≡ members_of letter size) }
{
    let mut members = Vec::new(alloc);
    for row in 0..size {
        members.push(IntTerm::Of(3 * row as usize + letter))?;
    }
    Ok(members)
}

/// That the integers of one letter differ.
fn differ(alloc: Global, number: u64, letter: usize, size: u64) -> Result<Stmt, AllocError>
    requires size { size ≤ 24 }
    requires letter { letter < 3 }
    ensures { IfOk result (λ s. s ≡ differ number (members_of letter size)) }
{
    let members = members(alloc, letter, size)?;
    Ok(Stmt {
        number,
        what: What::IntAllDifferent {
            name: Name::from_slice(alloc, b"int_array_allDiff")?,
            kind: AllDifferent::Plain,
            members: Sequence::from_vec(members),
            truth: None,
            conditions: None,
        },
    })
}

/// The statements of all rows.
fn sums(alloc: Global, size: u64) -> Result<Vec<Stmt>, AllocError>
    requires { size ≤ 24 }
    ensures { IfOk result (λ ss. ss.items ≡ sums_of size) }
{
    let mut stmts = Vec::new(alloc);
    for row in 0..size {
        push_row(alloc, &mut stmts, row)?;
    }
    Ok(stmts)
}

/// The statements of the model.
pub fn statements(alloc: Global, size: u64) -> Result<Vec<Stmt>, AllocError>
    requires { size ≤ 24 }
    ensures { IfOk result (λ ss. ss.items ≡ (queens size).stmts) }
{
    let mut stmts = sums(alloc, size)?;
    let last = 5 * size;
    let columns = differ(alloc, last + 1, 0, size)?;
    let sums = differ(alloc, last + 2, 1, size)?;
    let differences = differ(alloc, last + 3, 2, size)?;
    stmts.push(columns)?;
    stmts.push(sums)?;
    stmts.push(differences)?;
    Ok(stmts)
}
