//! The integers of the rows.

ghost use Rattle.std.specs.Prelude.{◌≡◌, ◌≤◌, ◌<◌, ◌^◌, ◌++◌, ◌+◌, decimal, pos, IfOk};
ghost use Rattle.std.specs.Prelude.{OnOk};
ghost use Rattle.queens_model.specs.Queens.{column, sum, difference, row_integers, integers_of};

use bee_text::{push_bytes, push_number};
use bumblebee_reader::Name;
use model_meaning::{Decl, Kind};
use std::alloc::{AllocError, Global};

/// A letter with the number of a row behind it.
fn name(alloc: Global, letter: &[u8], row: u64) -> Result<Name, AllocError>
    requires { row < 24 }
    ensures { IfOk result (λ n. n ≡ letter.now ++ decimal (row + 1)) }
{
    let mut bytes = Vec::new(alloc);
    push_bytes(&mut bytes, letter)?;
    push_number(&mut bytes, u128::from(row + 1))?;
    Ok(Name::from_vec(bytes))
}

/// A number with a sign.
pub fn signed(n: u64) -> i64
    requires { n < 2 ^ 63 }
    ensures { result ≡ pos n }
{
    n as i64
}

/// The column of the queen in a row.
fn column(alloc: Global, size: u64, row: u64) -> Result<Decl, AllocError>
    requires size { size ≤ 24 }
    requires row { row < 24 }
    ensures { IfOk result (λ d. d ≡ column size row) }
{
    let name = name(alloc, b"q", row)?;
    let low = 1;
    let high = signed(size);
    Ok(Decl {
        number: 5 * row + 1,
        name,
        kind: Kind::Range { low, high },
    })
}

/// The integer that is a row's column and number added: queens on one falling diagonal have the same.
fn sum(alloc: Global, size: u64, row: u64) -> Result<Decl, AllocError>
    requires size { size ≤ 24 }
    requires row { row < 24 }
    ensures { IfOk result (λ d. d ≡ sum size row) }
{
    let name = name(alloc, b"a", row)?;
    let shift = signed(row + 1);
    let high = signed(size) + shift;
    Ok(Decl {
        number: 5 * row + 2,
        name,
        kind: Kind::Range {
            low: 1 + shift,
            high,
        },
    })
}

/// The column without the number of the row, which tells the other diagonal.
fn difference(alloc: Global, size: u64, row: u64) -> Result<Decl, AllocError>
    requires size { size ≤ 24 }
    requires row { row < 24 }
    ensures { IfOk result (λ d. d ≡ difference size row) }
{
    let name = name(alloc, b"d", row)?;
    let shift = signed(row + 1);
    let high = signed(size) - shift;
    Ok(Decl {
        number: 5 * row + 4,
        name,
        kind: Kind::Range {
            low: 1 - shift,
            high,
        },
    })
}

/// Adds the integers of a row.
fn push_row(alloc: Global, decls: &mut Vec<Decl>, size: u64, row: u64) -> Result<(), AllocError>
    requires size { size ≤ 24 }
    requires row { row < 24 }
    ensures { OnOk result (decls.new.items ≡ decls.old.items ++ row_integers size row) }
{
    let column = column(alloc, size, row)?;
    let sum = sum(alloc, size, row)?;
    let difference = difference(alloc, size, row)?;
    decls.push(column)?;
    decls.push(sum)?;
    decls.push(difference)?;
    Ok(())
}

/// The integers of all rows.
pub fn integers(alloc: Global, size: u64) -> Result<Vec<Decl>, AllocError>
    requires { size ≤ 24 }
    ensures { IfOk result (λ ds. ds.items ≡ integers_of size size) }
{
    let mut decls = Vec::new(alloc);
    for row in 0..size {
        push_row(alloc, &mut decls, size, row)?;
    }
    Ok(decls)
}
