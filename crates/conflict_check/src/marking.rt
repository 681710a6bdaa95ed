//! Marks of the statements that are left out, along a walk over all of them.

ghost use Rattle.std.specs.Prelude.{◌≡◌, ◌++◌, ◌≤◌, true, map, drop, length, slice_get, IfOk, OnOk};
ghost use Rattle.model_meaning.specs.declared.model.Stmt.{Stmt as AnyStmt};
ghost use Rattle.conflict_check.specs.Marks.{marks_before, has_number, IsMarkedTo};

use model_meaning::Stmt;
use std::alloc::AllocError;

/// Marks those of some statements up to the first whose number is at least this one.
fn mark_lesser(stmts: &[Stmt], out: &mut Vec<bool>, number: u64) -> Result<(), AllocError>
    ensures { OnOk result (out.new.items ≡ out.old.items ++ marks_before number stmts.now) }
{
    let mut rest = stmts;
    while let [first, others @ ..] = rest {
        if first.number >= number {
            return Ok(());
        }
        out.push(true)?;
        rest = others;
    }
    Ok(())
}

/// Marks the statements up to the first whose number is at least this one.
fn mark_before(stmts: &[Stmt], out: &mut Vec<bool>, number: u64) -> Result<(), AllocError>
    requires { length out.old.items ≤ length stmts.now }
    ensures { OnOk result
        (out.new.items ≡ out.old.items ++ marks_before number (drop (length out.old.items) stmts.now)) }
{
    mark_lesser(&stmts[out.len()..], out, number)
}

/// Whether the statement at a place has a number.
fn is_at(stmts: &[Stmt], place: usize, number: u64) -> bool
    ensures { result ≡ has_number number (slice_get stmts.now place) }
{
    place < stmts.len() && stmts[place].number == number
}

/// How many statements are marked.
fn count_of(out: &Vec<bool>) -> usize
    ensures { result ≡ length out.now.items }
{
    out.len()
}

/// Marks the statements before the one of a number, and keeps that one; the answer says whether it is there. It looks
/// at no statement twice, and no further than that one.
pub(crate) fn mark(stmts: &[Stmt], out: &mut Vec<bool>, number: u64) -> Result<bool, AllocError>
    requires { length out.old.items ≤ length stmts.now }
    ensures { IfOk result (IsMarkedTo stmts.now out.old.items number out.new.items) }
{
    mark_before(stmts, out, number)?;
    if !is_at(stmts, count_of(out), number) {
        return Ok(false);
    }
    out.push(false)?;
    Ok(true)
}

/// Marks some statements.
fn mark_all(stmts: &[Stmt], out: &mut Vec<bool>) -> Result<(), AllocError>
    ensures { OnOk result (out.new.items ≡ out.old.items ++ map (λ (s : AnyStmt). true) stmts.now) }
{
    let mut rest = stmts;
    while let [_first, others @ ..] = rest {
        out.push(true)?;
        rest = others;
    }
    Ok(())
}

/// Marks all statements that are left.
pub(crate) fn mark_rest(stmts: &[Stmt], out: &mut Vec<bool>) -> Result<(), AllocError>
    requires { length out.old.items ≤ length stmts.now }
    ensures { OnOk result (out.new.items
        ≡ out.old.items ++ map (λ (s : AnyStmt). true) (drop (length out.old.items) stmts.now)) }
{
    mark_all(&stmts[out.len()..], out)
}
