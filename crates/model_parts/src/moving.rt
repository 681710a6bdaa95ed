//! Statements that are put on two sides by marks, and together again.

ghost use Rattle.std.specs.Prelude.{◌≡◌, ◌++◌, ◌∷◌, [], true, false, reverse, IfOk, OnOk};
ghost use Rattle.std.specs.Prelude.{if◌then◌else◌};
ghost use Rattle.model_parts.specs.Sides.{kept_of, left_of, woven, IsNextMoved, IsSided};

use model_meaning::Stmt;
use std::alloc::{AllocError, Global};

/// Statements on two sides.
#[derive(Drop)]
pub(crate) struct Sides {
    /// Those that are kept.
    pub(crate) kept: Vec<Stmt>,
    /// Those that are left out.
    pub(crate) left: Vec<Stmt>,
}

/// Puts the last statement, if there is one, behind others.
fn move_next(to: &mut Vec<Stmt>, from: &mut Vec<Stmt>) -> Result<(), AllocError>
    ensures { OnOk result (IsNextMoved to.old.items (reverse from.old.items) to.new.items (reverse from.new.items)) }
{
    if let Some(stmt) = from.pop() {
        to.push(stmt)?;
    }
    Ok(())
}

/// Puts the last statement, if there is one, on the side of a mark.
fn side_next(
    mark: bool,
    kept: &mut Vec<Stmt>,
    left: &mut Vec<Stmt>,
    stmts: &mut Vec<Stmt>,
) -> Result<(), AllocError>
    ensures { OnOk result
        (IsSided mark kept.old.items left.old.items (reverse stmts.old.items) kept.new.items left.new.items
        (reverse stmts.new.items)) }
{
    if mark {
        move_next(left, stmts)
    } else {
        move_next(kept, stmts)
    }
}

/// Puts all statements behind others, the last one first.
fn move_rest(to: &mut Vec<Stmt>, from: &mut Vec<Stmt>) -> Result<(), AllocError>
    ensures { OnOk result (to.new.items ≡ to.old.items ++ reverse from.old.items) }
{
    while let Some(stmt) = from.pop() {
        to.push(stmt)?;
    }
    Ok(())
}

/// The statements by their marks.
pub(crate) fn part_by(alloc: Global, stmts: Vec<Stmt>, marks: &[bool]) -> Result<Sides, AllocError>
    ensures kept { IfOk result (λ s. s.kept.items ≡ kept_of marks.now stmts.items) }
    ensures left { IfOk result (λ s. s.left.items ≡ left_of marks.now stmts.items) }
{
    let mut kept = Vec::new(alloc);
    let mut left = Vec::new(alloc);
    let mut stmts = stmts;
    stmts.reverse();
    for mark in marks {
        side_next(*mark, &mut kept, &mut left, &mut stmts)?;
    }
    move_rest(&mut kept, &mut stmts)?;
    Ok(Sides { kept, left })
}

/// The statements of two sides in the order of the marks by which they were put there.
pub(crate) fn weave(
    alloc: Global,
    marks: &[bool],
    kept: Vec<Stmt>,
    left: Vec<Stmt>,
) -> Result<Vec<Stmt>, AllocError>
    ensures { IfOk result (λ all. all.items ≡ woven marks.now kept.items left.items) }
{
    let mut kept = kept;
    let mut left = left;
    kept.reverse();
    left.reverse();
    let mut all = Vec::new(alloc);
    for mark in marks {
        let next = if *mark { left.pop() } else { kept.pop() };
        if let Some(stmt) = next {
            all.push(stmt)?;
        }
    }
    move_rest(&mut all, &mut kept)?;
    Ok(all)
}
