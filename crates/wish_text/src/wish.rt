//! The values that a text tells.

ghost use Rattle.std.specs.Prelude.{◌≡◌, IfOk, IfSome, MatchBool, MatchOption};
ghost use Rattle.model_meaning.specs.Limits.{DeclsInLimit};
ghost use Rattle.wish_text.specs.Wishes.{TellsValue, Fails, IsRead};

use crate::shape::is_value_line;
use bee_text::Lines;
use certificate_lines::read_value;
use model_meaning::Decl;
use std::alloc::{AllocError, Global};

/// What a text of wished values comes to.
#[derive(Drop)]
pub enum WishRead {
    /// A value for each declared name, or none.
    Values(Vec<Option<i64>>),
    /// The line of this number, counted from 1, is the first that fails.
    Refused(u64),
}

/// The value of a declared name that a line tells.
#[derive(Clone, Copy)]
struct ToldValue {
    /// The place of its declaration.
    place: usize,
    /// The value.
    value: i64,
}

/// The values that were told so far.
#[derive(Drop)]
struct Wish {
    values: Vec<Option<i64>>,
    /// The place of the name whose line is likely to come next.
    next: usize,
}

/// The value that a line tells of the first of these names of which it tells one.
fn find_told(decls: &[Decl], line: &[u8]) -> Option<ToldValue>
    requires { DeclsInLimit decls.now }
    ensures { MatchOption result (TellsValue decls.now line.now → ⊥) (λ told. TellsValue decls.now line.now) }
{
    let mut rest = decls;
    let mut place: usize = 0;
    while let [first, others @ ..] = rest {
        if let Some(value) = read_value(first, line) {
            return Some(ToldValue { place, value });
        }
        rest = others;
        place = place.saturating_add(1);
    }
    None
}

/// The value that a line tells of a name, of those from a place on.
fn told_from(decls: &[Decl], from: usize, line: &[u8]) -> Option<ToldValue>
    requires { DeclsInLimit decls.now }
    ensures { IfSome result (λ told. TellsValue decls.now line.now) }
{
    let from = from.min(decls.len());
    let told = find_told(&decls[from..], line)?;
    Some(ToldValue {
        place: from.saturating_add(told.place),
        value: told.value,
    })
}

/// The value that a line tells of a name. The names from a place on are looked at first.
fn told_by(decls: &[Decl], from: usize, line: &[u8]) -> Option<ToldValue>
    requires { DeclsInLimit decls.now }
    ensures { MatchOption result (TellsValue decls.now line.now → ⊥) (λ told. TellsValue decls.now line.now) }
{
    if let Some(told) = told_from(decls, from, line) {
        return Some(told);
    }
    find_told(decls, line)
}

impl Wish {
    /// No value of so many names.
    fn none(alloc: Global, names: usize) -> Result<Wish, AllocError> {
        Ok(Wish {
            values: vec![in alloc; None; names]?,
            next: 0,
        })
    }

    /// Keeps a value, in place of one of before.
    fn keep(&mut self, told: ToldValue) {
        if let Some(value) = self.values.get_mut(told.place) {
            *value = Some(told.value);
        }
        self.next = told.place.saturating_add(1);
    }

    /// Takes a line. The answer is whether it doesn't fail.
    fn take(&mut self, decls: &[Decl], line: &[u8]) -> bool
        requires { DeclsInLimit decls.now }
        ensures { MatchBool result (Fails decls.now line.now → ⊥) (Fails decls.now line.now) }
    {
        if !is_value_line(line) {
            return true;
        }
        match told_by(decls, self.next, line) {
            Some(told) => {
                self.keep(told);
                true
            }
            None => false,
        }
    }
}

/// Reads a text of wished values, line by line, to its last line feed or to the first line that fails.
pub fn read_wish(alloc: Global, decls: &[Decl], text: &[u8]) -> Result<WishRead, AllocError>
    requires { DeclsInLimit decls.now }
    ensures { IfOk result (IsRead decls.now text.now) }
{
    let mut wish = Wish::none(alloc, decls.len())?;
    let mut lines = Lines::new(text);
    while let Some(line) = lines.next_line() {
        if !wish.take(decls, line.bytes) {
            return Ok(WishRead::Refused(line.number as u64));
        }
    }
    let Wish { values, .. } = wish;
    Ok(WishRead::Values(values))
}
