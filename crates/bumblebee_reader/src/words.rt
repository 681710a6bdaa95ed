//! The words of the language.

ghost use Rattle.std.specs.Prelude.{◌≡◌, IfOk};
ghost use Rattle.bumblebee_reader.specs.Reading.{is_solve, is_then, goal_kind};

use crate::name::Name;
use crate::syntax::GoalKind;
use bee_text::is;
use std::alloc::{AllocError, Global};

/// A name of its own, with the bytes that the text lends.
pub fn own_name(alloc: Global, bytes: &[u8]) -> Result<Name, AllocError>
    ensures { IfOk result (λ name. name ≡ bytes.now) }
{
    Name::from_slice(alloc, bytes)
}

/// Whether a name is the word that begins a goal.
pub fn is_solve(name: &[u8]) -> bool
    ensures { result ≡ is_solve name.now }
{
    is(name, b"solve")
}

/// Whether a name is the word that stands before a second objective.
pub fn is_then(name: &[u8]) -> bool
    ensures { result ≡ is_then name.now }
{
    is(name, b"then")
}

/// The kind of goal that a word names.
pub fn goal_kind(word: &[u8]) -> Option<GoalKind>
    ensures { result ≡ goal_kind word.now }
{
    if is(word, b"satisfy") {
        return Some(GoalKind::Satisfy);
    }
    if is(word, b"minimize") {
        return Some(GoalKind::Minimize);
    }
    if is(word, b"maximize") {
        return Some(GoalKind::Maximize);
    }
    None
}
