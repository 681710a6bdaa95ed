//! The parts that a statement may leave out.

ghost use Rattle.std.specs.Prelude.{◌≡◌};
ghost use Rattle.model_meaning.specs.Holds.{terms_or_none};

use crate::what::{BoolTerm, IntTerm};
use bee_list::{Apart, Sequence};

/// The members of a list that may be left out; one that is left out has none.
pub fn terms_or_none<T>(list: &Option<Apart<Sequence<T>>>) -> &[T]
    ensures { result.now ≡ terms_or_none list.now }
{
    match list {
        Some(members) => members.get().as_slice(),
        None => &[],
    }
}

/// The lists of a statement on their order, of which either the Booleans or the integers are left out.
#[derive(Clone, Copy)]
pub struct OrderLists<'a> {
    /// The first list, of Booleans.
    pub left_truths: &'a [BoolTerm],
    /// The second list, of Booleans.
    pub right_truths: &'a [BoolTerm],
    /// The first list, of integers.
    pub left_numbers: &'a [IntTerm],
    /// The second list, of integers.
    pub right_numbers: &'a [IntTerm],
}
