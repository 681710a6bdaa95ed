//! Why a list of items is no model.

ghost use Rattle.typed_model.specs.declared.fault.TypeFault.TheVariants.{Memory};
ghost use Rattle.std.specs.Prelude.{◌≡◌};

use std::alloc::{AllocError, AllocFailed};
use thiserror::Error;

/// The first fault of a list of items, with the number of its item; items are numbered from 1.
#[derive(Debug, Drop, Error)]
pub enum TypeFault {
    /// An item stands after a goal; or there is no goal, and the number is one more than that of the items.
    #[error("statement {0}: goal")]
    NoGoal(u64),
    /// The language has no declaration or statement of this name.
    #[error("statement {0}: unknown")]
    Unknown(u64),
    /// A name isn't declared by an earlier item.
    #[error("statement {0}: undeclared")]
    Undeclared(u64),
    /// The number of the arguments, or the kind of one, isn't the statement's.
    #[error("statement {0}: kind")]
    Kind(u64),
    /// A name is declared anew.
    #[error("statement {0}: twice")]
    Twice(u64),
    /// Two lists differ in length, or the list of a greatest or least member is empty.
    #[error("statement {0}: lengths")]
    Lengths(u64),
    /// A domain's least value is above its greatest.
    #[error("statement {0}: empty domain")]
    EmptyDomain(u64),
    /// A dividend may be below 0, or a divisor below 1.
    #[error("statement {0}: division domain")]
    DivDomain(u64),
    /// Memory was wanting.
    #[error("out of memory")]
    Memory,
}

impl From<AllocError> for TypeFault {
    ghost from_gives = { λ _ e. e ≡ Memory };

    fn from(_e: AllocError) -> TypeFault {
        TypeFault::Memory
    }
}

impl<T: Drop> From<AllocFailed<T>> for TypeFault {
    ghost from_gives = { λ _ e. e ≡ Memory };

    fn from(_e: AllocFailed<T>) -> TypeFault {
        TypeFault::Memory
    }
}
