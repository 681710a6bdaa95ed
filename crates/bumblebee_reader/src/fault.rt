//! Why a text has no syntax.

ghost use Rattle.std.specs.Prelude.{◌≡◌};
ghost use Rattle.bumblebee_reader.specs.declared.fault.ReadFault.TheVariants.{Memory};

use std::alloc::{AllocError, AllocFailed};

/// Why a text was not read.
#[derive(Clone, Copy, Debug, PartialEq, Eq)]
pub enum ReadFault {
    /// The line of the first token such that the tokens up to it begin no text, or the line of the end of
    /// a text that ends too early.
    Syntax(u64),
    /// The line of a numeral whose absolute value is above 1,073,741,824.
    Number(u64),
    /// Memory was wanting.
    Memory,
}

impl<T: Drop> From<AllocFailed<T>> for ReadFault {
    ghost from_gives = { λ _ e. e ≡ Memory };

    fn from(_e: AllocFailed<T>) -> ReadFault {
        ReadFault::Memory
    }
}

impl From<AllocError> for ReadFault {
    ghost from_gives = { λ _ e. e ≡ Memory };

    fn from(_e: AllocError) -> ReadFault {
        ReadFault::Memory
    }
}
