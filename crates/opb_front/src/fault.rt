//! Why a pseudo-Boolean file was not read.

ghost use Rattle.std.specs.Prelude.{◌≡◌};
ghost use Rattle.opb_front.specs.declared.fault.OpbFault.TheVariants.{Memory};

use std::alloc::{AllocError, AllocFailed};

/// What is wrong with a token.
#[derive(Clone, Copy)]
pub(crate) enum Misfit {
    /// No text can be completed behind it.
    Syntax,
    /// A limit is passed with it.
    Number,
}

/// Why a file was not read. Lines are counted from 1.
#[derive(Clone, Copy, Debug, PartialEq, Eq)]
pub enum OpbFault {
    /// The line of the first token behind which no text can be completed, or the last line of a text that ends too
    /// early.
    Syntax(u64),
    /// The line of a number past 1,073,741,824 in absolute value, of an index past 1,000,000, or of the objective's
    /// coefficient with which the sum of the positive ones, or that of the negative ones, passes 1,073,741,824 in
    /// absolute value.
    Number(u64),
    /// Memory was wanting.
    Memory,
}

impl<T: Drop> From<AllocFailed<T>> for OpbFault {
    ghost from_gives = { λ _ e. e ≡ Memory };

    fn from(_e: AllocFailed<T>) -> OpbFault {
        OpbFault::Memory
    }
}

impl From<AllocError> for OpbFault {
    ghost from_gives = { λ _ e. e ≡ Memory };

    fn from(_e: AllocError) -> OpbFault {
        OpbFault::Memory
    }
}
