//! Why a text is no proof.

ghost use Rattle.std.specs.Prelude.{◌≡◌};
ghost use Rattle.drup_check.specs.declared.fault.DrupFault.TheVariants.{Memory};

use std::alloc::AllocError;

/// Why a text is no proof.
#[derive(Clone, Copy, Debug, PartialEq, Eq)]
pub enum DrupFault {
    /// The first line that doesn't fit, or whose clause isn't shown, counted from 1. Where the clauses of all lines
    /// don't show the empty one, it is the line behind the last.
    Refused(u64),
    /// Memory was wanting.
    Memory,
}

impl From<AllocError> for DrupFault {
    ghost from_gives = { λ _ e. e ≡ Memory };

    fn from(_e: AllocError) -> DrupFault {
        DrupFault::Memory
    }
}
