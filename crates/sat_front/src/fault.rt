//! Why a CNF was not read.

ghost use Rattle.std.specs.Prelude.{◌≡◌};
ghost use Rattle.sat_front.specs.declared.fault.CnfFault.TheVariants.{Memory};

use std::alloc::AllocError;

/// Why a CNF was not read.
#[derive(Clone, Copy, Debug, PartialEq, Eq)]
pub enum CnfFault {
    /// The first line that doesn't fit, counted from 1. The line of a text that ends too early is the one behind its
    /// last.
    Form(u64),
    /// Memory was wanting.
    Memory,
}

impl From<AllocError> for CnfFault {
    ghost from_gives = { λ _ e. e ≡ Memory };

    fn from(_e: AllocError) -> CnfFault {
        CnfFault::Memory
    }
}
