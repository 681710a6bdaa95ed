//! Why a model has no cores.

ghost use Rattle.model_lower.specs.declared.fault.LowerFault.TheVariants.{Memory};
ghost use Rattle.std.specs.Prelude.{◌≡◌};

use std::alloc::{AllocError, AllocFailed};
use thiserror::Error;

/// Why a model has no cores.
#[derive(Debug, Drop, Error)]
pub enum LowerFault {
    /// The model has this weight, which is above 67,108,864.
    #[error("weight {0}")]
    TooHeavy(u128),
    /// Memory was wanting.
    #[error("out of memory")]
    Memory,
}

impl From<AllocError> for LowerFault {
    ghost from_gives = { λ _ e. e ≡ Memory };

    fn from(_e: AllocError) -> LowerFault {
        LowerFault::Memory
    }
}

impl<T: Drop> From<AllocFailed<T>> for LowerFault {
    ghost from_gives = { λ _ e. e ≡ Memory };

    fn from(_e: AllocFailed<T>) -> LowerFault {
        LowerFault::Memory
    }
}
