//! Why a line of a proof was not taken, or not read.

ghost use Rattle.std.specs.Prelude.{◌≡◌};

use std::alloc::{AllocError, AllocFailed};

/// The first fault of a line. Places count from 1.
#[derive(Clone, Copy, Debug, PartialEq, Eq)]
pub enum ProofFault {
    /// The id isn't above all ids so far.
    Id,
    /// The literal at the place has a variable above the variables of the CNF, or one that stands earlier in the
    /// clause.
    Lit(u64),
    /// A hint is negative.
    Rat,
    /// No clause lives under the id.
    Absent(u64),
    /// The clause of the hint at the place isn't unit, or, that of the last hint, isn't refuted.
    Hint(u64),
}

/// Why a line was not taken.
#[derive(Clone, Copy, Debug, PartialEq, Eq)]
pub enum TakeFault {
    /// The line has a fault.
    Proof(ProofFault),
    /// Memory was wanting.
    Memory,
}

/// Why a text was not read.
#[derive(Clone, Copy, Debug, PartialEq, Eq)]
pub enum ProofTextFault {
    /// The number of the line that is no line of a proof, which is 1 for a text of one line.
    Form(u64),
    /// Memory was wanting.
    Memory,
}

impl<T: Drop> From<AllocFailed<T>> for TakeFault {
    ghost use Rattle.proof_check.specs.declared.fault.TakeFault.TheVariants.{Memory};

    ghost from_gives = { λ _ e. e ≡ Memory };

    fn from(_e: AllocFailed<T>) -> TakeFault {
        TakeFault::Memory
    }
}

impl From<AllocError> for TakeFault {
    ghost use Rattle.proof_check.specs.declared.fault.TakeFault.TheVariants.{Memory};

    ghost from_gives = { λ _ e. e ≡ Memory };

    fn from(_e: AllocError) -> TakeFault {
        TakeFault::Memory
    }
}

impl<T: Drop> From<AllocFailed<T>> for ProofTextFault {
    ghost use Rattle.proof_check.specs.declared.fault.ProofTextFault.TheVariants.{Memory};

    ghost from_gives = { λ _ e. e ≡ Memory };

    fn from(_e: AllocFailed<T>) -> ProofTextFault {
        ProofTextFault::Memory
    }
}

impl From<AllocError> for ProofTextFault {
    ghost use Rattle.proof_check.specs.declared.fault.ProofTextFault.TheVariants.{Memory};

    ghost from_gives = { λ _ e. e ≡ Memory };

    fn from(_e: AllocError) -> ProofTextFault {
        ProofTextFault::Memory
    }
}
