//! Why a text was not read.

ghost use Rattle.std.specs.Prelude.{◌≡◌};
ghost use Rattle.dimacs_read.specs.declared.fault.CompiledTextFault.TheVariants.{Memory};
ghost use Rattle.dimacs_read.specs.declared.fault.ValuesTextFault.TheVariants as values_fault;

use std::alloc::{AllocError, AllocFailed};

/// Why a text was not read.
#[derive(Clone, Copy, Debug, PartialEq, Eq)]
pub enum CompiledTextFault {
    /// The first line that fails, counted from 1. The line of a text that ends too early is the one behind its
    /// last.
    Form(u64),
    /// Memory was wanting.
    Memory,
}

impl<T: Drop> From<AllocFailed<T>> for CompiledTextFault {
    ghost from_gives = { λ _ e. e ≡ Memory };

    fn from(_e: AllocFailed<T>) -> CompiledTextFault {
        CompiledTextFault::Memory
    }
}

impl From<AllocError> for CompiledTextFault {
    ghost from_gives = { λ _ e. e ≡ Memory };

    fn from(_e: AllocError) -> CompiledTextFault {
        CompiledTextFault::Memory
    }
}

/// Why no values were read. Lines are counted from 1.
#[derive(Clone, Copy, Debug, PartialEq, Eq)]
pub enum ValuesTextFault {
    /// The line of this number is the first that isn't the next.
    Misfit(u64),
    /// The line of this number, the one behind the last, is missing: the text ends too early, or without a line feed.
    Missing(u64),
    /// Memory was wanting.
    Memory,
}

impl From<AllocError> for ValuesTextFault {
    ghost from_gives = { λ _ e. e ≡ values_fault.Memory };

    fn from(_e: AllocError) -> ValuesTextFault {
        ValuesTextFault::Memory
    }
}
