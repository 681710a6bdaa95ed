//! What stands against a step.

use std::alloc::AllocError;

/// Why a line is no step of a state, in the order in which it is tested.
#[derive(Clone, Copy, Debug, PartialEq, Eq)]
pub enum StepFault {
    /// A contradiction was found before.
    AfterBottom,
    /// No pending core has this id.
    NoSuch(u64),
    /// The equation is not one of two different atoms that a rule states of the core, as the store has it.
    NotInstance,
    /// The core, as the store has it, is not compound.
    NotCompound,
    /// The core, as the store has it, is not basic.
    NotBasic,
}

/// Why a step was not made.
#[derive(Clone, Copy, Debug, PartialEq, Eq)]
pub enum ApplyFault {
    /// The line is no step.
    Step(StepFault),
    /// Memory is wanting.
    Memory,
}

impl From<StepFault> for ApplyFault {
    ghost use Rattle.std.specs.Prelude.{◌≡◌};
    ghost use Rattle.step_kernel.specs.declared.fault.ApplyFault.TheVariants.{Step};

    ghost from_gives = { λ fault e. e ≡ Step fault };

    fn from(fault: StepFault) -> ApplyFault {
        ApplyFault::Step(fault)
    }
}

impl From<AllocError> for ApplyFault {
    ghost use Rattle.std.specs.Prelude.{◌≡◌};
    ghost use Rattle.step_kernel.specs.declared.fault.ApplyFault.TheVariants.{Memory};

    ghost from_gives = { λ _ e. e ≡ Memory };

    fn from(_: AllocError) -> ApplyFault {
        ApplyFault::Memory
    }
}
