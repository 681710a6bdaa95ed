//! What is found at a core.

use core_forms::Equation;

/// An equation that was found at a core, and a run: equations that the core tells one after another, each when its turn
/// comes, once those before it are made; perhaps none. So one look at a core that tells many is enough.
#[derive(Drop)]
pub struct FoundRun {
    pub equation: Equation,
    pub run: Vec<Equation>,
}
