//! What a statement is lowered to.

ghost use Rattle.std.specs.Prelude.{◌≡◌, ◌∷◌, [], IfOk};
ghost use Rattle.statement_lower.specs.Lines.{made_here};

use bee_list::Sequence;
use core_forms::Core;
use std::alloc::{AllocError, Global};

/// The cores of a statement, and how many variables there are behind its fresh ones.
#[derive(Drop)]
pub struct MadeCores {
    /// How many variables there are, the fresh ones among them.
    pub vars: u32,
    /// The cores.
    pub cores: Sequence<Core>,
}

impl MadeCores {
    /// One core, and no fresh variable.
    pub fn of_core(alloc: Global, vars: u32, core: Core) -> Result<MadeCores, AllocError>
        ensures { IfOk result (λ m. m ≡ made_here vars (core ∷ [])) }
    {
        let mut cores = Vec::new(alloc);
        cores.push(core)?;
        Ok(MadeCores {
            vars,
            cores: Sequence::from_vec(cores),
        })
    }
}
