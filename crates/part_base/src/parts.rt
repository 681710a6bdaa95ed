//! The parts of a core.

ghost use Rattle.std.specs.Prelude.{◌≡◌, []};
ghost use Rattle.order_ints.specs.Label.{variable};

use bee_list::Sequence;
use core_forms::Core;
use order_ints::{Atom, Lit};
use std::alloc::Global;

/// Cores over a core's variables and fresh ones, which together stand for it. The fresh variables follow
/// on a number that is given where the parts are made.
#[derive(Drop)]
pub struct Parts {
    /// The parts, in order.
    pub cores: Sequence<Core>,
    /// How many fresh variables there are.
    pub fresh: u32,
}

/// No parts, as of a core of another form.
pub fn no_parts(alloc: Global) -> Parts
    ensures { result ≡ record { cores = []; fresh = 0 } }
{
    Parts {
        cores: Sequence::from_vec(Vec::new(alloc)),
        fresh: 0,
    }
}

/// The atom of a fresh variable.
pub fn fresh_atom(var: u32) -> Atom
    ensures { result ≡ variable var }
{
    Atom::Of(Lit::of(var, true))
}
