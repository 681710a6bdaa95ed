//! Which cores are basic.

ghost use Rattle.std.specs.Prelude.{◌≡◌};
ghost use Rattle.core_cost.specs.Sums.{network_is_cheaper};
ghost use Rattle.core_forms.specs.WellFormed.{IsSound, IsWellFormed};
ghost use Rattle.core_forms.specs.Shapes.{steps_of, shape_of};
ghost use Rattle.core_forms.specs.Basic.{is_basic_of};

use crate::form::Core;
use crate::shapes::{shape, steps};
use core_cost::is_network_cheaper;
use order_ints::OrdInt;

/// Whether a sum of two integers has a network that costs less than its table.
fn has_cheap_network(a: &OrdInt, b: &OrdInt, c: &OrdInt) -> bool
    requires a { IsSound a.now }
    requires b { IsSound b.now }
    ensures { result ≡ network_is_cheaper (shape_of a.now) (shape_of b.now) (steps_of c.now) }
{
    is_network_cheaper(shape(a), shape(b), steps(c))
}

/// Whether a core is basic: clauses say it at once. A compound core is split into parts first. It
/// takes no memory.
pub fn is_basic(core: &Core) -> bool
    requires { IsWellFormed core.now }
    ensures { result ≡ is_basic_of core.now }
{
    match core {
        Core::Parity(atoms, _) => atoms.len() <= 3,
        Core::Amo(atoms) => atoms.len() <= 4,
        Core::Sum3(a, b, c) => !has_cheap_network(a.get(), b.get(), c.get()),
        Core::Count(_, _) | Core::Sum(_, _) => false,
        Core::AllDiff(_, _) | Core::Lex(_, _, _, _) => false,
        _ => true,
    }
}
