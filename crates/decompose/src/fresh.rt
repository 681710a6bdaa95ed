//! What the parts of all forms are made with.

ghost use Rattle.std.specs.Prelude.{◌≡◌, ◌<◌, ◌∷◌, IfOk, length};
ghost use Rattle.decompose.specs.LexParts.{alone};

use bee_list::Sequence;
use core_forms::Core;
use order_ints::OrdInt;
use part_base::Parts;
use std::alloc::{AllocError, Global};

/// The first member of a list that has one.
pub(crate) fn take_first(ints: &mut Vec<OrdInt>) -> OrdInt
    requires { 0 < length ints.old.items }
    ensures { ints.old.items ≡ result ∷ ints.new.items }
{
    ints.remove(0)
}

/// One part, and no fresh variable.
pub(crate) fn one_part(alloc: Global, core: Core) -> Result<Parts, AllocError>
    ensures { IfOk result (λ parts. parts ≡ alone core) }
{
    Ok(Parts {
        cores: Sequence::from_vec(vec![in alloc; core]?),
        fresh: 0,
    })
}
