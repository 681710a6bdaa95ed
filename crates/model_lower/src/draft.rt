//! A model while it is lowered.

ghost use Rattle.std.specs.Prelude.{◌≡◌};
ghost use Rattle.model_lower.specs.Lowering.{nothing_lowered};
ghost use Rattle.model_lower.specs.Drafting.{lowered_so_far};

use crate::state::Lowered;
use bee_list::Sequence;
use core_forms::Core;
use name_map::NameMap;
use order_ints::MapValue;
use std::alloc::Global;

/// What the items so far are lowered to.
#[derive(Drop)]
pub struct Draft {
    /// How many variables there are.
    pub vars: u32,
    /// What the declared names stand for.
    pub entries: Vec<MapValue>,
    /// The cores.
    pub cores: Vec<Core>,
}

impl Draft {
    /// Nothing yet.
    pub fn new(alloc: Global) -> Draft
        ensures { lowered_so_far result ≡ nothing_lowered }
    {
        Draft {
            vars: 0,
            entries: Vec::new(alloc),
            cores: Vec::new(alloc),
        }
    }

    /// The model that was lowered, after its last item.
    pub fn finish(self) -> Lowered
        ensures { result ≡ lowered_so_far self }
    {
        let Draft {
            vars,
            entries,
            cores,
        } = self;
        Lowered {
            vars,
            map: NameMap {
                entries: Sequence::from_vec(entries),
            },
            cores: Sequence::from_vec(cores),
        }
    }
}
