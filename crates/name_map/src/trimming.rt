//! What names stand for, as a store has it.

ghost use Rattle.std.specs.Prelude.{◌≡◌, IfOk};
ghost use Rattle.name_map.specs.Values.{IsBoundedValue, AreBounded};
ghost use Rattle.name_map.specs.Trimmed.{trimmed_value, trimmed_values};

use crate::entries::NameMap;
use bee_list::Sequence;
use core_forms::trim_int;
use order_ints::{Atom, MapValue, resolve};
use std::alloc::{AllocError, Global};

/// What a name stands for, as a view has it.
fn trim_value(alloc: Global, value: &MapValue, view: &[Atom]) -> Result<MapValue, AllocError>
    requires { IsBoundedValue value.now }
    ensures { IfOk result (λ trimmed. trimmed ≡ trimmed_value view.now value.now) }
{
    match value {
        MapValue::Bool(atom) => Ok(MapValue::Bool(resolve(view, *atom))),
        MapValue::Int(integer) => Ok(MapValue::Int(trim_int(alloc, integer, view)?)),
    }
}

/// What each name stands for, as a view has it.
pub fn trim_map(alloc: Global, map: &NameMap, view: &[Atom]) -> Result<NameMap, AllocError>
    requires { AreBounded map.now.entries }
    ensures { IfOk result (λ trimmed. trimmed.entries ≡ trimmed_values view.now map.now.entries) }
{
    let mut entries = Vec::with_capacity(alloc, map.entries.len())?;
    for value in map.entries.as_slice() {
        entries.push(trim_value(alloc, value, view)?)?;
    }
    Ok(NameMap {
        entries: Sequence::from_vec(entries),
    })
}
