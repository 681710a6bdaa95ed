//! What declared names have under truth values.

ghost use Rattle.std.specs.Prelude.{◌≡◌, IfOk};
ghost use Rattle.order_ints.specs.Truth.{valuation_of};
ghost use Rattle.order_ints.specs.Numbers.{number_of, numbers_of};
ghost use Rattle.state_compile.specs.StandsFor.{read_by};
ghost use Rattle.model_decode.specs.Short.{IsShort, AreShort};

use crate::reading::StoreReading;
use bee_list::Sequence;
use model_meaning::Assignment;
use name_map::NameMap;
use order_ints::{Atom, MapValue};
use std::alloc::{AllocError, Global};

/// The number of a name that stands for this value.
fn number_under(value: &MapValue, reading: StoreReading<'_>) -> i64
    requires { IsShort value.now }
    ensures { result ≡ number_of (read_by reading.entry.view.now (valuation_of reading.entry.values.now)) value.now }
{
    match value {
        MapValue::Bool(atom) => i64::from(atom.holds(reading)),
        MapValue::Int(integer) => integer.value(reading) as i64,
    }
}

/// The number that each declared name has under truth values, of which that of variable 1 stands first, and which a
/// view reads: each variable is as true as its label, and one without a truth value is false. A Boolean has 0 or 1.
///
/// One pass over the names and the steps of their integers; it takes memory for the numbers alone.
pub fn decode(
    alloc: Global,
    map: &NameMap,
    view: &[Atom],
    sigma: &[bool],
) -> Result<Assignment, AllocError>
    requires { AreShort map.now.entries }
    ensures { IfOk result (λ a. a.values ≡ numbers_of (read_by view.now (valuation_of sigma.now)) map.now.entries) }
{
    let reading = StoreReading {
        view,
        values: sigma,
    };
    let mut values = Vec::with_capacity(alloc, map.entries.len())?;
    for value in map.entries.as_slice() {
        values.push(number_under(value, reading))?;
    }
    Ok(Assignment {
        values: Sequence::from_vec(values),
    })
}
