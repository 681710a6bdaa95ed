//! The tables beside the entries: the value of each literal and the place of each variable.

ghost use Rattle.std.specs.Prelude.{◌≡◌, ◌+◌, ◌*◌, ◌^◌, ◌<◌, ◌≤◌, ◌++◌, ◌∷◌, []};
ghost use Rattle.std.specs.Prelude.{◌-◌, length, take, replicate, vec_len, vec_capacity};
ghost use Rattle.order_ints.specs.Place.{LitBelow};
ghost use Rattle.literal_trail.specs.Trail.{entry_of};
ghost use Rattle.literal_trail.specs.Tables.{AreTables, AreFresh, code_of, truth_of};

use crate::entry::Entry;
use order_ints::Lit;

/// The value of a literal.
#[derive(Clone, Copy)]
pub enum Value {
    /// Its variable has no value.
    Free,
    /// It is true.
    Holds,
    /// It is false.
    Fails,
}

impl Value {
    /// The truth value, none where the variable is free.
    pub fn truth(self) -> Option<bool>
        ensures { result ≡ truth_of self }
    {
        match self {
            Value::Free => None,
            Value::Holds => Some(true),
            Value::Fails => Some(false),
        }
    }
}

/// The place of a literal in the table of values.
pub fn code_of(l: Lit) -> usize
    ensures { result ≡ code_of l }
{
    2 * l.var as usize + usize::from(l.positive)
}

/// Adds values of literals that are free.
pub fn push_free(values: &mut Vec<Value>, more: u32)
    requires { vec_len values.old + more ≤ vec_capacity values.old }
    ensures { values.new.items ≡ values.old.items ++ replicate more Value.Free }
{
    for k in 0..more {
        prove!(k < more);
        values.push(Value::Free).unwrap();
    }
}

/// Adds places of variables that have none.
pub fn push_no_place(places: &mut Vec<u32>, more: u32)
    requires { vec_len places.old + more ≤ vec_capacity places.old }
    ensures { places.new.items ≡ places.old.items ++ replicate more 0 }
{
    for k in 0..more {
        prove!(k < more);
        places.push(0).unwrap();
    }
}

/// Adds an entry behind the others, and what the tables say of it. It takes constant time and no memory.
pub fn add_entry(entries: &mut Vec<Entry>, values: &mut [Value], places: &mut [u32], entry: Entry)
    requires tables { AreTables entries.old.items values.old places.old }
    requires lit { LitBelow (length places.old) entry.lit }
    requires free { entry_of entries.old.items entry.lit.var ≡ None }
    requires room { vec_len entries.old < vec_capacity entries.old }
    requires small { vec_len entries.old < 2 ^ 31 }
    ensures entries { entries.new.items ≡ entries.old.items ++ entry ∷ [] }
    ensures tables { AreTables entries.new.items values.new places.new }
    ensures capacity { vec_capacity entries.old ≤ vec_capacity entries.new }
{
    values[code_of(entry.lit)] = Value::Holds;
    values[code_of(entry.lit.negated())] = Value::Fails;
    entries.push(entry).unwrap();
    places[entry.lit.var as usize] = entries.len() as u32;
}

/// Takes the last entry back, and what the tables say of it.
fn take_back(entries: &mut Vec<Entry>, values: &mut [Value], places: &mut [u32])
    requires tables { AreTables entries.old.items values.old places.old }
    requires inside { AreFresh (length places.old) entries.old.items }
    requires some { 0 < vec_len entries.old }
    ensures entries { entries.new.items ≡ take (vec_len entries.old - 1) entries.old.items }
    ensures tables { AreTables entries.new.items values.new places.new }
    ensures capacity { vec_capacity entries.new ≡ vec_capacity entries.old }
{
    let entry = entries.pop().unwrap();
    values[code_of(entry.lit)] = Value::Free;
    values[code_of(entry.lit.negated())] = Value::Free;
    places[entry.lit.var as usize] = 0;
}

/// Takes all entries but the first ones back. It takes constant time for each that goes.
pub fn keep_front(entries: &mut Vec<Entry>, values: &mut [Value], places: &mut [u32], count: usize)
    requires tables { AreTables entries.old.items values.old places.old }
    requires inside { AreFresh (length places.old) entries.old.items }
    requires count { count ≤ vec_len entries.old }
    ensures entries { entries.new.items ≡ take count entries.old.items }
    ensures tables { AreTables entries.new.items values.new places.new }
    ensures capacity { vec_capacity entries.new ≡ vec_capacity entries.old }
{
    while entries.len() > count {
        take_back(entries, values, places);
    }
}
