//! What a declared name stands for.

ghost use Rattle.std.specs.Prelude.{◌≡◌, ◌+◌, ◌-◌, ◌<◌, ◌^◌, ◌++◌, ◌∷◌, []};
ghost use Rattle.std.specs.Prelude.{unsigned_abs, OnOk, IfOk, length};
ghost use Rattle.order_ints.specs.OrderMade.{AreAscending, AreSmall, integer_of_values};
ghost use Rattle.model_lower.specs.Lowering.{vars_taken, entry_of, entry_cores, defined_entry, with_declaration};
ghost use Rattle.model_lower.specs.Lowering.{with_definition};
ghost use Rattle.model_lower.specs.Drafting.{lowered_so_far};

use crate::draft::Draft;
use core_forms::Core;
use model_meaning::{Decl, Kind, Stmt, What};
use order_ints::{Atom, Lit, MapValue, OrdInt};
use statement_lower::atom_of;
use std::alloc::{AllocError, Global};

/// How many values there are but the first.
fn further(values: &[i64]) -> u64
    ensures { result ≡ length values.now - 1 }
{
    match values {
        [_, others @ ..] => others.len() as u64,
        [] => 0,
    }
}

/// How many variables a declared name takes.
#[tactic(auto, using(crate::proofs::DeclarationSteps::further_listed))]
pub fn vars_taken(kind: &Kind) -> u64
    ensures { result ≡ vars_taken kind.now }
{
    match kind {
        Kind::Bool => 1,
        Kind::Range { low, high } => { if *low < *high { high.abs_diff(*low) } else { 0 } }
        Kind::Listed { values } => further(values.as_slice()),
    }
}

/// A value as a number of twice the width.
fn wide_value(value: &i64) -> i128
    ensures same { result ≡ value.now }
    ensures small { unsigned_abs result < 2 ^ 100 }
{
    i128::from(*value)
}

/// Values as numbers of twice the width.
fn widened(alloc: Global, values: &[i64]) -> Result<Vec<i128>, AllocError>
    ensures values { IfOk result (λ wide. wide.items ≡ values.now) }
    ensures small { IfOk result (λ wide. AreSmall wide.items) }
{
    let mut wide = Vec::with_capacity(alloc, values.len())?;
    for value in values {
        wide.push(wide_value(value))?;
    }
    Ok(wide)
}

/// The integer of listed values, with a variable from `first_var` on for each but the least.
fn listed_integer(alloc: Global, values: &[i64], first_var: u32) -> Result<OrdInt, AllocError>
    requires ascending { AreAscending values.now }
    requires first { 0 < first_var }
    requires room { first_var + (length values.now - 1) < 2 ^ 27 + 1 }
    ensures { IfOk result (λ a. a ≡ integer_of_values values.now first_var) }
{
    if values.is_empty() {
        return OrdInt::constant(alloc, 0);
    }
    let wide = widened(alloc, values)?;
    OrdInt::from_values(alloc, &wide, first_var)
}

/// What a name stands for that is declared where there are so many variables.
#[tactic(auto, using(crate::proofs::DeclarationSteps::further_listed))]
fn entry_of(alloc: Global, vars: u32, kind: &Kind, taken: u32) -> Result<MapValue, AllocError>
    requires taken { taken ≡ vars_taken kind.now }
    requires room { vars + taken < 2 ^ 27 }
    ensures { IfOk result (λ e. e ≡ entry_of vars kind.now) }
{
    match kind {
        Kind::Bool => Ok(MapValue::Bool(Atom::Of(Lit::of(vars + 1, true)))),
        Kind::Range { low, high: _ } => {
            let low = i128::from(*low);
            let integer = OrdInt::unit_range(alloc, low, vars + 1, taken)?;
            Ok(MapValue::Int(integer))
        }
        Kind::Listed { values } => {
            let integer = listed_integer(alloc, values.as_slice(), vars + 1)?;
            Ok(MapValue::Int(integer))
        }
    }
}

/// Adds that an integer is to be ordered.
fn add_ladder(alloc: Global, cores: &mut Vec<Core>, entry: &MapValue) -> Result<(), AllocError>
    ensures { OnOk result (cores.new.items ≡ cores.old.items ++ entry_cores entry.now) }
{
    match entry {
        MapValue::Bool(_) => Ok(()),
        MapValue::Int(integer) => {
            cores.push(Core::ladder(alloc, integer.clone()?)?)?;
            Ok(())
        }
    }
}

/// Adds a declaration, which takes variables and makes an entry of the map.
pub fn add_declaration(alloc: Global, draft: &mut Draft, decl: &Decl) -> Result<(), AllocError>
    requires room { draft.old.vars + vars_taken decl.now.kind < 2 ^ 27 }
    ensures { OnOk result (lowered_so_far draft.new ≡ with_declaration (lowered_so_far draft.old) decl.now.kind) }
{
    let taken = vars_taken(&decl.kind) as u32;
    let entry = entry_of(alloc, draft.vars, &decl.kind, taken)?;
    add_ladder(alloc, &mut draft.cores, &entry)?;
    draft.entries.push(entry)?;
    draft.vars += taken;
    Ok(())
}

/// What the name stands for that a statement declares.
fn defined_entry(alloc: Global, entries: &[MapValue], what: &What) -> Result<MapValue, AllocError>
    ensures { IfOk result (λ e. e ≡ defined_entry entries.now what.now) }
{
    let integer = match what {
        What::BoolToInt { truth, .. } => OrdInt::of_atom(alloc, atom_of(entries, *truth))?,
        _ => OrdInt::constant(alloc, 0)?,
    };
    Ok(MapValue::Int(integer))
}

/// Adds a `bool2int` that declares its integer, which makes an entry of the map: its Boolean, as an integer.
pub fn add_definition(alloc: Global, draft: &mut Draft, stmt: &Stmt) -> Result<(), AllocError>
    ensures { OnOk result (lowered_so_far draft.new ≡ with_definition (lowered_so_far draft.old) stmt.now.what) }
{
    let entry = defined_entry(alloc, draft.entries.as_slice(), &stmt.what)?;
    draft.entries.push(entry)?;
    Ok(())
}
