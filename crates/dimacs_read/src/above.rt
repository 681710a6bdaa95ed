//! Variables above the number that is told.

ghost use Rattle.std.specs.Prelude.{◌≡◌, not, position};
ghost use Rattle.std.specs.List.{list_all};
ghost use Rattle.dimacs_read.specs.TextLines.{atom_within, value_within, step_within, first_above};

use ledger_text::Line;
use name_map::MapEntry;
use order_ints::{Atom, MapValue};

/// Whether the variable of an atom is at most `vars`.
fn is_atom_within(vars: u32, atom: Atom) -> bool
    ensures { result ≡ atom_within vars atom }
{
    match atom {
        Atom::True => true,
        Atom::False => true,
        Atom::Of(literal) => literal.var() <= vars,
    }
}

/// Whether the variables of some steps are at most `vars`.
fn are_steps_within(vars: u32, steps: &[(Atom, u128)]) -> bool
    ensures { result ≡ list_all (λ s. atom_within vars s.0) steps.now }
{
    for step in steps {
        if !is_atom_within(vars, step.0) {
            return false;
        }
    }
    true
}

/// Whether the variables of what a name stands for are at most `vars`.
fn is_value_within(vars: u32, value: &MapValue) -> bool
    ensures { result ≡ value_within vars value.now }
{
    match value {
        MapValue::Bool(atom) => is_atom_within(vars, *atom),
        MapValue::Int(integer) => are_steps_within(vars, integer.steps.as_slice()),
    }
}

/// Whether the variables of a ledger line are at most `vars`.
fn is_step_within(vars: u32, line: &Line) -> bool
    ensures { result ≡ step_within vars line.now }
{
    match *line {
        Line::Equate { id: _, e } => is_atom_within(vars, e.a) && is_atom_within(vars, e.b),
        Line::Split { id: _ } => true,
        Line::Encode { id: _ } => true,
    }
}

/// The place of the first name that has a variable above `vars`.
fn first_entry_above(vars: u32, entries: &[MapEntry]) -> Option<usize>
    ensures { result ≡ position (λ e. not (value_within vars e.value)) entries.now }
{
    entries
        .iter()
        .position(|e| !is_value_within(vars, &e.value))
}

/// The place of the first ledger line that has a variable above `vars`.
fn first_step_above(vars: u32, ledger: &[Line]) -> Option<usize>
    ensures { result ≡ position (λ l. not (step_within vars l)) ledger.now }
{
    ledger.iter().position(|l| !is_step_within(vars, l))
}

/// The number of the first line of a name or of the ledger that has a variable above `vars`. Names stand from
/// the second line on, and the ledger behind them.
pub(crate) fn first_above(vars: u32, entries: &[MapEntry], ledger: &[Line]) -> Option<u64>
    ensures { result ≡ first_above vars entries.now ledger.now }
{
    if let Some(place) = first_entry_above(vars, entries) {
        return Some(place as u64 + 2);
    }
    match first_step_above(vars, ledger) {
        Some(place) => Some(place as u64 + (entries.len() as u64 + 2)),
        None => None,
    }
}
