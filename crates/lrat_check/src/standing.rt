//! How a clause stands under the literals that are true.

ghost use Rattle.std.specs.Prelude.{◌≡◌, ◌∷◌, []};
ghost use Rattle.literal_trail.specs.Trail.{value_in};
ghost use Rattle.proof_check.specs.Values as values;
ghost use Rattle.proof_check.specs.Standing as stand;

use literal_trail::LiteralTrail;
use order_ints::Lit;
use proof_check::Standing;

/// The value of a variable, none for one that isn't the trail's.
fn value(trail: &LiteralTrail, var: u32) -> Option<bool>
    ensures { result ≡ value_in trail.now.entries var }
{
    if var <= trail.vars() {
        trail.value(var)
    } else {
        None
    }
}

/// Whether a literal is false.
fn is_false(trail: &LiteralTrail, l: Lit) -> bool
    ensures { result ≡ values.is_false (value_in trail.now.entries) l }
{
    match value(trail, l.var) {
        None => false,
        Some(truth) => { if l.positive { !truth } else { truth } }
    }
}

/// How a clause with one open literal stands.
fn standing_for(trail: &LiteralTrail, l: Lit) -> Standing
    ensures { result ≡ stand.standing_of (value_in trail.now.entries) (l ∷ []) }
{
    match value(trail, l.var) {
        None => Standing::UnitFor(l),
        Some(_) => Standing::Neither,
    }
}

/// How a clause stands. It looks at no literal past the second that isn't false.
pub(crate) fn standing(trail: &LiteralTrail, lits: &[Lit]) -> Standing
    ensures { result ≡ stand.standing (value_in trail.now.entries) lits.now }
{
    let mut found = None;
    for l in lits {
        if !is_false(trail, *l) {
            if found.is_some() {
                return Standing::Neither;
            }
            found = Some(*l);
        }
    }
    match found {
        None => Standing::Refuted,
        Some(l) => standing_for(trail, l),
    }
}
