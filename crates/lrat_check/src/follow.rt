//! Whether hints show a clause.

ghost use Rattle.std.specs.Prelude.{◌≡◌, ◌+◌, [], Some, None, Bool, IfOk, MatchBool, OnOk};
ghost use Rattle.std.specs.Option.{option_map};
ghost use Rattle.order_ints.specs.Place.{LitBelow, InRange};
ghost use Rattle.literal_trail.specs.Trail.{value_in, up_to};
ghost use Rattle.proof_check.specs.Values.{Values, set_value};
ghost use Rattle.lrat_check.specs.Hints.{clause_at, fits, deny, by_hint, shows, is_shown};
ghost use Rattle.lrat_check.specs.Stored.{AddedBelow, told};

use crate::standing::standing;
use bee_list::Sequence;
use indexmap::IndexMap;
use literal_trail::LiteralTrail;
use order_ints::{Cnf, Lit};
use proof_check::Standing;
use std::alloc::AllocError;

/// What comes of a hint.
#[derive(Clone, Copy)]
enum Step {
    /// No clause has its id.
    Fails,
    /// Its clause is false.
    Ends,
    /// Its clause was unit.
    Tells,
    /// Its clause is passed over.
    Passes,
}

/// Clauses that were added, under their ids.
pub(crate) type Added = IndexMap<u64, Sequence<Lit>>;

/// The clause of an id.
fn clause<'a>(cnf: &'a Cnf, added: &'a Added, id: u64) -> Option<&'a [Lit]>
    ensures { option_map (λ c. c.now) result ≡ clause_at cnf.now.clauses added.now.entries id }
{
    let given = cnf.clauses.as_slice();
    if 0 < id && id <= given.len() as u64 {
        return Some(given[id as usize - 1].as_slice());
    }
    match added.get(&id) {
        Some(lits) => Some(lits.as_slice()),
        None => None,
    }
}

/// The place of an id among all clauses, counted from 1.
fn place(cnf: &Cnf, added: &Added, hint: i64) -> u64 {
    let id = hint.unsigned_abs();
    match added.get_index_of(&id) {
        Some(index) => (cnf.clauses.len() as u64)
            .saturating_add(index as u64)
            .saturating_add(1),
        None => id,
    }
}

/// Whether a literal's variable is one of the trail's and free.
fn is_open(trail: &LiteralTrail, l: Lit) -> bool
    ensures { result ≡ fits trail.now.vars (value_in trail.now.entries) l }
{
    0 < l.var && l.var <= trail.vars() && trail.value(l.var).is_none()
}

/// Makes a literal true.
fn make_true(trail: &mut LiteralTrail, l: Lit)
    requires lit { LitBelow (trail.old.vars + 1) l }
    requires free { value_in trail.old.entries l.var ≡ None }
    requires bottom { up_to 0 trail.old.entries ≡ [] }
    ensures values { value_in trail.new.entries ≡ set_value (value_in trail.old.entries) l }
    ensures vars { trail.new.vars ≡ trail.old.vars }
    ensures bottom { up_to 0 trail.new.entries ≡ [] }
{
    trail.choose(l);
}

/// Makes each literal false, unless a variable isn't one of the trail's or stands twice.
fn deny(trail: &mut LiteralTrail, lits: &[Lit]) -> bool
    requires { up_to 0 trail.old.entries ≡ [] }
    ensures denied { MatchBool result
        (deny trail.old.vars (value_in trail.old.entries) lits.now ≡ Some (value_in trail.new.entries))
        (deny trail.old.vars (value_in trail.old.entries) lits.now ≡ None) }
    ensures vars { trail.new.vars ≡ trail.old.vars }
    ensures bottom { up_to 0 trail.new.entries ≡ [] }
{
    for i in 0..lits.len() {
        let l = lits[i];
        if !is_open(trail, l) {
            return false;
        }
        trail.choose(l.negated());
    }
    true
}

/// Follows a hint.
fn follow_one(cnf: &Cnf, added: &Added, trail: &mut LiteralTrail, hint: &i64) -> Step
    requires in_range { InRange cnf.now }
    requires vars { trail.old.vars ≡ cnf.now.vars }
    requires below { AddedBelow (cnf.now.vars + 1) added.now.entries }
    requires bottom { up_to 0 trail.old.entries ≡ [] }
    ensures told { (next : Values → Bool)
        → by_hint cnf.now.clauses added.now.entries hint.now (value_in trail.old.entries) next
        ≡ told result (next (value_in trail.new.entries)) }
    ensures vars { trail.new.vars ≡ trail.old.vars }
    ensures bottom { up_to 0 trail.new.entries ≡ [] }
{
    if *hint < 0 {
        return Step::Fails;
    }
    let Some(lits) = clause(cnf, added, *hint as u64) else {
        return Step::Fails;
    };
    match standing(trail, lits) {
        Standing::Refuted => Step::Ends,
        Standing::UnitFor(l) => {
            make_true(trail, l);
            Step::Tells
        }
        Standing::Neither => Step::Passes,
    }
}

/// Follows hints until a clause is false. The places of those that told something are appended.
fn follow(
    cnf: &Cnf,
    added: &Added,
    trail: &mut LiteralTrail,
    hints: &[i64],
    used: &mut Vec<u64>,
) -> Result<bool, AllocError>
    requires in_range { InRange cnf.now }
    requires vars { trail.old.vars ≡ cnf.now.vars }
    requires below { AddedBelow (cnf.now.vars + 1) added.now.entries }
    requires bottom { up_to 0 trail.old.entries ≡ [] }
    ensures shown { IfOk result (λ shown. shown
        ≡ shows cnf.now.clauses added.now.entries (value_in trail.old.entries) hints.now) }
    ensures vars { trail.new.vars ≡ trail.old.vars }
    ensures bottom { up_to 0 trail.new.entries ≡ [] }
{
    for i in 0..hints.len() {
        let hint = &hints[i];
        match follow_one(cnf, added, trail, hint) {
            Step::Fails => return Ok(false),
            Step::Ends => {
                used.push(place(cnf, added, *hint))?;
                return Ok(true);
            }
            Step::Tells => used.push(place(cnf, added, *hint))?,
            Step::Passes => {}
        }
    }
    Ok(false)
}

/// Whether hints show a clause. The places of those that were used are appended. It looks at each literal of the
/// clause and of those that the hints name, up to the second one that isn't false.
pub(crate) fn is_shown(
    cnf: &Cnf,
    added: &Added,
    trail: &mut LiteralTrail,
    lits: &[Lit],
    hints: &[i64],
    used: &mut Vec<u64>,
) -> Result<bool, AllocError>
    requires in_range { InRange cnf.now }
    requires vars { trail.old.vars ≡ cnf.now.vars }
    requires below { AddedBelow (cnf.now.vars + 1) added.now.entries }
    requires free { trail.old.entries ≡ [] }
    ensures shown { IfOk result (λ shown. shown
        ≡ is_shown cnf.now.vars cnf.now.clauses added.now.entries lits.now hints.now) }
    ensures vars { OnOk result (trail.new.vars ≡ trail.old.vars) }
    ensures free { OnOk result (trail.new.entries ≡ []) }
{
    if !deny(trail, lits) {
        trail.cut_back(0);
        return Ok(false);
    }
    let shown = follow(cnf, added, trail, hints, used)?;
    trail.cut_back(0);
    Ok(shown)
}
