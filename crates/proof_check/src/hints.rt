//! The test of an addition: the clause is denied, and its hints must refute that.
//!
//! That a clause follows where unit propagation from its negation fails is due to Goldberg and Novikov (2003); that the
//! ids of the clauses that propagate are written beside it, so that none is sought, to Cruz-Filipe, Heule, Hunt,
//! Kaufmann and Schneider-Kamp (2017).

ghost use Rattle.std.specs.Prelude.{◌≡◌, ◌+◌, ◌<◌, ◌&&◌, nat_lt, nat_le, [], None, Some, Option};
ghost use Rattle.std.specs.Prelude.{drop, length, OnOk, IfErr, IfOk};
ghost use Rattle.std.specs.Option.{ForSome};
ghost use Rattle.order_ints.specs.declared.literal.Lit.{Lit};
ghost use Rattle.order_ints.specs.Place.{ClausesBelow};
ghost use Rattle.proof_check.specs.declared.fault.ProofFault.{ProofFault};
ghost use Rattle.proof_check.specs.Named.{literals_of, clause_at};
ghost use Rattle.proof_check.specs.Values as partial;
ghost use Rattle.proof_check.specs.Values.{no_values, set_value};
ghost use Rattle.proof_check.specs.Faults.{lits_fault, hints_fault, by_clause, against};
ghost use Rattle.proof_check.specs.Assigned.{value_at};
ghost use Rattle.proof_check.specs.Arena.{clauses_in, live_in};
ghost use Rattle.proof_check.specs.Checking.{IsFault, goes_on};

use crate::arena::Arena;
use crate::fault::{ProofFault, TakeFault};
use crate::standing::Standing;
use crate::values::Values;
use order_ints::Lit;

/// Whether a literal's variable is from 1 to `vars` and has no value.
fn is_open(values: &Values, vars: u32, lit: Lit) -> bool
    ensures { result ≡ (nat_lt 0 lit.var && nat_le lit.var vars && partial.is_free (value_at values.now) lit) }
{
    0 < lit.var() && lit.var() <= vars && values.is_free(lit)
}

/// Makes each literal of a clause false.
pub(crate) fn deny(values: &mut Values, vars: u32, lits: &[Lit]) -> Result<(), TakeFault>
    requires size { vars < length values.old }
    requires free { value_at values.old ≡ no_values }
    ensures size { length values.new ≡ length values.old }
    ensures ok { OnOk result (lits_fault vars [] lits.now 1 ≡ None) }
    ensures denied { OnOk result (value_at values.new ≡ against lits.now) }
    ensures fault { IfErr result (λ e. IsFault e (lits_fault vars [] lits.now 1)) }
{
    for (i, lit) in lits.iter().enumerate() {
        if !is_open(values, vars, *lit) {
            return Err(TakeFault::Proof(ProofFault::Lit(i as u64 + 1)));
        }
        values.make_true(lit.negated())?;
    }
    Ok(())
}

/// Tests the clause of an id: it is unit, and its literal goes to the hints behind it, or, that of the last hint, it is
/// refuted.
fn test_id(
    arena: &Arena,
    values: &Values,
    id: u64,
    last: bool,
    place: u64,
) -> Result<Option<Lit>, ProofFault>
    requires { ClausesBelow (length values.now) (literals_of (clauses_in arena.now)) }
    ensures told { (next : Lit → Option ProofFault)
        → by_clause (value_at values.now) id (clause_at (live_in arena.now) id) last place next
        ≡ goes_on result next }
    ensures below { IfOk result (λ found. ForSome found (λ l. l.var < length values.now)) }
{
    let Some(i) = arena.find_live(id) else {
        return Err(ProofFault::Absent(id));
    };
    match values.standing(arena.codes_of(i)) {
        Standing::Refuted if last => Ok(None),
        Standing::UnitFor(lit) if !last => Ok(Some(lit)),
        _ => Err(ProofFault::Hint(place)),
    }
}

/// Tests the hint at a place, counted from 0.
fn test_place(
    arena: &Arena,
    values: &Values,
    hints: &[i64],
    i: usize,
) -> Result<Option<Lit>, ProofFault>
    requires inside { i < length hints.now }
    requires below { ClausesBelow (length values.now) (literals_of (clauses_in arena.now)) }
    ensures told { hints_fault (live_in arena.now) (value_at values.now) (drop i hints.now) (i + 1)
        ≡ goes_on result (λ l. hints_fault (live_in arena.now) (set_value (value_at values.now) l)
        (drop (i + 1) hints.now) (i + 1 + 1)) }
    ensures below { IfOk result (λ found. ForSome found (λ l. l.var < length values.now)) }
{
    let hint = hints[i];
    if hint < 0 {
        return Err(ProofFault::Rat);
    }
    test_id(
        arena,
        values,
        hint as u64,
        i + 1 == hints.len(),
        i as u64 + 1,
    )
}

/// Follows hints, which must refute the values.
pub(crate) fn follow(arena: &Arena, values: &mut Values, hints: &[i64]) -> Result<(), TakeFault>
    requires { ClausesBelow (length values.old) (literals_of (clauses_in arena.now)) }
    ensures size { length values.new ≡ length values.old }
    ensures ok { OnOk result (hints_fault (live_in arena.now) (value_at values.old) hints.now 1 ≡ None) }
    ensures fault { IfErr result
        (λ e. IsFault e (hints_fault (live_in arena.now) (value_at values.old) hints.now 1)) }
{
    for i in 0..hints.len() {
        match test_place(arena, values, hints, i) {
            Ok(None) => return Ok(()),
            Ok(Some(lit)) => values.make_true(lit)?,
            Err(e) => return Err(TakeFault::Proof(e)),
        }
    }
    Err(TakeFault::Proof(ProofFault::Hint(hints.len() as u64 + 1)))
}
