//! Whether the clauses of a store show a clause.

ghost use Rattle.std.specs.Prelude.{◌≡◌, ◌+◌, ◌∷◌, [], List, IsTrue, Contains};
ghost use Rattle.order_ints.specs.declared.literal.Lit.{Lit};
ghost use Rattle.order_ints.specs.Place.{LitBelow};
ghost use Rattle.clause_rings.specs.Clauses.{IsDb, IsComplete, SameClauses};
ghost use Rattle.drup_check.specs.Rup.{Rup};
ghost use Rattle.drup_check.specs.Stored.{AreListed, AreHeld};
ghost use Rattle.drup_check.specs.Denying.{Denying, DenialOf};

use clause_rings::ClauseDb;
use order_ints::Lit;

/// Takes a literal to be false and propagates, and says whether that ends in a conflict, so that the literal is shown.
/// Where it has a truth already, that is the answer, and nothing is taken.
fn deny(db: &mut ClauseDb, l: Lit) -> bool
    requires lit { LitBelow (db.old.trail.vars + 1) l }
    requires complete { IsComplete db.old.trail.entries db.old.clauses }
    ensures denying { Denying (l ∷ []) db.old db.new }
    ensures denied { DenialOf (l ∷ []) db.new result }
    ensures db { IsDb db.new.clauses db.new.trail }
{
    match db.truth(l) {
        Some(held) => {
            let _vars = db.vars();
            held
        }
        None => {
            db.assign(l.negated(), None);
            db.propagate().is_some()
        }
    }
}

/// Denies literals, one after another, with what follows, until one is true or a clause is false. The answer says
/// whether it came to that. The levels that it begins are left, for a look at the reasons; a clause that is false is
/// told by `propagate` again.
pub fn deny_all(db: &mut ClauseDb, lits: &[Lit]) -> bool
    requires lits { (l : Lit) → Contains lits.now l → LitBelow (db.old.trail.vars + 1) l }
    requires complete { IsComplete db.old.trail.entries db.old.clauses }
    ensures denying { Denying lits.now db.old db.new }
    ensures denied { DenialOf lits.now db.new result }
    ensures db { IsDb db.new.clauses db.new.trail }
{
    let _vars = db.vars();
    for i in 0..lits.len() {
        if deny(db, lits[i]) {
            return true;
        }
    }
    false
}

/// Whether the clauses of a store show a clause, by complete propagation behind the denial of its literals. The trail
/// is as it was then. It takes time for each clause that watches what has become false, and no memory.
pub fn is_shown(db: &mut ClauseDb, lits: &[Lit]) -> bool
    requires bottom { db.old.trail.level ≡ 0 }
    requires lits { (l : Lit) → Contains lits.now l → LitBelow (db.old.trail.vars + 1) l }
    requires complete { IsComplete db.old.trail.entries db.old.clauses }
    ensures sound { (cs : List (List Lit)) → AreListed db.old.clauses cs → IsTrue result → Rup cs lits.now }
    ensures shown { (cs : List (List Lit)) → AreHeld db.old.clauses cs → Rup cs lits.now → IsTrue result }
    ensures clauses { SameClauses db.old.clauses db.new.clauses }
    ensures trail { db.new.trail ≡ db.old.trail }
    ensures complete { IsComplete db.new.trail.entries db.new.clauses }
    ensures db { IsDb db.new.clauses db.new.trail }
{
    let _vars = db.vars();
    let shown = deny_all(db, lits);
    db.backjump(0);
    shown
}
