//! Deletions: the clauses of a line's ids live no more, or, where one of them doesn't live when its turn comes, nothing
//! is changed.

ghost use Rattle.std.specs.Prelude.{◌≡◌, None, Some, List, OnOk, OnErr, IfErr};
ghost use Rattle.proof_check.specs.Named.{without_all};
ghost use Rattle.proof_check.specs.Faults.{deletion_fault};
ghost use Rattle.proof_check.specs.Arena.{Kept, live_in};
ghost use Rattle.proof_check.specs.Checking.{kill_all, Killable};
ghost use Rattle.proof_check.specs.declared.fault.ProofFault.TheVariants.{Absent};

use crate::arena::Arena;

/// Lets the clauses of the ids live again, the last one first.
fn revive(arena: &mut Arena, ids: &[u64])
    ensures { (ks : List Kept) → Killable ks ids.now → arena.old ≡ kill_all ids.now ks → arena.new ≡ ks }
{
    for i in (0..ids.len()).rev() {
        arena.set_life(ids[i], true);
    }
}

/// Lets the clauses of the ids live no more, unless one doesn't live when its turn comes, which is then told.
pub(crate) fn delete(arena: &mut Arena, ids: &[u64]) -> Result<(), u64>
    ensures ok { OnOk result (deletion_fault (live_in arena.old) ids.now ≡ None) }
    ensures killed { OnOk result (arena.new ≡ kill_all ids.now arena.old) }
    ensures err { OnErr result (arena.new ≡ arena.old) }
    ensures fault { IfErr result (λ id. deletion_fault (live_in arena.old) ids.now ≡ Some (Absent id)) }
{
    for (i, id) in ids.iter().enumerate() {
        if !arena.kill(*id) {
            revive(arena, &ids[..i]);
            return Err(*id);
        }
    }
    Ok(())
}
