//! Room for literals and clauses, and the clauses of a CNF.

ghost use Rattle.std.specs.Prelude.{◌≡◌, ◌≢◌, ◌+◌, ◌*◌, ◌^◌, ◌<◌, ◌≤◌, ◌++◌, ℕ};
ghost use Rattle.std.specs.Prelude.{max, replicate, length, Contains, IfOk, OnOk, OnErr, vec_len, vec_capacity};
ghost use Rattle.order_ints.specs.declared.literal.Lit.{Lit};
ghost use Rattle.order_ints.specs.Place.{LitBelow, InRange};
ghost use Rattle.literal_trail.specs.Trail.{empty_trail};
ghost use Rattle.clause_arena.specs.Clauses.{IsWider, no_clauses};
ghost use Rattle.index_ring.specs.Lists.{IsRings};
ghost use Rattle.clause_rings.specs.Clauses.{IsApart, AreApartIn, HoldsCnf};
ghost use Rattle.clause_rings.specs.Keeping.{Keeps};
ghost use Rattle.clause_rings.specs.Moves.{HasNodesMore, HasMore, IsNext};

use crate::moves::add;
use crate::watches::Watches;
use clause_arena::ClauseArena;
use index_ring::Rings;
use literal_trail::LiteralTrail;
use order_ints::{Cnf, Lit};
use std::alloc::{AllocError, Global};

/// Adds blockers that are no literal yet (0), one for each new node. Their room was made before, so this never fails.
fn push_blockers(blockers: &mut Vec<u32>, more: usize)
    requires { vec_len blockers.old + more ≤ vec_capacity blockers.old }
    ensures { blockers.new.items ≡ blockers.old.items ++ replicate more 0 }
{
    for k in 0..more {
        prove!(k < more);
        blockers.push(0).unwrap();
    }
}

/// Makes blockers for so many nodes, where there are fewer.
fn make_blockers(blockers: &mut Vec<u32>, nodes: usize) -> Result<(), AllocError>
    ensures more { HasMore blockers.old.items blockers.new.items }
    ensures ok { OnOk result (nodes ≤ length blockers.new.items) }
{
    let more = nodes.saturating_sub(blockers.len());
    blockers.reserve(more)?;
    push_blockers(blockers, more);
    Ok(())
}

/// Makes nodes, where there are fewer.
fn make_nodes(rings: &mut Rings, nodes: u32) -> Result<(), AllocError>
    requires { IsRings rings.old }
    ensures more { HasNodesMore rings.old rings.new }
    ensures ok { OnOk result (nodes ≤ rings.new.nodes) }
    ensures made { IsRings rings.new }
{
    let more = nodes.saturating_sub(rings.nodes());
    let places = u64::from(rings.rings()) + (u64::from(rings.nodes()) + u64::from(more));
    if places >= 1 << 31 {
        return Err(AllocError);
    }
    rings.grow(0, more)
}

/// Makes room for literals and clauses to come. Nodes and blockers come before the references, and stay where these are
/// refused.
pub fn reserve(watches: &mut Watches, literals: usize, clauses: usize) -> Result<(), AllocError>
    requires kept { Keeps watches.old }
    ensures kept { Keeps watches.new }
    ensures trail { watches.new.trail ≡ watches.old.trail }
    ensures wider { OnOk result (IsWider watches.old.arena watches.new.arena) }
    ensures lits { OnOk result (literals ≤ watches.new.arena.spare_lits) }
    ensures room { OnOk result (clauses ≤ watches.new.arena.spare_clauses) }
    ensures err { OnErr result (watches.new.arena ≡ watches.old.arena) }
{
    let references = watches.arena.references();
    let more = clauses.saturating_sub(watches.arena.spare_clauses() as usize);
    if more >= (1usize << 30).saturating_sub(references as usize) {
        return Err(AllocError);
    }
    let nodes = 2 * (references + more as u32);
    make_blockers(&mut watches.blockers, nodes as usize)?;
    make_nodes(&mut watches.rings, nodes)?;
    watches.arena.reserve(literals, clauses)
}

/// No clause, and no literal that is true.
fn empty(alloc: Global, vars: u32) -> Result<Watches, AllocError>
    requires { vars ≤ 2 ^ 27 }
    ensures kept { IfOk result Keeps }
    ensures arena { IfOk result (λ made. made.arena ≡ no_clauses) }
    ensures trail { IfOk result (λ made. made.trail ≡ empty_trail vars) }
{
    Ok(Watches {
        arena: ClauseArena::with(alloc)?,
        trail: LiteralTrail::with(alloc, vars)?,
        rings: Rings::with(alloc, 2 * vars + 2, 0)?,
        blockers: Vec::new(alloc),
        head: 0,
    })
}

/// Adds a clause at level 0, with room for it.
fn add_first(watches: &mut Watches, lits: &[Lit], id: u64) -> Result<(), AllocError>
    requires kept { Keeps watches.old }
    requires level { watches.old.trail.level ≡ 0 }
    requires in_range { (l : Lit) → Contains lits.now l → LitBelow (watches.old.trail.vars + 1) l }
    requires apart { IsApart lits.now }
    ensures kept { Keeps watches.new }
    ensures trail { watches.new.trail ≡ watches.old.trail }
    ensures next { OnOk result (IsNext watches.old.arena.clauses watches.new.arena.clauses id lits.now) }
{
    reserve(watches, lits.len(), 1)?;
    add(watches, lits, id);
    Ok(())
}

/// The clauses of a CNF, with ids from 1 on.
pub fn with(alloc: Global, cnf: &Cnf) -> Result<Watches, AllocError>
    requires vars { cnf.now.vars ≤ 2 ^ 27 }
    requires in_range { InRange cnf.now }
    requires apart { AreApartIn cnf.now }
    ensures kept { IfOk result Keeps }
    ensures clauses { IfOk result (λ made. HoldsCnf cnf.now made.arena.clauses) }
    ensures trail { IfOk result (λ made. made.trail ≡ empty_trail cnf.now.vars) }
{
    let clauses = cnf.clauses.as_slice();
    let mut watches = empty(alloc, cnf.vars)?;
    reserve(&mut watches, literals_in(cnf), clauses.len())?;
    for k in 0..clauses.len() {
        add_first(&mut watches, clauses[k].as_slice(), k as u64 + 1)?;
    }
    Ok(watches)
}

/// How many literals the clauses of a CNF have, at most the greatest number there is.
fn literals_in(cnf: &Cnf) -> usize {
    let mut literals = 0usize;
    for clause in cnf.clauses.as_slice() {
        literals = literals.saturating_add(clause.len());
    }
    literals
}
