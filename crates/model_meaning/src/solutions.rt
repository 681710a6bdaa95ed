//! Which assignments are in the domains, and which statements hold.

ghost use Rattle.std.specs.Prelude.{◌≡◌, ◌↔◌, ◌<◌, ◌&&◌, int_le, length, IsTrue, IsNone, IfSome};
ghost use Rattle.std.specs.Prelude.{Some, slice_get};
ghost use Rattle.std.specs.Option.{option_map};
ghost use Rattle.model_meaning.specs.Integers.{is_member};
ghost use Rattle.model_meaning.specs.Limits.{InLimits, StmtsInLimit, AllInLimit};
ghost use Rattle.model_meaning.specs.Domains.{domain, in_domains};
ghost use Rattle.model_meaning.specs.Holds.{Holds, holds};
ghost use Rattle.model_meaning.specs.Solutions.{AllHold, first_broken};

use crate::model::{Assignment, Decl, Kind, Model, Stmt};
use crate::table::what_holds;

/// Whether a value is from a least to a greatest one.
fn in_range(low: i64, high: i64, value: i64) -> bool
    ensures { result ≡ (int_le low value && int_le value high) }
{
    low <= value && value <= high
}

/// Whether a value is in the domain of a declaration.
#[tactic(auto, using(crate::proofs::DomainLaws::domains), unfolding(crate::specs::Domains::domain))]
fn in_domain(kind: &Kind, value: i64) -> bool
    ensures { result ≡ is_member value (domain kind.now) }
{
    match kind {
        Kind::Bool => in_range(0, 1, value),
        Kind::Range { low, high } => in_range(*low, *high, value),
        Kind::Listed { values } => values.contains(value),
    }
}

/// Whether each value is in the domain of its declaration.
fn all_in_domains(decls: &[Decl], values: &[i64]) -> bool
    ensures { result ≡ in_domains decls.now values.now }
{
    for i in 0..decls.len() {
        if i >= values.len() {
            return false;
        }
        if !in_domain(&decls[i].kind, values[i]) {
            return false;
        }
    }
    decls.len() == values.len()
}

/// Whether an assignment gives each declaration a value of its domain, and nothing else. It takes one
/// pass, and no memory.
pub fn in_domains(model: &Model, a: &Assignment) -> bool
    ensures { result ≡ in_domains model.now.decls a.now.values }
{
    all_in_domains(model.decls.as_slice(), a.values.as_slice())
}

/// The number of the first statement of a list that doesn't hold.
fn first_failing(values: &[i64], stmts: &[Stmt]) -> Option<u64>
    requires stmts { StmtsInLimit stmts.now }
    requires values { AllInLimit values.now }
    ensures { result ≡ first_broken values.now stmts.now }
{
    for stmt in stmts {
        if !what_holds(values, &stmt.what) {
            return Some(stmt.number);
        }
    }
    None
}

/// Whether the statement at a place holds; places count from 0. It takes no memory, and one pass over the
/// statement's members, but for those that compare each two members.
pub fn holds(model: &Model, place: usize, a: &Assignment) -> bool
    requires limits { InLimits model.now }
    requires domains { IsTrue (in_domains model.now.decls a.now.values) }
    requires place { place < length model.now.stmts }
    ensures test { IfSome (slice_get model.now.stmts place) (λ s. result ≡ holds a.now.values s.what) }
    ensures meaning { IfSome (slice_get model.now.stmts place) (λ s. IsTrue result ↔ Holds a.now.values s.what) }
{
    let stmts = model.stmts.as_slice();
    what_holds(a.values.as_slice(), &stmts[place].what)
}

/// The number of the first statement that doesn't hold. It takes no memory.
pub fn first_broken(model: &Model, a: &Assignment) -> Option<u64>
    requires limits { InLimits model.now }
    requires domains { IsTrue (in_domains model.now.decls a.now.values) }
    ensures first { result ≡ first_broken a.now.values model.now.stmts }
    ensures none { IsNone result ↔ AllHold a.now.values model.now.stmts }
{
    first_failing(a.values.as_slice(), model.stmts.as_slice())
}
