//! Pending cores that are stable but for their edge, which stands as the store has it for a while.

ghost use Rattle.std.specs.Prelude.{◌≡◌, ◌+◌, ◌-◌, ◌^◌, ◌<◌, ◌≤◌, length, slice_set, vec_len, vec_capacity};
ghost use Rattle.std.specs.Prelude.{None, Some, IfOk, IfSome, OnErr, IsTrue};
ghost use Rattle.order_ints.specs.declared.atom.Atom.{Atom};
ghost use Rattle.core_forms.specs.declared.form.Core.{Core};
ghost use Rattle.core_forms.specs.Cores.{CoresBelow, AreWellFormed};
ghost use Rattle.core_forms.specs.Edges.{settled_core, restored, IsStableInside, InsideBelow};
ghost use Rattle.step_kernel.specs.Kernel.{core_at, pending};
ghost use Rattle.step_kernel.specs.StableMarks.{AreStableMarks, IsInsideAt, IsEdgeAt};

use crate::cursor::{put_core, take_core};
use crate::stable_marks::StableMarks;
use core_forms::{Core, Edge, stable_below};
use order_ints::Atom;
use std::alloc::AllocError;

/// Whether the pending core with an id is seen to be stable but for its edge; its place is then marked.
pub fn mark_inside(cores: &[Option<Core>], stable: &mut StableMarks, view: &[Atom], id: u64) -> bool
    requires few { length view.now < 2 ^ 32 }
    requires below { CoresBelow (length view.now + 1) (pending cores.now) }
    requires marks { AreStableMarks view.now cores.now stable.old }
    ensures inside { IsTrue result → IsInsideAt view.now cores.now stable.new id }
    ensures marks { AreStableMarks view.now cores.now stable.new }
{
    if id == 0 || id > cores.len() as u64 {
        return false;
    }
    let place = id as usize - 1;
    match &cores[place] {
        Some(core) => {
            if stable.is_marked(place) {
                return true;
            }
            match stable_below(core, view) {
                Some(most) => {
                    stable.mark(place, most);
                    true
                }
                None => false,
            }
        }
        None => false,
    }
}

/// Has the edge of the pending core with an id as a view has it, where the core is seen to be stable but for its edge,
/// and gives what stood there.
pub fn settle_at(
    cores: &mut Vec<Option<Core>>,
    stable: &mut StableMarks,
    view: &[Atom],
    id: u64,
) -> Result<Option<Edge>, AllocError>
    requires few { length view.now < 2 ^ 32 }
    requires formed { AreWellFormed (pending cores.old.items) }
    requires below { CoresBelow (length view.now + 1) (pending cores.old.items) }
    requires marks { AreStableMarks view.now cores.old.items stable.old }
    ensures settled { IfOk result
        (λ made. IfSome made (λ edge. IsEdgeAt view.now cores.old.items cores.new.items stable.new id edge)) }
    ensures none { IfOk result (λ made. made ≡ None → cores.new.items ≡ cores.old.items) }
    ensures stays { OnErr result (cores.new.items ≡ cores.old.items) }
    ensures marks { AreStableMarks view.now cores.new.items stable.new }
    ensures len { vec_len cores.new ≡ vec_len cores.old }
    ensures room { vec_capacity cores.new ≡ vec_capacity cores.old }
{
    if !mark_inside(cores.as_slice(), stable, view, id) {
        return Ok(None);
    }
    let alloc = *cores.allocator();
    let Some(mut core) = take_core(cores, id) else {
        return Ok(None);
    };
    let edge = core.settle(alloc, view);
    put_core(cores, id, core);
    Ok(Some(edge?))
}

/// Has the edge of the pending core with an id, if there is such a one, as it stood before.
pub fn unsettle_at(cores: &mut Vec<Option<Core>>, id: u64, edge: Edge)
    ensures there { (core : Core) → core_at cores.old.items id ≡ Some core
        → cores.new.items ≡ slice_set cores.old.items (id - 1) (Some (restored edge core)) }
    ensures len { vec_len cores.new ≡ vec_len cores.old }
    ensures room { vec_capacity cores.new ≡ vec_capacity cores.old }
{
    if id == 0 || id > cores.len() as u64 {
        return;
    }
    if let Some(mut core) = take_core(cores, id) {
        core.unsettle(edge);
        put_core(cores, id, core);
    }
}
