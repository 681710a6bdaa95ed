//! Where the first pending core stands.

ghost use Rattle.std.specs.Prelude.{◌≡◌, ◌-◌, ◌≤◌, length, slice_index_or, slice_set, vec_len};
ghost use Rattle.std.specs.Prelude.{vec_capacity, None, Some};
ghost use Rattle.step_kernel.specs.Cursor.{gone_first};
ghost use Rattle.step_kernel.specs.Steps.{without};

use core_forms::Core;
use std::mem::replace;

/// How many cores at the beginning are no longer pending, where so many are known to be.
fn advanced(cores: &[Option<Core>], known: usize) -> usize
    requires { known ≤ gone_first cores.now }
    ensures { result ≡ gone_first cores.now }
{
    let mut first = known;
    while first < cores.len() && cores[first].is_none() {
        first += 1;
    }
    first
}

/// Takes the core with an id out of the pending ones, and tells how many cores at the beginning are no
/// longer pending.
pub fn take_out(cores: &mut Vec<Option<Core>>, id: u64, known: usize) -> usize
    requires low { 1 ≤ id }
    requires high { id ≤ length cores.old.items }
    requires known { known ≤ gone_first cores.old.items }
    ensures cores { cores.new.items ≡ without cores.old.items id }
    ensures gone { result ≡ gone_first cores.new.items }
{
    cores[id as usize - 1] = None;
    advanced(cores.as_slice(), known)
}

/// Takes out the core with an id, if it is pending.
pub fn take_core(cores: &mut Vec<Option<Core>>, id: u64) -> Option<Core>
    requires low { 1 ≤ id }
    requires high { id ≤ length cores.old.items }
    ensures core { result ≡ slice_index_or cores.old.items (id - 1) None }
    ensures cores { cores.new.items ≡ without cores.old.items id }
    ensures len { vec_len cores.new ≡ vec_len cores.old }
    ensures room { vec_capacity cores.new ≡ vec_capacity cores.old }
{
    replace(&mut cores[id as usize - 1], None)
}

/// Puts a core where the one with an id was.
pub fn put_core(cores: &mut Vec<Option<Core>>, id: u64, core: Core)
    requires low { 1 ≤ id }
    requires high { id ≤ length cores.old.items }
    ensures cores { cores.new.items ≡ slice_set cores.old.items (id - 1) (Some core) }
    ensures len { vec_len cores.new ≡ vec_len cores.old }
    ensures room { vec_capacity cores.new ≡ vec_capacity cores.old }
{
    cores[id as usize - 1] = Some(core);
}
