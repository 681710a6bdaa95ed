//! The rings of classes: each variable has the number of the member behind it, and the one behind the last is the
//! first.

ghost use Rattle.std.specs.Prelude.{◌≡◌, ◌==◌, ◌+◌, ◌-◌, ◌^◌, ◌<◌, ◌≤◌, length, map};
ghost use Rattle.std.specs.Prelude.{slice_set, if◌then◌else◌, ℕ, true};
ghost use Rattle.std.specs.List.{swap};
ghost use Rattle.order_ints.specs.View.{label_of};
ghost use Rattle.equation_store.specs.Class.{is_of, IsWalk};
ghost use Rattle.equation_store.specs.Ring.{behind, walk_of};
ghost use Rattle.equation_store.specs.Merge.{replaced, size_in};

use crate::labels::is_of;
use crate::relabel::replaced;
use order_ints::Atom;

/// Gives the label of each member of the class of `var` its new value, by a walk along its ring, which has
/// `size` members.
pub fn relabel(labels: &mut [Atom], next: &[u32], size: u32, var: u32, by: Atom)
    requires walk { IsWalk labels.old var (walk_of (behind next.now) var size) }
    requires count { length next.now ≡ length labels.old }
    ensures { labels.new ≡ map (replaced var by) labels.old }
{
    let mut member = var;
    for k in 0..size {
        prove!(k < size);
        let place = member as usize - 1;
        labels[place] = replaced(var, by, labels[place]);
        member = next[place];
    }
}

/// The member behind another one in the ring of its class, unless that is the variable of the class's label, with
/// which the walk of the class begins.
pub fn member_behind(labels: &[Atom], next: &[u32], var: u32) -> Option<u32>
    requires low { 1 ≤ var }
    requires high { var ≤ length labels.now }
    requires count { length next.now ≡ length labels.now }
    ensures { (x : ℕ) → is_of x (label_of labels.now var) ≡ true
        → result ≡ (if behind next.now var == x then None else Some (behind next.now var)) }
{
    let place = var as usize - 1;
    let member = next[place];
    if is_of(member, labels[place]) {
        None
    } else {
        Some(member)
    }
}

/// Makes the rings of two classes one, whose label is that of `winner`. It exchanges the members behind the two.
pub fn take_in(sizes: &mut [u32], next: &mut [u32], loser: u32, winner: u32)
    requires loser { (1 ≤ loser) × (loser ≤ length sizes.old) }
    requires winner { (1 ≤ winner) × (winner ≤ length sizes.old) }
    requires count { length next.old ≡ length sizes.old }
    requires fits { size_in sizes.old winner + size_in sizes.old loser < 2 ^ 32 }
    ensures sizes { sizes.new
        ≡ slice_set sizes.old (winner - 1) (size_in sizes.old winner + size_in sizes.old loser) }
    ensures next { next.new ≡ swap next.old (winner - 1) (loser - 1) }
{
    next.swap(winner as usize - 1, loser as usize - 1);
    sizes[winner as usize - 1] += sizes[loser as usize - 1];
}
