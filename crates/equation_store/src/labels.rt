//! Labels of variables 1, 2 and so on, as a slice, and what variables that are added begin with.

ghost use Rattle.std.specs.Prelude.{◌≡◌, ◌+◌, ◌^◌, ◌<◌, ◌≤◌, ◌++◌, length, replicate};
ghost use Rattle.std.specs.Prelude.{vec_len, vec_capacity};
ghost use Rattle.std.specs.List.{range_with_len};
ghost use Rattle.order_ints.specs.Label.{own_labels};
ghost use Rattle.equation_store.specs.Class.{is_of};

use order_ints::{Atom, Lit};

/// Whether an atom is a literal of a variable.
pub fn is_of(var: u32, atom: Atom) -> bool
    ensures { result ≡ is_of var atom }
{
    match atom {
        Atom::True => false,
        Atom::False => false,
        Atom::Of(literal) => literal.var == var,
    }
}

/// Adds variables, each its own label.
pub fn push_own_labels(labels: &mut Vec<Atom>, more: u32)
    requires small { length labels.old.items + more ≤ 2 ^ 27 }
    requires room { vec_len labels.old + more ≤ vec_capacity labels.old }
    ensures { labels.new.items
        ≡ labels.old.items ++ own_labels (length labels.old.items + 1) more }
{
    let first = labels.len() as u32 + 1;
    for k in 0..more {
        labels
            .push(Atom::Of(Lit {
                var: first + k,
                positive: true,
            }))
            .unwrap();
    }
}

/// Adds classes of one member each.
pub fn push_ones(sizes: &mut Vec<u32>, more: u32)
    requires { vec_len sizes.old + more ≤ vec_capacity sizes.old }
    ensures { sizes.new.items ≡ sizes.old.items ++ replicate more 1 }
{
    for k in 0..more {
        prove!(k < more);
        sizes.push(1).unwrap();
    }
}

/// Adds variables behind the last one, each alone in its ring.
pub fn push_alone(next: &mut Vec<u32>, more: u32)
    requires small { length next.old.items + more ≤ 2 ^ 27 }
    requires room { vec_len next.old + more ≤ vec_capacity next.old }
    ensures { next.new.items
        ≡ next.old.items ++ range_with_len (length next.old.items + 1) more }
{
    let first = next.len() as u32 + 1;
    for k in 0..more {
        next.push(first + k).unwrap();
    }
}
