//! The pairs of atoms over a core's variables, of which the implied ones are to be found.

ghost use Rattle.std.specs.Prelude.{◌≡◌, ◌++◌, IfOk, OnOk};
ghost use Rattle.order_ints.specs.declared.atom.Atom.TheVariants.{Of};
ghost use Rattle.table_rules.specs.Pairs.{pairs_with, pairs_among, pairs_over};

use order_ints::{Atom, Lit};
use std::alloc::{AllocError, Global};

/// The literal of a variable.
fn literal(var: u32, positive: bool) -> Atom
    ensures { result ≡ Of (record { var = var; positive = positive }) }
{
    Atom::Of(Lit { var, positive })
}

/// Puts the pairs of an atom with each literal over listed variables behind others.
fn put_pairs(pairs: &mut Vec<(Atom, Atom)>, a: Atom, vars: &[u32]) -> Result<(), AllocError>
    ensures { OnOk result (pairs.new.items ≡ pairs.old.items ++ pairs_with a vars.now) }
{
    for var in vars {
        pairs.push((a, literal(*var, true)))?;
        pairs.push((a, literal(*var, false)))?;
    }
    Ok(())
}

/// Puts the pairs of each listed variable with each literal over a later one behind others.
fn put_all(pairs: &mut Vec<(Atom, Atom)>, vars: &[u32]) -> Result<(), AllocError>
    ensures { OnOk result (pairs.new.items ≡ pairs.old.items ++ pairs_among vars.now) }
{
    let mut rest = vars;
    while let Some((var, others)) = rest.split_first() {
        put_pairs(pairs, literal(*var, true), others)?;
        rest = others;
    }
    Ok(())
}

/// So many pairs are over eight variables: the constants, True with 16 literals, and 28 pairs of variables, each with
/// both literals of the later one.
const MOST_PAIRS: usize = 73;

/// The pairs of atoms over listed variables, up to order and to the negation of both. Of at most eight variables it
/// takes memory once.
pub(crate) fn pairs_over(alloc: Global, vars: &[u32]) -> Result<Vec<(Atom, Atom)>, AllocError>
    ensures { IfOk result (λ pairs. pairs.items ≡ pairs_over vars.now) }
{
    let mut pairs = Vec::with_capacity(alloc, MOST_PAIRS)?;
    pairs.push((Atom::True, Atom::False))?;
    put_pairs(&mut pairs, Atom::True, vars)?;
    put_all(&mut pairs, vars)?;
    Ok(pairs)
}
