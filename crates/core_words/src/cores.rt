//! Cores in words: the form's name, `odd`, `even`, `strict` or `or` where the form has a flag, and then the members in
//! the order of its fields.

ghost use Rattle.std.specs.Prelude.{IfOk};
ghost use Rattle.core_forms.specs.Cores.{AreWellFormed};
ghost use Rattle.core_forms.specs.WellFormed.{IsWellFormed};

use crate::forms::of_ints;
use crate::ints::int;
use crate::words::{atom, atoms, word};
use core_forms::Core;
use std::alloc::Global;
use std::io::Result;

/// A comparator: the third and fourth atom are the disjunction and the conjunction of the first two.
fn comparator(alloc: Global, text: &str) -> Result<Core>
    ensures { IfOk result (λ core. IsWellFormed core) }
{
    let a = atom(word(text, 1))?;
    let b = atom(word(text, 2))?;
    let hi = atom(word(text, 3))?;
    let lo = atom(word(text, 4))?;
    Ok(Core::comp(alloc, a, b, hi, lo)?)
}

/// A core; `InvalidInput` where the text is none.
pub fn core_of(alloc: Global, text: &str) -> Result<Core>
    ensures { IfOk result (λ core. IsWellFormed core) }
{
    match word(text, 0) {
        "Clause" => Ok(Core::Clause(atoms(alloc, word(text, 1))?)),
        "Amo" => Ok(Core::Amo(atoms(alloc, word(text, 1))?)),
        "Parity" => Ok(Core::Parity(atoms(alloc, word(text, 2))?, word(text, 1) == "odd")),
        "Conj" => Ok(Core::Conj(atom(word(text, 1))?, atoms(alloc, word(text, 2))?)),
        "Comp" => comparator(alloc, text),
        "Ladder" => Ok(Core::ladder(alloc, int(alloc, word(text, 1))?)?),
        _ => of_ints(alloc, text),
    }
}

/// Cores; `InvalidInput` where one of the texts is none.
pub fn cores_of(alloc: Global, texts: &[&str]) -> Result<Vec<Core>>
    ensures { IfOk result (λ cores. AreWellFormed cores.items) }
{
    let mut cores = Vec::new(alloc);
    for text in texts {
        cores.push(core_of(alloc, text)?)?;
    }
    Ok(cores)
}
