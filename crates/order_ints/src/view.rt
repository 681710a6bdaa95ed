//! A view gives each variable its label, an atom that is as true as the variable.

ghost use Rattle.std.specs.Prelude.{◌≡◌};
ghost use Rattle.order_ints.specs.View.{label_of, resolve};

use crate::atom::Atom;
use crate::literal::Lit;

/// The label of a variable. A variable past the view's end is its own label.
pub fn label_of(view: &[Atom], var: u32) -> Atom
    ensures { result ≡ label_of view.now var }
{
    match view.get(var.saturating_sub(1) as usize) {
        Some(label) => *label,
        None => Atom::Of(Lit::of(var, true)),
    }
}

/// An atom as the view has it: a literal becomes its variable's label, or the label's negation.
pub fn resolve(view: &[Atom], atom: Atom) -> Atom
    ensures { result ≡ resolve view.now atom }
{
    match atom {
        Atom::True => Atom::True,
        Atom::False => Atom::False,
        Atom::Of(literal) => {
            let label = label_of(view, literal.var());
            if literal.positive() {
                label
            } else {
                label.not()
            }
        }
    }
}
