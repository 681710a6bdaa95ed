//! The equations that lexicographic order states.

ghost use Rattle.std.specs.Prelude.{◌≡◌, [], ◌∷◌, pos, ◌+ℤ◌, length};
ghost use Rattle.order_ints.specs.OrderRange.{low_of, high_of};
ghost use Rattle.core_forms.specs.WellFormed.{IsSound, AreSound};
ghost use Rattle.rule_base.specs.Pairs.{first_sought};
ghost use Rattle.rule_base.specs.Stated.{at_least, is_below};
ghost use Rattle.alldiff_rules.specs.Rows.{lex_equations};

use order_ints::{Atom, OrdInt};
use rule_base::{SoughtEquation, next};

/// The equations where an integer is at most another.
fn by_first(sought: SoughtEquation, a: &OrdInt, b: &OrdInt) -> Option<(Atom, Atom)>
    requires a { IsSound a.now }
    requires b { IsSound b.now }
    ensures { result ≡ first_sought sought
        (is_below a.now (high_of b.now +ℤ pos 1) ∷ at_least b.now (low_of a.now) ∷ []) }
{
    let below = sought.is_below(a, next(b.high()));
    if below.is_some() {
        return below;
    }
    sought.at_least(b, a.low())
}

/// The equations of two lists, of which one stands before the other where an atom is true.
pub(crate) fn by_lex(
    sought: SoughtEquation,
    r: Atom,
    strict: bool,
    front: &[OrdInt],
    back: &[OrdInt],
) -> Option<(Atom, Atom)>
    requires lengths { length front.now ≡ length back.now }
    requires front { AreSound front.now }
    requires back { AreSound back.now }
    ensures { result ≡ first_sought sought (lex_equations r strict front.now back.now) }
{
    if front.is_empty() {
        return sought.one(r, if strict { Atom::False } else { Atom::True });
    }
    if !r.is_true() {
        return None;
    }
    by_first(sought, &front[0], &back[0])
}
