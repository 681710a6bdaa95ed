//! The word of a literal over a given number of variables.

ghost use Rattle.std.specs.Prelude.{◌≡◌, ◌↔◌, ◌+◌, ◌∷◌, drop, IfSome, Some, IsTrue};
ghost use Rattle.std.specs.Fmt.{decimal};
ghost use Rattle.order_ints.specs.declared.literal.Lit.{Lit};
ghost use Rattle.order_ints.specs.Place.{LitBelow};
ghost use Rattle.ledger_text.specs.Words.{literal_word};

use bee_text::read_number;
use order_ints::Lit;

/// The literal of a variable from 1 to `vars` whose decimal the digits are.
fn read_variable(digits: &[u8], positive: bool, vars: u32) -> Option<Lit>
    ensures read { IfSome result (λ l. LitBelow (vars + 1) l × (digits.now ≡ decimal l.var)
        × (l.positive ≡ positive)) }
    ensures complete { (l : Lit) → LitBelow (vars + 1) l → l.positive ≡ positive → digits.now ≡ decimal l.var
        → result ≡ Some l }
{
    let var = read_number(digits, u128::from(vars))?;
    if var == 0 {
        return None;
    }
    Some(Lit::of(var as u32, positive))
}

/// Whether a word begins with a minus sign.
fn has_minus(word: &[u8]) -> bool
    ensures { IsTrue result ↔ (word.now ≡ 45 ∷ drop 1 word.now) }
{
    !word.is_empty() && word[0] == b'-'
}

/// The literal that a word spells: a variable from 1 to `vars`, behind `-` for its negation.
pub(crate) fn read_literal(word: &[u8], vars: u32) -> Option<Lit>
    ensures read { IfSome result (λ l. LitBelow (vars + 1) l × (word.now ≡ literal_word l)) }
    ensures complete { (l : Lit) → LitBelow (vars + 1) l → word.now ≡ literal_word l → result ≡ Some l }
{
    if has_minus(word) {
        read_variable(&word[1..], false, vars)
    } else {
        read_variable(word, true, vars)
    }
}
