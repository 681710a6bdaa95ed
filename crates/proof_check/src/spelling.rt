//! The words of literals, hints and ids.

ghost use Rattle.std.specs.Prelude.{◌≡◌, ◌<◌, ◌≤◌, ◌^◌, ◌↔◌, ◌++◌, ◌∷◌, drop, ℕ};
ghost use Rattle.std.specs.Prelude.{ℤ, Some, IfSome, IsTrue, OnOk};
ghost use Rattle.std.specs.Fmt.{decimal, signed_decimal};
ghost use Rattle.order_ints.specs.declared.literal.Lit.{Lit};
ghost use Rattle.proof_check.specs.Lines.{literal_word, IsReadableLit, IsReadableHint, IsReadableId};

use bee_text::{push_bytes, push_number, push_signed, read_number, read_signed};
use order_ints::Lit;
use std::alloc::AllocError;

/// The greatest variable.
const GREATEST: u128 = 1 << 27;

/// Whether a word begins with a minus sign.
fn has_minus(word: &[u8]) -> bool
    ensures { IsTrue result ↔ (word.now ≡ 45 ∷ drop 1 word.now) }
{
    !word.is_empty() && word[0] == b'-'
}

/// The literal over a variable whose decimal the digits are.
fn read_variable(digits: &[u8], positive: bool) -> Option<Lit>
    ensures read { IfSome result
        (λ l. IsReadableLit l × (digits.now ≡ decimal l.var) × (l.positive ≡ positive)) }
    ensures complete { (l : Lit) → IsReadableLit l → l.positive ≡ positive → digits.now ≡ decimal l.var
        → result ≡ Some l }
{
    let var = read_number(digits, GREATEST)?;
    if var == 0 {
        return None;
    }
    Some(Lit::of(var as u32, positive))
}

/// The literal that a word spells.
pub(crate) fn read_literal(word: &[u8]) -> Option<Lit>
    ensures read { IfSome result (λ l. IsReadableLit l × (word.now ≡ literal_word l)) }
    ensures complete { (l : Lit) → IsReadableLit l → word.now ≡ literal_word l → result ≡ Some l }
{
    if has_minus(word) {
        read_variable(&word[1..], false)
    } else {
        read_variable(word, true)
    }
}

/// The hint that a word spells.
pub(crate) fn read_hint(word: &[u8]) -> Option<i64>
    ensures read { IfSome result (λ z. IsReadableHint z × (word.now ≡ signed_decimal z)) }
    ensures complete { (z : ℤ) → IsReadableHint z → word.now ≡ signed_decimal z → result ≡ Some z }
{
    let z = read_signed(word, 1 << 63)?;
    if z == 0 || z == 1 << 63 {
        return None;
    }
    Some(z as i64)
}

/// The number that a word spells.
pub(crate) fn read_count(word: &[u8]) -> Option<u64>
    ensures read { IfSome result (λ n. (n < 2 ^ 64) × (word.now ≡ decimal n)) }
    ensures complete { (n : ℕ) → n < 2 ^ 64 → word.now ≡ decimal n → result ≡ Some n }
{
    let n = read_number(word, u128::from(u64::MAX))?;
    Some(n as u64)
}

/// The id that a word spells.
pub(crate) fn read_id(word: &[u8]) -> Option<u64>
    ensures read { IfSome result (λ id. IsReadableId id × (word.now ≡ decimal id)) }
    ensures complete { (id : ℕ) → IsReadableId id → word.now ≡ decimal id → result ≡ Some id }
{
    let id = read_count(word)?;
    if id == 0 {
        return None;
    }
    Some(id)
}

/// Appends a literal.
pub(crate) fn push_literal(out: &mut Vec<u8>, lit: Lit) -> Result<(), AllocError>
    ensures { OnOk result (out.new.items ≡ out.old.items ++ literal_word lit) }
{
    if !lit.positive() {
        out.push(b'-')?;
    }
    push_number(out, u128::from(lit.var()))
}

/// Appends a hint.
pub(crate) fn push_hint(out: &mut Vec<u8>, hint: &i64) -> Result<(), AllocError>
    ensures { OnOk result (out.new.items ≡ out.old.items ++ signed_decimal hint.now) }
{
    push_signed(out, i128::from(*hint))
}
