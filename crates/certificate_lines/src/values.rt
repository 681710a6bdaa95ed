//! The lines that tell the values of names.

ghost use Rattle.std.specs.Prelude.{◌≡◌, ◌&&◌, int_le, ℤ, MatchOption};
ghost use Rattle.model_meaning.specs.Domains.{domain};
ghost use Rattle.model_meaning.specs.Integers.{is_member};
ghost use Rattle.model_meaning.specs.Limits.{InLimit, KindInLimit};
ghost use Rattle.certificate_lines.specs.CertificateLines.{IsValueLine};

use model_meaning::{Decl, Kind};
use name_map::{is_boolean_kind, read_value_line};

/// What the numbers of a model are at most, in absolute value.
const LIMIT: i128 = 1_073_741_824;

/// A number in the limit, in 64 bits.
fn narrowed(number: i128) -> Option<i64>
    ensures { MatchOption result (InLimit number → ⊥) (λ value. value ≡ number) }
{
    if number < -LIMIT || LIMIT < number {
        return None;
    }
    Some(number as i64)
}

/// Whether a number is from a least to a greatest one.
fn in_range(low: i64, high: i64, number: i64) -> bool
    ensures { result ≡ (int_le low number && int_le number high) }
{
    low <= number && number <= high
}

/// Whether a number is in a domain. Of listed values it looks at few, by halving.
#[tactic(auto, using(model_meaning::proofs::DomainLaws::domains))]
pub fn is_value(kind: &Kind, number: i64) -> bool
    ensures { result ≡ is_member number (domain kind.now) }
{
    match kind {
        Kind::Bool => in_range(0, 1, number),
        Kind::Range { low, high } => in_range(*low, *high, number),
        Kind::Listed { values } => values.contains(number),
    }
}

/// The value of a name that a line tells, where it is one of its domain. One pass over the line.
pub fn read_value(decl: &Decl, line: &[u8]) -> Option<i64>
    requires { KindInLimit decl.now.kind }
    ensures { MatchOption result ((z : ℤ) → IsValueLine decl.now line.now z → ⊥)
        (λ z. IsValueLine decl.now line.now z) }
{
    let is_boolean = is_boolean_kind(&decl.kind);
    let number = read_value_line(line, decl.name.as_bytes(), is_boolean, LIMIT as u128)?;
    let value = narrowed(number)?;
    if is_value(&decl.kind, value) {
        Some(value)
    } else {
        None
    }
}
