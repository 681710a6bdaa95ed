//! Literals as numbers of 32 bits, and where those of a clause stand.

ghost use Rattle.std.specs.Prelude.{◌≡◌, ◌^◌, ◌<◌, ◌≤◌, ◌+◌, ◌++◌, length, map, take, drop};
ghost use Rattle.std.specs.Prelude.{vec_len, vec_capacity};
ghost use Rattle.std.specs.List.{All};
ghost use Rattle.clause_arena.specs.Codes.{code_of, lit_of};

use order_ints::Lit;

/// Where the literals of a clause stand in the arena.
#[derive(Clone, Copy)]
pub struct Span {
    /// The place of the first one.
    pub start: u32,
    /// How many there are.
    pub len: u32,
}

/// The number of a literal.
pub fn code_of(l: Lit) -> u32
    requires { l.var < 2 ^ 31 }
    ensures { result ≡ code_of l }
{
    2 * l.var + u32::from(l.positive)
}

/// The literal of a number.
pub fn lit_of(code: u32) -> Lit
    ensures { result ≡ lit_of code }
{
    Lit {
        var: code / 2,
        positive: code % 2 == 1,
    }
}

/// So many numbers from a place on.
pub fn part(codes: &[u32], start: u32, len: u32) -> &[u32]
    requires { start + len ≤ length codes.now }
    ensures part { result.now ≡ take len (drop start codes.now) }
    ensures len { length result.now ≡ len }
{
    codes.split_at(start as usize).1.split_at(len as usize).0
}

/// Adds the numbers of literals behind others.
pub fn push_codes(codes: &mut Vec<u32>, lits: &[Lit])
    requires small { All (λ l. l.var < 2 ^ 31) lits.now }
    requires room { vec_len codes.old + length lits.now ≤ vec_capacity codes.old }
    ensures codes { codes.new.items ≡ codes.old.items ++ map code_of lits.now }
    ensures capacity { vec_capacity codes.old ≤ vec_capacity codes.new }
{
    for lit in lits {
        codes.push(code_of(*lit)).unwrap();
    }
}
