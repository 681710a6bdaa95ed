//! A hash of clauses that keeps neighbours together.

ghost use Rattle.std.specs.Prelude.{◌≡◌, ◌≤◌, ◌<◌, length};
ghost use Rattle.clause_order.specs.ClauseHash.{no_literal, word, mixed, clause_hash, clause_write, with_variable};

use std::hash::Hasher;

/// The odd number nearest to 2^64 divided by the golden ratio.
const MULTIPLIER: u64 = 11_400_714_819_323_198_485;

/// How many first variables that follow each other keep their clauses together.
const BLOCK: u64 = 32;

/// Hashes the literals of a clause by its first variable and the distances of the others from it. Clauses that
/// come one after another over variables one after another, as those of an integer's order do, so lie side by
/// side in a table, in blocks of 32; by a hash that spreads them, each would wait for a place of its own in memory. The
/// blocks are spread, so that no part of the table gets much more than the others.
#[derive(Clone, Copy)]
pub struct ClauseHasher {
    first: u64,
    rest: u64,
}

impl Default for ClauseHasher {
    ghost is_default = { λ h. h ≡ no_literal };

    fn default() -> ClauseHasher {
        ClauseHasher { first: 0, rest: 0 }
    }
}

fn word(bytes: &[u8]) -> u64
    requires { 4 ≤ length bytes.now }
    ensures { result ≡ word bytes.now }
{
    u64::from(bytes[0])
        + 256 * (u64::from(bytes[1]) + 256 * (u64::from(bytes[2]) + 256 * u64::from(bytes[3])))
}

fn mixed(rest: u64, number: u64) -> u64
    ensures { result ≡ mixed rest number }
{
    rest.wrapping_add(number).wrapping_mul(MULTIPLIER)
}

fn with_variable(hasher: ClauseHasher, variable: u64) -> ClauseHasher
    ensures { result ≡ with_variable hasher variable }
{
    if hasher.first == 0 {
        return ClauseHasher {
            first: variable,
            rest: hasher.rest,
        };
    }
    let distance = variable.wrapping_sub(hasher.first);
    ClauseHasher {
        first: hasher.first,
        rest: mixed(hasher.rest, distance),
    }
}

impl Hasher for ClauseHasher {
    ghost write = { clause_write };

    ghost finish = { clause_hash };

    fn finish(&self) -> u64 {
        let both = self.first.wrapping_mul(MULTIPLIER).wrapping_add(self.rest);
        let block = mixed(self.rest, self.first / BLOCK) / (1 << 40);
        let place = (block + self.first % BLOCK) % (1 << 24);
        both / (1 << 56) * (1 << 24) + place
    }

    fn write(&mut self, bytes: &[u8]) {
        if bytes.len() == 4 {
            *self = with_variable(*self, word(bytes));
        } else if bytes.len() == 1 {
            self.rest = mixed(self.rest, u64::from(bytes[0]));
        }
    }
}
