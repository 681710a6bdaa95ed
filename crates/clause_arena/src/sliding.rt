//! The arena slides down over what clauses that are gone have left.

ghost use Rattle.std.specs.Prelude.{◌≡◌, ℕ, ◌+◌, ◌<◌, ◌≤◌, ◌^◌, length};
ghost use Rattle.index_ring.specs.Lists.{IsRings, list_of};
ghost use Rattle.clause_arena.specs.Layout.{AreLaid};
ghost use Rattle.clause_arena.specs.Sliding.{IsMoved, AreSlid};

use crate::codes::Span;
use index_ring::Rings;

/// Moves so many numbers down.
fn move_down(codes: &mut [u32], from: u32, to: u32, len: u32)
    requires order { to ≤ from }
    requires inside { from + len ≤ length codes.old }
    requires small { length codes.old < 2 ^ 32 }
    ensures { IsMoved codes.old codes.new from to len }
{
    for k in 0..len {
        codes[(to + k) as usize] = codes[(from + k) as usize];
    }
}

/// Moves the literals of each clause, of which there are so many at most, down to those of the one before, and tells
/// how many literals there are.
pub fn slide_down(codes: &mut [u32], spans: &mut [Span], order: &Rings, clauses: u32) -> u32
    requires rings { IsRings order.now }
    requires some { 0 < length order.now.lists }
    requires count { length (list_of order.now 0) ≤ clauses }
    requires inside { order.now.nodes ≤ length spans.old }
    requires small { length codes.old < 2 ^ 32 }
    requires laid { AreLaid spans.old 0 (list_of order.now 0) (length codes.old) }
    ensures slid { AreSlid codes.old spans.old codes.new spans.new (list_of order.now 0) }
    ensures laid { AreLaid spans.new 0 (list_of order.now 0) result }
    ensures within { result ≤ length codes.old }
{
    let mut to = 0;
    let mut next = order.first(0);
    for k in 0..clauses {
        prove!(k < clauses);
        if let Some(c) = next {
            let Span { start, len } = spans[c as usize];
            move_down(codes, start, to, len);
            spans[c as usize].start = to;
            to += len;
            next = order.after(c);
        }
    }
    to
}
