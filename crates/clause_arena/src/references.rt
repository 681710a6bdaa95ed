//! References are added, none of which is in use.

ghost use Rattle.std.specs.Prelude.{◌≡◌, ◌+◌, ◌^◌, ◌<◌, ◌≤◌, ◌++◌, length, replicate, OnOk};
ghost use Rattle.std.specs.Prelude.{OnErr, vec_len, vec_capacity, false};
ghost use Rattle.std.specs.List.{range_with_len};
ghost use Rattle.index_ring.specs.Lists.{IsRings, IsFree, list_of, pushed_back, unlinked};
ghost use Rattle.clause_arena.specs.Codes.{no_span};
ghost use Rattle.clause_arena.specs.References.{AreAdded, AreListed};

use crate::codes::Span;
use index_ring::Rings;
use std::alloc::AllocError;

/// The number of references stays below this one.
pub const MOST_REFERENCES: usize = (1 << 31) - 2;

/// Makes room for so many numbers of literals. Where they would reach 2^32, it is as if memory were wanting.
pub fn make_room(codes: &mut Vec<u32>, literals: usize) -> Result<(), AllocError>
    ensures codes { codes.new.items ≡ codes.old.items }
    ensures small { OnOk result (vec_len codes.old + literals < 2 ^ 32) }
    ensures room { OnOk result (vec_len codes.old + literals ≤ vec_capacity codes.new) }
    ensures capacity { vec_capacity codes.old ≤ vec_capacity codes.new }
{
    if literals > u32::MAX as usize || codes.len() > u32::MAX as usize - literals {
        return Err(AllocError);
    }
    codes.reserve(literals)
}

/// Makes a reference the last one of another ring, or of its own.
pub fn hand_over(order: &mut Rings, c: u32, ring: u32)
    requires two { length order.old.lists ≡ 2 }
    requires ring { ring < 2 }
    requires node { c < order.old.nodes }
    requires stands { ¬ IsFree order.old c }
    ensures order { order.new ≡ pushed_back (unlinked order.old c) ring c }
    ensures rings { IsRings order.new }
{
    order.unlink(c);
    order.push_back(ring, c);
}

/// Adds spans of no literal.
fn push_spans(spans: &mut Vec<Span>, more: u32)
    requires { vec_len spans.old + more ≤ vec_capacity spans.old }
    ensures { spans.new.items ≡ spans.old.items ++ replicate more no_span }
{
    for k in 0..more {
        prove!(k < more);
        spans.push(Span { start: 0, len: 0 }).unwrap();
    }
}

/// Adds ids of no clause.
fn push_ids(ids: &mut Vec<u64>, more: u32)
    requires { vec_len ids.old + more ≤ vec_capacity ids.old }
    ensures { ids.new.items ≡ ids.old.items ++ replicate more 0 }
{
    for k in 0..more {
        prove!(k < more);
        ids.push(0).unwrap();
    }
}

/// Adds marks of references that are not in use.
fn push_marks(marks: &mut Vec<bool>, more: u32)
    requires { vec_len marks.old + more ≤ vec_capacity marks.old }
    ensures { marks.new.items ≡ marks.old.items ++ replicate more false }
{
    for k in 0..more {
        prove!(k < more);
        marks.push(false).unwrap();
    }
}

/// Makes nodes that are free the last ones of ring 1, from one on.
fn list_all(order: &mut Rings, first: u32, more: u32)
    requires rings { IsRings order.old }
    requires two { length order.old.lists ≡ 2 }
    requires nodes { order.old.nodes ≡ first + more }
    requires free { AreListed order.old first }
    ensures list { list_of order.new 1 ≡ list_of order.old 1 ++ range_with_len first more }
    ensures others { list_of order.new 0 ≡ list_of order.old 0 }
    ensures two { length order.new.lists ≡ 2 }
    ensures nodes { order.new.nodes ≡ order.old.nodes }
    ensures listed { AreListed order.new (first + more) }
    ensures rings { IsRings order.new }
{
    for k in 0..more {
        order.push_back(1, first + k);
    }
}

/// Adds references that are not in use. It takes all the memory first.
pub fn add_references(
    order: &mut Rings,
    spans: &mut Vec<Span>,
    ids: &mut Vec<u64>,
    marks: &mut Vec<bool>,
    more: u32,
) -> Result<(), AllocError>
    requires rings { IsRings order.old }
    requires two { length order.old.lists ≡ 2 }
    requires listed { AreListed order.old order.old.nodes }
    requires few { (order.old.nodes + more) + 2 < 2 ^ 31 }
    ensures added { OnOk result (AreAdded order.old spans.old.items ids.old.items
        order.new spans.new.items ids.new.items more) }
    ensures marked { OnOk result (marks.new.items ≡ marks.old.items ++ replicate more false) }
    ensures order { OnErr result (order.new ≡ order.old) }
    ensures spans { OnErr result (spans.new.items ≡ spans.old.items) }
    ensures ids { OnErr result (ids.new.items ≡ ids.old.items) }
    ensures marks { OnErr result (marks.new.items ≡ marks.old.items) }
{
    spans.reserve(more as usize)?;
    ids.reserve(more as usize)?;
    marks.reserve(more as usize)?;
    let first = order.nodes();
    order.grow(0, more)?;
    push_spans(spans, more);
    push_ids(ids, more);
    push_marks(marks, more);
    list_all(order, first, more);
    Ok(())
}
