//! Moves of nodes between rings: a table worked out by hand, random moves compared with plain vectors, and refused
//! memory.

ghost use Rattle.std.specs.Prelude.{◌≡◌, ◌≢◌, ◌+◌, ◌^◌, ◌<◌, ◌≤◌, length, IsTrue};
ghost use Rattle.index_ring.specs.Lists.{IsFree};

use crate::numbers::Numbers;
use index_ring::Rings;
use std::alloc::{AllocError, Global};
use std::process::Abort;

/// What is done to rings.
#[derive(Clone, Copy)]
enum Move {
    Back(u32, u32),
    Front(u32, u32),
    Unlink(u32),
    Splice(u32, u32),
    Grow(u32, u32),
}

/// Whether a node may be pushed to a ring.
fn may_push(rings: &Rings, ring: u32, node: u32) -> bool
    ensures ring { IsTrue result → ring < length rings.now.lists }
    ensures node { IsTrue result → node < rings.now.nodes }
    ensures free { IsTrue result → IsFree rings.now node }
{
    if ring < rings.rings() && node < rings.nodes() {
        rings.is_free(node)
    } else {
        false
    }
}

/// Whether a node stands in a ring.
fn stands(rings: &Rings, node: u32) -> bool
    ensures { IsTrue result → ¬ IsFree rings.now node }
{
    if node < rings.nodes() {
        !rings.is_free(node)
    } else {
        false
    }
}

/// Whether two rings may be spliced.
fn may_splice(rings: &Rings, from: u32, into: u32) -> bool
    ensures from { IsTrue result → from < length rings.now.lists }
    ensures into { IsTrue result → into < length rings.now.lists }
    ensures apart { IsTrue result → from ≢ into }
{
    from < rings.rings() && into < rings.rings() && from != into
}

/// Whether so many rings and nodes may be added.
fn may_grow(rings: &Rings, more_rings: u32, more_nodes: u32) -> bool
    ensures { IsTrue result
        → (length rings.now.lists + more_rings) + (rings.now.nodes + more_nodes) < 2 ^ 31 }
{
    let lists = u64::from(rings.rings()) + u64::from(more_rings);
    lists + (u64::from(rings.nodes()) + u64::from(more_nodes)) < 1 << 31
}

/// Makes a move that may be made.
fn make(rt: &impl Abort, rings: &mut Rings, step: Move) -> Result<(), AllocError> {
    match step {
        Move::Back(ring, node) => {
            assert!(rt; may_push(rings, ring, node));
            rings.push_back(ring, node);
            Ok(())
        }
        Move::Front(ring, node) => {
            assert!(rt; may_push(rings, ring, node));
            rings.push_front(ring, node);
            Ok(())
        }
        Move::Unlink(node) => {
            assert!(rt; stands(rings, node));
            rings.unlink(node);
            Ok(())
        }
        Move::Splice(from, into) => {
            assert!(rt; may_splice(rings, from, into));
            rings.splice(from, into);
            Ok(())
        }
        Move::Grow(more_rings, more_nodes) => {
            assert!(rt; may_grow(rings, more_rings, more_nodes));
            rings.grow(more_rings, more_nodes)
        }
    }
}

/// The first node of a ring.
fn first(rt: &impl Abort, rings: &Rings, ring: u32) -> Option<u32> {
    assert!(rt; ring < rings.rings());
    rings.first(ring)
}

/// The node behind another one.
fn after(rt: &impl Abort, rings: &Rings, node: u32) -> Option<u32> {
    assert!(rt; stands(rings, node));
    rings.after(node)
}

/// The nodes of a ring, as a walk meets them.
fn walk(rt: &impl Abort, alloc: Global, rings: &Rings, ring: u32) -> Result<Vec<u32>, AllocError> {
    let mut met = Vec::new(alloc);
    let mut next = first(rt, rings, ring);
    for _step in 0..rings.nodes() {
        if let Some(node) = next {
            met.push(node)?;
            next = after(rt, rings, node);
        }
    }
    assert_eq!(rt; next, None);
    Ok(met)
}

/// The digits of the nodes of each ring, with a bar behind each ring.
fn show(rt: &impl Abort, alloc: Global, rings: &Rings) -> Result<Vec<u8>, AllocError> {
    let mut text = Vec::new(alloc);
    for ring in 0..rings.rings() {
        for node in walk(rt, alloc, rings, ring)? {
            text.push(b'0' + u8::try_from(node).unwrap_or(0).min(9))?;
        }
        text.push(b'|')?;
    }
    Ok(text)
}

/// Moves, and the lists behind each.
static MOVES: [(Move, &str); 25] = [
    (Move::Back(0, 3), "3|||"),
    (Move::Back(0, 1), "31|||"),
    (Move::Front(0, 4), "431|||"),
    (Move::Front(2, 0), "431||0|"),
    // The node in the middle, then the first, then the last.
    (Move::Unlink(3), "41||0|"),
    (Move::Back(1, 3), "41|3|0|"),
    (Move::Unlink(4), "1|3|0|"),
    (Move::Front(1, 4), "1|43|0|"),
    (Move::Unlink(3), "1|4|0|"),
    (Move::Back(1, 2), "1|42|0|"),
    // A ring of two behind one of one; an empty one behind it, and it behind an empty one.
    (Move::Splice(1, 0), "142||0|"),
    (Move::Splice(1, 0), "142||0|"),
    (Move::Splice(0, 1), "|142|0|"),
    (Move::Splice(2, 1), "|1420||"),
    (Move::Unlink(0), "|142||"),
    (Move::Grow(1, 2), "|142|||"),
    (Move::Back(3, 6), "|142||6|"),
    (Move::Front(3, 0), "|142||06|"),
    (Move::Back(3, 5), "|142||065|"),
    (Move::Grow(0, 1), "|142||065|"),
    (Move::Splice(3, 1), "|142065|||"),
    (Move::Back(1, 7), "|1420657|||"),
    (Move::Unlink(2), "|140657|||"),
    (Move::Grow(1, 0), "|140657||||"),
    (Move::Splice(1, 4), "||||140657|"),
];

/// Makes moves, and asserts the lists behind each.
fn make_all(
    rt: &impl Abort,
    alloc: Global,
    rings: &mut Rings,
    rows: &[(Move, &str)],
) -> Result<(), AllocError> {
    for (step, lists) in rows {
        make(rt, rings, *step)?;
        let found = show(rt, alloc, rings)?;
        assert_eq!(rt; found.as_slice(), lists.as_bytes(), "{lists}");
    }
    Ok(())
}

#[test]
fn moves_by_hand(rt: HostRuntime) -> Result<(), AllocError> {
    let mut rings = Rings::with(rt.alloc(), 3, 5)?;
    make_all(&rt, rt.alloc(), &mut rings, &MOVES)
}

/// Asserts that rings have these lists. It takes no memory.
fn compare(rt: &impl Abort, rings: &Rings, lists: &[&[u32]]) {
    assert_eq!(rt; rings.rings() as usize, lists.len());
    for (ring, list) in (0..).zip(lists) {
        let mut next = first(rt, rings, ring);
        for node in *list {
            assert_eq!(rt; next, Some(*node));
            next = after(rt, rings, *node);
        }
        assert_eq!(rt; next, None);
    }
}

/// Two rings over three nodes. Where memory is refused they are asked for again.
fn small(alloc: Global) -> Result<Rings, AllocError> {
    match Rings::with(alloc, 2, 3) {
        Ok(rings) => Ok(rings),
        Err(_) => Rings::with(alloc, 2, 3),
    }
}

/// Moves two nodes, and adds many rings and nodes, again where that is refused.
fn grow_twice(rt: &impl Abort, rings: &mut Rings) -> Result<(), AllocError> {
    make(rt, rings, Move::Back(1, 2))?;
    make(rt, rings, Move::Back(1, 0))?;
    if make(rt, rings, Move::Grow(100, 1_000)).is_err() {
        assert_eq!(rt; rings.nodes(), 3);
        assert!(rt; !stands(rings, 1));
        compare(rt, rings, &[&[], &[2, 0]]);
        make(rt, rings, Move::Grow(100, 1_000))?;
    }
    Ok(())
}

// `rt try --test --fail-alloc N` refuses the Nth allocation: one of the two of `with`, or one of the two of `grow`.
// What is refused is asked for again.
#[test]
fn growth_is_refused(rt: HostRuntime) -> Result<(), AllocError> {
    let mut rings = small(rt.alloc())?;
    grow_twice(&rt, &mut rings)?;
    assert_eq!(rt; (rings.rings(), rings.nodes()), (102, 1_003));
    Ok(())
}

/// A move in no order that may be made: of a free node to a ring, or of a node that stands in one.
fn random_move(numbers: &mut Numbers, rings: &Rings) -> Move {
    let ring = numbers.below(8);
    let node = numbers.below(40);
    if !stands(rings, node) {
        if numbers.below(2) == 0 {
            Move::Back(ring, node)
        } else {
            Move::Front(ring, node)
        }
    } else if numbers.below(8) == 0 {
        Move::Splice(ring, (ring + 1) % 8)
    } else {
        Move::Unlink(node)
    }
}

/// Puts one list behind another, and leaves it empty.
fn splice_plain(
    alloc: Global,
    lists: &mut [Vec<u32>],
    from: u32,
    into: u32,
) -> Result<(), AllocError> {
    let mut moved = Vec::new(alloc);
    if let Some(list) = lists.get_mut(from as usize) {
        moved.extend_from_slice(list.as_slice())?;
        list.clear();
    }
    if let Some(list) = lists.get_mut(into as usize) {
        list.extend_from_slice(moved.as_slice())?;
    }
    Ok(())
}

/// Makes a move of plain lists.
fn make_plain(alloc: Global, lists: &mut [Vec<u32>], step: Move) -> Result<(), AllocError> {
    match step {
        Move::Back(ring, node) => {
            if let Some(list) = lists.get_mut(ring as usize) {
                list.push(node)?;
            }
        }
        Move::Front(ring, node) => {
            if let Some(list) = lists.get_mut(ring as usize) {
                list.insert(0, node)?;
            }
        }
        Move::Unlink(node) => {
            for list in lists.iter_mut() {
                list.retain(|other| *other != node);
            }
        }
        Move::Splice(from, into) => splice_plain(alloc, lists, from, into)?,
        Move::Grow(_, _) => {}
    }
    Ok(())
}

/// So many empty lists.
fn empty_lists(alloc: Global, count: u32) -> Result<Vec<Vec<u32>>, AllocError> {
    let mut lists = Vec::new(alloc);
    for _ in 0..count {
        lists.push(Vec::new(alloc))?;
    }
    Ok(lists)
}

/// Asserts that a walk of a ring meets a list.
fn compare_ring(
    rt: &impl Abort,
    alloc: Global,
    rings: &Rings,
    place: usize,
    list: &[u32],
) -> Result<(), AllocError> {
    let ring = u32::try_from(place).unwrap_or(0);
    let found = walk(rt, alloc, rings, ring)?;
    assert_eq!(rt; found.as_slice(), list);
    Ok(())
}

/// Makes a move in no order, of rings and of plain lists, and compares both.
fn make_both(
    rt: &impl Abort,
    alloc: Global,
    numbers: &mut Numbers,
    rings: &mut Rings,
    lists: &mut [Vec<u32>],
) -> Result<(), AllocError> {
    let step = random_move(numbers, rings);
    make(rt, rings, step)?;
    make_plain(alloc, lists, step)?;
    for (place, list) in lists.iter().enumerate() {
        compare_ring(rt, alloc, rings, place, list)?;
    }
    Ok(())
}

/// Makes so many moves.
fn make_many(rt: &impl Abort, alloc: Global, count: u32) -> Result<(), AllocError> {
    let mut rings = Rings::with(alloc, 8, 40)?;
    let mut lists = empty_lists(alloc, 8)?;
    let mut numbers = Numbers::from(1);
    for _ in 0..count {
        make_both(rt, alloc, &mut numbers, &mut rings, &mut lists)?;
    }
    Ok(())
}

#[test]
fn random_moves(rt: HostRuntime) -> Result<(), AllocError> {
    make_many(&rt, rt.alloc(), 10_000)
}
