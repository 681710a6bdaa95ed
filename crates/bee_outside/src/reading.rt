//! Reading a whole text.

ghost use Rattle.std.specs.Prelude.{◌≡◌, ◌≢◌, ℕ, ◌≤◌, ◌<◌, ◌+◌, ◌++◌, List, take};
ghost use Rattle.std.specs.Prelude.{length, vec_len, IfOk, OnErr, IfSome, IsSomeAnd, IsTrue, IsFalse};
ghost use Rattle.bee_outside.specs.Faults.{read_count, UnlessFailed};
ghost use Rattle.bee_outside.specs.Bytes.{in_front, NothingLeft, TookPiece};
ghost use Rattle.bee_outside.specs.ReadText.{text_of, is_whole};

use crate::shelf::Shelf;
use std::alloc::{AllocError, Global};

/// How many bytes one call asks for at most.
const PIECE: usize = 65_536;

/// What was read under a name.
#[derive(Drop)]
pub enum ReadText {
    /// All that was left: its end was seen.
    Whole(Vec<u8>),
    /// So many bytes as the limit allows. Whether more are left was not asked.
    Cut(Vec<u8>),
}

/// Why nothing could be read.
#[derive(Clone, Copy, Debug, PartialEq, Eq)]
pub enum ShelfFault {
    /// Memory is wanting.
    Memory,
    /// A call to the shelf failed.
    Failed,
}

/// Reads what is left under a name, to its end, or until it has so many bytes as `limit` says. No more
/// than these are asked for: where the limit is reached, the end is not looked for. Each turn takes at
/// least one byte, so a text without end comes to its limit, or to want of memory.
pub fn read_all<S: Shelf>(
    alloc: Global,
    shelf: &mut S,
    name: &str,
    limit: Option<usize>,
) -> Result<ReadText, ShelfFault>
    ensures no_count_falls { (other : List ℕ) → S.faults shelf.old other ≤ S.faults shelf.new other }
    ensures others_stay { (other : List ℕ) → other ≢ name.now →
        S.left shelf.new other ≡ S.left shelf.old other }

    // What was read is the front of what was left: all of it, or as far as the limit.
    ensures text { IfOk result (λ read.
        S.left shelf.old name.now ≡ in_front (text_of read) (S.left shelf.new name.now)) }
    ensures whole { IfOk result (λ read. IsTrue (is_whole read) →
        NothingLeft (S.left shelf.new name.now)) }
    ensures whole_within { IfOk result (λ read. IsTrue (is_whole read) →
        IfSome limit (λ n. length (text_of read) < n)) }
    ensures cut_at_limit { IfOk result (λ read. IsFalse (is_whole read) →
        IsSomeAnd limit (λ n. length (text_of read) ≡ n)) }

    // A fault may come after some bytes were taken.
    ensures fault_took_front { OnErr result
        (TookPiece (S.left shelf.old name.now) (S.left shelf.new name.now) limit) }

    // A fault ends it: no call follows one that failed.
    ensures counts_faults { S.faults shelf.new name.now ≡ read_count result (S.faults shelf.old name.now) }
    ensures counts_nothing_else { UnlessFailed result ((other : List ℕ) →
        S.faults shelf.new other ≡ S.faults shelf.old other) }
{
    let mut text = Vec::new(alloc);
    let mut buffer = match zeroed(alloc, PIECE) {
        Ok(buffer) => buffer,
        Err(_) => return Err(ShelfFault::Memory),
    };
    let buffer = buffer.as_mut_slice();
    loop {
        let room = room_left(limit, text.len());
        if room == 0 {
            return Ok(ReadText::Cut(text));
        }
        match read_piece(shelf, name, &mut buffer[..room], &mut text) {
            Ok(0) => return Ok(ReadText::Whole(text)),
            Ok(_) => {}
            Err(fault) => return Err(fault),
        }
    }
}

/// So many zeros.
fn zeroed(alloc: Global, count: usize) -> Result<Vec<u8>, AllocError>
    ensures { IfOk result (λ zeros. vec_len zeros ≡ count) }
{
    vec![in alloc; 0u8; count]
}

/// How many bytes may be asked for at once where `taken` were read.
fn room_left(limit: Option<usize>, taken: usize) -> usize
    requires { IfSome limit (λ n. taken ≤ n) }
    ensures piece { result ≤ PIECE }
    ensures within { IfSome limit (λ n. taken + result ≤ n) }
    ensures none_at_limit { result ≡ 0 → limit ≡ Some taken }
{
    match limit {
        Some(most) => PIECE.min(most - taken),
        None => PIECE,
    }
}

/// One turn: asks for so many bytes as fit into `into`, and appends those that came to the text.
fn read_piece<S: Shelf>(
    shelf: &mut S,
    name: &str,
    into: &mut [u8],
    text: &mut Vec<u8>,
) -> Result<usize, ShelfFault>
    requires { 0 < length into.old }
    ensures no_count_falls { (other : List ℕ) → S.faults shelf.old other ≤ S.faults shelf.new other }
    ensures others_stay { (other : List ℕ) → other ≢ name.now →
        S.left shelf.new other ≡ S.left shelf.old other }
    ensures fits { IfOk result (λ k. k ≤ length into.old) }
    ensures moves { IfOk result (λ k.
        S.left shelf.old name.now ≡ in_front (take k into.new) (S.left shelf.new name.now)) }
    ensures appends { IfOk result (λ k. text.new.items ≡ text.old.items ++ take k into.new) }
    ensures end { IfOk result (λ k. k ≡ 0 → NothingLeft (S.left shelf.new name.now)) }
    ensures fault_took_front { OnErr result (TookPiece (S.left shelf.old name.now)
        (S.left shelf.new name.now) (Some (length into.old))) }
    ensures counts_faults { S.faults shelf.new name.now ≡ read_count result (S.faults shelf.old name.now) }
    ensures counts_nothing_else { UnlessFailed result ((other : List ℕ) →
        S.faults shelf.new other ≡ S.faults shelf.old other) }
{
    let taken = match shelf.next(name, into) {
        Ok(taken) => taken,
        Err(_) => return Err(ShelfFault::Failed),
    };
    match text.extend_from_slice(&into[..taken]) {
        Ok(()) => Ok(taken),
        Err(_) => Err(ShelfFault::Memory),
    }
}
