//! Reading the text of proof lines.
//!
//! A text of many lines is read into the same room line by line, so that a line takes no memory once the longest
//! one was read.

ghost use Rattle.std.specs.Prelude.{◌≡◌, ◌<◌, ◌^◌, ◌⊎◌, ◌↔◌, ◌∷◌, ◌++◌, List, ℕ};
ghost use Rattle.std.specs.Prelude.{ℤ, [], Some, codes, slice_index_or, IsTrue, IfSome, IfNone, OnOk, IfOk, IfErr};
ghost use Rattle.std.specs.Prelude.{MatchResult};
ghost use Rattle.bee_text.specs.Words.{split_blanks};
ghost use Rattle.std.specs.Fmt.{decimal, signed_decimal};
ghost use Rattle.order_ints.specs.declared.literal.Lit.{Lit};
ghost use Rattle.proof_check.specs.declared.line.ProofLine.{ProofLine};
ghost use Rattle.proof_check.specs.declared.fault.ProofTextFault.TheVariants.{Form, Memory};
ghost use Rattle.proof_check.specs.Lines.{literal_word, list_words, line_words, Each, IsReadableLit, IsReadableId};
ghost use Rattle.proof_check.specs.Lines.{IsReadableHint, IsReadable, AreBytesOf, IsTextOf};
ghost use Rattle.proof_check.specs.Room.{line_in};

use crate::fault::ProofTextFault;
use crate::line::ProofLine;
use crate::spelling::{read_count, read_hint, read_id, read_literal};
use bee_list::Sequence;
use bee_text::{Words, is, split_words};
use order_ints::Lit;
use std::alloc::Global;

/// What a line is whose lists were read into room.
#[derive(Clone, Copy, Debug, PartialEq, Eq)]
pub enum LineHead {
    /// An addition with this id.
    Addition(u64),
    /// A deletion that begins with this number.
    Deletion(u64),
}

/// Room for the lists of a line, which is used again for each line.
#[derive(Drop)]
pub struct LineRoom {
    /// The literals of an addition.
    pub lits: Vec<Lit>,
    /// Its hints.
    pub hints: Vec<i64>,
    /// The ids of a deletion.
    pub ids: Vec<u64>,
}

/// Reads literals up to 0.
fn read_literals(words: &mut Words<'_>, out: &mut Vec<Lit>) -> Result<(), ProofTextFault>
    ensures read { OnOk result ((words.old ≡ list_words literal_word out.new.items words.new)
        × Each IsReadableLit out.new.items) }
    ensures complete { (ls : List Lit) (rest : List (List ℕ)) → Each IsReadableLit ls
        → words.old ≡ list_words literal_word ls rest
        → MatchResult result (λ _. (out.new.items ≡ ls) × (words.new ≡ rest)) (λ e. e ≡ Memory) }
    ensures fault { IfErr result (λ e. (e ≡ Form 1) ⊎ (e ≡ Memory)) }
{
    out.clear();
    loop {
        match words.next_word() {
            None => return Err(ProofTextFault::Form(1)),
            Some(word) => {
                if is(word, b"0") {
                    return Ok(());
                }
                match read_literal(word) {
                    None => return Err(ProofTextFault::Form(1)),
                    Some(lit) => out.push(lit)?,
                }
            }
        }
    }
}

/// Reads hints up to 0.
fn read_hints(words: &mut Words<'_>, out: &mut Vec<i64>) -> Result<(), ProofTextFault>
    ensures read { OnOk result ((words.old ≡ list_words signed_decimal out.new.items words.new)
        × Each IsReadableHint out.new.items) }
    ensures complete { (hs : List ℤ) (rest : List (List ℕ)) → Each IsReadableHint hs
        → words.old ≡ list_words signed_decimal hs rest
        → MatchResult result (λ _. (out.new.items ≡ hs) × (words.new ≡ rest)) (λ e. e ≡ Memory) }
    ensures fault { IfErr result (λ e. (e ≡ Form 1) ⊎ (e ≡ Memory)) }
{
    out.clear();
    loop {
        match words.next_word() {
            None => return Err(ProofTextFault::Form(1)),
            Some(word) => {
                if is(word, b"0") {
                    return Ok(());
                }
                match read_hint(word) {
                    None => return Err(ProofTextFault::Form(1)),
                    Some(hint) => out.push(hint)?,
                }
            }
        }
    }
}

/// Reads ids up to 0.
fn read_ids(words: &mut Words<'_>, out: &mut Vec<u64>) -> Result<(), ProofTextFault>
    ensures read { OnOk result ((words.old ≡ list_words decimal out.new.items words.new)
        × Each IsReadableId out.new.items) }
    ensures complete { (is : List ℕ) (rest : List (List ℕ)) → Each IsReadableId is
        → words.old ≡ list_words decimal is rest
        → MatchResult result (λ _. (out.new.items ≡ is) × (words.new ≡ rest)) (λ e. e ≡ Memory) }
    ensures fault { IfErr result (λ e. (e ≡ Form 1) ⊎ (e ≡ Memory)) }
{
    out.clear();
    loop {
        match words.next_word() {
            None => return Err(ProofTextFault::Form(1)),
            Some(word) => {
                if is(word, b"0") {
                    return Ok(());
                }
                match read_id(word) {
                    None => return Err(ProofTextFault::Form(1)),
                    Some(id) => out.push(id)?,
                }
            }
        }
    }
}

/// Reads what stands behind the id of an addition.
fn read_addition(words: &mut Words<'_>, room: &mut LineRoom) -> Result<(), ProofTextFault>
    ensures read { OnOk result
        ((words.old ≡ list_words literal_word room.new.lits.items (list_words signed_decimal room.new.hints.items []))
        × Each IsReadableLit room.new.lits.items × Each IsReadableHint room.new.hints.items) }
    ensures complete { (ls : List Lit) (hs : List ℤ) → Each IsReadableLit ls → Each IsReadableHint hs
        → words.old ≡ list_words literal_word ls (list_words signed_decimal hs [])
        → MatchResult result (λ _. (room.new.lits.items ≡ ls)
        × (room.new.hints.items ≡ hs)) (λ e. e ≡ Memory) }
    ensures fault { IfErr result (λ e. (e ≡ Form 1) ⊎ (e ≡ Memory)) }
{
    match read_literals(words, &mut room.lits) {
        Err(e) => return Err(e),
        Ok(()) => {}
    }
    match read_hints(words, &mut room.hints) {
        Err(e) => return Err(e),
        Ok(()) => {}
    }
    match words.next_word() {
        None => Ok(()),
        Some(_) => Err(ProofTextFault::Form(1)),
    }
}

/// Reads what stands behind the mark of a deletion.
fn read_deletion(words: &mut Words<'_>, ids: &mut Vec<u64>) -> Result<(), ProofTextFault>
    ensures read { OnOk result ((words.old ≡ list_words decimal ids.new.items [])
        × Each IsReadableId ids.new.items) }
    ensures complete { (is : List ℕ) → Each IsReadableId is → words.old ≡ list_words decimal is []
        → MatchResult result (λ _. ids.new.items ≡ is) (λ e. e ≡ Memory) }
    ensures fault { IfErr result (λ e. (e ≡ Form 1) ⊎ (e ≡ Memory)) }
{
    match read_ids(words, ids) {
        Err(e) => return Err(e),
        Ok(()) => {}
    }
    match words.next_word() {
        None => Ok(()),
        Some(_) => Err(ProofTextFault::Form(1)),
    }
}

/// Whether the second word marks a deletion.
fn is_deletion(bytes: &[u8]) -> bool
    ensures { IsTrue result ↔ (slice_index_or (split_blanks bytes.now) 1 [] ≡ codes "d") }
{
    let mut words = split_words(bytes);
    match words.next_word() {
        None => false,
        Some(_) => match words.next_word() {
            None => false,
            Some(word) => is(word, b"d"),
        },
    }
}

/// The number that the next word spells.
fn next_count(words: &mut Words<'_>) -> Option<u64>
    ensures read { IfSome result (λ n. (words.old ≡ decimal n ∷ words.new) × (n < 2 ^ 64)) }
    ensures complete { (n : ℕ) (rest : List (List ℕ)) → n < 2 ^ 64 → words.old ≡ decimal n ∷ rest
        → (result ≡ Some n) × (words.new ≡ rest) }
{
    match words.next_word() {
        None => None,
        Some(word) => match read_count(word) {
            None => None,
            Some(n) => Some(n),
        },
    }
}

/// Reads the words of a line.
fn read_words(
    words: &mut Words<'_>,
    deletion: bool,
    room: &mut LineRoom,
) -> Result<LineHead, ProofTextFault>
    requires { IsTrue deletion ↔ (slice_index_or words.old 1 [] ≡ codes "d") }
    ensures read { IfOk result (λ head. (words.old ≡ line_words (line_in head room.new))
        × IsReadable (line_in head room.new)) }
    ensures complete { (line : ProofLine) → IsReadable line → words.old ≡ line_words line
        → MatchResult result (λ head. line_in head room.new ≡ line) (λ e. e ≡ Memory) }
    ensures fault { IfErr result (λ e. (e ≡ Form 1) ⊎ (e ≡ Memory)) }
{
    let Some(id) = next_count(words) else {
        return Err(ProofTextFault::Form(1));
    };
    if deletion {
        match words.next_word() {
            None => Err(ProofTextFault::Form(1)),
            Some(_) => match read_deletion(words, &mut room.ids) {
                Err(e) => Err(e),
                Ok(()) => Ok(LineHead::Deletion(id)),
            },
        }
    } else if id == 0 {
        Err(ProofTextFault::Form(1))
    } else {
        match read_addition(words, room) {
            Err(e) => Err(e),
            Ok(()) => Ok(LineHead::Addition(id)),
        }
    }
}

impl LineRoom {
    /// Room for no line yet.
    pub fn new(alloc: Global) -> LineRoom {
        LineRoom {
            lits: Vec::new(alloc),
            hints: Vec::new(alloc),
            ids: Vec::new(alloc),
        }
    }

    /// Reads a line without its line feed, and says what it is; its lists are then here, in place of what was before.
    /// It passes over each byte a few times.
    pub fn read_bytes(&mut self, bytes: &[u8]) -> Result<LineHead, ProofTextFault>
        ensures read { IfOk result (λ head. AreBytesOf (line_in head self.new) bytes.now) }
        ensures complete { (line : ProofLine) → AreBytesOf line bytes.now
            → MatchResult result (λ head. line_in head self.new ≡ line) (λ e. e ≡ Memory) }
        ensures fault { IfErr result (λ e. (e ≡ Form 1) ⊎ (e ≡ Memory)) }
    {
        let deletion = is_deletion(bytes);
        let mut words = split_words(bytes);
        match read_words(&mut words, deletion, self) {
            Err(e) => Err(e),
            Ok(head) => Ok(head),
        }
    }

    /// Reads a line with its line feed.
    pub fn read_text(&mut self, text: &[u8]) -> Result<LineHead, ProofTextFault>
        ensures read { IfOk result (λ head. IsTextOf (line_in head self.new) text.now) }
        ensures complete { (line : ProofLine) → IsTextOf line text.now
            → MatchResult result (λ head. line_in head self.new ≡ line) (λ e. e ≡ Memory) }
        ensures fault { IfErr result (λ e. (e ≡ Form 1) ⊎ (e ≡ Memory)) }
    {
        match without_line_feed(text) {
            None => Err(ProofTextFault::Form(1)),
            Some(bytes) => match self.read_bytes(bytes) {
                Err(e) => Err(e),
                Ok(head) => Ok(head),
            },
        }
    }
}

/// What stands before the line feed at a text's end.
fn without_line_feed(text: &[u8]) -> Option<&[u8]>
    ensures cut { IfSome result (λ bytes. text.now ≡ bytes.now ++ 10 ∷ []) }
    ensures complete { IfNone result ((bytes : List ℕ) → text.now ≡ bytes ++ 10 ∷ [] → ⊥) }
{
    let count = text.len();
    if count == 0 {
        return None;
    }
    if text[count - 1] == b'\n' {
        Some(&text[..count - 1])
    } else {
        None
    }
}

/// The line whose text, with its line feed, the bytes are.
pub fn read_line(alloc: Global, text: &[u8]) -> Result<ProofLine, ProofTextFault>
    ensures read { IfOk result (λ line. IsTextOf line text.now) }
    ensures complete { (line : ProofLine) → IsTextOf line text.now
        → MatchResult result (λ l. l ≡ line) (λ e. e ≡ Memory) }
    ensures fault { IfErr result (λ e. (e ≡ Form 1) ⊎ (e ≡ Memory)) }
{
    let mut room = LineRoom::new(alloc);
    match room.read_text(text) {
        Err(e) => Err(e),
        Ok(head) => Ok(line_of(head, room)),
    }
}

/// The line that a head and its room make.
fn line_of(head: LineHead, room: LineRoom) -> ProofLine
    ensures { result ≡ line_in head room }
{
    let LineRoom { lits, hints, ids } = room;
    match head {
        LineHead::Addition(id) => ProofLine::Add {
            id,
            lits: Sequence::from_vec(lits),
            hints: Sequence::from_vec(hints),
        },
        LineHead::Deletion(at) => ProofLine::Delete {
            at,
            ids: Sequence::from_vec(ids),
        },
    }
}
