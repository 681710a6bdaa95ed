//! A mode that reads two texts.

ghost use Rattle.std.specs.Prelude.{◌≡◌, ◌<◌, ◌≤◌, ℕ, List, length, None, Some, IfOk, IfSome};
ghost use Rattle.text_modes.specs.Seen.{seen, shelf_shown, sink_shown};
ghost use Rattle.text_modes.specs.Promises.{Writes, TookUnder};
ghost use Rattle.text_modes.specs.TwoTexts.{FirstRead, IsJudged, HoldsSome, GivesBehind, TwoTextRun};

use crate::ends::{End, Outcome};
use crate::whole_text::read_whole;
use bee_outside::{Failed, ReadText, Shelf, ShelfFault, Sink, read_all, write_all};
use std::alloc::{AllocError, Global};

/// A mode that reads two texts, and writes a third one for them. It has four meanings: how many bytes of the first are
/// read at most, so that a text that has so many is too long; what the first one holds; which fault it has; and which
/// text is written for which two, with which outcome.
pub trait TwoTexts {
    ghost use Rattle.std.specs.Prelude.{ℕ, List, Option};
    ghost use Rattle.text_modes.specs.declared.ends.Outcome.{Outcome};
    ghost use Rattle.text_modes.specs.TwoTexts.{Texts};

    /// What the first text holds, as it is kept while the second one is read.
    type Held: Drop;

    /// Why the second text is not read.
    type Fault;

    ghost most: { Self → Option ℕ };

    ghost holds: { Self → List ℕ → Self.Held → Type 0 };

    ghost has_fault: { Self → List ℕ → Self.Fault → Type 0 };

    ghost gives: { Self → Texts → Outcome → List ℕ → Type 0 };

    /// How many bytes of the first text are read at most.
    fn limit(&self) -> Option<usize>
        ensures { result ≡ most self.now };

    /// The fault of a text that has so many bytes; where there is no limit, any.
    fn too_long(&self) -> Self::Fault
        ensures { (n : ℕ) (text : List ℕ) → most self.now ≡ Some n → n ≤ length text
            → has_fault self.now text result };

    /// What the first text holds, or its fault.
    fn judge(
        &self,
        alloc: Global,
        first: &[u8],
    ) -> Result<Result<Self::Held, Self::Fault>, AllocError>
        requires { IfSome (most self.now) (λ n. length first.now < n) }
        ensures { IfOk result (IsJudged (holds self.now first.now) (has_fault self.now first.now)) };

    /// The text that is written for two, with its outcome. What the first text holds is used up.
    fn make(
        &self,
        alloc: Global,
        held: Self::Held,
        second: &[u8],
    ) -> Result<(Outcome, Vec<u8>), AllocError>
        requires { (first : List ℕ) × holds self.now first held }
        ensures { IfOk result
            (λ made. GivesBehind (holds self.now) (gives self.now) held second.now made.0 made.1.items) };
}

/// Reads the first text, judges it, and lets its bytes go.
fn read_first<M: TwoTexts, S: Shelf>(
    alloc: Global,
    mode: &M,
    input: &str,
    shelf: &mut S,
) -> Result<M::Held, End<M::Fault>>
    ensures read { FirstRead input.now (M.most mode.now) (M.holds mode.now) (M.has_fault mode.now)
        (shelf_shown S.left S.faults shelf.old) (shelf_shown S.left S.faults shelf.new) result }
    ensures took { TookUnder input.now (M.most mode.now)
        (shelf_shown S.left S.faults shelf.old) (shelf_shown S.left S.faults shelf.new) }
    ensures no_count_falls { (other : List ℕ) → S.faults shelf.old other ≤ S.faults shelf.new other }
{
    let text = match read_all(alloc, shelf, input, mode.limit()) {
        Ok(ReadText::Whole(text)) => text,
        Ok(ReadText::Cut(_)) => return Err(End::Fault(mode.too_long())),
        Err(ShelfFault::Failed) => return Err(End::Read),
        Err(ShelfFault::Memory) => return Err(End::Memory),
    };
    match mode.judge(alloc, text.as_slice()) {
        Ok(Ok(held)) => Ok(held),
        Ok(Err(fault)) => Err(End::Fault(fault)),
        Err(AllocError) => Err(End::Memory),
    }
}

/// Makes the whole text that is written for two, and then writes it.
fn write_made<M: TwoTexts, O: Sink>(
    alloc: Global,
    mode: &M,
    held: M::Held,
    second: &[u8],
    out: &mut O,
) -> End<M::Fault>
    requires { (first : List ℕ) × M.holds mode.now first held }
    ensures { Writes (GivesBehind (M.holds mode.now) (M.gives mode.now) held second.now) (λ fault. ⊥) result
        (sink_shown O.taken O.flushed O.faults out.old) (sink_shown O.taken O.flushed O.faults out.new) }
{
    match mode.make(alloc, held, second) {
        Ok((outcome, written)) => match write_all(out, written.as_slice()) {
            Ok(()) => End::Wrote(outcome),
            Err(Failed) => End::Write,
        },
        Err(AllocError) => End::Memory,
    }
}

/// Reads the first text and judges it, reads the second one, makes the whole text that is written for them, and then
/// writes that. Where both have one name, the second text is what the reading of the first left: on a shelf that tells
/// its bytes, nothing, if it was read to its end.
pub fn run_two<M: TwoTexts, S: Shelf, O: Sink>(
    alloc: Global,
    mode: &M,
    input: &str,
    second: &str,
    shelf: &mut S,
    out: &mut O,
) -> End<M::Fault>
    ensures { TwoTextRun (M.most mode.now) (HoldsSome (M.holds mode.now)) (M.gives mode.now) (M.has_fault mode.now)
        input.now second.now result
        (seen (shelf_shown S.left S.faults) (sink_shown O.taken O.flushed O.faults) shelf.old shelf.new out.old
        out.new) }
{
    let held = match read_first(alloc, mode, input, shelf) {
        Ok(held) => held,
        Err(end) => return end,
    };
    let text = match read_whole(alloc, shelf, second) {
        Ok(text) => text,
        Err(ShelfFault::Failed) => return End::Read,
        Err(ShelfFault::Memory) => return End::Memory,
    };
    write_made(alloc, mode, held, text.as_slice(), out)
}
