//! What takes the lines of a text.

ghost use Rattle.std.specs.Prelude.{◌↔◌, IfOk, IsTrue};
ghost use Rattle.line_texts.specs.Ends.{IsTaken};

use std::alloc::{AllocError, Global};

/// What comes of a line.
#[derive(Clone, Copy)]
pub enum LineTaken<C> {
    /// It was the next, and is taken.
    Next,
    /// It isn't the next, for this cause.
    Misfit(C),
}

/// What takes the lines of a text, one by one. It has three meanings: which line may stand next and what stands
/// behind it, where a text may end, and for which cause a line isn't the next. A reader of one kind of text writes
/// them as relations over what it has told so far, and gets the loop over the lines, and that a text is whole or has
/// one first line that fails.
pub trait LineTaker {
    ghost use Rattle.std.specs.Prelude.{ℕ, List};

    /// What lines are held against.
    type Against;

    /// Why a line isn't the next.
    type Cause;

    ghost next: { Self.Against → Self → List ℕ → Self → Type 0 };

    ghost ended: { Self → Type 0 };

    ghost because: { Self.Against → Self → List ℕ → Self.Cause → Type 0 };

    /// Takes a line, if it is the next. After one that isn't, and after want of memory, nothing is said of what was
    /// told.
    fn take_line(
        &mut self,
        alloc: Global,
        against: &Self::Against,
        line: &[u8],
    ) -> Result<LineTaken<Self::Cause>, AllocError>
        ensures { IfOk result (IsTaken (next against.now) (because against.now) self.old line.now self.new) };

    /// Whether a text may end here.
    fn is_ended(&self) -> bool
        ensures { IsTrue result ↔ ended self.now };
}
