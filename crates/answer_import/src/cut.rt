//! The lines before a refutation.

ghost use Rattle.std.specs.Prelude.{◌≡◌, ◌+◌, ◌∷◌, ◌++◌, [], false, IfOk, OnOk, MatchBool};
ghost use Rattle.bee_text.specs.Gaps.{words_of};
ghost use Rattle.answer_import.specs.Fronts.{IsKind, IsOther};
ghost use Rattle.answer_import.specs.Cutting.{pushed, Takes, HasCut};

use bee_text::{end_line, next_word, push_bytes};
use sat_front::{cut_line, is_word};
use std::alloc::{AllocError, Global};

/// What a line of a text is.
#[derive(Clone, Copy)]
pub(crate) enum LineKind {
    /// It says nothing.
    Comment,
    /// It tells values.
    Telling,
    /// It is one of a refutation.
    Other,
}

/// What the words of a line make it.
fn kind_of(line: &[u8]) -> LineKind
    ensures { IsKind result (words_of line.now) }
{
    match next_word(line) {
        None => LineKind::Comment,
        Some((first, _)) => {
            if is_word(first, b"c") {
                LineKind::Comment
            } else if is_word(first, b"s") {
                LineKind::Telling
            } else if is_word(first, b"v") {
                LineKind::Telling
            } else {
                LineKind::Other
            }
        }
    }
}

/// The lines before a refutation: their bytes, each line with its line feed, how many they are, and whether one tells
/// values.
#[derive(Drop)]
pub(crate) struct Front {
    pub(crate) text: Vec<u8>,
    pub(crate) lines: u64,
    pub(crate) told: bool,
}

/// A text in two parts.
#[derive(Drop)]
pub(crate) struct Cut<'a> {
    pub(crate) front: Front,
    pub(crate) rest: &'a [u8],
}

impl Front {
    /// No line.
    fn new(alloc: Global) -> Front
        ensures text { result.text.items ≡ [] }
        ensures lines { result.lines ≡ 0 }
        ensures told { result.told ≡ false }
    {
        Front {
            text: Vec::new(alloc),
            lines: 0,
            told: false,
        }
    }

    /// One line more.
    fn push(&mut self, line: &[u8], tells: bool) -> Result<(), AllocError>
        ensures text { OnOk result (self.new.text.items ≡ self.old.text.items ++ line.now ++ 10 ∷ []) }
        ensures lines { OnOk result (self.new.lines ≡ self.old.lines + 1) }
        ensures told { OnOk result (self.new.told ≡ pushed self.old.told tells) }
    {
        let Some(lines) = self.lines.checked_add(1) else {
            return Err(AllocError);
        };
        push_bytes(&mut self.text, line)?;
        end_line(&mut self.text)?;
        self.lines = lines;
        self.told = self.told || tells;
        Ok(())
    }

    /// One line more, unless it is one of a refutation.
    fn take(&mut self, line: &[u8]) -> Result<bool, AllocError>
        ensures { IfOk result (λ taken. MatchBool taken (Takes self.old line.now self.new)
            ((self.new ≡ self.old) × IsOther (words_of line.now))) }
    {
        match kind_of(line) {
            LineKind::Other => Ok(false),
            LineKind::Comment => {
                self.push(line, false)?;
                Ok(true)
            }
            LineKind::Telling => {
                self.push(line, true)?;
                Ok(true)
            }
        }
    }
}

/// The lines before a text's refutation, and what is left.
pub(crate) fn cut_front(alloc: Global, text: &[u8]) -> Result<Cut<'_>, AllocError>
    ensures { IfOk result (λ cut. HasCut text.now cut.front cut.rest.now) }
{
    let mut front = Front::new(alloc);
    let mut rest = text;
    while let Some((line, behind)) = cut_line(rest) {
        if !front.take(line)? {
            return Ok(Cut { front, rest });
        }
        rest = behind;
    }
    Ok(Cut { front, rest })
}
