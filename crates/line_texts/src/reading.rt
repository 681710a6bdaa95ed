//! The loop over the lines of a text.

ghost use Rattle.std.specs.Prelude.{IfOk};
ghost use Rattle.line_texts.specs.Ends.{EndsAs};

use crate::ends::TextEnd;
use crate::taker::{LineTaken, LineTaker};
use bee_text::Lines;
use std::alloc::{AllocError, Global};

/// Takes the lines of a text, to its end or to the first that isn't the next. It looks at each byte once, beside what
/// the lines' taker does.
pub fn read_lines<T: LineTaker>(
    alloc: Global,
    text: &[u8],
    against: &T::Against,
    taker: &mut T,
) -> Result<TextEnd<T::Cause>, AllocError>
    ensures { IfOk result
        (EndsAs (T.next against.now) T.ended (T.because against.now) taker.old text.now taker.new) }
{
    let mut lines = Lines::new(text);
    let mut read: usize = 0;
    while let Some(line) = lines.next_line() {
        match taker.take_line(alloc, against, line.bytes)? {
            LineTaken::Next => {}
            LineTaken::Misfit(cause) => return Ok(TextEnd::Misfit(line.number as u64, cause)),
        }
        read = line.number;
    }
    if lines.rest().is_empty() && taker.is_ended() {
        return Ok(TextEnd::Whole);
    }
    Ok(TextEnd::Missing(read as u64 + 1))
}
