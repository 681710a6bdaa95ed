//! The lines of a text whose last line may lack its line feed.

ghost use Rattle.std.specs.Prelude.{◌≡◌, ◌++◌, ◌∷◌, [], ◌<◌, ◌+◌, ◌^◌, IfOk, MatchOption};
ghost use Rattle.bee_text.specs.Lines.{IsLine};
ghost use Rattle.line_texts.specs.Ends.{EndsAs};
ghost use Rattle.sat_front.specs.Closed.{closed, IsEndBehind};

use bee_text::Lines;
use line_texts::{LineTaken, LineTaker, TextEnd};
use std::alloc::{AllocError, Global};

/// The first line of a text and what stands behind it, none where the text is empty. Bytes behind the last line feed
/// are a line, too. It looks at each byte of the line once.
pub fn cut_line(text: &[u8]) -> Option<(&[u8], &[u8])>
    ensures { MatchOption result (closed text.now ≡ [])
        (λ cut. IsLine cut.0.now × (closed text.now ≡ cut.0.now ++ 10 ∷ closed cut.1.now)) }
{
    let mut lines = Lines::new(text);
    match lines.next_line() {
        Some(line) => Some((line.bytes, lines.rest())),
        None => {
            if text.is_empty() {
                None
            } else {
                let nothing: &[u8] = b"";
                Some((text, nothing))
            }
        }
    }
}

/// The end of a text behind so many lines, all of which were taken.
fn end_behind<T: LineTaker>(taker: &T, read: u64) -> TextEnd<T::Cause>
    requires { read + 1 < 2 ^ 64 }
    ensures { IsEndBehind T.ended taker.now read result }
{
    if taker.is_ended() {
        TextEnd::Whole
    } else {
        TextEnd::Missing(read + 1)
    }
}

/// Takes the lines of a text, to its end or to the first that isn't the next. It looks at each byte once, beside what
/// the lines' taker does.
pub(crate) fn read_open_lines<T: LineTaker>(
    alloc: Global,
    text: &[u8],
    against: &T::Against,
    taker: &mut T,
) -> Result<TextEnd<T::Cause>, AllocError>
    ensures { IfOk result
        (EndsAs (T.next against.now) T.ended (T.because against.now) taker.old (closed text.now) taker.new) }
{
    let mut rest = text;
    let mut read: u64 = 0;
    while let Some((line, behind)) = cut_line(rest) {
        read += 1;
        match taker.take_line(alloc, against, line)? {
            LineTaken::Next => {}
            LineTaken::Misfit(cause) => return Ok(TextEnd::Misfit(read, cause)),
        }
        rest = behind;
    }
    Ok(end_behind::<T>(taker, read))
}
