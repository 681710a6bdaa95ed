//! The text that tells which line of a text fails.

ghost use Rattle.std.specs.Prelude.{◌≡◌, IfOk};
ghost use Rattle.text_modes.specs.Refusal.{refusal_text};

use bee_text::{end_line, push_bytes, push_number};
use std::alloc::{AllocError, Global};

/// The line that tells which line of a text is the first that fails, counted from 1: `REFUSED` and its number.
pub fn refusal(alloc: Global, line: u64) -> Result<Vec<u8>, AllocError>
    ensures { IfOk result (λ text. text.items ≡ refusal_text line) }
{
    let mut out = Vec::new(alloc);
    push_bytes(&mut out, b"REFUSED ")?;
    push_number(&mut out, u128::from(line))?;
    end_line(&mut out)?;
    Ok(out)
}
