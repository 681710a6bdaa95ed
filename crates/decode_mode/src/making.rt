//! From a compiled text and a SAT solver's answer to the values of its names.

ghost use Rattle.std.specs.Prelude.{IfOk};
ghost use Rattle.dimacs_read.specs.TextLines.{IsReadable};
ghost use Rattle.decode_mode.specs.Decoded.{IsDecoding};

use crate::fault::RefusedValues;
use dimacs_out::{CnfText, write_values};
use dimacs_read::{ValuesTextFault, read_values};
use std::alloc::{AllocError, Global};
use std::cell::Cell;
use text_modes::{Outcome, refusal};

/// What is written for a compiled text and an answer: the lines that tell the values of the names, or the line that
/// tells which line of the answer fails first; what stands against that line is put into the cell.
pub(crate) fn decode_text(
    alloc: Global,
    held: &CnfText,
    answer: &[u8],
    noted: &Cell<Option<RefusedValues>>,
) -> Result<(Outcome, Vec<u8>), AllocError>
    requires { IsReadable held.now }
    ensures { IfOk result (λ d. IsDecoding held.now answer.now d.0 d.1.items) }
{
    match read_values(alloc, answer, &held.cnf) {
        Ok(values) => {
            let text = write_values(alloc, held.entries.as_slice(), values.as_slice())?;
            Ok((Outcome::Done, text))
        }
        Err(ValuesTextFault::Misfit(line)) => {
            noted.set(Some(RefusedValues::Misfit));
            let text = refusal(alloc, line)?;
            Ok((Outcome::Refused(line), text))
        }
        Err(ValuesTextFault::Missing(line)) => {
            noted.set(Some(RefusedValues::Missing));
            let text = refusal(alloc, line)?;
            Ok((Outcome::Refused(line), text))
        }
        Err(ValuesTextFault::Memory) => Err(AllocError),
    }
}
