//! Reads a compiled text.

ghost use Rattle.std.specs.Prelude.{ℕ, IfOk, IfErr};
ghost use Rattle.dimacs_out.specs.declared.text.CnfText.{CnfText};
ghost use Rattle.dimacs_read.specs.TextLines.{IsTextOf};
ghost use Rattle.dimacs_read.specs.TextSteps.{TextFails};
ghost use Rattle.dimacs_read.specs.Faults.{TextFaultOf, IsReadAs, FailsAt};

use crate::draft::DraftText;
use crate::fault::CompiledTextFault;
use dimacs_out::CnfText;
use line_texts::TextEnd;
use std::alloc::Global;

/// What a text holds, or the first line that fails.
fn read_text(alloc: Global, text: &[u8]) -> Result<CnfText, CompiledTextFault>
    ensures read { IfOk result (λ x. IsTextOf x text.now) }
    ensures fault { IfErr result (TextFaultOf text.now) }
{
    let mut draft = DraftText::new(alloc);
    match line_texts::read_lines(alloc, text, &(), &mut draft)? {
        TextEnd::Whole => Ok(draft.finish()),
        TextEnd::Misfit(_, Some(before)) => Err(CompiledTextFault::Form(before)),
        TextEnd::Misfit(line, None) => Err(CompiledTextFault::Form(line)),
        TextEnd::Missing(line) => Err(CompiledTextFault::Form(line)),
    }
}

/// What a compiled text holds, or the first line that fails. One pass over the text; a name takes a look-up in
/// a hash set.
pub fn read_compiled(alloc: Global, text: &[u8]) -> Result<CnfText, CompiledTextFault>
    ensures read { IfOk result (λ x. IsTextOf x text.now) }
    ensures fault { IfErr result (TextFaultOf text.now) }
    ensures complete { (x : CnfText) → IsTextOf x text.now → IsReadAs (λ y. y) result x }
    ensures exact { (line : ℕ) → TextFails text.now line → FailsAt result line }
{
    read_text(alloc, text)
}
