//! From the text of a model to its compiled text.

ghost use Rattle.std.specs.Prelude.{◌≡◌, ◌<◌, ◌≤◌, ◌^◌, length, IfOk, IfErr};
ghost use Rattle.model_meaning.specs.WellTyped.{WellTyped};
ghost use Rattle.model_meaning.specs.Limits.{InLimits};
ghost use Rattle.model_weight.specs.Weight.{weight_of};
ghost use Rattle.model_lower.specs.Weighed.{most_weight};
ghost use Rattle.model_lower.specs.Faults.{IsFaultOf};
ghost use Rattle.bee_compile.specs.Compiled.{IsInstance, IsCompiled};
ghost use Rattle.bee_compile.specs.Fits.{CompiledFits};
ghost use Rattle.dimacs_out.specs.CompiledText.{text_of};
ghost use Rattle.compile_mode.specs.Compiled.{written_of, IsCompiledText, Compiles};
ghost use Rattle.model_texts.specs.ModelTexts.{IsCauseOf};
ghost use Rattle.model_texts.specs.ModelTexts.{longest_text};

use crate::entries::entries_of;
use bee_compile::{Compiled, compile};
use bee_list::Sequence;
use dimacs_out::{CnfText, write_compiled};
use model_lower::LowerFault;
use model_meaning::Model;
use model_texts::{ModelTextFault, lower_fault, model_of};
use rule_base::Steps;
use rule_oracle::TableP;
use std::alloc::{AllocError, Global};
use std::marker::Brand;
use std::sync::ledger::{Blank, Ledger};

/// What a model is compiled to, by all rules, with a counter of its own.
fn compile_with<L: Ledger>(
    alloc: Global,
    blank: Blank,
    model: Model,
) -> Result<Compiled, LowerFault>
    requires typed { WellTyped model }
    requires limits { InLimits model }
    requires name { blank.name ≡ L.name }
    requires parts { blank.parts ≡ L.parts }
    requires some { 0 < L.parts }
    ensures light { IfOk result (λ c. weight_of model ≤ most_weight) }
    ensures compiled { IfOk result (λ c. IsCompiled IsInstance model c) }
    ensures fits { IfOk result CompiledFits }
    ensures heavy { IfErr result (λ e. IsFaultOf e model) }
{
    let mut steps = Steps::<L>::open(blank);
    compile(alloc, model, TableP, &mut steps)
}

/// What a model is compiled to, by all rules. Each statement is let go when it is lowered.
pub fn compile_model(alloc: Global, model: Model) -> Result<Compiled, LowerFault>
    requires typed { WellTyped model }
    requires limits { InLimits model }
    ensures light { IfOk result (λ c. weight_of model ≤ most_weight) }
    ensures compiled { IfOk result (λ c. IsCompiled IsInstance model c) }
    ensures fits { IfOk result CompiledFits }
    ensures heavy { IfErr result (λ e. IsFaultOf e model) }
{
    compile_with::<Brand>(alloc, Blank::new(1), model)
}

/// The compiled text of what a model is compiled to. The names and what they stand for move into it.
pub fn write_compilation(alloc: Global, compiled: Compiled) -> Result<Vec<u8>, AllocError>
    requires { CompiledFits compiled }
    ensures text { IfOk result (λ text. text.items ≡ text_of (written_of compiled)) }
    ensures count { IfOk result (λ text. length compiled.cnf.clauses < 2 ^ 64) }
{
    let Compiled {
        cnf,
        decls,
        map,
        ledger,
        ..
    } = compiled;
    let entries = entries_of(alloc, decls.into_vec(), map.entries.into_vec())?;
    let held = CnfText {
        entries: Sequence::from_vec(entries),
        ledger,
        cnf,
    };
    write_compiled(alloc, &held)
}

/// The compiled text of a model.
fn write_model(alloc: Global, model: Model) -> Result<Vec<u8>, LowerFault>
    requires typed { WellTyped model }
    requires limits { InLimits model }
    ensures light { IfOk result (λ text. weight_of model ≤ most_weight) }
    ensures text { IfOk result (λ text. IsCompiledText model text.items) }
    ensures heavy { IfErr result (λ e. IsFaultOf e model) }
{
    let compiled = compile_model(alloc, model)?;
    Ok(write_compilation(alloc, compiled)?)
}

/// The compiled text of the model that a text says.
pub(crate) fn compile_text(alloc: Global, text: &[u8]) -> Result<Vec<u8>, ModelTextFault>
    requires { length text.now ≤ longest_text }
    ensures compiled { IfOk result (λ written. Compiles text.now written.items) }
    ensures fault { IfErr result (λ e. IsCauseOf e text.now) }
{
    let model = model_of(alloc, text)?;
    match write_model(alloc, model) {
        Ok(written) => Ok(written),
        Err(fault) => Err(lower_fault(fault)),
    }
}
