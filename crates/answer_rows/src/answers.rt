//! The answer to a model, in words.

ghost use Rattle.std.specs.Prelude.{◌≡◌, ◌<◌};
ghost use Rattle.model_meaning.specs.WellTyped.{WellTyped};
ghost use Rattle.model_meaning.specs.Limits.{InLimits};
ghost use Rattle.decode_minimize.specs.Answers.{IsBudget};

use answer_document::{Document, Verdict, push_verdict};
use bumblebee_reader::read_model;
use decode_minimize::answer;
use fixpoint_queue::Silent;
use model_lower::LowerFault;
use model_meaning::{Model, in_limits};
use rule_base::Steps;
use rule_oracle::TableP;
use search_options::SearchOptions;
use std::alloc::{AllocError, Global};
use std::marker::Brand;
use std::sync::ledger::{Blank, Ledger};
use typed_model::check_types;

/// Who is asked for equations.
#[derive(Clone, Copy, Debug)]
pub(super) enum Asked {
    AllRules,
    Silence,
}

/// The answer to a model, with a counter of its own.
fn answer_with<L: Ledger>(
    alloc: Global,
    blank: Blank,
    model: &Model,
    options: SearchOptions,
    asked: Asked,
) -> Result<Document, LowerFault>
    requires typed { WellTyped model.now }
    requires limits { InLimits model.now }
    requires budget { IsBudget options.budget }
    requires name { blank.name ≡ L.name }
    requires parts { blank.parts ≡ L.parts }
    requires some { 0 < L.parts }
{
    let mut steps = Steps::<L>::open(blank);
    match asked {
        Asked::AllRules => answer(alloc, model, options, TableP, &mut steps),
        Asked::Silence => answer(alloc, model, options, Silent, &mut steps),
    }
}

/// The values of the objectives at the best solution, where a search was given up behind one.
fn push_best(alloc: Global, text: &mut Vec<u8>, verdict: Verdict) -> Result<(), AllocError> {
    if let Verdict::Unknown(_, Some(best)) = verdict {
        let word = format!(in alloc; ", best {}", best.first)?;
        text.extend_from_slice(word.as_bytes())?;
        if let Some(second) = best.second {
            let word = format!(in alloc; " {second}")?;
            text.extend_from_slice(word.as_bytes())?;
        }
    }
    Ok(())
}

/// What a document says: its verdict, and behind it the values of a solution, or of the best one's objectives.
fn show(alloc: Global, document: &Document) -> Result<Vec<u8>, AllocError> {
    let mut text = Vec::new(alloc);
    push_verdict(&mut text, document.verdict)?;
    push_best(alloc, &mut text, document.verdict)?;
    if let (Verdict::Satisfiable | Verdict::Optimum(_), Some(given)) = (
        document.verdict,
        &document.assignment,
    ) {
        text.extend_from_slice(b":")?;
        for value in given.values.as_slice() {
            let word = format!(in alloc; " {value}")?;
            text.extend_from_slice(word.as_bytes())?;
        }
    }
    Ok(text)
}

/// What the answer to a model says.
pub(super) fn answered(
    alloc: Global,
    text: &str,
    options: SearchOptions,
    asked: Asked,
) -> Result<Vec<u8>, AllocError>
    requires { IsBudget options.budget }
{
    let Ok(syntax) = read_model(alloc, text.as_bytes()) else {
        return Vec::from_slice(alloc, b"no text");
    };
    let Ok(model) = check_types(alloc, &syntax) else {
        return Vec::from_slice(alloc, b"no model");
    };
    if !in_limits(&model) {
        return Vec::from_slice(alloc, b"too great a numeral");
    }
    match answer_with::<Brand>(alloc, Blank::new(1), &model, options, asked) {
        Ok(document) => show(alloc, &document),
        Err(fault) => {
            let told = format!(in alloc; "{fault}")?;
            Vec::from_slice(alloc, told.as_bytes())
        }
    }
}
