//! Equations in words: the rule's name and two atoms.

use crate::words::{atom, misread, word};
use bee_text::{push_blank, push_bytes};
use core_forms::{Equation, Rule};
use ledger_text::push_atom;
use std::alloc::{AllocError, Global};
use std::io::Result;

/// A rule.
fn rule(word: &str) -> Result<Rule> {
    match word {
        "Order" => Ok(Rule::Order),
        "Form" => Ok(Rule::Form),
        "Table" => Ok(Rule::Table),
        _ => Err(misread(word)),
    }
}

/// An equation; `InvalidInput` where the text is none.
pub fn equation_of(text: &str) -> Result<Equation> {
    let rule = rule(word(text, 0))?;
    let a = atom(word(text, 1))?;
    let b = atom(word(text, 2))?;
    Ok(Equation { rule, a, b })
}

/// An equation in words, or `none`.
pub fn equation_text(
    alloc: Global,
    found: Option<Equation>,
) -> std::result::Result<Vec<u8>, AllocError> {
    let mut text = Vec::new(alloc);
    let Some(e) = found else {
        push_bytes(&mut text, b"none")?;
        return Ok(text);
    };
    match e.rule {
        Rule::Order => push_bytes(&mut text, b"Order ")?,
        Rule::Form => push_bytes(&mut text, b"Form ")?,
        Rule::Table => push_bytes(&mut text, b"Table ")?,
    }
    push_atom(&mut text, e.a)?;
    push_blank(&mut text)?;
    push_atom(&mut text, e.b)?;
    Ok(text)
}
