//! The typed model of a text.

use bumblebee_reader::read_model;
use model_meaning::Model;
use std::alloc::Global;
use std::test::Fail;
use typed_model::check_types;

/// The model of a text.
pub(super) fn model(alloc: Global, text: &str) -> Result<Model, Fail> {
    let syntax = read_model(alloc, text.as_bytes())?;
    Ok(check_types(alloc, &syntax)?)
}
