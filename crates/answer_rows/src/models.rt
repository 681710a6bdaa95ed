//! Models that are in the limits of a text.

ghost use Rattle.std.specs.Prelude.{◌≡◌, IfOk, map};
ghost use Rattle.std.specs.List.{list_all};
ghost use Rattle.bee_text.specs.Lines.{lacks, AreLines};
ghost use Rattle.model_meaning.specs.declared.model.Decl.{Decl};
ghost use Rattle.model_meaning.specs.WellTyped.{WellTyped};
ghost use Rattle.model_meaning.specs.Limits.{InLimits};

use bumblebee_reader::read_model;
use model_meaning::{Decl, Model, in_limits};
use std::alloc::Global;
use std::test::Fail;
use typed_model::check_types;

/// Whether a name has no line feed inside.
fn is_line(name: &[u8]) -> bool
    ensures { result ≡ lacks 10 name.now }
{
    name.iter().all(|byte| *byte != b'\n')
}

/// Whether no name has.
fn are_lines(decls: &[Decl]) -> bool
    ensures { result ≡ list_all (lacks 10) (map (λ (d : Decl). d.name) decls.now) }
{
    let mut rest = decls;
    while let [first, others @ ..] = rest {
        if !is_line(first.name.as_bytes()) {
            return false;
        }
        rest = others;
    }
    true
}

/// A model that is in the limits of a text.
pub(super) fn small_model(alloc: Global, text: &str) -> Result<Model, Fail>
    ensures typed { IfOk result WellTyped }
    ensures limits { IfOk result InLimits }
    ensures names { IfOk result (λ m. AreLines (map (λ (d : Decl). d.name) m.decls)) }
{
    let syntax = read_model(alloc, text.as_bytes())?;
    let model = check_types(alloc, &syntax)?;
    if !in_limits(&model) {
        return Err(Fail::from("too great a numeral"));
    }
    if !are_lines(model.decls.as_slice()) {
        return Err(Fail::from("a line feed in a name"));
    }
    Ok(model)
}
