//! Prints the canonical text of a syntax.

ghost use Rattle.std.specs.Prelude.{◌≡◌, ◌++◌, IfOk, OnOk};
ghost use Rattle.bumblebee_reader.specs.declared.syntax.Item.TheVariants.{Call, Goal};
ghost use Rattle.bumblebee_reader.specs.declared.syntax.Arg.TheVariants.{Many};
ghost use Rattle.bumblebee_reader.specs.Canonical.{canonical, item_line, name_text, args_text, arg_text, terms_text};
ghost use Rattle.bumblebee_reader.specs.Canonical.{term_text, kind_word};

use crate::name::Name;
use crate::syntax::{Arg, GoalKind, Item, Syntax, Term};
use bee_text::push_signed;
use std::alloc::{AllocError, Global};

/// The canonical text: one item a line, no gap but one blank between the words of a goal, no leading zero,
/// no `-0`, and objectives without parentheses. Read again, it gives the same syntax, where some text
/// has that syntax.
pub fn print_model(alloc: Global, syntax: &Syntax) -> Result<Vec<u8>, AllocError>
    ensures { IfOk result (λ text. text.items ≡ canonical syntax.now) }
{
    let mut out = Vec::new(alloc);
    for item in syntax.items.as_slice() {
        push_item(&mut out, item)?;
    }
    Ok(out)
}

fn push_item(out: &mut Vec<u8>, item: &Item) -> Result<(), AllocError>
    ensures { OnOk result (out.new.items ≡ out.old.items ++ item_line item.now) }
{
    match item {
        Item::Call { name, args } => push_call(out, name, args.as_slice()),
        Item::Goal {
            kind,
            objective,
            second,
        } => push_goal(out, *kind, objective, second),
    }
}

fn push_call(out: &mut Vec<u8>, name: &Name, args: &[Arg]) -> Result<(), AllocError>
    ensures { OnOk result (out.new.items ≡ out.old.items ++ item_line (Call name.now args.now)) }
{
    out.extend_from_slice(name.as_bytes())?;
    out.extend_from_slice(b"(")?;
    push_args(out, args)?;
    out.extend_from_slice(b")\n")
}

fn push_goal(
    out: &mut Vec<u8>,
    kind: GoalKind,
    objective: &Option<Name>,
    second: &Option<Name>,
) -> Result<(), AllocError>
    ensures { OnOk result (out.new.items ≡ out.old.items ++ item_line (Goal kind objective.now second.now)) }
{
    out.extend_from_slice(b"solve ")?;
    out.extend_from_slice(kind_word(kind))?;
    push_name(out, b" ", objective)?;
    push_name(out, b" then ", second)?;
    out.extend_from_slice(b"\n")
}

/// Adds a name behind these bytes, where there is one.
fn push_name(out: &mut Vec<u8>, front: &[u8], name: &Option<Name>) -> Result<(), AllocError>
    ensures { OnOk result (out.new.items ≡ out.old.items ++ name_text front.now name.now) }
{
    match name {
        Some(name) => {
            out.extend_from_slice(front)?;
            out.extend_from_slice(name.as_bytes())
        }
        None => Ok(()),
    }
}

fn kind_word(kind: GoalKind) -> &'static [u8]
    ensures { result.now ≡ kind_word kind }
{
    match kind {
        GoalKind::Satisfy => b"satisfy",
        GoalKind::Minimize => b"minimize",
        GoalKind::Maximize => b"maximize",
    }
}

fn push_args(out: &mut Vec<u8>, args: &[Arg]) -> Result<(), AllocError>
    ensures { OnOk result (out.new.items ≡ out.old.items ++ args_text args.now) }
{
    let Some((first, others)) = args.split_first() else {
        return Ok(());
    };
    push_arg(out, first)?;
    for arg in others {
        out.extend_from_slice(b",")?;
        push_arg(out, arg)?;
    }
    Ok(())
}

fn push_arg(out: &mut Vec<u8>, arg: &Arg) -> Result<(), AllocError>
    ensures { OnOk result (out.new.items ≡ out.old.items ++ arg_text arg.now) }
{
    match arg {
        Arg::One(term) => push_term(out, term),
        Arg::Many(terms) => push_list(out, terms.as_slice()),
    }
}

fn push_list(out: &mut Vec<u8>, terms: &[Term]) -> Result<(), AllocError>
    ensures { OnOk result (out.new.items ≡ out.old.items ++ arg_text (Many terms.now)) }
{
    out.extend_from_slice(b"[")?;
    push_terms(out, terms)?;
    out.extend_from_slice(b"]")
}

fn push_terms(out: &mut Vec<u8>, terms: &[Term]) -> Result<(), AllocError>
    ensures { OnOk result (out.new.items ≡ out.old.items ++ terms_text terms.now) }
{
    let Some((first, others)) = terms.split_first() else {
        return Ok(());
    };
    push_term(out, first)?;
    for term in others {
        out.extend_from_slice(b",")?;
        push_term(out, term)?;
    }
    Ok(())
}

fn push_term(out: &mut Vec<u8>, term: &Term) -> Result<(), AllocError>
    ensures { OnOk result (out.new.items ≡ out.old.items ++ term_text term.now) }
{
    match term {
        Term::Plain(name) => out.extend_from_slice(name.as_bytes()),
        Term::Minus(name) => {
            out.extend_from_slice(b"-")?;
            out.extend_from_slice(name.as_bytes())
        }
        Term::Number(number) => push_signed(out, i128::from(*number)),
    }
}
