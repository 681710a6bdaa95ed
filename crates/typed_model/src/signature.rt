//! Which arguments each declaration and statement takes.

ghost use Rattle.std.specs.Prelude.{◌≡◌};
ghost use Rattle.model_meaning.specs.Signatures.{signature, all_different_signature, lex_signature};

use model_meaning::{AllDifferent, Order, Statement, Wanted};

/// The arguments of a statement that members differ.
fn all_different_signature(all_different: AllDifferent) -> &'static [Wanted]
    ensures { result.now ≡ all_different_signature all_different }
{
    match all_different {
        AllDifferent::Plain => &[Wanted::Numbers],
        AllDifferent::Reified => &[Wanted::Numbers, Wanted::Truth],
        AllDifferent::Conditional => &[Wanted::Numbers, Wanted::Truths],
    }
}

/// The arguments of a statement that two lists are in order.
fn lex_signature(order: Order) -> &'static [Wanted]
    ensures { result.now ≡ lex_signature order }
{
    if order.of_booleans {
        if order.reified {
            &[Wanted::Truths, Wanted::Truths, Wanted::Truth]
        } else {
            &[Wanted::Truths, Wanted::Truths]
        }
    } else {
        if order.reified {
            &[Wanted::Numbers, Wanted::Numbers, Wanted::Truth]
        } else {
            &[Wanted::Numbers, Wanted::Numbers]
        }
    }
}

/// The arguments of a declaration or statement.
pub(crate) fn signature(statement: Statement) -> &'static [Wanted]
    ensures { result.now ≡ signature statement }
{
    match statement {
        Statement::NewBool => &[Wanted::NewName],
        Statement::NewInt => &[Wanted::NewName, Wanted::Numeral, Wanted::Numeral],
        Statement::BoolToInt => &[Wanted::Truth, Wanted::NewInteger],
        Statement::BoolEq => &[Wanted::Truth, Wanted::Truth],
        Statement::BoolOp(_) => &[Wanted::Truth, Wanted::Truth, Wanted::Truth],
        Statement::BoolArray(_) => &[Wanted::Truths],
        Statement::BoolArrayReified(_) => &[Wanted::Truths, Wanted::Truth],
        Statement::Compare(_) => &[Wanted::Number, Wanted::Number],
        Statement::CompareReified(_) => &[Wanted::Number, Wanted::Number, Wanted::Truth],
        Statement::BoolSum(_) => &[Wanted::Truths, Wanted::Number],
        Statement::BoolLinear(_) => &[Wanted::Numerals, Wanted::Truths, Wanted::Number],
        Statement::IntSum(_) => &[Wanted::Numbers, Wanted::Number],
        Statement::IntLinear(_) => &[Wanted::Numerals, Wanted::Numbers, Wanted::Number],
        Statement::IntOp(_) => &[Wanted::Number, Wanted::Number, Wanted::Number],
        Statement::Absolute => &[Wanted::Number, Wanted::Number],
        Statement::IntArray(_) => &[Wanted::Numbers, Wanted::Number],
        Statement::IntAllDifferent(all_different) => all_different_signature(all_different),
        Statement::Lexicographic(order) => lex_signature(order),
    }
}
