//! The statement of an item.

ghost use Rattle.std.specs.Prelude.{◌≡◌, IfOk, slice_get, None, Some, if◌then◌else◌};
ghost use Rattle.model_meaning.specs.declared.what.What.TheVariants.{BoolToInt, BoolEq, BoolOp, BoolArray};
ghost use Rattle.model_meaning.specs.declared.what.What.TheVariants.{BoolArrayReified, Compare, CompareReified};
ghost use Rattle.model_meaning.specs.declared.what.What.TheVariants.{BoolSum, BoolLinear, IntSum, IntLinear, IntOp};
ghost use Rattle.model_meaning.specs.declared.what.What.TheVariants.{Absolute, IntArray, Lexicographic};
ghost use Rattle.typed_model.specs.Items.{truth_in, number_in, truths_in, numbers_in, numerals_in, all_different_what};
ghost use Rattle.typed_model.specs.Items.{order_what, what_of};

use crate::call::Call;
use bee_list::Apart;
use model_meaning::{
    Aggregate, AllDifferent, Arithmetic, BoolTerm, Operator, Order, Relation, Statement, What,
};
use std::alloc::AllocError;

/// The statement `bool2int`.
fn bool_to_int(call: &Call<'_>) -> What
    ensures { result ≡ BoolToInt (truth_in call.now.scope.now (slice_get call.now.args.now 0))
        (number_in call.now.scope.now (slice_get call.now.args.now 1)) }
{
    What::BoolToInt {
        truth: call.truth(0),
        number: call.number(1),
    }
}

/// The statement `bool_eq`.
fn bool_eq(call: &Call<'_>) -> What
    ensures { result ≡ BoolEq (truth_in call.now.scope.now (slice_get call.now.args.now 0))
        (truth_in call.now.scope.now (slice_get call.now.args.now 1)) }
{
    What::BoolEq {
        left: call.truth(0),
        right: call.truth(1),
    }
}

/// The statement `bool_OP_reif`.
fn pair(call: &Call<'_>, operator: Operator) -> Result<What, AllocError>
    ensures { IfOk result
        (λ w. w ≡ BoolOp call.now.name.now operator (truth_in call.now.scope.now (slice_get call.now.args.now 0))
        (truth_in call.now.scope.now (slice_get call.now.args.now 1))
        (truth_in call.now.scope.now (slice_get call.now.args.now 2))) }
{
    Ok(What::BoolOp {
        name: call.own_name()?,
        operator,
        left: call.truth(0),
        right: call.truth(1),
        truth: call.truth(2),
    })
}

/// The statement `int_REL`.
fn compare(call: &Call<'_>, relation: Relation) -> Result<What, AllocError>
    ensures { IfOk result
        (λ w. w ≡ Compare call.now.name.now relation (number_in call.now.scope.now (slice_get call.now.args.now 0))
        (number_in call.now.scope.now (slice_get call.now.args.now 1))) }
{
    Ok(What::Compare {
        name: call.own_name()?,
        relation,
        left: call.number(0),
        right: call.number(1),
    })
}

/// The statement `int_REL_reif`.
fn compare_reified(call: &Call<'_>, relation: Relation) -> Result<What, AllocError>
    ensures { IfOk result
        (λ w. w ≡ CompareReified call.now.name.now relation
        (number_in call.now.scope.now (slice_get call.now.args.now 0))
        (number_in call.now.scope.now (slice_get call.now.args.now 1))
        (truth_in call.now.scope.now (slice_get call.now.args.now 2))) }
{
    Ok(What::CompareReified {
        name: call.own_name()?,
        relation,
        left: call.number(0),
        right: call.number(1),
        truth: call.truth(2),
    })
}

/// The statement of an operation on two integers.
fn operation(call: &Call<'_>, operation: Arithmetic) -> Result<What, AllocError>
    ensures { IfOk result
        (λ w. w ≡ IntOp call.now.name.now operation (number_in call.now.scope.now (slice_get call.now.args.now 0))
        (number_in call.now.scope.now (slice_get call.now.args.now 1))
        (number_in call.now.scope.now (slice_get call.now.args.now 2))) }
{
    Ok(What::IntOp {
        name: call.own_name()?,
        operation,
        left: call.number(0),
        right: call.number(1),
        value: call.number(2),
    })
}

/// The statement `int_abs`.
fn absolute(call: &Call<'_>) -> What
    ensures { result ≡ Absolute (number_in call.now.scope.now (slice_get call.now.args.now 0))
        (number_in call.now.scope.now (slice_get call.now.args.now 1)) }
{
    What::Absolute {
        operand: call.number(0),
        value: call.number(1),
    }
}

/// The statement `bool_array_OP`.
fn array(call: &Call<'_>, operator: Operator) -> Result<What, AllocError>
    ensures { IfOk result
        (λ w. w ≡ BoolArray call.now.name.now operator
        (truths_in call.now.scope.now (slice_get call.now.args.now 0))) }
{
    let members = call.truths(0)?;
    let name = call.own_name()?;
    Ok(What::BoolArray {
        name,
        operator,
        members,
    })
}

/// The statement `bool_array_OP_reif`.
fn array_reified(call: &Call<'_>, operator: Operator) -> Result<What, AllocError>
    ensures { IfOk result
        (λ w. w ≡ BoolArrayReified call.now.name.now operator
        (truths_in call.now.scope.now (slice_get call.now.args.now 0))
        (truth_in call.now.scope.now (slice_get call.now.args.now 1))) }
{
    let members = call.truths(0)?;
    let name = call.own_name()?;
    Ok(What::BoolArrayReified {
        name,
        operator,
        members,
        truth: call.truth(1),
    })
}

/// The statement `bool_array_sum_REL`.
fn count(call: &Call<'_>, relation: Relation) -> Result<What, AllocError>
    ensures { IfOk result
        (λ w. w ≡ BoolSum call.now.name.now relation (truths_in call.now.scope.now (slice_get call.now.args.now 0))
        (number_in call.now.scope.now (slice_get call.now.args.now 1))) }
{
    let members = call.truths(0)?;
    let name = call.own_name()?;
    Ok(What::BoolSum {
        name,
        relation,
        members,
        bound: call.number(1),
    })
}

/// The statement `bool_array_pb_REL`.
fn pseudo_boolean(call: &Call<'_>, relation: Relation) -> Result<What, AllocError>
    ensures { IfOk result
        (λ w. w ≡ BoolLinear call.now.name.now relation (numerals_in (slice_get call.now.args.now 0))
        (truths_in call.now.scope.now (slice_get call.now.args.now 1))
        (number_in call.now.scope.now (slice_get call.now.args.now 2))) }
{
    let coefficients = call.numerals(0)?;
    let members = call.truths(1)?;
    let name = call.own_name()?;
    Ok(What::BoolLinear {
        name,
        relation,
        coefficients,
        members,
        bound: call.number(2),
    })
}

/// The statement `int_array_sum_REL`.
fn sum(call: &Call<'_>, relation: Relation) -> Result<What, AllocError>
    ensures { IfOk result
        (λ w. w ≡ IntSum call.now.name.now relation (numbers_in call.now.scope.now (slice_get call.now.args.now 0))
        (number_in call.now.scope.now (slice_get call.now.args.now 1))) }
{
    let members = call.numbers(0)?;
    let name = call.own_name()?;
    Ok(What::IntSum {
        name,
        relation,
        members,
        bound: call.number(1),
    })
}

/// The statement `int_array_lin_REL`.
fn linear(call: &Call<'_>, relation: Relation) -> Result<What, AllocError>
    ensures { IfOk result
        (λ w. w ≡ IntLinear call.now.name.now relation (numerals_in (slice_get call.now.args.now 0))
        (numbers_in call.now.scope.now (slice_get call.now.args.now 1))
        (number_in call.now.scope.now (slice_get call.now.args.now 2))) }
{
    let coefficients = call.numerals(0)?;
    let members = call.numbers(1)?;
    let name = call.own_name()?;
    Ok(What::IntLinear {
        name,
        relation,
        coefficients,
        members,
        bound: call.number(2),
    })
}

/// The statement of an operation on a list of integers.
fn aggregate(call: &Call<'_>, operation: Aggregate) -> Result<What, AllocError>
    ensures { IfOk result
        (λ w. w ≡ IntArray call.now.name.now operation
        (numbers_in call.now.scope.now (slice_get call.now.args.now 0))
        (number_in call.now.scope.now (slice_get call.now.args.now 1))) }
{
    let members = call.numbers(0)?;
    let name = call.own_name()?;
    Ok(What::IntArray {
        name,
        operation,
        members,
        value: call.number(1),
    })
}

/// The statement that members differ.
fn all_different(call: &Call<'_>, kind: AllDifferent) -> Result<What, AllocError>
    ensures { IfOk result (λ w. w ≡ all_different_what call.now.scope.now call.now.name.now kind call.now.args.now) }
{
    let members = call.numbers(0)?;
    let (truth, conditions) = match kind {
        AllDifferent::Plain => (None, None),
        AllDifferent::Reified => (Some(call.truth_apart(1)?), None),
        AllDifferent::Conditional => (None, Some(call.truths_apart(1)?)),
    };
    let name = call.own_name()?;
    Ok(What::IntAllDifferent {
        name,
        kind,
        members,
        truth,
        conditions,
    })
}

/// The statement that two lists of Booleans are in order.
fn truths_order(
    call: &Call<'_>,
    order: Order,
    truth: Option<Apart<BoolTerm>>,
) -> Result<What, AllocError>
    ensures { IfOk result
        (λ w. w ≡ Lexicographic call.now.name.now order
        (Some (truths_in call.now.scope.now (slice_get call.now.args.now 0)))
        (Some (truths_in call.now.scope.now (slice_get call.now.args.now 1))) None None truth) }
{
    let left = call.truths_apart(0)?;
    let right = call.truths_apart(1)?;
    let name = call.own_name()?;
    Ok(What::Lexicographic {
        name,
        order,
        left_truths: Some(left),
        right_truths: Some(right),
        left_numbers: None,
        right_numbers: None,
        truth,
    })
}

/// The statement that two lists of integers are in order.
fn numbers_order(
    call: &Call<'_>,
    order: Order,
    truth: Option<Apart<BoolTerm>>,
) -> Result<What, AllocError>
    ensures { IfOk result
        (λ w. w ≡ Lexicographic call.now.name.now order None None
        (Some (numbers_in call.now.scope.now (slice_get call.now.args.now 0)))
        (Some (numbers_in call.now.scope.now (slice_get call.now.args.now 1))) truth) }
{
    let left = call.numbers_apart(0)?;
    let right = call.numbers_apart(1)?;
    let name = call.own_name()?;
    Ok(What::Lexicographic {
        name,
        order,
        left_truths: None,
        right_truths: None,
        left_numbers: Some(left),
        right_numbers: Some(right),
        truth,
    })
}

/// The truth of an order, where a Boolean is it.
fn order_truth(call: &Call<'_>, order: Order) -> Result<Option<Apart<BoolTerm>>, AllocError>
    ensures { IfOk result
        (λ t. t
        ≡ (if order.reified then Some (truth_in call.now.scope.now (slice_get call.now.args.now 2)) else None)) }
{
    if order.reified {
        let truth = call.truth_apart(2)?;
        Ok(Some(truth))
    } else {
        Ok(None)
    }
}

/// The statement that two lists are in order.
fn order(call: &Call<'_>, order: Order) -> Result<What, AllocError>
    ensures { IfOk result (λ w. w ≡ order_what call.now.scope.now call.now.name.now order call.now.args.now) }
{
    let truth = order_truth(call, order)?;
    if order.of_booleans {
        truths_order(call, order, truth)
    } else {
        numbers_order(call, order, truth)
    }
}

/// What a statement states, among the declarations of a scope. A declaration alone states nothing.
#[tactic(auto, unfolding(crate::specs::Items::what_of))]
pub(crate) fn what_of(call: &Call<'_>, statement: Statement) -> Result<Option<What>, AllocError>
    ensures { IfOk result (λ w. w ≡ what_of call.now.scope.now call.now.name.now statement call.now.args.now) }
{
    match statement {
        Statement::NewBool => Ok(None),
        Statement::NewInt => Ok(None),
        Statement::BoolToInt => Ok(Some(bool_to_int(call))),
        Statement::BoolEq => Ok(Some(bool_eq(call))),
        Statement::BoolOp(operator) => Ok(Some(pair(call, operator)?)),
        Statement::BoolArray(operator) => Ok(Some(array(call, operator)?)),
        Statement::BoolArrayReified(operator) => Ok(Some(array_reified(call, operator)?)),
        Statement::Compare(relation) => Ok(Some(compare(call, relation)?)),
        Statement::CompareReified(relation) => Ok(Some(compare_reified(call, relation)?)),
        Statement::BoolSum(relation) => Ok(Some(count(call, relation)?)),
        Statement::BoolLinear(relation) => Ok(Some(pseudo_boolean(call, relation)?)),
        Statement::IntSum(relation) => Ok(Some(sum(call, relation)?)),
        Statement::IntLinear(relation) => Ok(Some(linear(call, relation)?)),
        Statement::IntOp(which) => Ok(Some(operation(call, which)?)),
        Statement::Absolute => Ok(Some(absolute(call))),
        Statement::IntArray(which) => Ok(Some(aggregate(call, which)?)),
        Statement::IntAllDifferent(kind) => Ok(Some(all_different(call, kind)?)),
        Statement::Lexicographic(kind) => Ok(Some(order(call, kind)?)),
    }
}
