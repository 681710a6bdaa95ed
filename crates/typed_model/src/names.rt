//! Which name is which statement.

ghost use Rattle.std.specs.Prelude.{◌≡◌};
ghost use Rattle.std.specs.Option.{option_copied, option_and_then};
ghost use Rattle.std.specs.Str.{bytes_eq};
ghost use Rattle.model_meaning.specs.Names.{after, between, relation_of, operator_of, arithmetic_of, aggregate_of};
ghost use Rattle.model_meaning.specs.Names.{all_different_of, order_of, lone_statement, operator_statement};
ghost use Rattle.model_meaning.specs.Names.{relation_statement, operation_statement, statement_of};

use model_meaning::{Aggregate, AllDifferent, Arithmetic, Operator, Order, Relation, Statement};

/// What follows a front of a name.
fn after<'a>(name: &'a [u8], front: &[u8]) -> Option<&'a [u8]>
    ensures { option_copied result ≡ after front.now name.now }
{
    name.strip_prefix(front)
}

/// What stands between a front and an end of a name.
fn between<'a>(name: &'a [u8], front: &[u8], end: &[u8]) -> Option<&'a [u8]>
    ensures { option_copied result ≡ between front.now end.now name.now }
{
    match name.strip_prefix(front) {
        Some(rest) => rest.strip_suffix(end),
        None => None,
    }
}

/// Whether a name is a word.
pub fn is(name: &[u8], word: &[u8]) -> bool
    ensures { result ≡ bytes_eq name.now word.now }
{
    name == word
}

/// The relation of a word.
fn relation_of(word: Option<&[u8]>) -> Option<Relation>
    ensures { result ≡ option_and_then relation_of (option_copied word.entry) }
{
    let word = word?;
    if is(word, b"leq") {
        return Some(Relation::Leq);
    }
    if is(word, b"geq") {
        return Some(Relation::Geq);
    }
    if is(word, b"eq") {
        return Some(Relation::Eq);
    }
    if is(word, b"lt") {
        return Some(Relation::Lt);
    }
    if is(word, b"gt") {
        return Some(Relation::Gt);
    }
    if is(word, b"neq") {
        return Some(Relation::Neq);
    }
    None
}

/// The operator of a word.
fn operator_of(word: Option<&[u8]>) -> Option<Operator>
    ensures { result ≡ option_and_then operator_of (option_copied word.entry) }
{
    let word = word?;
    if is(word, b"or") {
        return Some(Operator::Or);
    }
    if is(word, b"and") {
        return Some(Operator::And);
    }
    if is(word, b"xor") {
        return Some(Operator::Xor);
    }
    if is(word, b"iff") {
        return Some(Operator::Iff);
    }
    None
}

/// The operation on two integers of a word.
fn arithmetic_of(word: Option<&[u8]>) -> Option<Arithmetic>
    ensures { result ≡ option_and_then arithmetic_of (option_copied word.entry) }
{
    let word = word?;
    if is(word, b"plus") {
        return Some(Arithmetic::Plus);
    }
    if is(word, b"times") {
        return Some(Arithmetic::Times);
    }
    if is(word, b"div") {
        return Some(Arithmetic::Div);
    }
    if is(word, b"mod") {
        return Some(Arithmetic::Mod);
    }
    if is(word, b"max") {
        return Some(Arithmetic::Max);
    }
    if is(word, b"min") {
        return Some(Arithmetic::Min);
    }
    None
}

/// The operation on a list of a word.
fn aggregate_of(word: Option<&[u8]>) -> Option<Aggregate>
    ensures { result ≡ option_and_then aggregate_of (option_copied word.entry) }
{
    let word = word?;
    if is(word, b"plus") {
        return Some(Aggregate::Plus);
    }
    if is(word, b"max") {
        return Some(Aggregate::Max);
    }
    if is(word, b"min") {
        return Some(Aggregate::Min);
    }
    None
}

/// Which members differ, by the last word of a name.
fn all_different_of(word: Option<&[u8]>) -> Option<AllDifferent>
    ensures { result ≡ option_and_then all_different_of (option_copied word.entry) }
{
    let word = word?;
    if is(word, b"allDiff") {
        return Some(AllDifferent::Plain);
    }
    if is(word, b"allDiff_reif") {
        return Some(AllDifferent::Reified);
    }
    if is(word, b"allDiffCond") {
        return Some(AllDifferent::Conditional);
    }
    None
}

/// How lists are ordered, by the last word of a name.
fn order_of(of_booleans: bool, word: Option<&[u8]>) -> Option<Order>
    ensures { result ≡ option_and_then (order_of of_booleans) (option_copied word.entry) }
{
    let word = word?;
    if is(word, b"lex") {
        return Some(Order {
            of_booleans,
            strict: false,
            reified: false,
        });
    }
    if is(word, b"lexLt") {
        return Some(Order {
            of_booleans,
            strict: true,
            reified: false,
        });
    }
    if is(word, b"lex_reif") {
        return Some(Order {
            of_booleans,
            strict: false,
            reified: true,
        });
    }
    if is(word, b"lexLt_reif") {
        return Some(Order {
            of_booleans,
            strict: true,
            reified: true,
        });
    }
    None
}

/// The names that share no form with others.
#[tactic(auto, unfolding(model_meaning::specs::Names::lone_statement))]
fn lone_statement(name: &[u8]) -> Option<Statement>
    ensures { result ≡ lone_statement name.now }
{
    if is(name, b"new_bool") {
        return Some(Statement::NewBool);
    }
    if is(name, b"new_int") {
        return Some(Statement::NewInt);
    }
    if is(name, b"bool2int") {
        return Some(Statement::BoolToInt);
    }
    if is(name, b"bool_eq") {
        return Some(Statement::BoolEq);
    }
    if is(name, b"int_abs") {
        return Some(Statement::Absolute);
    }
    None
}

/// The statements whose names have an operator.
#[tactic(auto, unfolding(model_meaning::specs::Names::operator_statement))]
fn operator_statement(name: &[u8]) -> Option<Statement>
    ensures { result ≡ operator_statement name.now }
{
    if let Some(operator) = operator_of(between(name, b"bool_", b"_reif")) {
        return Some(Statement::BoolOp(operator));
    }
    if let Some(operator) = operator_of(after(name, b"bool_array_")) {
        return Some(Statement::BoolArray(operator));
    }
    let operator = operator_of(between(name, b"bool_array_", b"_reif"))?;
    Some(Statement::BoolArrayReified(operator))
}

/// The statements whose names have a relation.
#[tactic(auto, unfolding(model_meaning::specs::Names::relation_statement))]
fn relation_statement(name: &[u8]) -> Option<Statement>
    ensures { result ≡ relation_statement name.now }
{
    if let Some(relation) = relation_of(after(name, b"int_")) {
        return Some(Statement::Compare(relation));
    }
    if let Some(relation) = relation_of(between(name, b"int_", b"_reif")) {
        return Some(Statement::CompareReified(relation));
    }
    if let Some(relation) = relation_of(after(name, b"bool_array_sum_")) {
        return Some(Statement::BoolSum(relation));
    }
    if let Some(relation) = relation_of(after(name, b"bool_array_pb_")) {
        return Some(Statement::BoolLinear(relation));
    }
    if let Some(relation) = relation_of(after(name, b"int_array_sum_")) {
        return Some(Statement::IntSum(relation));
    }
    let relation = relation_of(after(name, b"int_array_lin_"))?;
    Some(Statement::IntLinear(relation))
}

/// The statements whose names have an operation, a kind of all-different, or an order.
#[tactic(auto, unfolding(model_meaning::specs::Names::operation_statement))]
fn operation_statement(name: &[u8]) -> Option<Statement>
    ensures { result ≡ operation_statement name.now }
{
    if let Some(operation) = arithmetic_of(after(name, b"int_")) {
        return Some(Statement::IntOp(operation));
    }
    if let Some(operation) = aggregate_of(after(name, b"int_array_")) {
        return Some(Statement::IntArray(operation));
    }
    if let Some(kind) = all_different_of(after(name, b"int_array_")) {
        return Some(Statement::IntAllDifferent(kind));
    }
    if let Some(order) = order_of(true, after(name, b"bool_arrays_")) {
        return Some(Statement::Lexicographic(order));
    }
    let order = order_of(false, after(name, b"int_arrays_"))?;
    Some(Statement::Lexicographic(order))
}

/// The declaration or statement of a name; `None` where the language has none of that name. It compares
/// the name with some thirty words.
#[tactic(auto, unfolding(model_meaning::specs::Names::statement_of))]
pub(crate) fn statement_of(name: &[u8]) -> Option<Statement>
    ensures { result ≡ statement_of name.now }
{
    if let Some(found) = lone_statement(name) {
        return Some(found);
    }
    if let Some(found) = operator_statement(name) {
        return Some(found);
    }
    if let Some(found) = relation_statement(name) {
        return Some(found);
    }
    operation_statement(name)
}
