//! The first fault of an item.

ghost use Rattle.std.specs.Prelude.{◌≡◌, slice_get};
ghost use Rattle.model_meaning.specs.Places.{place_of};
ghost use Rattle.typed_model.specs.Faults.{declares, arg_unknown, has_undeclared, one_fits, many_fit, arg_fits, fit};
ghost use Rattle.typed_model.specs.Faults.{is_declaration, names_declared, declares_twice, lists_differ, wants_member};
ghost use Rattle.typed_model.specs.Faults.{is_empty, has_wrong_lengths, numeral_in, declares_integer, wanted_of};
ghost use Rattle.typed_model.specs.Faults.{lacks_value, empty_domain, divides, least_in, division_domain};
ghost use Rattle.typed_model.specs.Faults.{statement_fault, objective_unknown, second_fits, objectives_fit, goal_fault};
ghost use Rattle.typed_model.specs.Faults.{item_fault};

use crate::fault::TypeFault;
use crate::names::statement_of;
use crate::scope::{
    Scope, all_numerals, is_bool, is_constant, is_int, is_numeral, low_of, numeral,
};
use crate::signature::signature;
use bumblebee_reader::{Arg, GoalKind, Item, Name, Term};
use model_meaning::{Aggregate, Arithmetic, Statement, Wanted};

/// Whether an argument is a plain name in a declaring place.
fn declares(wanted: Wanted, arg: &Arg) -> bool
    ensures { result ≡ declares wanted arg.now }
{
    match (wanted, arg) {
        (Wanted::NewName, Arg::One(Term::Plain(_))) => true,
        (Wanted::NewInteger, Arg::One(Term::Plain(_))) => true,
        _ => false,
    }
}

/// Whether a name of an argument isn't declared.
fn arg_unknown(scope: &Scope, arg: &Arg) -> bool
    ensures { result ≡ arg_unknown scope.now arg.now }
{
    match arg {
        Arg::One(term) => scope.term_unknown(term),
        Arg::Many(terms) => scope.terms_unknown(terms.as_slice()),
    }
}

/// Whether a name that is to be looked up isn't declared.
fn has_undeclared(scope: &Scope, wanted: &[Wanted], args: &[Arg]) -> bool
    ensures { result ≡ has_undeclared scope.now wanted.now args.now }
{
    let mut places = wanted;
    let mut rest = args;
    while let [arg, others @ ..] = rest {
        if let [place, later @ ..] = places {
            if !declares(*place, arg) && arg_unknown(scope, arg) {
                return true;
            }
            places = later;
        } else if arg_unknown(scope, arg) {
            return true;
        }
        rest = others;
    }
    false
}

/// Whether a term is what is wanted.
fn one_fits(scope: &Scope, wanted: Wanted, term: &Term) -> bool
    ensures { result ≡ one_fits scope.now wanted term.now }
{
    match wanted {
        Wanted::Truth => scope.is_truth(term),
        Wanted::Number => scope.is_number(term),
        Wanted::Numeral => is_numeral(term),
        Wanted::NewName => match term {
            Term::Plain(name) => !is_constant(name.as_bytes()),
            _ => false,
        },
        Wanted::NewInteger => match term {
            Term::Plain(name) => !is_constant(name.as_bytes()) && !is_bool(scope.kind_of(name)),
            _ => false,
        },
        Wanted::Truths | Wanted::Numbers | Wanted::Numerals => false,
    }
}

/// Whether a list of terms is what is wanted.
fn many_fit(scope: &Scope, wanted: Wanted, terms: &[Term]) -> bool
    ensures { result ≡ many_fit scope.now wanted terms.now }
{
    match wanted {
        Wanted::Truths => scope.all_truths(terms),
        Wanted::Numbers => scope.all_numbers(terms),
        Wanted::Numerals => all_numerals(terms),
        _ => false,
    }
}

/// Whether an argument is what is wanted.
fn arg_fits(scope: &Scope, wanted: Wanted, arg: &Arg) -> bool
    ensures { result ≡ arg_fits scope.now wanted arg.now }
{
    match arg {
        Arg::One(term) => one_fits(scope, wanted, term),
        Arg::Many(terms) => many_fit(scope, wanted, terms.as_slice()),
    }
}

/// What a call's arguments are to be: those of its statement's signature, but that a list of numerals may stand in
/// place of the two numerals of `new_int`.
fn wanted_of(statement: Statement, args: &[Arg]) -> &'static [Wanted]
    ensures { result.now ≡ wanted_of statement (slice_get args.now 1) }
{
    match (statement, args.get(1)) {
        (Statement::NewInt, Some(Arg::Many(_))) => &[Wanted::NewName, Wanted::Numerals],
        _ => signature(statement),
    }
}

/// Whether the arguments are what is wanted.
fn fit(scope: &Scope, wanted: &[Wanted], args: &[Arg]) -> bool
    ensures { result ≡ fit scope.now wanted.now args.now }
{
    let mut places = wanted;
    let mut rest = args;
    while let [arg, others @ ..] = rest {
        let [place, later @ ..] = places else {
            return false;
        };
        if !arg_fits(scope, *place, arg) {
            return false;
        }
        places = later;
        rest = others;
    }
    places.is_empty()
}

/// Whether a statement declares the name of its first argument anew.
fn is_declaration(statement: Statement) -> bool
    ensures { result ≡ is_declaration statement }
{
    matches!(statement, Statement::NewBool | Statement::NewInt)
}

/// Whether an argument is a declared name.
fn names_declared(scope: &Scope, args: &[Arg], at: usize) -> bool
    ensures { result ≡ names_declared scope.now (slice_get args.now at) }
{
    match args.get(at) {
        Some(Arg::One(Term::Plain(name))) => scope.place_of(name).is_some(),
        _ => false,
    }
}

/// Whether a name is declared anew.
fn declares_twice(scope: &Scope, statement: Statement, args: &[Arg]) -> bool
    ensures { result ≡ declares_twice scope.now statement args.now }
{
    is_declaration(statement) && names_declared(scope, args, 0)
}

/// Whether the first two arguments are lists of different lengths.
fn lists_differ(args: &[Arg]) -> bool
    ensures { result ≡ lists_differ (slice_get args.now 0) (slice_get args.now 1) }
{
    match args {
        [Arg::Many(left), Arg::Many(right), ..] => left.len() != right.len(),
        _ => false,
    }
}

/// Whether a statement is of the greatest or least member of a list.
fn wants_member(statement: Statement) -> bool
    ensures { result ≡ wants_member statement }
{
    matches!(
        statement,
        Statement::IntArray(Aggregate::Max) | Statement::IntArray(Aggregate::Min)
    )
}

/// Whether the first argument is a list without members.
fn is_empty(args: &[Arg]) -> bool
    ensures { result ≡ is_empty (slice_get args.now 0) }
{
    match args {
        [Arg::Many(members), ..] => members.is_empty(),
        _ => false,
    }
}

/// Whether lists differ in length, or a list lacks a member.
fn has_wrong_lengths(statement: Statement, args: &[Arg]) -> bool
    ensures { result ≡ has_wrong_lengths statement args.now }
{
    lists_differ(args) || (wants_member(statement) && is_empty(args))
}

/// The numeral that an argument is.
pub(crate) fn numeral_in(args: &[Arg], at: usize) -> i64
    ensures { result ≡ numeral_in (slice_get args.now at) }
{
    match args.get(at) {
        Some(Arg::One(term)) => numeral(term),
        _ => 0,
    }
}

/// Whether the least value of a new integer is above its greatest, or none is listed.
fn lacks_value(args: &[Arg]) -> bool
    ensures { result ≡ lacks_value (slice_get args.now 1) (slice_get args.now 2) }
{
    match args.get(1) {
        Some(Arg::Many(terms)) => terms.is_empty(),
        _ => numeral_in(args, 2) < numeral_in(args, 1),
    }
}

/// Whether a new integer has no value.
fn empty_domain(statement: Statement, args: &[Arg]) -> bool
    ensures { result ≡ empty_domain statement args.now }
{
    match statement {
        Statement::NewInt => lacks_value(args),
        _ => false,
    }
}

/// Whether a statement is a division.
fn divides(statement: Statement) -> bool
    ensures { result ≡ divides statement }
{
    matches!(
        statement,
        Statement::IntOp(Arithmetic::Div) | Statement::IntOp(Arithmetic::Mod)
    )
}

/// The least value of an argument.
fn least_in(scope: &Scope, args: &[Arg], at: usize) -> i64
    ensures { result ≡ least_in scope.now (slice_get args.now at) }
{
    match args.get(at) {
        Some(Arg::One(Term::Plain(name))) => low_of(scope.kind_of(name)),
        _ => numeral_in(args, at),
    }
}

/// Whether a dividend may be below 0, or a divisor below 1.
fn division_domain(scope: &Scope, statement: Statement, args: &[Arg]) -> bool
    ensures { result ≡ division_domain scope.now statement args.now }
{
    divides(statement) && (least_in(scope, args, 0) < 0 || least_in(scope, args, 1) < 1)
}

/// The first fault of a declaration or statement, which is item `number`.
#[tactic(auto, unfolding(crate::specs::Faults::statement_fault))]
fn statement_fault(
    scope: &Scope,
    number: u64,
    statement: Statement,
    args: &[Arg],
) -> Option<TypeFault>
    ensures { result ≡ statement_fault number scope.now statement args.now }
{
    let wanted = wanted_of(statement, args);
    if has_undeclared(scope, wanted, args) {
        return Some(TypeFault::Undeclared(number));
    }
    if !fit(scope, wanted, args) {
        return Some(TypeFault::Kind(number));
    }
    if declares_twice(scope, statement, args) {
        return Some(TypeFault::Twice(number));
    }
    if has_wrong_lengths(statement, args) {
        return Some(TypeFault::Lengths(number));
    }
    if empty_domain(statement, args) {
        return Some(TypeFault::EmptyDomain(number));
    }
    if division_domain(scope, statement, args) {
        return Some(TypeFault::DivDomain(number));
    }
    None
}

/// Whether an objective's name isn't declared.
fn objective_unknown(scope: &Scope, objective: &Option<Name>) -> bool
    ensures { result ≡ objective_unknown scope.now objective.now }
{
    match objective {
        Some(name) => scope.is_unknown(name),
        None => false,
    }
}

/// Whether a second objective is an integer name, where there is one.
fn second_fits(scope: &Scope, second: &Option<Name>) -> bool
    ensures { result ≡ second_fits scope.now second.now }
{
    match second {
        Some(name) => is_int(scope.kind_of(name)),
        None => true,
    }
}

/// Whether an objective is an integer name where one is sought, and is left out otherwise, and a second one is an
/// integer name where there is one.
fn objectives_fit(
    scope: &Scope,
    kind: GoalKind,
    objective: &Option<Name>,
    second: &Option<Name>,
) -> bool
    ensures { result ≡ objectives_fit scope.now kind objective.now second.now }
{
    match kind {
        GoalKind::Satisfy => objective.is_none() && second.is_none(),
        GoalKind::Minimize | GoalKind::Maximize => match objective {
            Some(name) => is_int(scope.kind_of(name)) && second_fits(scope, second),
            None => false,
        },
    }
}

/// The first fault of a goal, which is item `number`.
fn goal_fault(
    scope: &Scope,
    number: u64,
    kind: GoalKind,
    objective: &Option<Name>,
    second: &Option<Name>,
) -> Option<TypeFault>
    ensures { result ≡ goal_fault number scope.now kind objective.now second.now }
{
    if objective_unknown(scope, objective) || objective_unknown(scope, second) {
        return Some(TypeFault::Undeclared(number));
    }
    if !objectives_fit(scope, kind, objective, second) {
        return Some(TypeFault::Kind(number));
    }
    None
}

/// The first fault of item `number`. It is linear in the item's size.
#[tactic(auto, unfolding(crate::specs::Faults::item_fault))]
pub(crate) fn item_fault(
    scope: &Scope,
    number: u64,
    after_goal: bool,
    item: &Item,
) -> Option<TypeFault>
    ensures { result ≡ item_fault number after_goal scope.now item.now }
{
    if after_goal {
        return Some(TypeFault::NoGoal(number));
    }
    match item {
        Item::Call { name, args } => match statement_of(name.as_bytes()) {
            Some(statement) => statement_fault(scope, number, statement, args.as_slice()),
            None => Some(TypeFault::Unknown(number)),
        },
        Item::Goal {
            kind,
            objective,
            second,
        } => goal_fault(scope, number, *kind, objective, second),
    }
}
