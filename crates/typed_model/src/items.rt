//! What an item declares, states and seeks.

ghost use Rattle.std.specs.Prelude.{◌≡◌, ◌++◌, OnOk, IfOk, slice_get};
ghost use Rattle.std.specs.Option.{option_copied};
ghost use Rattle.typed_model.specs.Items.{declare_name, declare, domain_in, declare_by, objective_place, second_place};
ghost use Rattle.typed_model.specs.Items.{goal_of, name_in};

use crate::call::numerals;
use crate::faults::numeral_in;
use crate::scope::Scope;
use bumblebee_reader::{Arg, GoalKind, Name, Term};
use model_meaning::{Decl, Goal, Kind, Statement, Values};
use std::alloc::{AllocError, Global};

/// The name that an argument is.
fn name_in(args: &[Arg], at: usize) -> Option<&Name>
    ensures { option_copied result ≡ name_in (slice_get args.now at) }
{
    match args.get(at) {
        Some(Arg::One(Term::Plain(name))) => Some(name),
        _ => None,
    }
}

/// Declares a name where it isn't declared.
fn declare_name(scope: &mut Scope, number: u64, name: &Name, kind: Kind) -> Result<(), AllocError>
    ensures { OnOk result (scope.new ≡ scope.old ++ declare_name number scope.old name.now kind) }
{
    if scope.place_of(name).is_some() {
        return Ok(());
    }
    let name = name.clone()?;
    scope.add(Decl { number, name, kind })
}

/// Declares the name of an argument where it isn't declared.
fn declare(
    scope: &mut Scope,
    number: u64,
    args: &[Arg],
    at: usize,
    kind: Kind,
) -> Result<(), AllocError>
    ensures { OnOk result (scope.new ≡ scope.old ++ declare number scope.old (name_in (slice_get args.now at)) kind) }
{
    match name_in(args, at) {
        Some(name) => declare_name(scope, number, name, kind),
        None => Ok(()),
    }
}

/// The domain that `new_int` declares: the listed values, or those from a numeral to another.
fn domain_in(alloc: Global, args: &[Arg]) -> Result<Kind, AllocError>
    ensures { IfOk result (λ kind. kind ≡ domain_in (slice_get args.now 1) (slice_get args.now 2)) }
{
    match args.get(1) {
        Some(Arg::Many(terms)) => {
            let listed = numerals(alloc, terms.as_slice())?.into_vec();
            Ok(Kind::Listed {
                values: Values::from_vec(alloc, listed)?,
            })
        }
        _ => Ok(Kind::Range {
            low: numeral_in(args, 1),
            high: numeral_in(args, 2),
        }),
    }
}

/// Declares what item `number` declares.
#[tactic(auto, unfolding(crate::specs::Items::declare_by))]
pub(crate) fn declare_by(
    alloc: Global,
    scope: &mut Scope,
    number: u64,
    statement: Statement,
    args: &[Arg],
) -> Result<(), AllocError>
    ensures { OnOk result (scope.new ≡ scope.old ++ declare_by number scope.old statement args.now) }
{
    match statement {
        Statement::NewBool => declare(scope, number, args, 0, Kind::Bool),
        Statement::NewInt => {
            let kind = domain_in(alloc, args)?;
            declare(scope, number, args, 0, kind)
        }
        Statement::BoolToInt => declare(scope, number, args, 1, Kind::Range { low: 0, high: 1 }),
        _ => Ok(()),
    }
}

/// The place of an objective.
fn objective_place(scope: &Scope, objective: &Option<Name>) -> usize
    ensures { result ≡ objective_place scope.now objective.now }
{
    match objective {
        Some(name) => scope.place_or_zero(name),
        None => 0,
    }
}

/// The place of a second objective, where there is one.
fn second_place(scope: &Scope, second: &Option<Name>) -> Option<usize>
    ensures { result ≡ second_place scope.now second.now }
{
    match second {
        Some(name) => Some(scope.place_or_zero(name)),
        None => None,
    }
}

/// What a goal seeks.
pub(crate) fn goal_of(
    scope: &Scope,
    kind: GoalKind,
    objective: &Option<Name>,
    second: &Option<Name>,
) -> Goal
    ensures { result ≡ goal_of scope.now kind objective.now second.now }
{
    match kind {
        GoalKind::Satisfy => Goal::Satisfy,
        GoalKind::Minimize => Goal::Minimize(
            objective_place(scope, objective),
            second_place(scope, second),
        ),
        GoalKind::Maximize => Goal::Maximize(
            objective_place(scope, objective),
            second_place(scope, second),
        ),
    }
}
