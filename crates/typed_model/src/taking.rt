//! The typing of items that come one at a time.

ghost use Rattle.std.specs.Prelude.{◌≡◌, ◌++◌, ◌∷◌, [], List, None, Some, Err, IfOk, IfErr, OnOk};
ghost use Rattle.std.specs.Prelude.{OnErr};
ghost use Rattle.bumblebee_reader.specs.declared.syntax.Item.{Item};
ghost use Rattle.typed_model.specs.declared.fault.TypeFault.{TypeFault};
ghost use Rattle.typed_model.specs.declared.fault.TypeFault.TheVariants.{Memory};
ghost use Rattle.model_meaning.specs.Names.{statement_of};
ghost use Rattle.typed_model.specs.Items.{declare_if, declarations_of, what_of, state, state_if, statements_of};
ghost use Rattle.typed_model.specs.Items.{goal_after, first_fault, model_of, IsFaultOf};
ghost use Rattle.typed_model.specs.Taken.{HasTaken, with_item};
ghost use Rattle.model_meaning.specs.WellTyped.{WellTyped};

use crate::call::Call;
use crate::fault::TypeFault;
use crate::faults::item_fault;
use crate::items::{declare_by, goal_of};
use crate::names::statement_of;
use crate::scope::Scope;
use crate::statements::what_of;
use bee_list::Sequence;
use bumblebee_reader::{Arg, Item, Name};
use model_meaning::{Goal, Model, Statement, Stmt};
use std::alloc::{AllocError, Global};

/// Adds what a call states, where it states anything.
fn state(
    call: &Call<'_>,
    stmts: &mut Vec<Stmt>,
    number: u64,
    statement: Statement,
) -> Result<(), AllocError>
    ensures { OnOk result (stmts.new.items ≡ stmts.old.items
        ++ state number (what_of call.now.scope.now call.now.name.now statement call.now.args.now)) }
{
    match what_of(call, statement)? {
        Some(what) => {
            stmts.push(Stmt { number, what })?;
            Ok(())
        }
        None => Ok(()),
    }
}

/// Adds what a call declares and states.
fn take_call(
    alloc: Global,
    scope: &mut Scope,
    stmts: &mut Vec<Stmt>,
    number: u64,
    name: &Name,
    args: &[Arg],
) -> Result<(), AllocError>
    ensures decls { OnOk result
        (scope.new ≡ scope.old ++ declare_if number scope.old (statement_of name.now) args.now) }
    ensures stmts { OnOk result (stmts.new.items ≡ stmts.old.items
        ++ state_if number scope.new name.now (statement_of name.now) args.now) }
{
    match statement_of(name.as_bytes()) {
        Some(statement) => {
            declare_by(alloc, scope, number, statement, args)?;
            let call = Call {
                alloc,
                scope,
                name,
                args,
            };
            state(&call, stmts, number, statement)
        }
        None => Ok(()),
    }
}

/// Adds what item `number` declares, states and seeks.
fn take_item(
    alloc: Global,
    scope: &mut Scope,
    stmts: &mut Vec<Stmt>,
    goal: &mut Option<Goal>,
    number: u64,
    item: &Item,
) -> Result<(), AllocError>
    ensures decls { OnOk result (scope.new ≡ scope.old ++ declarations_of number scope.old item.now) }
    ensures stmts { OnOk result (stmts.new.items ≡ stmts.old.items ++ statements_of number scope.new item.now) }
    ensures goal { OnOk result (goal.new ≡ goal_after goal.old scope.old item.now) }
{
    match item {
        Item::Call { name, args } => take_call(alloc, scope, stmts, number, name, args.as_slice()),
        Item::Goal {
            kind,
            objective,
            second,
        } => {
            *goal = Some(goal_of(scope, *kind, objective, second));
            Ok(())
        }
    }
}

/// What is known of items that are taken one at a time, so that each may be let go once it is taken. The first
/// fault is kept, and later items change nothing: a caller may go on to read a text for faults that come before
/// those of types. Want of memory is kept as a fault is.
#[derive(Drop)]
pub struct Typing {
    scope: Scope,
    stmts: Vec<Stmt>,
    goal: Option<Goal>,
    next: u64,
    fault: Option<TypeFault>,
}

impl std::marker::Model for Typing {
    ghost use Rattle.typed_model.specs.Taken.{Taken};

    ghost Value = { Taken };

    ghost view = { λ t.
        record { next = t.next; decls = t.scope; stmts = t.stmts.items; goal = t.goal; fault = t.fault } };
}

impl Typing {
    /// No item.
    pub fn new(alloc: Global) -> Typing
        ensures taken { HasTaken result [] }
    {
        Typing {
            scope: Scope::new(alloc),
            stmts: Vec::new(alloc),
            goal: None,
            next: 1,
            fault: None,
        }
    }

    /// Adds an item that has no fault. That no number is left for the next is want of memory too.
    fn add(&mut self, alloc: Global, item: &Item) -> Result<(), AllocError>
        ensures { OnOk result (self.new ≡ with_item self.old item.now) }
    {
        let Some(next) = self.next.checked_add(1) else {
            return Err(AllocError);
        };
        take_item(
            alloc,
            &mut self.scope,
            &mut self.stmts,
            &mut self.goal,
            self.next,
            item,
        )?;
        self.next = next;
        Ok(())
    }

    /// Takes one more item, in the time that its own size takes.
    pub fn take(&mut self, alloc: Global, item: &Item) -> Result<(), AllocError>
        ensures taken { (items : List Item) → HasTaken self.old items
            → OnOk result (HasTaken self.new (items ++ item.now ∷ [])) }
        ensures kept { (f : TypeFault) → self.old.fault ≡ Some f → self.new ≡ self.old }
        ensures failed { OnErr result (self.new.fault ≡ Some Memory) }
    {
        if self.fault.is_some() {
            return Ok(());
        }
        if let Some(fault) = item_fault(&self.scope, self.next, self.goal.is_some(), item) {
            self.fault = Some(fault);
            return Ok(());
        }
        match self.add(alloc, item) {
            Ok(()) => Ok(()),
            Err(error) => {
                self.fault = Some(TypeFault::Memory);
                Err(error)
            }
        }
    }

    /// The model of the items that were taken, or their first fault.
    pub fn finish(self) -> Result<Model, TypeFault>
        ensures accepted { (items : List Item) → HasTaken self items
            → IfOk result (λ m. first_fault items ≡ None) }
        ensures model { (items : List Item) → HasTaken self items → IfOk result (λ m. m ≡ model_of items) }
        ensures typed { (items : List Item) → HasTaken self items → IfOk result WellTyped }
        ensures fault { (items : List Item) → HasTaken self items → IfErr result (λ e. IsFaultOf e items) }
        ensures kept { (f : TypeFault) → self.fault ≡ Some f → result ≡ Err f }
    {
        let Typing {
            scope,
            stmts,
            goal,
            next,
            fault,
        } = self;
        if let Some(fault) = fault {
            return Err(fault);
        }
        match goal {
            Some(goal) => Ok(Model {
                decls: Sequence::from_vec(scope.into_decls()),
                stmts: Sequence::from_vec(stmts),
                goal,
            }),
            None => Err(TypeFault::NoGoal(next)),
        }
    }
}
