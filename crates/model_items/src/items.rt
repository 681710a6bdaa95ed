//! The items of a model, one at a time.

ghost use Rattle.std.specs.Prelude.{◌≡◌, ◌∷◌, [], MatchOption};
ghost use Rattle.model_meaning.specs.Limits.{DeclsInLimit, StmtsInLimit};
ghost use Rattle.model_items.specs.Items.{items_of};
ghost use Rattle.model_items.specs.ItemLimits.{ItemsInLimit};
ghost use Rattle.model_items.specs.Lent.{lent_item};

use model_meaning::{Decl, Stmt};
use std::marker::Model;

/// An item of a model.
#[derive(Drop)]
pub enum Item<'a> {
    /// A declaration.
    Declaration(&'a Decl),
    /// A statement.
    Statement(&'a Stmt),
    /// A `bool2int` and the integer that it declares.
    Definition(&'a Decl, &'a Stmt),
}

/// What is left of a walk along the items of a model. A contract sees the items that are left.
#[derive(Drop)]
pub struct Items<'a> {
    decls: &'a [Decl],
    stmts: &'a [Stmt],
}

impl<'a> Model for Items<'a> {
    ghost use Rattle.std.specs.Prelude.{List};
    ghost use Rattle.model_items.specs.Items.{ModelItem, items_of};

    ghost Value = { List ModelItem };

    ghost view = { λ items. items_of items.decls.now items.stmts.now };
}

impl<'a> Items<'a> {
    /// The items of some declarations and statements, each of which are in the order of their numbers.
    pub fn of(decls: &'a [Decl], stmts: &'a [Stmt]) -> Items<'a>
        ensures items { result ≡ items_of decls.now stmts.now }
        ensures limits { DeclsInLimit decls.now → StmtsInLimit stmts.now → ItemsInLimit result }
    {
        Items { decls, stmts }
    }

    #[tactic(auto, using(crate::proofs::Steps::steps))]
    /// The next item. It takes constant time and no memory.
    pub fn next_item(&mut self) -> Option<Item<'a>>
        ensures { MatchOption result (self.old ≡ []) (λ i. self.old ≡ lent_item i ∷ self.new) }
    {
        let Some((decl, decls)) = self.decls.split_first() else {
            let (stmt, stmts) = self.stmts.split_first()?;
            self.stmts = stmts;
            return Some(Item::Statement(stmt));
        };
        let Some((stmt, stmts)) = self.stmts.split_first() else {
            self.decls = decls;
            return Some(Item::Declaration(decl));
        };
        if stmt.number < decl.number {
            self.stmts = stmts;
            return Some(Item::Statement(stmt));
        }
        self.decls = decls;
        if stmt.number > decl.number {
            return Some(Item::Declaration(decl));
        }
        self.stmts = stmts;
        Some(Item::Definition(decl, stmt))
    }
}
