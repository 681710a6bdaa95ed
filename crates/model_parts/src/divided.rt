//! A model that is divided into a part and what is left out.

ghost use Rattle.std.specs.Prelude.{◌≡◌, [], IfOk};
ghost use Rattle.model_meaning.specs.declared.model.Model.{Model as AnyModel};
ghost use Rattle.model_parts.specs.Sides.{IsDivided, IsMoved};

use crate::moving::{Sides, part_by, weave};
use bee_list::Sequence;
use model_meaning::{Decl, Goal, Model, Stmt};
use std::alloc::{AllocError, Global};

/// A model whose statements are on two sides: those of the part that is asked about, and those that are left out. It
/// owns them all.
#[derive(Drop)]
pub struct DividedModel {
    /// The declarations, and the statements that are kept.
    part: Model,
    /// The statements that are left out.
    left: Vec<Stmt>,
    /// Which of all statements are left out.
    out: Vec<bool>,
}

impl DividedModel {
    /// A model all of whose statements are kept. It takes no memory.
    pub fn new(alloc: Global, model: Model) -> DividedModel
        ensures divided { IsDivided model result }
        ensures all { result.out.items ≡ [] }
    {
        let Model {
            decls,
            stmts,
            goal: _,
        } = model;
        let part = Model {
            decls,
            stmts,
            goal: Goal::Satisfy,
        };
        DividedModel {
            part,
            left: Vec::new(alloc),
            out: Vec::new(alloc),
        }
    }

    /// Puts the statements on their sides by other marks.
    fn moved(self, alloc: Global, out: Vec<bool>) -> Result<DividedModel, AllocError>
        ensures { IfOk result (IsMoved self out.items) }
    {
        let DividedModel {
            part,
            left,
            out: before,
        } = self;
        let Model { decls, stmts, goal } = part;
        let all = weave(alloc, before.as_slice(), stmts.into_vec(), left)?;
        let Sides { kept, left } = part_by(alloc, all, out.as_slice())?;
        let part = Model {
            decls,
            stmts: Sequence::from_vec(kept),
            goal,
        };
        Ok(DividedModel { part, left, out })
    }

    /// Moves each statement to its side: it is left out where its place is marked, counted from the first statement
    /// of the whole model, and else kept. It takes time linear in their number.
    pub fn choose(self, alloc: Global, out: Vec<bool>) -> Result<DividedModel, AllocError>
        ensures divided { (model : AnyModel) → IsDivided model self → IfOk result (IsDivided model) }
        ensures moved { IfOk result (IsMoved self out.items) }
    {
        self.moved(alloc, out)
    }

    /// The model with the statements that are kept.
    pub fn part(&self) -> &Model
        ensures { result.now ≡ self.now.part }
    {
        &self.part
    }

    /// The declarations.
    pub fn into_decls(self) -> Sequence<Decl>
        ensures { result ≡ self.part.decls }
    {
        let DividedModel { part, .. } = self;
        let Model { decls, .. } = part;
        decls
    }
}
