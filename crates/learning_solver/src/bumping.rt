//! The variables that a conflict bumps: those that its analysis met, and of the reasons of the learned clause's literals
//! the other variables above level 0 (Liang, Ganesh, Poupart and Czarnecki 2016). They are one step away from the
//! conflict, and refutations get much shorter where they are bumped, too. Each is bumped once.

ghost use Rattle.clause_arena.specs.Clauses.{IsLive};
ghost use Rattle.clause_rings.specs.Clauses.{IsDb};

use clause_rings::ClauseDb;
use order_ints::Lit;
use std::alloc::{AllocError, Global};

/// The variables of a conflict. Its room is kept for the next one: a byte for each variable, and four for each that
/// is bumped.
#[derive(Drop)]
pub struct Bumped {
    /// The variables, each once.
    pub list: Vec<u32>,
    /// Whether a variable stands in the list.
    marks: Vec<bool>,
}

impl Bumped {
    /// None of the variables 1 to `vars`.
    pub fn with(alloc: Global, vars: u32) -> Result<Bumped, AllocError> {
        let marks = vec![in alloc; false; vars as usize + 1]?;
        Ok(Bumped {
            list: Vec::new(alloc),
            marks,
        })
    }

    /// Empties the list.
    fn clear(&mut self) {
        for v in &self.list {
            if let Some(mark) = self.marks.get_mut(*v as usize) {
                *mark = false;
            }
        }
        self.list.clear();
    }

    /// Puts a variable into the list, unless it stands there.
    fn put(&mut self, v: u32) -> Result<(), AllocError> {
        let Some(mark) = self.marks.get_mut(v as usize) else {
            return Ok(());
        };
        if !*mark {
            self.list.push(v)?;
            *mark = true;
        }
        Ok(())
    }

    /// Puts the variables of a clause into the list that have values of a level above 0.
    fn put_clause(&mut self, db: &ClauseDb, c: u32) -> Result<(), AllocError>
        requires db { IsDb db.now.clauses db.now.trail }
        requires live { IsLive db.now.clauses c }
    {
        for place in 0..db.len(c) {
            let var = db.lit_at(c, place).var;
            if db.level_of(var) != Some(0) {
                self.put(var)?;
            }
        }
        Ok(())
    }

    /// Lists the variables that the analysis met, and behind them those above level 0 of the reasons of a learned clause.
    pub fn gather(&mut self, db: &ClauseDb, met: &[u32], learned: &[Lit]) -> Result<(), AllocError>
        requires { IsDb db.now.clauses db.now.trail }
    {
        self.clear();
        for v in met {
            self.put(*v)?;
        }
        for l in learned {
            if l.var <= db.vars()
                && let Some(c) = db.reason(l.var)
                && db.is_live(c)
            {
                self.put_clause(db, c)?;
            }
        }
        Ok(())
    }
}
