//! A compiled text, as far as it is read.

ghost use Rattle.std.specs.Prelude.{◌≡◌, ◌⊎◌, ◌∷◌, ◌++◌, [], map, ◌↔◌, IfOk, IsTrue};
ghost use Rattle.std.specs.Prelude.{MatchBool};
ghost use Rattle.bumblebee_reader.specs.Names.{IsNew};
ghost use Rattle.dimacs_read.specs.declared.draft.TextStage.TheVariants.{Start, Names, Steps, Clauses};
ghost use Rattle.dimacs_read.specs.TextSteps.{Draft, nothing_read, IsNamed, IsLedgered, IsProblem, IsClause, NextAt};
ghost use Rattle.dimacs_read.specs.TextSteps.{NextLine, IsComplete, MayHaveNumbers, FailsBefore, vars_of, held};
ghost use Rattle.dimacs_read.specs.TextLines.{first_above};

use crate::above::first_above;
use crate::entry::read_entry;
use crate::lines::{Numbers, is_heading, read_clause, read_ledger, read_numbers};
use bee_list::Sequence;
use bumblebee_reader::Name;
use dimacs_out::CnfText;
use indexmap::IndexSet;
use ledger_text::Line;
use line_texts::{LineTaken, LineTaker};
use name_map::MapEntry;
use order_ints::{Cnf, Lit};
use std::alloc::{AllocError, Global};
use std::marker::Model;

/// The greatest number of variables.
const MOST: u32 = 1 << 26;

/// How far a text is read.
#[derive(Clone, Copy)]
pub(crate) enum TextStage {
    /// Before its first line.
    Start,
    /// Among the lines of the names.
    Names,
    /// Among the lines of the ledger.
    Steps,
    /// Behind the line that tells how many variables and clauses there are.
    Clauses {
        /// The number of variables.
        vars: u32,
        /// The number of clauses.
        count: u64,
    },
}

impl TextStage {
    /// The number of variables that was told, or 0.
    fn vars(self) -> u32
        ensures { result ≡ vars_of self }
    {
        match self {
            TextStage::Clauses { vars, count: _ } => vars,
            TextStage::Start | TextStage::Names | TextStage::Steps => 0,
        }
    }
}

/// What a text told so far. A name takes a look-up in a hash set.
#[derive(Drop)]
pub(crate) struct DraftText {
    stage: TextStage,
    names: IndexSet<Name>,
    entries: Vec<MapEntry>,
    ledger: Vec<Line>,
    clauses: Vec<Sequence<Lit>>,
}

impl Model for DraftText {
    ghost use Rattle.std.specs.Prelude.{◌≡◌, map};
    ghost use Rattle.dimacs_read.specs.TextSteps.{Draft};

    ghost Value = { Draft };

    ghost view = { λ d. record {
      stage = d.stage;
      entries = d.entries.items;
      ledger = d.ledger.items;
      clauses = d.clauses.items;
    } };

    ghost invariant = { λ d. d.names.keys ≡ map (λ e. e.name) d.entries.items };
}

impl DraftText {
    /// Nothing is read.
    pub(crate) fn new(alloc: Global) -> DraftText
        ensures { result ≡ nothing_read }
    {
        DraftText {
            stage: TextStage::Start,
            names: IndexSet::new(alloc),
            entries: Vec::new(alloc),
            ledger: Vec::new(alloc),
            clauses: Vec::new(alloc),
        }
    }

    /// Adds a name and what it stands for, if the name is new.
    fn add_entry(&mut self, entry: MapEntry) -> Result<bool, AllocError>
        ensures { IfOk result
            (λ added. MatchBool added (IsNew entry.name (map (λ e. e.name) self.old.entries)
            × (self.new ≡ record {
              stage = Names;
              entries = self.old.entries ++ entry ∷ [];
              ledger = self.old.ledger;
              clauses = self.old.clauses;
            }))
            ((IsNew entry.name (map (λ e. e.name) self.old.entries) → ⊥) × (self.new ≡ self.old))) }
    {
        let name = entry.name.clone()?;
        self.entries.reserve(1)?;
        if !self.names.insert(name)? {
            return Ok(false);
        }
        self.stage = TextStage::Names;
        self.entries.push(entry).unwrap();
        Ok(true)
    }

    /// Takes the line of a name.
    fn take_name(&mut self, alloc: Global, line: &[u8]) -> Result<bool, AllocError>
        ensures { IfOk result
            (λ taken. MatchBool taken (IsNamed self.old line.now self.new)
            (((t : Draft) → IsNamed self.old line.now t → ⊥) × (self.new ≡ self.old))) }
    {
        match read_entry(alloc, line)? {
            Some(entry) => {
                let added = self.add_entry(entry)?;
                Ok(added)
            }
            None => Ok(false),
        }
    }

    /// Takes the line of a ledger line.
    fn take_step(&mut self, line: &[u8]) -> Result<bool, AllocError>
        ensures { IfOk result
            (λ taken. MatchBool taken (IsLedgered self.old line.now self.new)
            (((t : Draft) → IsLedgered self.old line.now t → ⊥) × (self.new ≡ self.old))) }
    {
        match read_ledger(line) {
            Some(step) => {
                self.ledger.push(step)?;
                self.stage = TextStage::Steps;
                Ok(true)
            }
            None => Ok(false),
        }
    }

    /// The number of the first line that has a variable above `vars`.
    fn first_above(&self, vars: u32) -> Option<u64>
        ensures { result ≡ first_above vars self.now.entries self.now.ledger }
    {
        first_above(vars, self.entries.as_slice(), self.ledger.as_slice())
    }

    /// Takes the line that tells the numbers of variables and clauses.
    fn take_numbers(&mut self, line: &[u8]) -> bool
        ensures { MatchBool result (IsProblem self.old line.now self.new)
            (((t : Draft) → IsProblem self.old line.now t → ⊥) × (self.new ≡ self.old)) }
    {
        match read_numbers(line) {
            Some(Numbers { vars, count }) => {
                if vars <= MOST && self.first_above(vars).is_none() {
                    self.stage = TextStage::Clauses { vars, count };
                    true
                } else {
                    false
                }
            }
            None => false,
        }
    }

    /// Takes the line of a clause.
    fn take_clause(
        &mut self,
        alloc: Global,
        numbers: Numbers,
        line: &[u8],
    ) -> Result<bool, AllocError>
        requires { self.old.stage ≡ Clauses numbers.vars numbers.count }
        ensures { IfOk result
            (λ taken. MatchBool taken (IsClause numbers.vars numbers.count self.old line.now self.new)
            (((t : Draft) → IsClause numbers.vars numbers.count self.old line.now t → ⊥)
            × (self.new ≡ self.old))) }
    {
        if self.clauses.len() as u64 >= numbers.count {
            return Ok(false);
        }
        match read_clause(alloc, line, numbers.vars)? {
            Some(clause) => {
                self.clauses.push(clause)?;
                Ok(true)
            }
            None => Ok(false),
        }
    }

    /// Takes the first line.
    fn take_heading(&mut self, line: &[u8]) -> bool
        ensures { MatchBool result (NextAt Start self.old line.now self.new)
            (((t : Draft) → NextAt Start self.old line.now t → ⊥) × (self.new ≡ self.old)) }
    {
        if is_heading(line) {
            self.stage = TextStage::Names;
            true
        } else {
            false
        }
    }

    /// Takes a line behind the names.
    fn take_behind_names(&mut self, line: &[u8]) -> Result<bool, AllocError>
        ensures { IfOk result
            (λ taken. MatchBool taken (IsLedgered self.old line.now self.new ⊎ IsProblem self.old line.now self.new)
            (((t : Draft) → IsLedgered self.old line.now t ⊎ IsProblem self.old line.now t → ⊥)
            × (self.new ≡ self.old))) }
    {
        if self.take_step(line)? {
            return Ok(true);
        }
        Ok(self.take_numbers(line))
    }

    /// Takes a line among the names.
    fn take_among_names(&mut self, alloc: Global, line: &[u8]) -> Result<bool, AllocError>
        ensures { IfOk result
            (λ taken. MatchBool taken (NextAt Names self.old line.now self.new)
            (((t : Draft) → NextAt Names self.old line.now t → ⊥) × (self.new ≡ self.old))) }
    {
        if self.take_name(alloc, line)? {
            return Ok(true);
        }
        let taken = self.take_behind_names(line)?;
        Ok(taken)
    }

    /// Takes a line, if it is the next. A line that isn't leaves all as it was.
    fn take_next(&mut self, alloc: Global, line: &[u8]) -> Result<bool, AllocError>
        ensures { IfOk result
            (λ taken. MatchBool taken (NextLine self.old line.now self.new)
            (((t : Draft) → NextLine self.old line.now t → ⊥) × (self.new ≡ self.old))) }
    {
        match self.stage {
            TextStage::Start => Ok(self.take_heading(line)),
            TextStage::Names => {
                let taken = self.take_among_names(alloc, line)?;
                Ok(taken)
            }
            TextStage::Steps => {
                let taken = self.take_behind_names(line)?;
                Ok(taken)
            }
            TextStage::Clauses { vars, count } => {
                let taken = self.take_clause(alloc, Numbers { vars, count }, line)?;
                Ok(taken)
            }
        }
    }

    /// The number of the line before it that fails for a line that may tell the numbers, but isn't the next.
    fn numbers_fault(&self, line: &[u8]) -> Option<u64>
        requires { MayHaveNumbers self.now.stage }
        ensures { FailsBefore self.now line.now result }
    {
        match read_numbers(line) {
            Some(numbers) => self.first_above(numbers.vars),
            None => None,
        }
    }

    /// The number of the line before it that fails for a line that isn't the next, if there is one.
    fn fault_before(&self, line: &[u8]) -> Option<u64>
        ensures { FailsBefore self.now line.now result }
    {
        match self.stage {
            TextStage::Names => self.numbers_fault(line),
            TextStage::Steps => self.numbers_fault(line),
            TextStage::Start => None,
            TextStage::Clauses { vars: _, count: _ } => None,
        }
    }

    /// Whether the text may end: as many clauses stand as was told.
    fn is_complete(&self) -> bool
        ensures { IsTrue result ↔ IsComplete self.now }
    {
        match self.stage {
            TextStage::Clauses { vars: _, count } => self.clauses.len() as u64 == count,
            TextStage::Start | TextStage::Names | TextStage::Steps => false,
        }
    }

    /// What was told.
    pub(crate) fn finish(self) -> CnfText
        ensures { result ≡ held self }
    {
        let DraftText {
            stage,
            names,
            entries,
            ledger,
            clauses,
        } = self;
        drop(names);
        CnfText {
            entries: Sequence::from_vec(entries),
            ledger: Sequence::from_vec(ledger),
            cnf: Cnf {
                vars: stage.vars(),
                clauses: Sequence::from_vec(clauses),
            },
        }
    }
}

impl LineTaker for DraftText {
    ghost use Rattle.dimacs_read.specs.TextSteps.{NextLine, FailsBefore, IsComplete};

    type Against = ();

    type Cause = Option<u64>;

    ghost next = { λ _. NextLine };

    ghost ended = { λ s. IsComplete s };

    ghost because = { λ _. FailsBefore };

    fn take_line(
        &mut self,
        alloc: Global,
        _against: &(),
        line: &[u8],
    ) -> Result<LineTaken<Option<u64>>, AllocError> {
        if self.take_next(alloc, line)? {
            return Ok(LineTaken::Next);
        }
        Ok(LineTaken::Misfit(self.fault_before(line)))
    }

    fn is_ended(&self) -> bool {
        self.is_complete()
    }
}
