//! What a round aims at: values much better than the best one so far. A round asks for any better value, but decides
//! first that the value is better by a third of the gap to the best one that is hoped for, then by a ninth, and so on.
//! So few rounds lead to a good value, and nothing is promised of it. A target that was given up is hoped for no more,
//! unless something better is found.

ghost use Rattle.std.specs.Prelude.{◌+◌, length};
ghost use Rattle.decode_minimize.specs.Objectives.{IsObjective};

use crate::improving::Sought;
use crate::objective::{Direction, bound_of};
use order_ints::{Atom, Lit, resolve};
use std::alloc::{AllocError, Global};

/// The first target is better by the gap divided by this number, each further one by so many times less. A nearer first
/// target is refuted less often, a further one takes fewer rounds.
const SHARE: u64 = 3;

/// The targets of a round.
#[derive(Drop)]
pub struct Targets {
    /// Where targets were given up, the worst of their values.
    end: Option<i64>,
    /// The value of each target, the best one first: what is better hits it.
    numbers: Vec<i64>,
    /// A literal for each, that a better value makes true.
    lits: Vec<Lit>,
}

/// The best value of the integer's domain.
fn best_value(sought: &Sought<'_>) -> i64
    requires { IsObjective (length sought.now.view.now + 1) sought.now.integer.now }
{
    let best = match sought.direction {
        Direction::Least => sought.integer.low(),
        Direction::Greatest => sought.integer.high(),
    };
    i64::try_from(best).unwrap_or(0)
}

/// A value that is better by so much.
fn better_by(direction: Direction, number: i64, by: u64) -> i64 {
    match direction {
        Direction::Least => number.saturating_sub_unsigned(by),
        Direction::Greatest => number.saturating_add_unsigned(by),
    }
}

/// Whether the first of two values is better.
fn is_better(direction: Direction, one: i64, other: i64) -> bool {
    match direction {
        Direction::Least => one < other,
        Direction::Greatest => one > other,
    }
}

/// The literal that says that the integer is better than a number, unless the store decides that.
fn better_than(sought: &Sought<'_>, number: i64) -> Option<Lit>
    requires { IsObjective (length sought.now.view.now + 1) sought.now.integer.now }
{
    let bound = bound_of(sought.direction, sought.integer, number);
    match resolve(sought.view, bound) {
        Atom::Of(literal) => Some(literal.negated()),
        Atom::True | Atom::False => None,
    }
}

impl Targets {
    /// None.
    pub fn new(alloc: Global) -> Targets {
        Targets {
            end: None,
            numbers: Vec::new(alloc),
            lits: Vec::new(alloc),
        }
    }

    /// The literals, that of the best value first.
    pub fn lits(&self) -> &[Lit] {
        self.lits.as_slice()
    }

    /// The first targets, so many, were given up.
    pub fn give_up(&mut self, count: usize) {
        if count > 0
            && let Some(number) = self.numbers.get(count - 1)
        {
            self.end = Some(*number);
        }
    }

    /// The best value that is hoped for, where a solution has this one.
    fn hoped_for(&self, sought: &Sought<'_>, number: i64) -> i64
        requires { IsObjective (length sought.now.view.now + 1) sought.now.integer.now }
    {
        match self.end {
            Some(end) if is_better(sought.direction, end, number) => end,
            _ => best_value(sought),
        }
    }

    /// Aims at values that are better than that of a solution.
    pub fn aim(&mut self, sought: &Sought<'_>, number: i64) -> Result<(), AllocError>
        requires { IsObjective (length sought.now.view.now + 1) sought.now.integer.now }
    {
        let mut by = number.abs_diff(self.hoped_for(sought, number));
        self.numbers.clear();
        self.lits.clear();
        'thirds: for _ in 0..u64::BITS {
            by /= SHARE;
            if by == 0 {
                break;
            }
            let target = better_by(sought.direction, number, by);
            if let Some(literal) = better_than(sought, target) {
                self.numbers.push(target)?;
                self.lits.push(literal)?;
            }
        }
        Ok(())
    }
}
