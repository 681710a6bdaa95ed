//! A run as a transcript has it, with what is done to it and what it is to show.

ghost use Rattle.std.specs.Prelude.{◌≤◌};

use crate::comparison::Wanted;
use crate::damage::calls_fail;
use crate::fronts::{Cut, fronts_end};
use crate::outside::{AMPLE, Call, Outside};
use std::alloc::{AllocError, Global};

/// A run.
#[derive(Drop)]
pub struct Run<'a> {
    /// The words, and the name under which what is written stands on the shelf from there on, if any.
    pub typed: &'a str,
    step: usize,
    room: usize,
    shelf_failing: Vec<u64>,
    sink_failing: Vec<u64>,
    err_failing: Vec<u64>,
    /// Whether each call fails in turn.
    each_fails: bool,
    /// The text that is cut; of no name where none is.
    cut: Cut<'a>,
    /// The exit code and the status.
    pub end: &'a str,
    pub out: Vec<u8>,
    /// Whether what is written goes on.
    pub goes_on: bool,
    pub err: Vec<u8>,
}

/// Pushes a line. A carriage return at its end is written out, and so is that its end is behind a blank.
pub fn push_line(text: &mut Vec<u8>, line: &str) -> Result<(), AllocError> {
    if let Some(front) = line.strip_suffix("\\r") {
        text.extend_from_slice(front.as_bytes())?;
        text.push(b'\r')?;
    } else {
        let front = line.strip_suffix("\\e").unwrap_or(line);
        text.extend_from_slice(front.as_bytes())?;
    }
    text.push(b'\n')?;
    Ok(())
}

impl<'a> Run<'a> {
    /// A run of no words, with ample room, large steps and no fault, that is done and shows nothing.
    pub fn new(alloc: Global) -> Run<'a> {
        Run {
            typed: "",
            step: AMPLE.step,
            room: AMPLE.room,
            shelf_failing: Vec::new(alloc),
            sink_failing: Vec::new(alloc),
            err_failing: Vec::new(alloc),
            each_fails: false,
            cut: Cut {
                name: "",
                end: "",
                lines: "",
            },
            end: "0 done",
            out: Vec::new(alloc),
            goes_on: false,
            err: Vec::new(alloc),
        }
    }

    /// How often and where the outside fails.
    fn outside(&self) -> Outside<'_>
        ensures { 1 ≤ result.step }
    {
        Outside {
            step: self.step.max(1),
            room: self.room,
            shelf_failing: self.shelf_failing.as_slice(),
            sink_failing: self.sink_failing.as_slice(),
            err_failing: self.err_failing.as_slice(),
        }
    }

    /// What it is to show.
    fn wanted(&self) -> Wanted<'_> {
        Wanted {
            end: self.end,
            out: self.out.as_slice(),
            goes_on: self.goes_on,
            err: self.err.as_slice(),
        }
    }

    /// Takes a number behind a word, and tells whether the word has one.
    fn take_number(&mut self, word: &str, number: u64) -> Result<bool, AllocError> {
        match word {
            "step" => self.step = number as usize,
            "room" => self.room = number as usize,
            "shelf" => self.shelf_failing.push(number)?,
            "sink" => self.sink_failing.push(number)?,
            "err" => self.err_failing.push(number)?,
            _ => return Ok(false),
        }
        Ok(true)
    }

    /// Takes a word and the numbers behind it, and tells whether all are.
    fn take_numbers(&mut self, rest: &str) -> Result<bool, AllocError> {
        let (word, numbers) = rest.split_once(' ').unwrap_or((rest, ""));
        for number in numbers.split(' ') {
            let taken = match number.parse::<u64>() {
                Ok(number) => self.take_number(word, number)?,
                Err(_) => false,
            };
            if !taken {
                return Ok(false);
            }
        }
        Ok(true)
    }

    /// Takes what is done to it, and tells whether it is known.
    pub fn change(&mut self, sign: &str, rest: &'a str) -> Result<bool, AllocError> {
        match sign {
            "~" => self.take_numbers(rest),
            "%" => {
                self.each_fails = true;
                let step = rest.parse::<u64>().unwrap_or(0);
                self.take_number("step", step)
            }
            "/" => {
                let (name, end) = rest.split_once(' ').unwrap_or((rest, ""));
                self.cut.name = name;
                self.cut.end = end;
                Ok(true)
            }
            ":" => {
                self.cut.lines = rest;
                Ok(true)
            }
            _ => Ok(false),
        }
    }

    /// Makes the run. What it writes, and what it shows otherwise than it is to.
    pub fn try_call(
        &self,
        alloc: Global,
        call: &Call<'_>,
    ) -> Result<(Vec<u8>, Option<String>), AllocError> {
        let wanted = self.wanted();
        if !self.cut.name.is_empty() {
            let told = fronts_end(alloc, call, self.cut, &wanted)?;
            return Ok((Vec::new(alloc), told));
        }
        let outside = self.outside();
        let shown = call.run(alloc, outside)?;
        let mut told = shown.difference(alloc, &wanted)?;
        if told.is_none() && self.each_fails {
            told = calls_fail(alloc, call, outside.step, &shown)?;
        }
        Ok((Vec::from_slice(alloc, shown.out.taken())?, told))
    }
}
