//! The state of a transcript that is played.

use crate::outside::Call;
use crate::run::{Run, push_line};
use std::alloc::{AllocError, Global};
use std::mem::replace;

/// What the lines that begin with two blanks go on.
#[derive(Clone, Copy)]
enum Open {
    Text,
    Written,
}

/// What stands on the shelf, and the run that was begun.
#[derive(Drop)]
pub struct Stage<'a> {
    alloc: Global,
    /// How many lines were taken.
    lines: u64,
    /// How many runs were made.
    runs: u64,
    /// All texts, the last of a name counts.
    texts: Vec<(&'a str, Vec<u8>)>,
    open: Open,
    run: Run<'a>,
    /// What was shown otherwise.
    told: String,
}

/// The last text of a name, if one has it.
fn last_text<'b>(texts: &'b [(&'b str, Vec<u8>)], name: &str) -> Option<&'b [u8]> {
    let mut last = None;
    for (other, text) in texts {
        if *other == name {
            last = Some(text.as_slice());
        }
    }
    last
}

/// The words of a run, and the texts that they name.
fn call_of<'b>(
    alloc: Global,
    words: &'b str,
    texts: &'b [(&'b str, Vec<u8>)],
) -> Result<Call<'b>, AllocError> {
    let mut call = Call {
        words: Vec::new(alloc),
        texts: Vec::new(alloc),
    };
    call.words.push("bee")?;
    for word in words.split(' ') {
        if !call.words.as_slice().contains(&word) {
            if let Some(text) = last_text(texts, word) {
                call.texts.push((word, text))?;
            }
        }
        call.words.push(word)?;
    }
    Ok(call)
}

impl<'a> Stage<'a> {
    /// An empty shelf, and no run.
    pub fn new(alloc: Global) -> Stage<'a> {
        Stage {
            alloc,
            lines: 0,
            runs: 0,
            texts: Vec::new(alloc),
            open: Open::Text,
            run: Run::new(alloc),
            told: String::new(alloc),
        }
    }

    /// Tells what is otherwise.
    fn tell(&mut self, words: &str, what: &str) -> Result<(), AllocError> {
        let line = self.lines;
        let told = format!(in self.alloc; "before line {line}: {words}: {what}\n")?;
        self.told.push_str(told.as_str())
    }

    /// Goes on with the text or with what is to be written.
    fn go_on(&mut self, line: &str) -> Result<(), AllocError> {
        match (self.open, self.texts.last_mut()) {
            (Open::Text, Some((_, text))) => push_line(text, line),
            _ => push_line(&mut self.run.out, line),
        }
    }

    /// Takes the last line feed away.
    fn cut_feed(&mut self) {
        match (self.open, self.texts.last_mut()) {
            (Open::Text, Some((_, text))) => text.pop(),
            _ => self.run.out.pop(),
        };
    }

    /// Makes the run that was begun, if one was.
    fn end_run(&mut self) -> Result<(), AllocError> {
        if self.run.typed.is_empty() {
            return Ok(());
        }
        let run = replace(&mut self.run, Run::new(self.alloc));
        let (words, kept) = run.typed.split_once(" > ").unwrap_or((run.typed, ""));
        let (out, told) = {
            let call = call_of(self.alloc, words, self.texts.as_slice())?;
            run.try_call(self.alloc, &call)?
        };
        self.runs = self.runs.saturating_add(1);
        if !kept.is_empty() {
            self.texts.push((kept, out))?;
        }
        match told {
            Some(what) => self.tell(words, what.as_str()),
            None => Ok(()),
        }
    }

    /// Begins a text.
    fn begin_text(&mut self, name: &'a str) -> Result<(), AllocError> {
        self.end_run()?;
        self.open = Open::Text;
        self.texts.push((name, Vec::new(self.alloc)))?;
        Ok(())
    }

    /// Begins a run.
    fn begin_run(&mut self, typed: &'a str) -> Result<(), AllocError> {
        self.end_run()?;
        self.open = Open::Written;
        self.run.typed = typed;
        Ok(())
    }

    /// Takes what is done to the next run.
    fn change(&mut self, sign: &str, rest: &'a str) -> Result<(), AllocError> {
        self.end_run()?;
        if !self.run.change(sign, rest)? {
            self.tell(rest, "does nothing to a run")?;
        }
        Ok(())
    }

    /// Takes a line that begins with a sign.
    fn take_sign(&mut self, sign: &str, rest: &'a str) -> Result<(), AllocError> {
        match sign {
            "@" => self.begin_text(rest),
            "$" => self.begin_run(rest),
            "!" => push_line(&mut self.run.err, rest),
            "=" => {
                self.run.end = rest;
                Ok(())
            }
            "..." => {
                self.run.goes_on = true;
                Ok(())
            }
            "\\" => {
                self.cut_feed();
                Ok(())
            }
            "" | "#" => Ok(()),
            _ => self.change(sign, rest),
        }
    }

    /// Takes the next line.
    pub fn take(&mut self, line: &'a str) -> Result<(), AllocError> {
        self.lines = self.lines.saturating_add(1);
        if let Some(rest) = line.strip_prefix("  ") {
            return self.go_on(rest);
        }
        let (sign, rest) = line.split_once(' ').unwrap_or((line, ""));
        self.take_sign(sign, rest)
    }

    /// Makes the last run, and tells what was shown otherwise, and how many runs there were.
    pub fn end(mut self) -> Result<String, AllocError> {
        self.end_run()?;
        let (told, runs) = (self.told.as_str(), self.runs);
        format!(in self.alloc; "{told}{runs} runs of ")
    }
}
