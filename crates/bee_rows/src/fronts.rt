//! Runs in which a text is cut at each byte.

use crate::comparison::Wanted;
use crate::outside::{AMPLE, Call, Shown};
use std::alloc::{AllocError, Global};

/// Which text is cut, and how such runs end.
#[derive(Clone, Copy)]
pub struct Cut<'a> {
    /// The name of the text.
    pub name: &'a str,
    /// The exit code and the status in words, to which the number of a line comes.
    pub end: &'a str,
    /// A digit for each length from 0 on: the line at which a text that is cut so ends the run, or 0 where it does what
    /// the whole one does. Without one a text ends the run at the line in which it was cut.
    pub lines: &'a str,
}

/// The line in which a text was cut.
fn line_of(front: &[u8]) -> u64 {
    let mut line: u64 = 1;
    for byte in front {
        if *byte == b'\n' {
            line = line.saturating_add(1);
        }
    }
    line
}

/// The digit at a place; 9 where there is none.
fn digit_at(digits: &str, place: usize) -> u64 {
    match digits.as_bytes().get(place) {
        Some(digit) => u64::from(digit.wrapping_sub(b'0')),
        None => 9,
    }
}

/// Makes a run with another text under a name.
fn run_with<'x>(
    alloc: Global,
    call: &Call<'x>,
    name: &str,
    text: &'x [u8],
) -> Result<Shown, AllocError> {
    let mut texts = Vec::new(alloc);
    for (other, whole) in call.texts.as_slice() {
        texts.push((*other, if *other == name { text } else { *whole }))?;
    }
    let words = Vec::from_slice(alloc, call.words.as_slice())?;
    Call { words, texts }.run(alloc, AMPLE)
}

/// What comes otherwise of a run with a front of the text.
fn front_run<'x>(
    alloc: Global,
    call: &Call<'x>,
    cut: Cut<'_>,
    front: &'x [u8],
    whole: &Wanted<'_>,
) -> Result<Option<String>, AllocError> {
    let line = if cut.lines.is_empty() {
        line_of(front)
    } else {
        digit_at(cut.lines, front.len())
    };
    let run = run_with(alloc, call, cut.name, front)?;
    let told = if line == 0 {
        run.difference(alloc, whole)?
    } else {
        let end = format!(in alloc; "{} {line}", cut.end)?;
        run.other_end(alloc, end.as_str())?
    };
    match told {
        Some(told) => Ok(Some(format!(in alloc; "{told}, cut at byte {}", front.len())?)),
        None => Ok(None),
    }
}

/// What comes otherwise of a run with each front of the text in turn. A text that isn't there is told, as it has none.
pub fn fronts_end(
    alloc: Global,
    call: &Call<'_>,
    cut: Cut<'_>,
    whole: &Wanted<'_>,
) -> Result<Option<String>, AllocError> {
    let text = call.text(cut.name);
    if text.is_empty() {
        return Ok(Some(String::from_str(alloc, "has no text to cut")?));
    }
    for length in 0..text.len().max(cut.lines.len()) {
        let front = text.get(..length).unwrap_or(text);
        let told = front_run(alloc, call, cut, front, whole)?;
        if told.is_some() {
            return Ok(told);
        }
    }
    Ok(None)
}
