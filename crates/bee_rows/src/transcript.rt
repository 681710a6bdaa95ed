//! Runs as they would be typed at a terminal, with the texts that they read and all that they show.
//!
//! A transcript is a text of lines, told apart by the sign that they begin with:
//!
//! - `@ NAME`: a text of this name stands on the shelf from here on. The lines behind that begin with
//!   two blanks are its lines;
//! - `\`: the last of these lines has no line feed;
//! - `$ WORDS`: a run of `bee` with these words. The lines behind that begin with two blanks are what
//!   it writes. With `> NAME` behind the words that stands on the shelf from here on;
//! - `...`: what the run writes goes on, and what comes isn't compared;
//! - `! LINE`: a line on the sink for errors;
//! - `= CODE STATUS`: the exit code of the run, and its status in words with its number. Without it
//!   the run is done;
//! - `#`, and a line of no letter: for the reader.
//!
//! Before a run stands what is done to it:
//!
//! - `~ WORD NUMBERS`: the `room` of the sink in bytes, the bytes that one call gives or takes
//!   (`step`), or the calls of the `shelf`, of the `sink` or of that for errors (`err`) that fail;
//! - `% STEP`: it is made again with each of its calls failing in turn, each of which gives or takes
//!   so many bytes;
//! - `/ NAME CODE STATUS`: it is made with the text of this name cut at each byte, and ends so, at the
//!   line in which the text was cut;
//! - `: DIGITS`: for the lengths from 0 on, the line at which a text that is cut so ends the run; with
//!   0 it shows what is written behind it.
//!
//! `\r` at the end of a line stands for a carriage return, and `\e` for nothing, so that it is seen
//! where a line ends in a blank. A run is compared with all that stands behind it. What is shown
//! otherwise is told with the number of the line up to which the transcript was read.

use crate::stage::Stage;
use std::alloc::{AllocError, Global};

/// Plays a transcript. What is shown otherwise is told, and then how many runs were made.
pub fn play(alloc: Global, transcript: &str) -> Result<String, AllocError> {
    let mut stage = Stage::new(alloc);
    for line in transcript.split('\n') {
        stage.take(line)?;
    }
    stage.end()
}
