//! The text of what is wished for: values of the declared names of a model, as lines `NAME = VALUE`.
//!
//! Such a text may be an answer, what `--progress` wrote, or made by hand. A line is a value line
//! where a name, the sign `=` and a word stand in it, with single blanks between them; other lines
//! are passed over, and so are bytes behind the last line feed, since a run that was killed may leave
//! half a line. Of several values of a name the last one counts, and names may be missing.
//!
//! What it promises: `read_wish` refuses a text exactly where a value line tells no value of a
//! declared name, or one that isn't in the name's domain, and tells the first such line (`IsRead`, its
//! one clause). Of the values that it gives nothing is promised, since they are a wish and no more:
//! whoever takes them shows what comes of it. Lemmas: a text has one first line that fails, and none
//! where no line fails (`one_line`, `none_or_first`).
//!
//! Lines mostly come in the order of the declarations, so the next name is looked at first.
#![tactic(auto)]

mod shape;
mod wish;

pub use wish::{WishRead, read_wish};
