//! What a run is to show, and what of it is another than that.

use crate::outside::{Shown, text_of};
use std::alloc::{AllocError, Global};

/// What a run is to show.
#[derive(Clone, Copy)]
pub struct Wanted<'a> {
    /// The exit code, and the status in words with its number, if it has one.
    pub end: &'a str,
    /// The bytes that the sink takes.
    pub out: &'a [u8],
    /// Whether it takes some more, which aren't compared.
    pub goes_on: bool,
    /// The bytes that the sink for errors takes.
    pub err: &'a [u8],
}

/// Whether what was written is what was to be.
fn is_written(out: &[u8], wanted: &Wanted<'_>) -> bool {
    if wanted.goes_on {
        out.starts_with(wanted.out)
    } else {
        out == wanted.out
    }
}

impl Shown {
    /// How a run ends otherwise than it is to.
    pub fn other_end(&self, alloc: Global, wanted: &str) -> Result<Option<String>, AllocError> {
        let end = self.end(alloc)?;
        if end.as_str() == wanted {
            return Ok(None);
        }
        Ok(Some(format!(in alloc; "ends with {end}")?))
    }

    /// What a run shows that it is not to show; none where it shows all as it is to.
    pub fn difference(
        &self,
        alloc: Global,
        wanted: &Wanted<'_>,
    ) -> Result<Option<String>, AllocError> {
        let ended = self.other_end(alloc, wanted.end)?;
        if ended.is_some() {
            return Ok(ended);
        }
        let err = self.err.taken();
        if err != wanted.err {
            return Ok(Some(format!(in alloc; "tells {}", text_of(err))?));
        }
        let out = self.out.taken();
        if !is_written(out, wanted) {
            return Ok(Some(format!(in alloc; "writes {}", text_of(out))?));
        }
        Ok(None)
    }
}
