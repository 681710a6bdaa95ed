//! The items of a text, one at a time.

ghost use Rattle.std.specs.Prelude.{◌≡◌, ◌<◌, length, IfOk, IfNone, OnSome, OnErr};
ghost use Rattle.bumblebee_reader.specs.Reading.{Gives};
ghost use Rattle.bumblebee_reader.specs.Unread.{whole_text, unread, next_before};

use crate::fault::ReadFault;
use crate::read::read_next;
use crate::syntax::Item;
use crate::tokens::Tokens;
use std::alloc::Global;
use std::marker::Model;

/// The items of a text, each of which is read when it is asked for, so that a long text need not be held as
/// syntax. A clause sees the bytes that are left and the line on which they begin.
#[derive(Drop)]
pub struct ItemReader<'a> {
    tokens: Tokens<'a>,
}

impl<'a> Model for ItemReader<'a> {
    ghost use Rattle.bumblebee_reader.specs.Unread.{Left};

    ghost Value = { Left };

    ghost view = { λ i. record { line = i.tokens.line; bytes = i.tokens.rest.now } };
}

impl<'a> ItemReader<'a> {
    /// The items of a whole text, none of which is read yet.
    pub fn new(text: &'a [u8]) -> ItemReader<'a>
        ensures { result ≡ whole_text text.now }
    {
        ItemReader {
            tokens: Tokens::new(text),
        }
    }

    /// The next item, or `None` at the end of the text. Where no item is given, none is taken: a fault comes
    /// again at the next call, and a call that wanted memory may be made once more.
    pub fn next_item(&mut self, alloc: Global) -> Result<Option<Item>, ReadFault>
        ensures read { Gives result (unread self.old) (λ next. next_before next (unread self.new)) }
        ensures shorter { IfOk result (λ next. OnSome next (length self.new.bytes < length self.old.bytes)) }
        ensures at_end { IfOk result (λ next. IfNone next (self.new ≡ self.old)) }
        ensures at_fault { OnErr result (self.new ≡ self.old) }
    {
        let mut ahead = self.tokens;
        let Some(item) = read_next(alloc, &mut ahead)? else {
            return Ok(None);
        };
        self.tokens = ahead;
        Ok(Some(item))
    }
}
