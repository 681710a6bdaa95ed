//! Laws of model texts, for the crates above.

ghost use Rattle.bumblebee_reader.specs.Laws.{OneSyntax, TextOrFault, UnreadTells, TextIsSpellable, CanonicalIsText};
ghost use Rattle.bumblebee_reader.specs.Laws.{RoundTrip};

/// A text has at most one syntax.
pub fn one_syntax()
    ensures { OneSyntax }
{}

/// Bytes are a text, or they have a first fault.
pub fn text_or_fault()
    ensures { TextOrFault }
{}

/// What the items of a text give, one after another, is what the grammar says of the text.
pub fn unread_tells()
    ensures { UnreadTells }
{}

/// The syntax of a text can be spelled.
pub fn text_is_spellable()
    ensures { TextIsSpellable }
{}

/// The canonical text of a syntax that can be spelled is a text of it.
pub fn canonical_is_text()
    ensures { CanonicalIsText }
{}

/// The canonical text of a syntax that some text has is a text of exactly that syntax.
pub fn round_trip()
    ensures { RoundTrip }
{}
