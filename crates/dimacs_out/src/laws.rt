//! Laws of the compiled text that other crates build on. The function does nothing: its contract is the
//! laws.

ghost use Rattle.dimacs_out.specs.TextLaws.{TextTellsAll, StandsForExactly};

/// What a compiled text tells.
pub fn text_laws()
    ensures unique { TextTellsAll }
    ensures exact { StandsForExactly }
{}
