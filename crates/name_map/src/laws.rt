//! The law of the lines that tell numbers. The function does nothing: its contract is the law.

ghost use Rattle.name_map.specs.ValueLines.{LineTellsNumber};

/// The line of a name tells one number.
pub fn value_line_law()
    ensures { LineTellsNumber }
{}
