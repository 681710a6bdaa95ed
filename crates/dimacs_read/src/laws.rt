//! Laws of what is read that other crates build on. The function does nothing: its contract is the laws.

ghost use Rattle.dimacs_read.specs.ReadLaws.{WrittenIsRead, ReadIsWritable, ValuesSatisfy, ValuesGiveAssignment};

/// What compiled texts and values are like.
pub fn read_laws()
    ensures written { WrittenIsRead }
    ensures writable { ReadIsWritable }
    ensures satisfied { ValuesSatisfy }
    ensures given { ValuesGiveAssignment }
{}
