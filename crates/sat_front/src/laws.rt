//! Laws of what is read. The function does nothing: its contract is the laws.

ghost use Rattle.sat_front.specs.ReadLaws.{SameTruth, ReadInRange, ReadInOrder};

/// What a CNF that is read is like: it is as true as the clauses that the text lists, its variables are in range, and
/// its clauses are in order.
pub fn read_laws()
    ensures truth { SameTruth }
    ensures range { ReadInRange }
    ensures order { ReadInOrder }
{}
