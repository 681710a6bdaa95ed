//! Laws of the lists that clauses cite.

ghost use Rattle.core_occurrences.specs.Laws.{AddedBehind, AddedElsewhere, AddedOccurs, RemovedWithout, RemovedOccurs};
ghost use Rattle.core_occurrences.specs.Laws.{ExchangedOccurs, GrownStays, NothingOccurs, RoomIsHolders, AddedTotal};
ghost use Rattle.core_occurrences.specs.Laws.{RemovedTotal, GrownTotal};

/// What stands where a core has come, and in all cores before.
pub fn added_laws()
    ensures behind { AddedBehind }
    ensures elsewhere { AddedElsewhere }
    ensures occurs { AddedOccurs }
{}

/// What stands where a core has gone.
pub fn removed_laws()
    ensures without { RemovedWithout }
    ensures occurs { RemovedOccurs }
    ensures room { RoomIsHolders }
{}

/// What stands where two cores have exchanged their occurrences.
pub fn exchanged_laws()
    ensures occurs { ExchangedOccurs }
{}

/// What stands where variables are added, and at the start.
pub fn grown_laws()
    ensures stays { GrownStays }
    ensures nothing { NothingOccurs }
{}

/// How many occurrences there are in all.
pub fn total_laws()
    ensures added { AddedTotal }
    ensures removed { RemovedTotal }
    ensures grown { GrownTotal }
{}
