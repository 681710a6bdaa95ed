//! Laws of trails that clauses cite.

ghost use Rattle.literal_trail.specs.Laws.{PrefixIsFront, PrefixIsWhole, PrefixOfPrefix, PrefixStays, PrefixByLevel};
ghost use Rattle.literal_trail.specs.Laws.{DecisionBehind, EntryInPrefix, EntryOfPlace, PlaceOfEntry, EntryStays};
ghost use Rattle.literal_trail.specs.Laws.{FreeBefore, TruthStays, ImpliedIsTrail, ChosenIsTrail, CutIsTrail};
ghost use Rattle.literal_trail.specs.Laws.{RoomWhereFree};

/// The prefix of a trail up to a level.
pub fn prefix_laws()
    ensures front { PrefixIsFront }
    ensures whole { PrefixIsWhole }
    ensures lower { PrefixOfPrefix }
    ensures stays { PrefixStays }
    ensures levels { PrefixByLevel }
    ensures decision { DecisionBehind }
    ensures entry { EntryInPrefix }
{}

/// What entries say of variables and literals.
pub fn truth_laws()
    ensures at_place { EntryOfPlace }
    ensures place { PlaceOfEntry }
    ensures entry_stays { EntryStays }
    ensures free_before { FreeBefore }
    ensures truth_stays { TruthStays }
{}

/// The moves keep a trail, and there is room for each.
pub fn move_laws()
    ensures implied { ImpliedIsTrail }
    ensures chosen { ChosenIsTrail }
    ensures cut_back { CutIsTrail }
    ensures room { RoomWhereFree }
{}
