//! Laws of numbers, lines and words that other crates build on. The functions do nothing: their
//! contracts are the laws.

ghost use Rattle.bee_text.specs.Laws.{DecimalTellsNumber, SignedDecimalTellsNumber, DecimalHasDigits};
ghost use Rattle.bee_text.specs.Laws.{DecimalLeadsByZero, DecimalIsWord, SignedDecimalIsWord};
ghost use Rattle.bee_text.specs.Laws.{JoinTellsLines, LinesOfJoined, UnfinishedOfJoined, JoinOfLines, LinesOfText};
ghost use Rattle.bee_text.specs.Laws.{JoinAppendsLines};
ghost use Rattle.bee_text.specs.Laws.{JoinTellsWords, SplitOfJoined, WordsOfJoined, WordsOfText, JoinAppendsWords};
ghost use Rattle.bee_text.specs.Laws.{JoinedWordsAreLine, WordsAreLines};

/// What the decimals of numbers are like.
pub fn decimal_laws()
    ensures injective { DecimalTellsNumber }
    ensures signed_injective { SignedDecimalTellsNumber }
    ensures digits { DecimalHasDigits }
    ensures zero { DecimalLeadsByZero }
    ensures word { DecimalIsWord }
    ensures signed_word { SignedDecimalIsWord }
{}

/// What joined lines are like.
pub fn line_laws()
    ensures injective { JoinTellsLines }
    ensures lines { LinesOfJoined }
    ensures unfinished { UnfinishedOfJoined }
    ensures joined { JoinOfLines }
    ensures of_text { LinesOfText }
    ensures append { JoinAppendsLines }
{}

/// What joined words are like.
pub fn word_laws()
    ensures injective { JoinTellsWords }
    ensures pieces { SplitOfJoined }
    ensures words { WordsOfJoined }
    ensures of_text { WordsOfText }
    ensures append { JoinAppendsWords }
    ensures line { JoinedWordsAreLine }
    ensures lines { WordsAreLines }
{}
