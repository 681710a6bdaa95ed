//! Laws of the two modes. The functions do nothing: their contracts are the laws.

ghost use Rattle.opb_mode.specs.Laws.{OpbModelAnswers, VerdictTrueOfFile};

/// Each text has an end of the mode opbmodel.
pub fn answer_law()
    ensures { OpbModelAnswers }
{}

/// The verdict of what is written in the mode opb is true of the file, in the file's own words.
pub fn verdict_law()
    ensures { VerdictTrueOfFile }
{}
