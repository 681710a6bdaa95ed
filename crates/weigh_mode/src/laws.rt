//! Laws of what is written. The functions do nothing: their contracts are the laws.

ghost use Rattle.weigh_mode.specs.AnswerLaws.{WeighAnswers, WeighsAsRefused};

/// Each text has an end of weigh mode.
pub fn answer_law()
    ensures { WeighAnswers }
{}

/// The weight that is told of a text is the one with which the text is refused where a model is compiled.
pub fn refusal_law()
    ensures { WeighsAsRefused }
{}
