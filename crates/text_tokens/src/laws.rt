//! What holds of the tokens of every text.

ghost use Rattle.text_tokens.specs.Promises.{OneReading, TokensAreCut, SpansRise, SmallTexts};

/// No text is two lists of tokens, or has two faults.
pub fn tokens_are_one()
    ensures { OneReading }
{}

/// Every text has a list of tokens, which is cut from its front on.
pub fn tokens_are_cut()
    ensures { TokensAreCut }
{}

/// The tokens of a text are slices of it, each behind the one before.
pub fn spans_rise()
    ensures { SpansRise }
{}

/// The tokens of a few small texts.
pub fn small_texts()
    ensures { SmallTexts }
{}
