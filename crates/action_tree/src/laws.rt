//! What holds of the definitions. The functions do nothing: their clauses are the laws.

ghost use Rattle.action_tree.specs.Laws.{WritableIsGiven, GivenIsWritable, WordsAreTokens, TokensAreWords};
ghost use Rattle.action_tree.specs.Laws.{SamplesAreWritable, LimitsAreSharp};

/// The test passes exactly the trees that the productions of the grammar give.
pub fn writable_is_given()
    ensures given { WritableIsGiven }
    ensures writable { GivenIsWritable }
{}

/// The trees of the shipped programs pass it.
pub fn samples_are_writable()
    ensures { SamplesAreWritable }
{}

/// It keeps each limit exactly.
pub fn limits_are_sharp()
    ensures { LimitsAreSharp }
{}

/// A word is what a text has as a token.
#[tactic(auto, using(crate::proofs::WordsLemmas::word_is_cut, crate::proofs::WordsLemmas::cut_is_word))]
pub fn words_are_tokens()
    ensures word { WordsAreTokens }
    ensures token { TokensAreWords }
{}
