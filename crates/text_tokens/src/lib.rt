//! The tokens of a text, what may be wrong with a text, and the laws
//! of readers that read token by token.
#![tactic(auto)]

mod combinators;
mod examples;
pub mod groups;
mod laws;
mod lines;
mod refusal;
mod room;
mod terminals;
mod token;
mod tokens;

pub use combinators::{
    OtherPart, Part, PartBehind, PartBy, Recursive, as_often, behind_token, branch, chaining,
    choice, choice_by_role, closing, exact, judgement, limit, making, nesting, nothing, one_of_two,
    one_token, opening, option, refusing, repetition, running_sum, same_texts, sequence, stopping,
    whole_input,
};
pub use examples::{agreement_is_needed, groups_are_decided, puts_are_decided};
pub use laws::{small_texts, spans_rise, tokens_are_cut, tokens_are_one};
pub use lines::{Lines, Text, lines_add_up};
pub use refusal::{ReadRefusal, Refusal, RefusalKind};
pub use terminals::{number, number_up_to, refused, the_line, this_token};
pub use token::{Token, TokenKind};
pub use tokens::{Tokens, is_same};
