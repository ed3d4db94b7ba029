//! Programs of guarded actions: the grammar of their texts, and their trees.
#![tactic(auto)]

mod examples;
mod expression;
mod grammar_laws;
mod laws;
mod placed_actions;
mod places;
mod program;
mod role;
mod roles;
mod scope;
mod statement;
mod word;

pub use examples::{faults_are_found, limits_are_kept, samples_are_read};
pub use expression::{Cmp, DirTerm, Guard, Part, PortExpr, PortSet, Sum, Term};
pub use grammar_laws::{
    lines_follow_text, program_is_decided, program_is_exact, texts_give_writable_trees,
    words_are_reserved,
};
pub use laws::{limits_are_sharp, samples_are_writable, words_are_tokens, writable_is_given};
pub use program::{Action, Program, Var};
pub use role::Role;
pub use roles::role_of;
pub use statement::{Move, Stmt};
pub use word::{Lit, MOST_NAMES, NameText, Word};
