//! The role of a token, by its kind and its text.

ghost use Rattle.std.specs.Prelude.{◌≡◌, ◌∷◌, ℕ, List, map};
ghost use Rattle.action_tree.specs.Roles as roles;
ghost use Rattle.action_tree.specs.declared.role.Role.TheVariants as role;

use crate::role::Role;
use text_tokens::{TokenKind, is_same};

// The reserved words, by their first letters, and of one letter what stands most often first.
// A word that is not among them is a name.
static A_WORDS: [(&str, Role); 6] = [
    ("and", Role::AndWord),
    ("amoebot", Role::Foreign),
    ("action", Role::ActionWord),
    ("any", Role::QuantifierWord),
    ("all", Role::QuantifierWord),
    ("at_head", Role::TestWord),
];

static C_WORDS: [(&str, Role); 3] = [
    ("contracted", Role::AtomWord),
    ("count", Role::CountWord),
    ("contract", Role::ContractWord),
];

static D_WORDS: [(&str, Role); 2] = [("do", Role::DoWord), ("dir", Role::SideWord)];

static E_WORDS: [(&str, Role); 4] = [
    ("end", Role::LastWord),
    ("else", Role::ElseWord),
    ("expanded", Role::AtomWord),
    ("expand", Role::ThroughWord),
];

static F_WORDS: [(&str, Role); 5] = [
    ("fi", Role::FiWord),
    ("for", Role::ForWord),
    ("free", Role::FreeWord),
    ("false", Role::AtomWord),
    ("first", Role::FirstWord),
];

static G_WORDS: [(&str, Role); 1] = [("guard", Role::GuardWord)];

static H_WORDS: [(&str, Role); 1] = [("head", Role::EndWord)];

static I_WORDS: [(&str, Role); 3] = [
    ("if", Role::IfWord),
    ("in", Role::InWord),
    ("inner", Role::InnerWord),
];

static L_WORDS: [(&str, Role); 2] = [("let", Role::LetWord), ("linked", Role::TestWord)];

static M_WORDS: [(&str, Role); 2] = [("move", Role::MoveWord), ("mod6", Role::Mod6Word)];

static N_WORDS: [(&str, Role); 2] = [("not", Role::NotWord), ("none", Role::NoneWord)];

static O_WORDS: [(&str, Role); 4] = [
    ("or", Role::OrWord),
    ("on", Role::SwitchWord),
    ("off", Role::SwitchWord),
    ("od", Role::OdWord),
];

static P_WORDS: [(&str, Role); 7] = [
    ("program", Role::ProgramWord),
    ("ports", Role::PortsWord),
    ("peer_dir", Role::SideWord),
    ("peer_head", Role::TestWord),
    ("peer_expanded", Role::TestWord),
    ("push", Role::ThroughWord),
    ("pull", Role::ThroughWord),
];

static T_WORDS: [(&str, Role); 4] = [
    ("turn", Role::TurnWord),
    ("then", Role::ThenWord),
    ("true", Role::AtomWord),
    ("tail", Role::EndWord),
];

static V_WORDS: [(&str, Role); 1] = [("var", Role::VarWord)];

static W_WORDS: [(&str, Role); 1] = [("when", Role::WhenWord)];

const SIGNS: [(&str, Role); 13] = [
    ("(", Role::OpenSign),
    (")", Role::CloseSign),
    (".", Role::DotSign),
    (";", Role::SemicolonSign),
    (":=", Role::BecomesSign),
    ("+", Role::PlusSign),
    ("-", Role::MinusSign),
    ("=", Role::CompareSign),
    ("!=", Role::CompareSign),
    ("<", Role::CompareSign),
    ("<=", Role::CompareSign),
    (">", Role::CompareSign),
    (">=", Role::CompareSign),
];

/// What a text is by a table, and otherwise.
fn look_up(otherwise: Role, table: &[(&str, Role)], text: &[u8]) -> Role
    ensures { result ≡ roles.look_up otherwise (map (λ e. roles.entry e.0.now e.1) table.now) text.now }
{
    for (word, role) in table {
        if is_same(text, word.as_bytes()) {
            return *role;
        }
    }
    otherwise
}

/// The reserved words with this first letter.
fn words_from(letter: u8) -> &'static [(&'static str, Role)]
    ensures { (rest : List ℕ)
        → roles.look_up role.AName (map (λ e. roles.entry e.0.now e.1) result.now) (letter ∷ rest)
        ≡ roles.look_up role.AName roles.words (letter ∷ rest) }
{
    match letter {
        b'a' => &A_WORDS,
        b'c' => &C_WORDS,
        b'd' => &D_WORDS,
        b'e' => &E_WORDS,
        b'f' => &F_WORDS,
        b'g' => &G_WORDS,
        b'h' => &H_WORDS,
        b'i' => &I_WORDS,
        b'l' => &L_WORDS,
        b'm' => &M_WORDS,
        b'n' => &N_WORDS,
        b'o' => &O_WORDS,
        b'p' => &P_WORDS,
        b't' => &T_WORDS,
        b'v' => &V_WORDS,
        b'w' => &W_WORDS,
        _ => &[],
    }
}

/// The role of a word.
fn word_role(text: &[u8]) -> Role
    ensures { result ≡ roles.look_up role.AName roles.words text.now }
{
    match text {
        [] | [_] => Role::AName,
        [letter, ..] => look_up(Role::AName, words_from(*letter), text),
    }
}

fn sign_role(text: &[u8]) -> Role
    ensures { result ≡ roles.look_up role.Foreign roles.signs text.now }
{
    look_up(Role::Foreign, &SIGNS, text)
}

/// What a token of this kind and with this text does in a program.
pub fn role_of(kind: TokenKind, text: &[u8]) -> Role
    ensures { result ≡ roles.role_by kind text.now }
{
    match kind {
        TokenKind::Word => word_role(text),
        TokenKind::Number => Role::ANumber,
        TokenKind::Sign => sign_role(text),
    }
}
