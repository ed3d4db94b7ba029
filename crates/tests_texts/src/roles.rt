//! What the reserved words do in a program, and words that differ from one of them in a letter.

ghost use Rattle.std.specs.Prelude.{◌≡◌, map};
ghost use Rattle.action_tree.specs.Roles as roles;
ghost use Rattle.action_tree.specs.declared.role.Role.TheVariants as role;

use action_tree::{Role, role_of};
use std::test::*;
use text_tokens::{TokenKind, is_same};

/// The reserved words in the order of the definition.
const LISTED: [(&str, Role); 48] = [
    ("amoebot", Role::Foreign),
    ("program", Role::ProgramWord),
    ("guard", Role::GuardWord),
    ("on", Role::SwitchWord),
    ("off", Role::SwitchWord),
    ("var", Role::VarWord),
    ("action", Role::ActionWord),
    ("when", Role::WhenWord),
    ("do", Role::DoWord),
    ("move", Role::MoveWord),
    ("end", Role::LastWord),
    ("if", Role::IfWord),
    ("then", Role::ThenWord),
    ("else", Role::ElseWord),
    ("fi", Role::FiWord),
    ("for", Role::ForWord),
    ("od", Role::OdWord),
    ("let", Role::LetWord),
    ("in", Role::InWord),
    ("ports", Role::PortsWord),
    ("free", Role::FreeWord),
    ("true", Role::AtomWord),
    ("false", Role::AtomWord),
    ("contracted", Role::AtomWord),
    ("expanded", Role::AtomWord),
    ("not", Role::NotWord),
    ("and", Role::AndWord),
    ("or", Role::OrWord),
    ("any", Role::QuantifierWord),
    ("all", Role::QuantifierWord),
    ("count", Role::CountWord),
    ("first", Role::FirstWord),
    ("head", Role::EndWord),
    ("tail", Role::EndWord),
    ("turn", Role::TurnWord),
    ("dir", Role::SideWord),
    ("peer_dir", Role::SideWord),
    ("peer_head", Role::TestWord),
    ("peer_expanded", Role::TestWord),
    ("at_head", Role::TestWord),
    ("linked", Role::TestWord),
    ("inner", Role::InnerWord),
    ("mod6", Role::Mod6Word),
    ("none", Role::NoneWord),
    ("expand", Role::ThroughWord),
    ("contract", Role::ContractWord),
    ("push", Role::ThroughWord),
    ("pull", Role::ThroughWord),
];

/// What a text is by a table, and otherwise.
fn look_up(otherwise: Role, table: &[(&str, Role)], text: &[u8]) -> Role
    ensures { result ≡ roles.look_up otherwise (map (λ e. roles.entry e.0.now e.1) table.now) text.now }
{
    for (word, role) in table {
        if is_same(text, word.as_bytes()) {
            return *role;
        }
    }
    otherwise
}

/// The role of a word, by all reserved words.
fn listed_role(text: &[u8]) -> Role
    ensures { result ≡ roles.look_up role.AName roles.words text.now }
{
    look_up(Role::AName, &LISTED, text)
}

fn word_role(text: &[u8]) -> Role {
    role_of(TokenKind::Word, text)
}

fn is_found(text: &[u8]) -> bool {
    word_role(text) == listed_role(text)
}

#[test]
fn words_and_near_misses_have_the_listed_roles(rt: HostRuntime) -> Result<(), Fail> {
    assert!(rt; is_found(b""));
    for (word, role) in &LISTED {
        let mut text = Vec::from_slice(rt.alloc(), word.as_bytes())?;
        assert!(rt; word_role(text.as_slice()) == *role);
        assert!(rt; is_found(text.as_slice()));
        text.push(b's')?;
        assert!(rt; is_found(text.as_slice()));
        text.pop();
        text.pop();
        assert!(rt; is_found(text.as_slice()));
        for letter in 0..=255 {
            let mut other = Vec::from_slice(rt.alloc(), word.as_bytes())?;
            if let Some(first) = other.first_mut() {
                *first = letter;
            }
            assert!(rt; is_found(other.as_slice()));
        }
    }
    Ok(())
}
