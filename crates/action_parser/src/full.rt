//! What one element too many is refused for.

ghost use Rattle.std.specs.Prelude.{◌≡◌};
ghost use Rattle.text_tokens.specs.{Reading.{full_at}, Steps.{IsRefusal}};
ghost use Rattle.action_tree.specs.Roles as roles;
ghost use Rattle.action_tree.specs.ExpressionReaders as spec;
ghost use Rattle.action_tree.specs.StatementReaders as statements;
ghost use Rattle.action_parser.specs.Full.{full_kind};

use crate::roles::next_role;
use action_tree::Role;
use text_tokens::{Refusal, RefusalKind, Tokens};

/// Whether a term begins with a token of this role.
fn begins_term(role: Role) -> bool
    ensures { result ≡ spec.begins_term role }
{
    match role {
        Role::ANumber
        | Role::AName
        | Role::EndWord
        | Role::TurnWord
        | Role::FirstWord
        | Role::CountWord
        | Role::SideWord
        | Role::InnerWord
        | Role::Mod6Word => true,
        _ => false,
    }
}

/// Whether a sum does.
pub fn begins_sum(role: Role) -> bool
    ensures { result ≡ spec.begins_sum role }
{
    match role {
        Role::MinusSign => true,
        _ => begins_term(role),
    }
}

/// Whether an element of an `and` or an `or` does.
fn begins_unit(role: Role) -> bool
    ensures { result ≡ spec.begins_unit role }
{
    match role {
        Role::AtomWord
        | Role::NotWord
        | Role::OpenSign
        | Role::QuantifierWord
        | Role::TestWord
        | Role::FreeWord => true,
        _ => begins_sum(role),
    }
}

/// Whether a statement does.
fn begins_stmt(role: Role) -> bool
    ensures { result ≡ statements.begins_stmt role }
{
    match role {
        Role::AName
        | Role::EndWord
        | Role::TurnWord
        | Role::FirstWord
        | Role::LetWord
        | Role::IfWord
        | Role::ForWord => true,
        _ => false,
    }
}

/// Whether a token of this role opens a level.
fn opens_level(role: Role) -> bool
    ensures { result ≡ spec.opens_level role }
{
    match role {
        Role::OpenSign | Role::NotWord | Role::TurnWord | Role::IfWord | Role::ForWord => true,
        _ => false,
    }
}

/// How a token of this role is refused with which one too many may begin,
/// where so many more levels may be opened.
fn kind_of(begins: bool, role: Role, levels: u32) -> RefusalKind
    ensures { result ≡ full_kind begins role levels }
{
    if !begins {
        RefusalKind::Unexpected
    } else if levels == 0 && opens_level(role) {
        RefusalKind::TooDeep
    } else {
        RefusalKind::TooMany
    }
}

/// Refuses one element too many of an `and` or an `or`, or what begins none.
pub fn full_guard(tokens: &Tokens<'_>, levels: u32) -> Refusal
    ensures { IsRefusal (full_at (λ t. spec.begins_unit (roles.role t)) (spec.level_limit levels))
        tokens.now.last tokens.now.ahead result }
{
    let Some(role) = next_role(tokens) else {
        return tokens.refusal(RefusalKind::Unexpected);
    };
    tokens.refusal(kind_of(begins_unit(role), role, levels))
}

/// Refuses one term too many, or what begins none.
pub fn full_sum(tokens: &Tokens<'_>, levels: u32) -> Refusal
    ensures { IsRefusal (full_at (λ t. spec.begins_term (roles.role t)) (spec.level_limit levels))
        tokens.now.last tokens.now.ahead result }
{
    let Some(role) = next_role(tokens) else {
        return tokens.refusal(RefusalKind::Unexpected);
    };
    tokens.refusal(kind_of(begins_term(role), role, levels))
}

/// Refuses one statement too many, or what begins none.
pub fn full_stmts(tokens: &Tokens<'_>, levels: u32) -> Refusal
    ensures { IsRefusal (full_at (λ t. statements.begins_stmt (roles.role t)) (spec.level_limit levels))
        tokens.now.last tokens.now.ahead result }
{
    let Some(role) = next_role(tokens) else {
        return tokens.refusal(RefusalKind::Unexpected);
    };
    tokens.refusal(kind_of(begins_stmt(role), role, levels))
}
