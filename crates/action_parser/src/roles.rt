//! The role of the next token, and parts of one token.

ghost use Rattle.std.specs.Prelude.{◌≡◌, ◌<◌, option_map, IfOk, OnOk};
ghost use Rattle.text_tokens.specs.Cursor.{Spells, next_passes, refusal_at};
ghost use Rattle.text_tokens.specs.declared.refusal.RefusalKind.TheVariants.{Unexpected};
ghost use Rattle.text_tokens.specs.{declared.refusal.ReadRefusal.TheVariants.{Refused}, Reading.{one}};
ghost use Rattle.text_tokens.specs.Steps.{Gives, lexeme_of};
ghost use Rattle.text_tokens.specs.Reading as reading;
ghost use Rattle.action_tree.specs.Roles.{is_a};
ghost use Rattle.action_tree.specs.Roles as roles;

use action_tree::{Role, role_of};
use text_tokens::{ReadRefusal, RefusalKind, Token, Tokens, refused};

/// The role of the next token, if there is one.
pub fn next_role(tokens: &Tokens<'_>) -> Option<Role>
    ensures { result ≡ option_map roles.role (reading.first tokens.now.ahead) }
{
    match tokens.peek() {
        Ok(Some(token)) => Some(role_of(token.kind, tokens.text(&token))),
        _ => None,
    }
}

/// Whether the next token has this role.
#[inline(always)]
pub fn is_next(tokens: &Tokens<'_>, role: Role) -> bool
    ensures { result ≡ next_passes (is_a role) tokens.now.ahead }
{
    next_role(tokens) == Some(role)
}

/// The next token does not belong here, or there is none.
pub fn unexpected(tokens: &Tokens<'_>) -> ReadRefusal
    ensures { result ≡ Refused (refusal_at tokens.now.last Unexpected tokens.now.ahead) }
{
    tokens.refusal(RefusalKind::Unexpected).into()
}

/// The next token, if it has this role. Any other is `Unexpected`.
#[inline(always)]
pub fn token(tokens: &mut Tokens<'_>, role: Role) -> Result<Token, ReadRefusal>
    ensures reads { Gives (lexeme_of tokens.old.source) (one (is_a role)) tokens.old result tokens.new }
    ensures spells { IfOk result (Spells tokens.old) }
{
    if !is_next(tokens, role) {
        return Err(unexpected(tokens));
    }
    Ok(tokens.take_any()?)
}

/// The next token, if it has this role and so many more levels may be opened.
/// Without one it is `TooDeep`.
pub fn open(tokens: &mut Tokens<'_>, role: Role, levels: u32) -> Result<Token, ReadRefusal>
    ensures reads { Gives (lexeme_of tokens.old.source)
        (reading.opening_token levels (is_a role)) tokens.old result tokens.new }
    ensures deep { OnOk result (0 < levels) }
{
    let opening = token(tokens, role)?;
    if levels == 0 {
        return Err(refused(opening.line, RefusalKind::TooDeep));
    }
    Ok(opening)
}
