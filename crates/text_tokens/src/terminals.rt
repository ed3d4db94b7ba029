//! Parts of one token. They take no memory, so they never answer out of memory.

ghost use Rattle.std.specs.Prelude.{◌≡◌, ◌≢◌, ◌<◌, ◌≤◌, IfErr, IfOk};
ghost use Rattle.text_tokens.specs.{Steps.{Gives, lexeme_of}, Cursor.{IsShort, is_the}};
ghost use Rattle.text_tokens.specs.declared.refusal.ReadRefusal.TheVariants.{NoMemory, Refused};
ghost use Rattle.text_tokens.specs.Reading as reading;

use crate::refusal::{ReadRefusal, Refusal, RefusalKind};
use crate::token::{Token, TokenKind};
use crate::tokens::Tokens;

/// The refusal of a token that was taken, on its line.
pub fn refused(line: u32, kind: RefusalKind) -> ReadRefusal
    ensures { result ≡ Refused (record { line = line; kind = kind }) }
{
    ReadRefusal::Refused(Refusal { line, kind })
}

/// This token. Any other is `Unexpected`.
pub fn this_token(
    tokens: &mut Tokens<'_>,
    kind: TokenKind,
    text: &[u8],
) -> Result<Token, ReadRefusal>
    ensures reads { Gives (lexeme_of tokens.old.source)
        (reading.one (is_the kind text.now)) tokens.old result tokens.new }
    ensures sure { IfErr result (λ e. e ≢ NoMemory) }
{
    Ok(tokens.take(kind, text)?)
}

/// This token, for its line.
#[tactic(auto, unfolding(crate::specs::Reading::the_line))]
pub fn the_line(tokens: &mut Tokens<'_>, kind: TokenKind, text: &[u8]) -> Result<u32, ReadRefusal>
    ensures reads { Gives (λ line. line)
        (reading.the_line (is_the kind text.now)) tokens.old result tokens.new }
    ensures sure { IfErr result (λ e. e ≢ NoMemory) }
{
    Ok(this_token(tokens, kind, text)?.line)
}

/// A number, for what it stands for.
#[tactic(auto, unfolding(crate::specs::Reading::numeral))]
pub fn number(tokens: &mut Tokens<'_>) -> Result<u32, ReadRefusal>
    ensures reads { Gives (λ n. n) (reading.numeral reading.no_limit) tokens.old result tokens.new }
    ensures small { IfOk result IsShort }
    ensures sure { IfErr result (λ e. e ≢ NoMemory) }
{
    let number = tokens.value();
    tokens.take_kind(TokenKind::Number)?;
    Ok(number)
}

/// A number of at most so much. A number above is refused for this kind.
#[tactic(auto, unfolding(crate::specs::Reading::numeral))]
pub fn number_up_to(
    tokens: &mut Tokens<'_>,
    most: u32,
    kind: RefusalKind,
) -> Result<u32, ReadRefusal>
    ensures reads { Gives (λ n. n)
        (reading.numeral (reading.too_large most kind)) tokens.old result tokens.new }
    ensures within { IfOk result (λ n. n ≤ most) }
    ensures sure { IfErr result (λ e. e ≢ NoMemory) }
{
    let value = tokens.value();
    let found = tokens.take_kind(TokenKind::Number)?;
    if value > most {
        return Err(refused(found.line, kind));
    }
    Ok(value)
}
