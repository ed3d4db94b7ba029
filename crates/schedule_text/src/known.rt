//! The number of one of so many.

ghost use Rattle.std.specs.Prelude.{◌<◌, IfOk};
ghost use Rattle.text_tokens.specs.Steps.{Gives};
ghost use Rattle.schedule_text.specs.Readers as reader;

use shape_text::Reading;
use text_tokens::{RefusalKind, TokenKind, Tokens, refused};

/// A number below `known`, where fewer than `most` stand before it.
/// One too many is `TooMany`, and any other number a `BadId`.
pub(crate) fn read_known(
    tokens: &mut Tokens<'_>,
    most: u32,
    known: u32,
    before: u32,
) -> Reading<u32>
    ensures reads { Gives (λ n. n) (reader.a_known most known before) tokens.old result tokens.new }
    ensures room { IfOk result (λ _. before < most) }
    ensures there { IfOk result (λ n. n < known) }
{
    let token = tokens.take_kind(TokenKind::Number)?;
    if before >= most {
        return Err(refused(token.line, RefusalKind::TooMany));
    }
    let number = tokens.number(&token);
    if number >= known {
        return Err(refused(token.line, RefusalKind::BadId));
    }
    Ok(number)
}
