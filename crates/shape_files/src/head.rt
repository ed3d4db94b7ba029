//! The header of a document, and what stands where a section is to begin.

ghost use Rattle.std.specs.Prelude.{◌≡◌, ◌≤◌, IfOk};
ghost use Rattle.text_tokens.specs.{Cursor.{next_passes, refusal_at}, Steps.{TellsOf, ReadsOf, Gives}};
ghost use Rattle.shape_files.specs.Frame.{IsHeader, least_version, greatest_version, is_word_of_section};
ghost use Rattle.shape_files.specs.{Frame.{is_section_word}, FrameReaders.{header_from}, Views.{as_read}};
ghost use Rattle.shape_files.specs.Straight.{missing_kind};

use crate::Section;
use text_tokens::{Refusal, RefusalKind, TokenKind, Tokens};

/// The least version that there is.
pub(crate) const LEAST_VERSION: u8 = 1;

const GREATEST_VERSION: u32 = 3;

/// Reads the header: the word `amoebot` and the version, which is 1, 2 or 3.
/// Another version is a `BadRange`.
pub fn read_head(tokens: &mut Tokens<'_>) -> Result<u8, Refusal>
    ensures tells { TellsOf IsHeader (λ v. v) tokens.old (as_read result) tokens.new }
    ensures reads { ReadsOf IsHeader (λ v. v) tokens.old (as_read result) tokens.new }
    ensures low { IfOk result (λ v. least_version ≤ v) }
    ensures high { IfOk result (λ v. v ≤ greatest_version) }
{
    read_version(tokens, LEAST_VERSION)
}

/// Reads the header, for the version, which is not below the least.
/// Another version is a `BadRange`.
pub(crate) fn read_version(tokens: &mut Tokens<'_>, least: u8) -> Result<u8, Refusal>
    ensures reads { Gives (λ v. v) (header_from least) tokens.old (as_read result) tokens.new }
    ensures low { IfOk result (λ v. least ≤ v) }
    ensures high { IfOk result (λ v. v ≤ greatest_version) }
{
    tokens.take(TokenKind::Word, b"amoebot")?;
    let token = tokens.take_kind(TokenKind::Number)?;
    let version = tokens.number(&token);
    if version < u32::from(least) || version > GREATEST_VERSION {
        return Err(Refusal {
            line: token.line,
            kind: RefusalKind::BadRange,
        });
    }
    Ok(version as u8)
}

/// Whether the word of this section comes.
pub(crate) fn is_next(tokens: &Tokens<'_>, section: Section) -> bool
    ensures { result ≡ next_passes (is_word_of_section section) tokens.now.ahead }
{
    tokens.is_next(TokenKind::Word, section.word().as_bytes())
}

/// Whether one of the eight section words comes.
#[tactic(auto, using(crate::proofs::HeaderLemmas::section_words))]
fn is_section_next(tokens: &Tokens<'_>) -> bool
    ensures { result ≡ next_passes is_section_word tokens.now.ahead }
{
    tokens.is_next(TokenKind::Word, b"amoebot")
        || is_next(tokens, Section::Program)
        || is_next(tokens, Section::Shape)
        || is_next(tokens, Section::Lists)
        || is_next(tokens, Section::Schedule)
        || is_next(tokens, Section::Journal)
        || is_next(tokens, Section::Final)
        || is_next(tokens, Section::Turns)
}

/// Why what comes does not begin a section that is needed.
pub(crate) fn missing(tokens: &Tokens<'_>) -> Refusal
    ensures { result ≡ refusal_at tokens.now.last (missing_kind tokens.now.ahead) tokens.now.ahead }
{
    let kind = if is_section_next(tokens) {
        RefusalKind::WrongSection
    } else {
        RefusalKind::Unexpected
    };
    tokens.refusal(kind)
}
