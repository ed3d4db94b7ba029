//! The section `turns` read.

ghost use Rattle.std.specs.{Prelude.{◌≡◌, ◌≢◌, IfErr}, List.{list_any}, Str.{bytes_eq}};
ghost use Rattle.text_tokens.specs.Steps.{Gives, ReadsOf, TellsOf, another};
ghost use Rattle.text_tokens.specs.declared.refusal.ReadRefusal.TheVariants.{NoMemory};
ghost use Rattle.text_tokens.specs.Reading as reading;
ghost use Rattle.journal_text.specs.Turns as spec;
ghost use Rattle.journal_text.specs.Readers as reader;

use crate::journal::read_cell;
use shape_text::{Reading, may_have_walls, read_word};
use text_tokens::{RefusalKind, TokenKind, Tokens, number, refused};

/// The words of failures. The last one is for texts that may have walls.
const FAILURES: [&str; 12] = [
    "no_port",
    "no_neighbour",
    "out_of_range",
    "occupied",
    "not_contracted",
    "not_expanded",
    "peer_not_expanded",
    "peer_not_contracted",
    "edge",
    "would_split",
    "no_choice",
    "blocked",
];

/// How many of them texts without walls may have.
const WITHOUT_WALLS: usize = 11;

fn names_failure(version: u8, word: &[u8]) -> bool
    ensures { result ≡ spec.names_failure version word.now }
{
    if may_have_walls(version) {
        is_one_of(word, &FAILURES)
    } else {
        is_one_of(word, &FAILURES[..WITHOUT_WALLS])
    }
}

fn is_one_of(word: &[u8], words: &[&str]) -> bool
    ensures { result ≡ list_any (λ other. bytes_eq other.now word.now) words.now }
{
    words.iter().any(|other| other.as_bytes() == word)
}

/// The word of a failure, for its line.
#[tactic(auto, unfolding(text_tokens::specs::Reading::the_line))]
fn read_failure(tokens: &mut Tokens<'_>, version: u8) -> Reading<u32>
    ensures reads { Gives (λ line. line)
        (reading.the_line (spec.is_failure version)) tokens.old result tokens.new }
    ensures sure { IfErr result (λ e. e ≢ NoMemory) }
{
    let token = tokens.take_kind(TokenKind::Word)?;
    if !names_failure(version, tokens.text(&token)) {
        return Err(refused(token.line, RefusalKind::Unexpected));
    }
    Ok(token.line)
}

/// A number behind this word.
#[tactic(auto, unfolding(crate::specs::Readers::placed_mark))]
fn read_placed(tokens: &mut Tokens<'_>, text: &[u8]) -> Reading<()>
    ensures reads { Gives (λ u. u) (reader.placed_mark text.now) tokens.old result tokens.new }
    ensures sure { IfErr result (λ e. e ≢ NoMemory) }
{
    read_word(tokens, text)?;
    number(tokens)?;
    Ok(())
}

#[tactic(auto, unfolding(crate::specs::Readers::a_failed))]
fn read_failed(tokens: &mut Tokens<'_>, version: u8) -> Reading<()>
    ensures reads { Gives (λ u. u) (reader.a_failed version) tokens.old result tokens.new }
    ensures sure { IfErr result (λ e. e ≢ NoMemory) }
{
    read_word(tokens, b"failed")?;
    read_failure(tokens, version)?;
    number(tokens)?;
    Ok(())
}

/// The caller, the turn and the amoebot of a claim.
#[tactic(auto, unfolding(crate::specs::Readers::a_claimant))]
fn read_claimant(tokens: &mut Tokens<'_>) -> Reading<()>
    ensures reads { Gives (λ u. u) reader.a_claimant tokens.old result tokens.new }
    ensures sure { IfErr result (λ e. e ≢ NoMemory) }
{
    read_word(tokens, b"by")?;
    number(tokens)?;
    number(tokens)?;
    number(tokens)?;
    Ok(())
}

#[tactic(auto, unfolding(crate::specs::Readers::a_busy))]
fn read_busy(tokens: &mut Tokens<'_>) -> Reading<()>
    ensures reads { Gives (λ u. u) reader.a_busy tokens.old result tokens.new }
    ensures sure { IfErr result (λ e. e ≢ NoMemory) }
{
    read_word(tokens, b"busy")?;
    read_cell(tokens)?;
    read_claimant(tokens)?;
    read_placed(tokens, b"place")
}

fn read_mark(tokens: &mut Tokens<'_>, version: u8) -> Reading<()>
    ensures reads { Gives (λ u. u) (reader.a_mark version) tokens.old result tokens.new }
    ensures sure { IfErr result (λ e. e ≢ NoMemory) }
{
    if tokens.is_next(TokenKind::Word, b"done") {
        read_placed(tokens, b"done")
    } else if tokens.is_next(TokenKind::Word, b"idle") {
        read_placed(tokens, b"idle")
    } else if tokens.is_next(TokenKind::Word, b"failed") {
        read_failed(tokens, version)
    } else {
        read_busy(tokens)
    }
}

#[tactic(auto, unfolding(crate::specs::Readers::a_turn))]
fn read_turn(tokens: &mut Tokens<'_>, version: u8) -> Reading<()>
    ensures reads { Gives (λ u. u) (reader.a_turn version) tokens.old result tokens.new }
    ensures sure { IfErr result (λ e. e ≢ NoMemory) }
{
    read_word(tokens, b"turn")?;
    number(tokens)?;
    number(tokens)?;
    read_mark(tokens, version)
}

/// One more turn, if one comes.
fn more_turn(tokens: &mut Tokens<'_>, version: u8) -> Reading<Option<()>>
    ensures reads { Gives (λ o. o)
        (another spec.is_turn (reader.a_turn version)) tokens.old result tokens.new }
    ensures sure { IfErr result (λ e. e ≢ NoMemory) }
{
    if !tokens.is_next(TokenKind::Word, b"turn") {
        return Ok(None);
    }
    read_turn(tokens, version)?;
    Ok(Some(()))
}

fn read_all_turns(tokens: &mut Tokens<'_>, version: u8) -> Reading<()>
    ensures reads { Gives (λ u. u)
        (reader.unheeded (reader.all_turn_lines version)) tokens.old result tokens.new }
    ensures sure { IfErr result (λ e. e ≢ NoMemory) }
{
    while let Some(()) = more_turn(tokens, version)? {}
    Ok(())
}

#[tactic(auto, unfolding(crate::specs::Readers::the_turns))]
fn read_whole(tokens: &mut Tokens<'_>, version: u8) -> Reading<()>
    ensures reads { Gives (λ u. u) (reader.the_turns version) tokens.old result tokens.new }
    ensures sure { IfErr result (λ e. e ≢ NoMemory) }
{
    read_word(tokens, b"turns")?;
    read_all_turns(tokens, version)?;
    read_word(tokens, b"end")?;
    Ok(())
}

/// Reads the section `turns` of a document of the version up to its `end`, by its grammar alone.
/// It takes no memory, and never answers out of memory.
pub fn read_turns(tokens: &mut Tokens<'_>, version: u8) -> Reading<()>
    ensures tells { TellsOf (spec.IsTurns version) (λ u. u) tokens.old result tokens.new }
    ensures reads { ReadsOf (spec.IsTurns version) (λ u. u) tokens.old result tokens.new }
    ensures sure { IfErr result (λ e. e ≢ NoMemory) }
{
    read_whole(tokens, version)
}
