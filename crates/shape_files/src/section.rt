//! Each section, in the state that those before it gave.

ghost use Rattle.text_tokens.specs.Steps.{Gives};
ghost use Rattle.shape_text.specs.Parts as part;
ghost use Rattle.shape_files.specs.DocumentReaders.{a_checked_program, body, journal_body};
ghost use Rattle.shape_files.specs.Views.{contents};

use crate::Section;
use crate::parts::Parts;
use action_check::{Checked, check};
use action_parser::parse_program;
use journal_text::{Counts, read_journal, read_plain, read_turns};
use schedule_text::{read_lists, read_schedule};
use shape_text::{Reading, has_old_values, read_final, read_shape};
use std::alloc::Global;
use text_tokens::Tokens;

/// A program that keeps the rules on names and ranges, which are judged behind its `end`.
fn read_program(alloc: Global, tokens: &mut Tokens<'_>) -> Reading<Checked>
    ensures { Gives (λ p. p) a_checked_program tokens.old result tokens.new }
{
    let program = parse_program(alloc, tokens)?;
    check(alloc, program)
}

/// Reads a journal, with old values or without, and keeps its entries.
fn read_entries(alloc: Global, tokens: &mut Tokens<'_>, parts: &mut Parts) -> Reading<()>
    ensures { Gives (λ _. contents parts.new)
        (journal_body (part.has_old_values (contents parts.old).version) (contents parts.old))
        tokens.old result tokens.new }
{
    let bots = parts.bots();
    let actions = parts.actions();
    let vars = parts.vars();
    let of = Counts {
        bots,
        actions,
        vars,
    };
    if has_old_values(parts.version) {
        parts.entries = Some(read_journal(alloc, tokens, of)?);
    } else {
        parts.plain = Some(read_plain(alloc, tokens, of)?);
    }
    Ok(())
}

/// Reads a section, and keeps what it stands for. The section `turns` stands for nothing.
pub(crate) fn read_section(
    alloc: Global,
    tokens: &mut Tokens<'_>,
    parts: &mut Parts,
    section: Section,
) -> Reading<()>
    ensures { Gives (λ _. contents parts.new)
        (body section (contents parts.old)) tokens.old result tokens.new }
{
    match section {
        Section::Program => parts.checked = Some(read_program(alloc, tokens)?),
        Section::Shape => {
            let world = read_shape(alloc, tokens, parts.version, parts.vars(), parts.maxes())?;
            parts.world = Some(world);
        }
        Section::Lists => parts.lists = Some(read_lists(alloc, tokens, parts.bots())?),
        Section::Schedule => {
            parts.schedule = Some(read_schedule(alloc, tokens, parts.callers())?);
        }
        Section::Journal => read_entries(alloc, tokens, parts)?,
        Section::Final => {
            let world = read_final(alloc, tokens, parts.version, parts.vars(), parts.maxes())?;
            parts.final_world = Some(world);
        }
        Section::Turns => read_turns(tokens, parts.version)?,
    }
    Ok(())
}
