//! The forms, section by section.

ghost use Rattle.text_tokens.specs.Steps.{Gives};
ghost use Rattle.shape_files.specs.Views.{contents};
ghost use Rattle.shape_files.specs.Straight.{needed_section, optional_section, callers, record_behind};
ghost use Rattle.shape_files.specs.Straight.{behind_program, straight};

use crate::head::{is_next, missing};
use crate::parts::Parts;
use crate::section::read_section;
use crate::{Form, Section};
use shape_text::Reading;
use std::alloc::Global;
use text_tokens::Tokens;

/// Reads a section that is needed.
fn need(alloc: Global, tokens: &mut Tokens<'_>, parts: &mut Parts, section: Section) -> Reading<()>
    ensures { Gives (λ _. contents parts.new)
        (needed_section section (contents parts.old)) tokens.old result tokens.new }
{
    if !is_next(tokens, section) {
        return Err(missing(tokens).into());
    }
    read_section(alloc, tokens, parts, section)
}

/// Reads a section if it comes.
fn may(alloc: Global, tokens: &mut Tokens<'_>, parts: &mut Parts, section: Section) -> Reading<bool>
    ensures { Gives (λ came. (came, contents parts.new))
        (optional_section section (contents parts.old)) tokens.old result tokens.new }
{
    if !is_next(tokens, section) {
        return Ok(false);
    }
    read_section(alloc, tokens, parts, section)?;
    Ok(true)
}

/// Lists and perhaps a schedule, or neither.
#[tactic(auto, unfolding(crate::specs::Straight::callers))]
fn may_lists(alloc: Global, tokens: &mut Tokens<'_>, parts: &mut Parts) -> Reading<()>
    ensures { Gives (λ _. contents parts.new) (callers (contents parts.old)) tokens.old result tokens.new }
{
    if may(alloc, tokens, parts, Section::Lists)? {
        may(alloc, tokens, parts, Section::Schedule)?;
    }
    Ok(())
}

/// What stands behind a journal: the final shape, and perhaps turns.
#[tactic(auto, unfolding(crate::specs::Straight::record_behind))]
fn behind_journal(alloc: Global, tokens: &mut Tokens<'_>, parts: &mut Parts) -> Reading<()>
    ensures { Gives (λ _. contents parts.new)
        (record_behind (contents parts.old)) tokens.old result tokens.new }
{
    need(alloc, tokens, parts, Section::Final)?;
    may(alloc, tokens, parts, Section::Turns)?;
    Ok(())
}

/// What stands behind the program.
#[tactic(auto, unfolding(crate::specs::Straight::behind_program))]
fn the_rest(alloc: Global, tokens: &mut Tokens<'_>, parts: &mut Parts, form: Form) -> Reading<()>
    ensures { Gives (λ _. contents parts.new)
        (behind_program form (contents parts.old)) tokens.old result tokens.new }
{
    match form {
        Form::Run => {
            need(alloc, tokens, parts, Section::Shape)?;
            need(alloc, tokens, parts, Section::Lists)?;
            may(alloc, tokens, parts, Section::Schedule)?;
            Ok(())
        }
        Form::Interleave => {
            need(alloc, tokens, parts, Section::Shape)?;
            need(alloc, tokens, parts, Section::Lists)?;
            need(alloc, tokens, parts, Section::Schedule)
        }
        Form::Check => {
            if may(alloc, tokens, parts, Section::Shape)? {
                may_lists(alloc, tokens, parts)?;
            }
            Ok(())
        }
        Form::Replay => {
            need(alloc, tokens, parts, Section::Shape)?;
            may_lists(alloc, tokens, parts)?;
            need(alloc, tokens, parts, Section::Journal)?;
            behind_journal(alloc, tokens, parts)
        }
        Form::Measure => {
            need(alloc, tokens, parts, Section::Shape)?;
            may_lists(alloc, tokens, parts)?;
            if may(alloc, tokens, parts, Section::Journal)? {
                behind_journal(alloc, tokens, parts)?;
            }
            Ok(())
        }
    }
}

/// The sections of a document of the form.
#[tactic(auto, unfolding(crate::specs::Straight::straight))]
pub(crate) fn read_form(
    alloc: Global,
    tokens: &mut Tokens<'_>,
    parts: &mut Parts,
    form: Form,
) -> Reading<()>
    ensures { Gives (λ _. contents parts.new)
        (straight form (contents parts.old)) tokens.old result tokens.new }
{
    need(alloc, tokens, parts, Section::Program)?;
    the_rest(alloc, tokens, parts, form)
}
