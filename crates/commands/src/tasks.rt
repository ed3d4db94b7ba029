//! What is to be done for a whole input of a command that reads a document.

ghost use Rattle.std.specs.Prelude.{◌≤◌, IfOk};
ghost use Rattle.text_tokens.specs.declared.refusal.RefusalKind.TheVariants.{Trailing};
ghost use Rattle.text_tokens.specs.{Steps.{ReadsInput}, Text.{IsCountable}};
ghost use Rattle.shape_files.specs.{Documents.{IsDocumentFrom}, Fitting.{Fits}, Frame.{least_version}};
ghost use Rattle.shape_files.specs.Views.{contents};
ghost use Rattle.commands.specs.{Tasks.{IsTaskOf, IsTaskTo}, Commands.{form_of, least_for}};

use crate::elect::answer_elect;
use crate::prepared::Prepared;
use crate::run::prepare;
use crate::table::{Row, row_of};
use crate::tickets::prepare_tickets;
use crate::words::DocumentCommand;
use amoebot_state::NoMemory;
use document_answers::{
    Answer, answer_check, answer_interleave, answer_measure, answer_renew, answer_replay,
    answer_rewind, answer_rounds, refuse,
};
use outer_io::Document;
use shape_files::{Parts, Sections, documents_fit, least_versions_are_kept, read_sections_from};
use std::alloc::Global;
use text_tokens::ReadRefusal;

/// What is to be done for a whole input.
#[derive(Drop)]
pub enum Task {
    /// It is answered.
    Answered(Answer),
    /// It is a document whose lists workers are to run.
    Run(Prepared),
}

/// What is to be done for a whole input of a command. Without enough memory that is not known.
///
/// The input is dropped as soon as it is read, so that it takes no memory beside the answer.
pub fn task_of(
    alloc: Global,
    command: DocumentCommand,
    document: Document,
) -> Result<Task, NoMemory>
    requires { IsCountable document }
    ensures { IfOk result (IsTaskOf command document) }
{
    documents_fit();
    least_versions_are_kept();
    match read_whole(alloc, document, row_of(command)) {
        Ok(sections) => task_of_document(alloc, command, sections.into_parts()),
        Err(ReadRefusal::Refused(refusal)) => {
            let answer = refuse(alloc, refusal)?;
            Ok(Task::Answered(answer))
        }
        Err(ReadRefusal::NoMemory) => Err(NoMemory),
    }
}

/// The sections of a whole input, which is dropped then.
fn read_whole(alloc: Global, document: Document, row: Row) -> Result<Sections, ReadRefusal>
    requires countable { IsCountable document }
    requires least { least_version ≤ row.least }
    ensures { ReadsInput (IsDocumentFrom row.least row.form) Trailing (λ s. s) document result }
{
    read_sections_from(alloc, document.bytes(), row.form, row.least)
}

/// What is to be done for a document of the command.
fn task_of_document(alloc: Global, command: DocumentCommand, parts: Parts) -> Result<Task, NoMemory>
    requires fits { Fits (form_of command) (contents parts) }
    requires least { least_for command ≤ (contents parts).version }
    ensures { IfOk result (IsTaskTo command (contents parts)) }
{
    match command {
        DocumentCommand::Run => Ok(Task::Run(prepare(parts))),
        DocumentCommand::Interleave => Ok(Task::Answered(answer_interleave(alloc, parts)?)),
        DocumentCommand::Replay => Ok(Task::Answered(answer_replay(alloc, parts)?)),
        DocumentCommand::Check => Ok(Task::Answered(answer_check(alloc, parts)?)),
        DocumentCommand::Measure => Ok(Task::Answered(answer_measure(alloc, parts)?)),
        DocumentCommand::Renew => Ok(Task::Answered(answer_renew(alloc, parts)?)),
        DocumentCommand::Rewind(place) => Ok(Task::Answered(answer_rewind(alloc, place, parts)?)),
        DocumentCommand::Rounds => Ok(Task::Answered(answer_rounds(alloc, parts)?)),
        DocumentCommand::Elect => Ok(Task::Answered(answer_elect(alloc, parts)?)),
        DocumentCommand::Tickets => Ok(Task::Run(prepare_tickets(parts))),
    }
}
