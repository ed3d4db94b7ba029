//! The first part of `run`: it judges the words, reads the input and judges it.
//!
//! It also answers each command that needs no workers. It waits for nothing.

ghost use Rattle.std.specs.{Prelude.{◌≡◌, ◌⊎◌, Some, ⊤, true}, List.{list_any}, String.{string_bytes}};
ghost use Rattle.commands.specs.{Syntax.{begins_with_dash}, Commands.{ReadsNothing}, Reads.{nothing}};
ghost use Rattle.amoebot_run.specs.{Clauses.{CameTo, WroteAll, WroteFront, asked}, Endings.{IsEnding}};
ghost use Rattle.amoebot_run.specs.{Parts.{HasEnded, IsBegun}, Working.{HasTickets, HasTurns}};

use crate::ended::{Ended, end_with, end_with_answer, end_with_line};
use amoebot_state::NoMemory;
use commands::{
    Command, DocumentCommand, Prepared, Task, answer_show, command_of, prepare_sample, row_of,
    task_of,
};
use document_answers::Status;
use outer_io::{ReadError, Sink, Source, read_document};
use shipped_programs::Shipped;
use std::alloc::Global;
use text_tokens::{Refusal, RefusalKind};

/// What a call has come to without workers.
#[derive(Drop)]
pub enum Begun {
    /// It has ended.
    Ended(Ended),
    /// Workers are to run these lists, and then the text of their report is made.
    Run(Prepared),
}

/// What is written where the words are no command.
const USAGE: &str = "usage: run / interleave / replay / check / measure / show NAME / \
    sample NUMBER / renew / rewind NUMBER / rounds / elect / tickets\n";

/// What is written where a read failed.
const READ_FAULT: &str = "read fault\n";

/// A document with more bytes than the limit.
const TOO_LONG: Refusal = Refusal {
    line: 0,
    kind: RefusalKind::TooLong,
};

/// What is written where a document is too long.
const TOO_LONG_LINE: &str = "refused 0 TooLong\n";

/// Does all of a call that comes before the workers, and the whole call where it needs none.
pub fn begin<S: Source, K: Sink>(
    alloc: Global,
    words: &[String],
    input: &mut S,
    out: &mut K,
) -> Begun
    ensures begun { IsBegun (asked words.now)
        (CameTo S.Source (asked words.now) input.old input.new)
        (WroteAll K.Sink out.old out.new) (WroteFront K.Sink out.old out.new) (out.new ≡ out.old)
        result }
    ensures dash { list_any (λ word. begins_with_dash (string_bytes word)) words.now ≡ true
        → HasEnded result (λ s. (s ≡ Status.Words) ⊎ (s ≡ Status.WriteFault)) }
    ensures unread { ReadsNothing (asked words.now) → input.new ≡ input.old }
{
    let command = match command_of(alloc, words) {
        Ok(Some(command)) => command,
        Ok(None) => return Begun::Ended(end_with_line(out, USAGE, Status::Words)),
        Err(NoMemory) => return Begun::Ended(end_with(Status::NoMemory)),
    };
    match command {
        Command::Document(command) => begin_document(alloc, command, input, out),
        Command::Show(program) => Begun::Ended(end_show(alloc, program, out)),
        Command::Sample(seed) => begin_sample(alloc, seed),
    }
}

/// Reads a document and judges it.
fn begin_document<S: Source, K: Sink>(
    alloc: Global,
    command: DocumentCommand,
    input: &mut S,
    out: &mut K,
) -> Begun
    ensures { IsBegun (Some (Command.Document command))
        (CameTo S.Source (Some (Command.Document command)) input.old input.new)
        (WroteAll K.Sink out.old out.new) (WroteFront K.Sink out.old out.new) (out.new ≡ out.old)
        result }
{
    let document = match read_document(alloc, input, row_of(command).limit) {
        Ok(document) => document,
        Err(ReadError::ReadFault) => {
            return Begun::Ended(end_with_line(out, READ_FAULT, Status::ReadFault));
        }
        Err(ReadError::TooLong) => {
            return Begun::Ended(end_with_line(out, TOO_LONG_LINE, Status::Refused(TOO_LONG)));
        }
        Err(ReadError::NoMemory) => return Begun::Ended(end_with(Status::NoMemory)),
    };
    let task = match task_of(alloc, command, document) {
        Ok(task) => task,
        Err(NoMemory) => return Begun::Ended(end_with(Status::NoMemory)),
    };
    match task {
        Task::Answered(answer) => Begun::Ended(end_with_answer(out, answer, None, None)),
        Task::Run(prepared) => Begun::Run(prepared),
    }
}

/// What `show` does.
fn end_show<K: Sink>(alloc: Global, program: Shipped, out: &mut K) -> Ended
    ensures ending { IsEnding (Some (Command.Show program)) (λ read. read ≡ nothing)
        (WroteAll K.Sink out.old out.new) (WroteFront K.Sink out.old out.new) (out.new ≡ out.old)
        result.status result.report }
    ensures turns { HasTurns (Some (Command.Show program)) result.status result.report result.turns }
    ensures tickets { HasTickets (Some (Command.Show program)) result.status result.report result.tickets }
{
    let Ok(answer) = answer_show(alloc, program) else {
        return end_with(Status::NoMemory);
    };
    end_with_answer(out, answer, None, None)
}

/// Makes a sample, whose lists workers are to run. It reads and writes nothing.
fn begin_sample(alloc: Global, seed: u32) -> Begun
    ensures { IsBegun (Some (Command.Sample seed)) (λ read. read ≡ nothing) (λ text. ⊥) (λ text. ⊥) ⊤ result }
{
    match prepare_sample(alloc, seed) {
        Ok(prepared) => Begun::Run(prepared),
        Err(NoMemory) => Begun::Ended(end_with(Status::NoMemory)),
    }
}
