//! The top calls.
//! They may wait: all that they call returns, apart from `make_turns`, which starts the workers.

ghost use Rattle.std.specs.{Prelude.{◌≡◌, ◌≤◌, ◌⊎◌, ℕ, true, List, length, IfSome, Some}, List.{list_any}};
ghost use Rattle.std.specs.String.{string_bytes};
ghost use Rattle.outer_io.specs.Told.{Rose};
ghost use Rattle.shape_files.specs.Documents.{Contents};
ghost use Rattle.commands.specs.Syntax.{begins_with_dash};
ghost use Rattle.commands.specs.Commands.{IsDocumentOf, ReadsNothing, limit_for};
ghost use Rattle.commands.specs.Reads.{nothing, whole};
ghost use Rattle.commands.specs.declared.words.DocumentCommand.{DocumentCommand as DocumentCommandValue};
ghost use Rattle.amoebot_run.specs.Clauses.{CameTo, WroteAll, WroteFront, asked};
ghost use Rattle.amoebot_run.specs.Endings.{EndingTells, HasText, IsEnding, IsOutsideFault, IsReadingOf};
ghost use Rattle.amoebot_run.specs.Endings.{IsReportOfCall, IsServed, IsUnwritten};
ghost use Rattle.amoebot_run.specs.Working.{HasTickets, HasTurns};

use crate::begin::{Begun, begin};
use crate::ended::{Ended, end_with};
use crate::finish::finish;
use crate::turns::make_turns;
use activation::{Gate, NoGate};
use amoebot_state::NoMemory;
use commands::{Command, Prepared, documents_have_outcomes, owed_is_one, reports_are_of_runs};
use document_answers::Status;
use outer_io::{Sink, Source, SureSink, SureSource, text_is_kept_as_one_piece};
use std::alloc::Global;
use std::sync::Wait;
use std::thread::Threads;

/// Does what the words ask for: it reads a document of the command's form,
/// if the command reads one, and writes its text.
///
/// The words are judged first. Then the input is read to its end, and the document is judged.
/// Then the command does its work, and the whole text is made before the first byte is written.
/// The line of a failed read takes no memory, nor does that of an input that is too long.
/// The lists of `run`, of `tickets` and of a sample are run by workers, which call the gate.
pub fn run<R: Threads + Wait + Sync, S: Source, K: Sink, G: Gate>(
    rt: &R,
    alloc: Global,
    words: &[String],
    input: &mut S,
    out: &mut K,
    gate: &G,
) -> Ended
    // What is owed for what was read was written whole; or a write of it failed;
    // or it was out of memory and nothing was written.
    ensures ending { IsEnding (asked words.now)
        (CameTo S.Source (asked words.now) input.old input.new)
        (WroteAll K.Sink out.old out.new)
        (WroteFront K.Sink out.old out.new)
        (out.new ≡ out.old)
        result.status result.report }

    // What became of each turn comes exactly with Done of `run` and `sample`,
    // and its mark is the report's.
    ensures turns { HasTurns (asked words.now) result.status result.report result.turns }
    // So it is of `tickets`. Its turns are answers of activations whose commits draw their places.
    ensures tickets { HasTickets (asked words.now) result.status result.report result.tickets }

    // Where a word begins with `-`, being out of memory does not hide
    // that the words are no command.
    ensures dash { list_any (λ word. begins_with_dash (string_bytes word)) words.now ≡ true
        → (result.status ≡ Status.Words) ⊎ (result.status ≡ Status.WriteFault) }
    // Nothing is read where the words are no command, nor for a command that reads no document.
    ensures unread { ReadsNothing (asked words.now) → input.new ≡ input.old }

    // Where there is a report, the input was read to its end, the bytes read are a document,
    // and the report is a good one of its run.
    // Its text was written.
    // Or the report is a good one of the sample's run, and the six lines that tell so were written.
    ensures headline { IfSome result.report (IsReportOfCall (asked words.now)
        (CameTo S.Source (asked words.now) input.old input.new)
        (WroteAll K.Sink out.old out.new)) }

    // A document within the limit is served, unless it is out of memory or a read or a write fails.
    ensures complete { (c : DocumentCommandValue) (document : List ℕ) (a : Contents)
        → asked words.now ≡ Some (Command.Document c) → S.left input.old ≡ Some document
        → length document ≤ limit_for (Some (Command.Document c)) → IsDocumentOf c document a
        → IsServed a c (WroteAll K.Sink out.old out.new) result.status result.report
        ⊎ IsOutsideFault result.status }
    // What `ending` comes to: when a report comes, what decides status, report and text,
    // and what causes each fault.
    ensures tells { EndingTells (asked words.now)
        (λ document. S.left input.old ≡ Some document)
        (WroteAll K.Sink out.old out.new)
        (Rose (S.faults input.old) (S.faults input.new))
        (Rose (K.faults out.old) (K.faults out.new)) (out.new ≡ out.old)
        IsOutsideFault IsUnwritten
        result.status result.report }
{
    owed_is_one();
    documents_have_outcomes();
    reports_are_of_runs();
    let prepared = match begin(alloc, words, input, out) {
        Begun::Ended(ended) => return ended,
        Begun::Run(prepared) => prepared,
    };
    let Prepared {
        runner,
        world,
        lists,
        telling,
        maker,
    } = prepared;
    match make_turns(rt, alloc, maker, &runner, world, &lists, gate) {
        Ok(made) => finish(alloc, out, telling, &runner, &lists, made),
        Err(NoMemory) => end_with(Status::NoMemory),
    }
}

/// `run` over bytes in memory and without a gate.
/// Each clause but `turns` and `tickets` follows from `ending`.
///
/// Where it is out of memory for a copy of the bytes, that is its status, whatever the words are.
/// The sink is left as one write of the text or line leaves it.
pub fn run_text<R: Threads + Wait + Sync>(
    rt: &R,
    alloc: Global,
    words: &[String],
    bytes: &[u8],
    out: &mut SureSink,
) -> Ended
    // What is owed for the bytes was written whole; or it was out
    // of memory and nothing was written.
    // Bytes in memory have no faults.
    ensures ending { IsEnding (asked words.now)
        (IsReadingOf (limit_for (asked words.now)) bytes.now)
        (HasText out.old out.new) (λ _. ⊥) (out.new ≡ out.old)
        result.status result.report }

    ensures headline { IfSome result.report (IsReportOfCall (asked words.now)
        (IsReadingOf (limit_for (asked words.now)) bytes.now)
        (HasText out.old out.new)) }
    ensures turns { HasTurns (asked words.now) result.status result.report result.turns }
    ensures tickets { HasTickets (asked words.now) result.status result.report result.tickets }

    // A document within the limit is served, unless it is out of memory.
    ensures complete { (c : DocumentCommandValue) (a : Contents)
        → asked words.now ≡ Some (Command.Document c)
        → length bytes.now ≤ limit_for (Some (Command.Document c)) → IsDocumentOf c bytes.now a
        → IsServed a c (HasText out.old out.new) result.status result.report
        ⊎ (result.status ≡ Status.NoMemory) }
    // What `ending` comes to. No read and no write can fail.
    ensures tells { EndingTells (asked words.now)
        (λ document. document ≡ bytes.now)
        (HasText out.old out.new)
        ⊥ ⊥ (out.new ≡ out.old)
        (λ s. s ≡ Status.NoMemory) (λ s. s ≡ Status.NoMemory)
        result.status result.report }
{
    text_is_kept_as_one_piece();
    match SureSource::new(alloc, bytes) {
        Ok(mut input) => run(rt, alloc, words, &mut input, out, &NoGate),
        Err(_) => end_with(Status::NoMemory),
    }
}
