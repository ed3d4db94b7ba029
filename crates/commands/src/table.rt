ghost use Rattle.std.specs.Prelude.{◌≡◌, Some};
ghost use Rattle.commands.specs.declared.words.Command.TheVariants.{Document};
ghost use Rattle.commands.specs.{Commands.{form_of, least_for, limit_for}, Words.{word_of}};

use crate::words::DocumentCommand;
use shape_files::Form;

/// A row of the table of the commands that read a document.
#[derive(Clone, Copy)]
pub struct Row {
    /// The first word of a call.
    pub word: &'static str,
    /// The form of the document.
    pub form: Form,
    /// The least version that it may have.
    pub least: u8,
    /// The most bytes that it may have.
    pub limit: u32,
}

/// The commands of one word, in the order of the words.
pub(crate) const DOCUMENTS: [DocumentCommand; 9] = [
    DocumentCommand::Run,
    DocumentCommand::Interleave,
    DocumentCommand::Replay,
    DocumentCommand::Check,
    DocumentCommand::Measure,
    DocumentCommand::Renew,
    DocumentCommand::Rounds,
    DocumentCommand::Elect,
    DocumentCommand::Tickets,
];

/// The most bytes of a document without a journal.
const MEBIBYTE: u32 = 1_048_576;

/// The most bytes of a document that may have a journal.
const MANY_MEBIBYTES: u32 = 134_217_728;

/// The least version that there is.
const LEAST_VERSION: u8 = 1;

/// The least version whose journals have old values.
const WITH_OLD_VALUES: u8 = 3;

/// The row of a command that reads a document.
pub fn row_of(command: DocumentCommand) -> Row
    ensures word { result.word.now ≡ word_of command }
    ensures form { result.form ≡ form_of command }
    ensures least { result.least ≡ least_for command }
    ensures limit { result.limit ≡ limit_for (Some (Document command)) }
{
    let (word, form, least, limit) = match command {
        DocumentCommand::Run => ("run", Form::Run, LEAST_VERSION, MEBIBYTE),
        DocumentCommand::Interleave => ("interleave", Form::Interleave, LEAST_VERSION, MEBIBYTE),
        DocumentCommand::Replay => ("replay", Form::Replay, LEAST_VERSION, MANY_MEBIBYTES),
        DocumentCommand::Check => ("check", Form::Check, LEAST_VERSION, MEBIBYTE),
        DocumentCommand::Measure => ("measure", Form::Measure, LEAST_VERSION, MANY_MEBIBYTES),
        DocumentCommand::Renew => ("renew", Form::Replay, LEAST_VERSION, MANY_MEBIBYTES),
        DocumentCommand::Rewind(_) => ("rewind", Form::Replay, WITH_OLD_VALUES, MANY_MEBIBYTES),
        DocumentCommand::Rounds => ("rounds", Form::Replay, LEAST_VERSION, MANY_MEBIBYTES),
        DocumentCommand::Elect => ("elect", Form::Replay, LEAST_VERSION, MANY_MEBIBYTES),
        DocumentCommand::Tickets => ("tickets", Form::Run, LEAST_VERSION, MEBIBYTE),
    };
    Row {
        word,
        form,
        least,
        limit,
    }
}
