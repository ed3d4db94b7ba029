//! What a command answers for a document.

ghost use Rattle.std.specs.Prelude.{◌≡◌, IfOk, None};
ghost use Rattle.document_answers.specs.{Answers.{with_text, refusal_line}, Journals.{differs_line}};
ghost use Rattle.document_answers.specs.Replay.{agrees_line};

use crate::replay::{print_agrees, print_differs};
use crate::status::Status;
use amoebot_state::NoMemory;
use claim_core::Report;
use std::alloc::Global;
use text_tokens::{Lines, Refusal, Text};

/// What a command answers: how it ended, its report if it ran,
/// and the text or line that is to be written.
#[derive(Drop)]
pub struct Answer {
    pub status: Status,
    pub report: Option<Report>,
    pub text: Text,
}

/// The answer that is done with a text, and tells no report.
pub fn done(text: Text) -> Answer
    ensures { result ≡ with_text Status.Done text }
{
    Answer {
        status: Status::Done,
        report: None,
        text,
    }
}

/// The answer that is the line of a refusal.
pub fn refuse(alloc: Global, refusal: Refusal) -> Result<Answer, NoMemory>
    ensures { IfOk result (λ a. a ≡ with_text (Status.Refused refusal) (refusal_line refusal)) }
{
    let mut lines = Lines::new(alloc);
    lines.begin("refused")?;
    lines.number(refusal.line)?;
    lines.word(refusal.kind.name())?;
    lines.end()?;
    Ok(Answer {
        status: Status::Refused(refusal),
        report: None,
        text: lines.text(),
    })
}

/// The answer that a journal of so many entries agrees.
pub(crate) fn agree(alloc: Global, entries: usize) -> Result<Answer, NoMemory>
    ensures { IfOk result (λ a. a ≡ with_text Status.Done (agrees_line entries)) }
{
    let text = print_agrees(alloc, entries)?;
    Ok(done(text))
}

/// The answer that a journal differs at a place.
pub fn differ(alloc: Global, place: u32) -> Result<Answer, NoMemory>
    ensures { IfOk result (λ a. a ≡ with_text (Status.Differs place) (differs_line place)) }
{
    let text = print_differs(alloc, place)?;
    Ok(Answer {
        status: Status::Differs(place),
        report: None,
        text,
    })
}
