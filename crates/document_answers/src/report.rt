//! The text of a report, and the answers that have one.

ghost use Rattle.std.specs.Prelude.{◌≡◌, ◌≤◌, ◌++◌, IfOk, OnOk};
ghost use Rattle.amoebot_state.specs.Limits.{most_vars};
ghost use Rattle.document_answers.specs.{Reports.{report_text}, Answers.{with_report}};
ghost use Rattle.journal_text.specs.Texts.{journal_of_version};

use crate::answer::Answer;
use crate::status::Status;
use amoebot_state::{Entry, NoMemory};
use claim_core::Report;
use journal_text::{put_journal, put_plain, put_turns};
use shape_text::{has_old_values, put_shape};
use std::alloc::{AllocError, Global};
use text_tokens::{Lines, Text};

/// The text of a run as a document of the version has it: the sections `journal`,
/// `final` and `turns`, where an amoebot has the values of so many variables, at most 8.
pub fn print_report(alloc: Global, version: u8, report: &Report, vars: u8) -> Result<Text, NoMemory>
    requires { vars ≤ most_vars }
    ensures { IfOk result (λ text. text ≡ report_text version vars report.now) }
{
    let mut lines = Lines::new(alloc);
    put_entries(&mut lines, version, report.journal.entries(), vars)?;
    put_shape(&mut lines, "final", &report.world, vars)?;
    put_turns(&mut lines, &report.turns)?;
    Ok(lines.text())
}

/// The section `journal` as a document of the version has it.
fn put_entries(
    lines: &mut Lines,
    version: u8,
    entries: &[Entry],
    vars: u8,
) -> Result<(), AllocError>
    requires { vars ≤ most_vars }
    ensures { OnOk result (lines.new ≡ lines.old ++ journal_of_version version vars entries.now) }
{
    if has_old_values(version) {
        put_journal(lines, entries, vars)
    } else {
        put_plain(lines, entries, vars)
    }
}

/// The answer that tells a report in a version, where an amoebot has
/// the values of so many variables.
pub fn answer_report(
    alloc: Global,
    version: u8,
    report: Report,
    vars: u8,
) -> Result<Answer, NoMemory>
    requires { vars ≤ most_vars }
    ensures { IfOk result (λ a. a ≡ with_report version vars report) }
{
    let text = print_report(alloc, version, &report, vars)?;
    Ok(Answer {
        status: Status::Done,
        report: Some(report),
        text,
    })
}
