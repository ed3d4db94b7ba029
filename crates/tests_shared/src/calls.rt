//! Calls of `run_text`, and whether they answer what a row says.

use crate::pieces::{Fault, Row, spelled};
use amoebot_run::{Ended, Status, run_text};
use outer_io::SureSink;
use std::alloc::{AllocError, Global};
use std::sync::Wait;
use std::test::Fail;
use std::thread::Threads;
use text_tokens::Refusal;

/// The words of a call, one for each text.
pub fn words(alloc: Global, texts: &[&str]) -> Result<Vec<String>, AllocError> {
    let mut words = Vec::new(alloc);
    for text in texts {
        words.push(String::from_str(alloc, text)?)?;
    }
    Ok(words)
}

/// The words of a line, each of which has a bar before it.
pub fn words_of(alloc: Global, line: &'static str) -> Result<Vec<&'static str>, AllocError> {
    let mut words = Vec::new(alloc);
    let mut parts = line.split('|');
    parts.next();
    for part in parts {
        words.push(part)?;
    }
    Ok(words)
}

/// How many entries the report has, if there is one.
fn entries_in(ended: &Ended) -> Option<usize> {
    match &ended.report {
        Some(report) => Some(report.journal.entries().len()),
        None => None,
    }
}

/// Whether the call ended so, and wrote this text and all of it.
pub fn is_answer(ended: &Ended, out: &SureSink, status: Status, text: &str) -> bool {
    ended.status == status && out.whole() && out.bytes() == text.as_bytes()
}

/// Runs the bytes.
/// The status, the number of entries of the report, if there is one, and the text have to be these.
pub fn check<R: Threads + Wait + Sync>(
    rt: &R,
    alloc: Global,
    texts: &[&str],
    bytes: &[u8],
    status: Status,
    entries: Option<usize>,
    text: &str,
) -> Result<(), Fail> {
    let words = words(alloc, texts)?;
    let mut out = SureSink::new(alloc, 4096)?;
    let ended = run_text(rt, alloc, words.as_slice(), bytes, &mut out);
    if is_answer(&ended, &out, status, text) && entries_in(&ended) == entries {
        Ok(())
    } else {
        Err(Fail::new(format_args!(
            "{texts:?} did not end with {status:?} and {entries:?} entries, and write: {text}"
        )))
    }
}

/// The word of each row does what the row says.
pub fn check_rows<R: Threads + Wait + Sync>(
    rt: &R,
    alloc: Global,
    rows: &[Row],
) -> Result<(), Fail> {
    for (word, template, status, entries, text) in rows {
        let document = spelled(alloc, template)?;
        let text = spelled(alloc, text)?;
        check(
            rt,
            alloc,
            &[word],
            document.as_bytes(),
            *status,
            *entries,
            text.as_str(),
        )?;
    }
    Ok(())
}

/// The word of each row refuses the document as the row says.
pub fn check_faults<R: Threads + Wait + Sync>(
    rt: &R,
    alloc: Global,
    faults: &[Fault],
) -> Result<(), Fail> {
    for (word, template, line, kind, text) in faults {
        let document = spelled(alloc, template)?;
        let status = Status::Refused(Refusal {
            line: *line,
            kind: *kind,
        });
        check(rt, alloc, &[word], document.as_bytes(), status, None, text)?;
    }
    Ok(())
}
