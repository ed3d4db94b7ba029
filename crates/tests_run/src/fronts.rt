//! Documents that break off: each front of a right document, and what the definition says of it.
//!
//! A front ends between two tokens, and then it is Truncated at the end of the text,
//! unless the document may end there.
//! Or it ends inside a token.
//! What is left of a number is a number, and what is left of another word
//! is a name where a name may stand.
//! Else that token is at fault.

use crate::rows::{COMPARED_AND_CHECKED, INTERLEAVINGS, MEASURED, SHOWN};
use amoebot_run::Status;
use std::alloc::{AllocError, Global};
use std::mem;
use std::sync::Wait;
use std::test::Fail;
use std::thread::Threads;
use tests_shared::calls::check;
use tests_shared::journals::{COUNTED, ELECTIONS, RENEWED, REWOUND, TO_START};
use tests_shared::pieces::{Row, WORKED, spelled};
use text_tokens::RefusalKind::{BadByte, Trailing, Truncated, Unexpected};
use text_tokens::{Refusal, RefusalKind};

/// How often the word `end` stands in a front with which the document may end, with the status,
/// the entries and the text.
type Whole<'a> = (u32, Status, Option<usize>, &'a str);

/// The words of the language, none of which is a name.
const RESERVED: &str =
    "amoebot program guard on off var action when do move end if then else fi for od let in ports free \
    true false contracted expanded not and or any all count \
    first head tail turn dir peer_dir peer_head peer_expanded \
    at_head linked inner mod6 none expand contract push pull";

/// The tokens of a program behind which a name may stand.
const NAME_BEHIND: &str =
    "action var let when do ; ( not and or = != < <= > >= + - := . if then else for any all count first \
    free linked turn dir peer_dir peer_head peer_expanded at_head head tail expand push pull";

/// What was read of a document whose tokens have blanks between them.
#[derive(Drop)]
struct Front {
    line: u32,
    ends: u32,
    in_program: bool,
    in_token: bool,
    token: Vec<u8>,
    before: Vec<u8>,
    earlier: Vec<u8>,
}

impl Front {
    fn new(alloc: Global) -> Front {
        Front {
            line: 1,
            ends: 0,
            in_program: false,
            in_token: false,
            token: Vec::new(alloc),
            before: Vec::new(alloc),
            earlier: Vec::new(alloc),
        }
    }

    /// Goes on by a byte.
    fn push(&mut self, byte: u8) -> Result<(), AllocError> {
        if is_blank(byte) {
            self.end_token();
            if byte == b'\n' {
                self.line = self.line.saturating_add(1);
            }
            return Ok(());
        }
        if !self.in_token {
            mem::swap(&mut self.earlier, &mut self.before);
            mem::swap(&mut self.before, &mut self.token);
            self.token.clear();
            self.in_token = true;
        }
        self.token.push(byte)?;
        Ok(())
    }

    /// The token is whole.
    fn end_token(&mut self) {
        if !self.in_token {
            return;
        }
        self.in_token = false;
        if self.token.as_slice() == b"program".as_slice() {
            self.in_program = true;
        }
        if self.token.as_slice() == b"end".as_slice() {
            self.in_program = false;
            self.ends = self.ends.saturating_add(1);
        }
    }

    /// What the front is refused for, or nothing if it is a whole document.
    fn fault(&self, wholes: &[Whole]) -> Option<Refusal> {
        let kind = if self.in_token {
            self.fault_of_part(wholes)
        } else if self.token.as_slice() == b"end".as_slice() && is_whole(wholes, self.ends) {
            return None;
        } else {
            Truncated
        };
        Some(Refusal {
            line: self.line,
            kind,
        })
    }

    /// What the front is refused for that ends inside a token.
    fn fault_of_part(&self, wholes: &[Whole]) -> RefusalKind {
        let part = self.token.as_slice();
        let is_name = self.in_program && self.may_be_name() && !is_among(RESERVED, part);
        if part == b":".as_slice() {
            BadByte
        } else if is_name || part.first().is_some_and(|byte| byte.is_ascii_digit()) {
            Truncated
        } else if self.before.as_slice() == b"end".as_slice() && is_whole(wholes, self.ends) {
            Trailing
        } else {
            Unexpected
        }
    }

    fn may_be_name(&self) -> bool {
        is_among(NAME_BEHIND, self.before.as_slice())
            && self.earlier.as_slice() != b"contract".as_slice()
    }
}

fn is_among(words: &str, token: &[u8]) -> bool {
    words
        .split_whitespace()
        .any(|word| word.as_bytes() == token)
}

fn is_blank(byte: u8) -> bool {
    byte == b' ' || byte == b'\n'
}

fn is_whole(wholes: &[Whole], ends: u32) -> bool {
    wholes.iter().any(|whole| whole.0 == ends)
}

/// The bytes are refused so.
fn check_refused<R: Threads + Wait + Sync>(
    rt: &R,
    alloc: Global,
    words: &[&str],
    bytes: &[u8],
    refusal: Refusal,
) -> Result<(), Fail> {
    let name = match refusal.kind {
        BadByte => "BadByte",
        Truncated => "Truncated",
        Trailing => "Trailing",
        _ => "Unexpected",
    };
    let text = format!(in alloc; "refused {} {name}\n", refusal.line)?;
    let status = Status::Refused(refusal);
    check(rt, alloc, words, bytes, status, None, text.as_str())
}

/// What the front is answered: the status, the entries of the report and the text.
fn check_front<R: Threads + Wait + Sync>(
    rt: &R,
    alloc: Global,
    words: &[&str],
    bytes: &[u8],
    front: &Front,
    wholes: &[Whole],
) -> Result<(), Fail> {
    if let Some(refusal) = front.fault(wholes) {
        return check_refused(rt, alloc, words, bytes, refusal);
    }
    for (ends, status, entries, text) in wholes {
        if *ends == front.ends {
            check(rt, alloc, words, bytes, *status, *entries, text)?;
        }
    }
    Ok(())
}

/// Compares the answer to each proper front of the document.
fn check_fronts<R: Threads + Wait + Sync>(
    rt: &R,
    alloc: Global,
    words: &[&str],
    document: &str,
    wholes: &[Whole],
) -> Result<(), Fail> {
    let mut front = Front::new(alloc);
    let bytes = document.as_bytes();
    for (at, byte) in bytes.iter().enumerate() {
        if is_blank(*byte) {
            front.end_token();
        }
        check_front(rt, alloc, words, &bytes[..at], &front, wholes)?;
        front.push(*byte)?;
    }
    Ok(())
}

/// Each front of a document that is whole behind its last `end` alone.
/// The longest front lacks the last LF, and is whole.
fn check_row_by<R: Threads + Wait + Sync>(
    rt: &R,
    alloc: Global,
    words: &[&str],
    row: &Row,
    ends: u32,
) -> Result<(), Fail> {
    let document = spelled(alloc, row.1)?;
    let text = spelled(alloc, row.4)?;
    let wholes = [(ends, row.2, row.3, text.as_str())];
    check_fronts(rt, alloc, words, document.as_str(), &wholes)
}

/// The same by the row's own word.
fn check_row<R: Threads + Wait + Sync>(
    rt: &R,
    alloc: Global,
    row: &Row,
    ends: u32,
) -> Result<(), Fail> {
    check_row_by(rt, alloc, &[row.0], row, ends)
}

#[test]
fn each_front_of_a_document_is_truncated_or_unexpected(rt: HostRuntime) -> Result<(), Fail> {
    check_row(&rt, rt.alloc(), &WORKED, 3)
}

#[test]
fn fronts_of_a_document_of_tickets_end_in_its_lists(rt: HostRuntime) -> Result<(), Fail> {
    check_row_by(&rt, rt.alloc(), &["tickets"], &WORKED, 3)
}

#[test]
fn fronts_of_an_interleaving_end_in_its_schedule(rt: HostRuntime) -> Result<(), Fail> {
    check_row(&rt, rt.alloc(), &INTERLEAVINGS[0], 4)
}

#[test]
fn fronts_of_a_journal_end_before_its_last_shape(rt: HostRuntime) -> Result<(), Fail> {
    check_row(&rt, rt.alloc(), &COMPARED_AND_CHECKED[2], 4)
}

/// The document has old values in its journal.
#[test]
fn fronts_of_a_renewed_document_end_before_its_last_shape(rt: HostRuntime) -> Result<(), Fail> {
    check_row(&rt, rt.alloc(), &RENEWED[1], 4)
}

/// The document has old values in its journal.
#[test]
fn fronts_of_a_rewound_journal_end_before_its_last_shape(rt: HostRuntime) -> Result<(), Fail> {
    check_row_by(&rt, rt.alloc(), TO_START, &REWOUND[0], 4)
}

#[test]
fn fronts_of_a_counted_journal_end_before_its_last_shape(rt: HostRuntime) -> Result<(), Fail> {
    check_row(&rt, rt.alloc(), &COUNTED[0], 4)
}

/// The document has old values in its journal.
#[test]
fn fronts_of_an_election_end_before_its_last_shape(rt: HostRuntime) -> Result<(), Fail> {
    check_row(&rt, rt.alloc(), &ELECTIONS[0], 4)
}

/// The shape alone is a document too, so behind it a word that begins no section is Trailing.
#[test]
fn fronts_of_a_measured_document_may_end_behind_the_shape(rt: HostRuntime) -> Result<(), Fail> {
    let row = &MEASURED[3];
    let document = spelled(rt.alloc(), row.1)?;
    let last = spelled(rt.alloc(), row.4)?;
    let first = "bots 1\nconnected yes\nhexagon yes\n";
    let wholes = [
        (2, Status::Done, None, first),
        (4, Status::Done, None, last.as_str()),
    ];
    check_fronts(&rt, rt.alloc(), &["measure"], document.as_str(), &wholes)
}

/// A program with a shape and lists behind it: each of these sections may be the last.
#[test]
fn fronts_of_a_checked_document_may_end_behind_each_section(rt: HostRuntime) -> Result<(), Fail> {
    let document = spelled(rt.alloc(), INTERLEAVINGS[0].1)?;
    let text = "amoebot 1\nprogram\nguard off\nvar m 1\n\
        action mark\nwhen m = 0\ndo m := 1\nmove none\nend\n";
    let wholes = [
        (1, Status::Done, None, text),
        (2, Status::Done, None, text),
        (3, Status::Done, None, text),
        (4, Status::Done, None, text),
    ];
    check_fronts(&rt, rt.alloc(), &["check"], document.as_str(), &wholes)
}

/// The text of a shipped program.
#[test]
fn fronts_of_a_program_end_before_its_end(rt: HostRuntime) -> Result<(), Fail> {
    let text = SHOWN[0].1;
    let wholes = [(1, Status::Done, None, text)];
    check_fronts(&rt, rt.alloc(), &["check"], text, &wholes)
}
